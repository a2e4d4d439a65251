//! Transforms of space in whole numbers, as lists of affine steps.
#![tactic(auto)]

mod affine;
mod applying;
mod fault;
mod laws;
mod step;
mod sums;

pub use affine::{Affine, Row};
pub use applying::apply;
pub use fault::StepFault;
pub use laws::maps_are_done_in_order;
pub use step::Step;
