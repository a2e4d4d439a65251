//! The hull of points, or the first fault; the inside of a hull is the set of inner combinations of its points.
#![tactic(auto)]

mod around;
mod face_list;
mod faces;
mod hull;
mod laws;
mod plane;
mod plane_points;
mod points;
mod triples;

pub use hull::hull_shape;
pub use laws::{different_points_ascend, hulls_hold_inner_combinations};
