//! Circles and cylinders with four fragments, made from their arguments or refused with their first fault.
#![tactic(auto)]

mod circle;
mod cylinder;
mod laws;
mod sizes;

pub use circle::circle_flat;
pub use cylinder::cylinder_shape;
pub use laws::{
    corners_are_behind_or_on_planes, corners_of_extruded_circles_are_behind_or_on_planes,
};
