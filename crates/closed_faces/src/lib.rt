//! Laws of faces in which each edge occurs as often as its reverse, which the program doesn't call: on a walk around a convex
//! polygon, the crossings of the faces sum to 0.
#![tactic(auto)]

mod laws;

pub use laws::{a_triangle_and_a_square_in_general_position, closed_faces_have_a_winding_number};
