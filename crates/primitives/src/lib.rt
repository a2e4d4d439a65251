//! Boxes, rectangles, polygons, extrusions and polyhedra, made from their arguments or refused with their first fault, and the
//! planes of a placed shape.
#![tactic(auto)]

mod ahead;
mod bounding;
mod closed;
mod convex;
mod convex_faces;
mod corner_planes;
mod corners;
mod counts;
mod cube;
mod extrusion;
mod face_ranges;
pub mod facing;
mod facing_out;
mod flat;
mod flat_faces;
mod laws;
mod placing;
mod planes;
mod polygon;
mod polyhedron;
mod ranges;
mod shape;
mod sizes;
mod spanning;
mod square;
mod stop;
mod ways;

pub use ahead::{face_has_ahead, has_ahead};
pub use corners::Corners;
pub use cube::cube_shape;
pub use extrusion::extrude;
pub use flat::Flat;
pub use laws::corners_of_extrusions_are_behind_or_on_planes;
pub use placing::place;
pub use polygon::polygon_flat;
pub use polyhedron::polyhedron_shape;
pub use ranges::are_in_range;
pub use shape::Shape;
pub use sizes::{Ends, ends_of, in_steps, size_fault};
pub use spanning::{Triangle, find_triangle};
pub use square::square_flat;
pub use stop::ShapeStop;
