//! Laws of shapes, which do nothing when they run: a cube, a polyhedron, a cylinder, an extrusion or a hull is the hull of its
//! points, before and after it is placed.
#![tactic(auto)]

mod laws;

pub use laws::{
    a_point_between_two_is_a_combination, cubes_are_hulls_of_their_points,
    cylinders_are_hulls_of_their_points, extrusions_are_hulls_of_their_points,
    hulls_are_hulls_of_their_points, images_of_points_inside_are_behind_planes,
    placed_shapes_are_hulls_of_their_corners, placed_shapes_are_hulls_of_their_points,
    polyhedra_are_hulls_of_their_corners,
};
