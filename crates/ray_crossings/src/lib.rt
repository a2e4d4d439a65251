//! Laws of texts, which the program doesn't call: crossings tell which points are inside the solid, vertices are limits of such
//! points, and two trees with the same points in a box have the same faces there.
#![tactic(auto)]

mod laws;

pub use laws::{
    a_corner_is_a_limit, a_way_crosses_a_triangle, crossings_tell_inside,
    nothing_changes_beyond_vertices, printed_boxes_are_those_of_solids,
    trees_alike_inside_have_faces_alike, vertices_are_limits,
};
