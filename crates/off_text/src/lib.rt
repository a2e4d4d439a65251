//! The 4OFF text of the faces of a solid (Geomview manual, "OFF Files").
#![tactic(auto)]

mod corners;
mod laws;
mod lowest;
mod numbering;
mod part;
mod text;
mod vertex;
mod writing;

pub use laws::{
    faces_cover_as_facets, leaves_beside_face_planes, leaves_stay_small, one_reading, one_text,
    printed_corners_stay_in_the_world, some_corners, texts_are_boundaries, texts_print_polygons,
    vertices_are_corners,
};
pub use lowest::lowest_terms;
pub use text::{OffStop, off_bytes};
