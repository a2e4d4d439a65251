//! Numbered planes, and the faces of solids as lists of these numbers.
#![tactic(auto)]

mod cutting;
mod directions;
mod edges;
mod faces;
mod joining;
mod laws;
mod lining;
mod numbering;
mod ordering;
mod renumbering;
mod sorting;
mod table;

pub use cutting::{Crossing, Half, cut};
pub use edges::Edges;
pub use faces::{Face, polygon_of};
pub use joining::{JoinedPlanes, join};
pub use laws::faces_are_found;
pub use numbering::{
    HalfFaces, NumberedPlanes, OwnFace, face_of, half_face, half_faces, numbers_of,
};
pub use renumbering::{keep_used, mark_used, renumber};
pub use sorting::{CornerSide, CornerSides, sides, sides_where_across};
pub use table::{PlaneTable, opposite_number};
