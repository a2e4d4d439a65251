//! The faces found so far, with the points on each of their planes.

ghost use Rattle.std.specs.Prelude.{◌≡◌, []};

use std::alloc::Global;

/// Which of at most 128 points are on a plane, by their numbers.
pub type Row = [bool; 128];

/// The faces found so far.
#[derive(Drop)]
pub struct FaceList {
    /// Triples in ascending order, no two of them with one plane.
    pub faces: Vec<[u32; 3]>,
    /// The points on each face's plane.
    pub rows: Vec<Row>,
}

impl FaceList {
    /// No faces.
    pub fn new(alloc: Global) -> FaceList
        ensures faces { result.faces.items ≡ [] }
        ensures rows { result.rows.items ≡ [] }
    {
        FaceList {
            faces: Vec::new(alloc),
            rows: Vec::new(alloc),
        }
    }
}
