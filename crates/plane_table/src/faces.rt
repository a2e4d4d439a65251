//! Faces over a table.

ghost use Rattle.std.specs.Prelude.{◌≡◌, ◌-◌, ◌^◌, min, IfOk};
ghost use Rattle.plane_table.specs.Faces.{face_size, outline_of, IsFaceOver};

use crate::{Edges, PlaneTable};
use plain_text::NoMemory;
use plane_polygon::Polygon;
use std::alloc::Global;

/// A convex polygon over a list of planes, with numbers in place of its planes: 2k names plane k of
/// the list, and 2k + 1 its opposite.
#[derive(Drop)]
pub struct Face {
    /// The number of the plane that it lies on.
    pub plane: u32,
    /// The numbers of its edge planes, counterclockwise seen from ahead of its plane.
    pub edges: Edges,
}

impl Face {
    /// An equal face.
    pub fn copy(&self, alloc: Global) -> Result<Face, NoMemory>
        ensures { IfOk result (λ f. f ≡ self.now) }
    {
        Ok(Face {
            plane: self.plane,
            edges: self.edges.copy(alloc)?,
        })
    }

    /// One, and one for each of its edges; it stops at the greatest number.
    pub fn size(&self) -> u64
        ensures { result ≡ min (face_size self.now) (2 ^ 64 - 1) }
    {
        (self.edges.len() as u64).saturating_add(1)
    }
}

/// The polygon of a face over a table.
pub fn polygon_of(alloc: Global, table: &PlaneTable, face: &Face) -> Result<Polygon, NoMemory>
    requires { IsFaceOver table.now face.now }
    ensures { IfOk result (λ s. s ≡ outline_of table.now face.now) }
{
    let mut edges = Vec::with_capacity(alloc, face.edges.len())?;
    for number in face.edges.items() {
        edges.push(*table.plane(*number))?;
    }
    Ok(Polygon::of_edges(table.plane(face.plane), edges))
}
