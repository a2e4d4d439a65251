//! The vertices and the faces of facets that are numbered one after another.

ghost use Rattle.std.specs.Prelude.{IfOk, OnOk};
ghost use Rattle.off_text.specs.FaceNumbers.{AddsNumbers, HaveNumbers};

use crate::corners::put_corners;
use crate::numbering::{FaceNumbers, push_face};
use crate::vertex::{Vertex, least_corner};
use facet_cut::Facet;
use indexmap::IndexSet;
use plain_text::NoMemory;
use plane_predicate::Unit;
use std::alloc::Global;

/// The vertices of facets, and their faces.
#[derive(Drop)]
pub struct Part {
    pub vertices: IndexSet<Vertex>,
    pub faces: FaceNumbers,
}

// Appends a facet's face, from its least corner on. `corners` is a list for its corners, which
// the next facet uses again.
fn push_facet(
    part: &mut Part,
    corners: &mut Vec<Vertex>,
    facet: &Facet,
    unit: Unit,
) -> Result<(), NoMemory>
    ensures { OnOk result
        (AddsNumbers unit facet.now part.old.vertices.keys part.new.vertices.keys part.old.faces
        part.new.faces) }
{
    put_corners(corners, &facet.polygon, unit)?;
    let start = least_corner(corners);
    push_face(&mut part.vertices, &mut part.faces, corners, start)
}

// How many corners facets have together, for the room that their numbers take.
fn corners_of(facets: &[Facet]) -> usize {
    let mut count: usize = 0;
    for facet in facets {
        count = count.saturating_add(facet.polygon.edges().len());
    }
    count
}

/// Numbers the corners of facets.
pub fn number_facets(alloc: Global, facets: &[Facet], unit: Unit) -> Result<Part, NoMemory>
    ensures { IfOk result (λ part. HaveNumbers unit facets.now part.vertices.keys part.faces) }
{
    let mut part = Part {
        vertices: IndexSet::new(alloc),
        faces: FaceNumbers {
            sides: Vec::new(alloc),
            numbers: Vec::new(alloc),
        },
    };
    part.faces.sides.reserve(facets.len())?;
    part.faces.numbers.reserve(corners_of(facets))?;
    let mut corners = Vec::new(alloc);
    for facet in facets {
        push_facet(&mut part, &mut corners, facet, unit)?;
    }
    Ok(part)
}
