//! The text of polygons, within its limits.

ghost use Rattle.std.specs.Prelude.{◌≡◌, ◌<◌, ◌≤◌, ◌↔◌, ltb, IfOk, OnOk, IsErrOf};
ghost use Rattle.off_text.specs.Texts.{corner_count, most_corners, most_vertices, HasVertices, IsTextOf};
ghost use Rattle.csg_tree.specs.HalfSpaceTrees.{Tree};
ghost use Rattle.csg_tree.specs.ProperTrees.{IsProper};
ghost use Rattle.bsp_boolean.specs.Solids.{solid_of};
ghost use Rattle.facet_cut.specs.Facets.{facets_of};
ghost use Rattle.off_text.specs.Bounding.{IsBoundary};
ghost use Rattle.off_text.specs.Prints.{Prints};
ghost use Rattle.off_text.specs.declared.text.OffStop.{OffStop};

use crate::part::number_facets;
use crate::writing::write_text;
use facet_cut::Facet;
use plain_text::NoMemory;
use plane_predicate::Unit;
use std::alloc::Global;

// The most corners of all faces together.
const CORNERS: usize = 200_000;

// The most vertices.
const VERTICES: usize = 60_000;

/// Why faces have no text.
#[derive(Clone, Copy, Debug)]
pub enum OffStop {
    /// The faces have more than 200,000 corners together.
    TooManyCorners,
    /// There are more than 60,000 vertices.
    TooManyVertices,
    /// There is no memory left.
    NoMemory,
}

impl From<NoMemory> for OffStop {
    ghost use Rattle.off_text.specs.declared.text.OffStop.TheVariants.{NoMemory};

    ghost from_gives = { λ _ stop. stop ≡ NoMemory };

    fn from(_refused: NoMemory) -> OffStop {
        OffStop::NoMemory
    }
}

// Whether faces have more corners together than a text may have.
fn has_too_many_corners(facets: &[Facet]) -> bool
    ensures { result ≡ ltb most_corners (corner_count facets.now) }
{
    let mut room = CORNERS;
    for facet in facets {
        let count = facet.polygon.edges().len();
        if count > room {
            return true;
        }
        room -= count;
    }
    false
}

/// The text of facets, which are in grid steps, with its corners in units. Each corner is reduced;
/// each face goes counterclockwise seen from the side that it faces, from its least corner on, by x,
/// then y, z and w; vertices are numbered from 0 by first appearance, face by face.
///
/// `TooManyCorners` comes exactly where the faces have more than 200,000 corners together, and else
/// `TooManyVertices` exactly where there are more than 60,000 vertices.
pub fn off_bytes(alloc: Global, facets: &[Facet], unit: Unit) -> Result<Vec<u8>, OffStop>
    ensures text { IfOk result (λ text. IsTextOf unit facets.now text.items) }
    ensures corners { IsErrOf result OffStop.TooManyCorners ↔
        (most_corners < corner_count facets.now) }
    ensures few { OnOk result (HasVertices unit (λ count. count ≤ most_vertices) facets.now) }
    ensures many { IsErrOf result OffStop.TooManyVertices →
        HasVertices unit (λ count. most_vertices < count) facets.now }
    // The text is read back as the facets, one face after another.
    ensures prints { IfOk result (λ text. Prints unit facets.now text.items) }
    // Where the facets are those of the solid of a proper tree, the text is the boundary of the tree.
    ensures boundary { IfOk result
        (λ text. (f : Tree) → IsProper f → facets.now ≡ facets_of (solid_of f) →
        IsBoundary unit text.items f) }
{
    if has_too_many_corners(facets) {
        return Err(OffStop::TooManyCorners);
    }
    let part = number_facets(alloc, facets, unit)?;
    if part.vertices.len() > VERTICES {
        return Err(OffStop::TooManyVertices);
    }
    Ok(write_text(alloc, part.vertices.as_slice(), facets.len(), &part.faces)?)
}
