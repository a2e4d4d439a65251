//! Solids with inside and outside exchanged.

ghost use Rattle.std.specs.Prelude.{◌≡◌, not, IfOk};
ghost use Rattle.plane_predicate.specs.Space.{Coordinates};
ghost use Rattle.bsp_tree.specs.Trees.{complement, walk};
ghost use Rattle.bsp_tree.specs.Cells.{HasPlanesOf, IsOfCell};
ghost use Rattle.bsp_tree.specs.Shapes.{tree_of};

use crate::copying::solid_over;
use crate::finishing::solid_at;
use crate::solid::Solid;
use plain_text::NoMemory;
use plane_table::{PlaneTable, join};
use std::alloc::Global;

/// In and Out exchanged: each point off the planes changes sides.
pub fn exchange(alloc: Global, solid: &Solid) -> Result<Solid, NoMemory>
    ensures tree { IfOk result (λ s. tree_of s ≡ complement (tree_of solid.now)) }
    ensures walks { IfOk result
        (λ s. (p : Coordinates) → walk (tree_of s) p ≡ not (walk (tree_of solid.now) p)) }
    ensures planes { IfOk result (λ s. HasPlanesOf (tree_of s) (tree_of solid.now)) }
    ensures cells { IfOk result
        (λ s. (cell : _) → IsOfCell cell (tree_of solid.now) → IsOfCell cell (tree_of s)) }
{
    with_sides_exchanged(alloc, solid)
}

// A solid with In and Out exchanged.
fn with_sides_exchanged(alloc: Global, solid: &Solid) -> Result<Solid, NoMemory>
    ensures { IfOk result (λ s. tree_of s ≡ complement (tree_of solid.now)) }
{
    let (planes, _, root) = solid.parts();
    let joined = join(alloc, planes, &[])?;
    let table = PlaneTable::of(alloc, joined.planes)?;
    let nodes = solid_over(alloc, &table, solid, &joined.left)?;
    solid_at(alloc, &nodes, root, true)
}
