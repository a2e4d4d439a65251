//! The two parts of a solid, behind and ahead of the plane of a polygon.
#![tactic(auto)]

ghost use Rattle.std.specs.Prelude.{◌≡◌, IfOk};
ghost use Rattle.bsp_tree.specs.Shapes.{tree_of};
ghost use Rattle.bsp_tree.specs.Partitions.{divide, AreOfHalves, HaveNoNewPlane, KeepWalks};

mod fork;
mod parting;

use bsp_tree::{Solid, solid_at, solid_over};
pub use parting::add_parts;
use plain_text::NoMemory;
use plane_polygon::Polygon;
use plane_table::{PlaneTable, face_of, faces_are_found, join, renumber};
use std::alloc::Global;

/// The parts of a solid behind and ahead of the plane of a polygon, where the solid and the polygon
/// are of one cell. The solid is lent.
pub fn partition(alloc: Global, solid: &Solid, by: &Polygon) -> Result<(Solid, Solid), NoMemory>
    ensures parts { IfOk result
        (λ r. (tree_of r.0, tree_of r.1) ≡ divide (tree_of solid.now) by.now) }
    ensures walks { IfOk result
        (λ r. KeepWalks (tree_of solid.now) by.now (tree_of r.0, tree_of r.1)) }
    ensures cells { IfOk result
        (λ r. AreOfHalves (tree_of solid.now) by.now (tree_of r.0, tree_of r.1)) }
    ensures planes { IfOk result
        (λ r. HaveNoNewPlane (tree_of solid.now) (tree_of r.0, tree_of r.1)) }
{
    parts_of(alloc, solid, by)
}

// The parts, by the definition: the solid and the polygon stand over one table.
fn parts_of(alloc: Global, solid: &Solid, by: &Polygon) -> Result<(Solid, Solid), NoMemory>
    ensures { IfOk result (λ r. (tree_of r.0, tree_of r.1) ≡ divide (tree_of solid.now) by.now) }
{
    // Called for its law; does nothing when it runs: where all planes of a list have numbers, so have those of a face.
    faces_are_found();
    let own = face_of(alloc, by)?;
    let (planes, _, root) = solid.parts();
    let joined = join(alloc, planes, &own.planes)?;
    let table = PlaneTable::of(alloc, joined.planes)?;
    let by = renumber(alloc, &own.face, &joined.right)?;
    let mut nodes = solid_over(alloc, &table, solid, &joined.left)?;
    let (low, high) = add_parts(alloc, &mut nodes, root, &by)?;
    Ok((
        solid_at(alloc, &nodes, low, false)?,
        solid_at(alloc, &nodes, high, false)?,
    ))
}
