//! The solids of leaves.

ghost use Rattle.std.specs.Prelude.{◌≡◌, ◌<◌, length, map, All, IfOk};
ghost use Rattle.plane_predicate.specs.Space.{ComesInReach};
ghost use Rattle.csg_tree.specs.HalfSpaceTrees.{leaf};
ghost use Rattle.plane_table.specs.Faces.{outline_of, IsFaceOver};
ghost use Rattle.bsp_tree.specs.Shapes.{tree_of};
ghost use Rattle.bsp_boolean.specs.Chains.{part_behind_all};
ghost use Rattle.bsp_boolean.specs.LeafSolids.{solid_of_leaf, IsBuilt, IsSolidOf};

use crate::boxes::{box_solid, is_box};
use crate::chains::grow_behind;
use crate::leaf_building::BuildStop;
use bsp_tree::{Face, Growing, Solid, finish};
use plain_text::NoMemory;
use plane_polygon::world_planes;
use plane_predicate::Plane;
use plane_table::{HalfFaces, PlaneTable, half_faces};
use std::alloc::Global;

/// The solid of a leaf: the points behind all of its planes, of which there is at least one, in the
/// world box. Each plane has a point with coordinates at most 4095 in size. `TooBig` comes exactly
/// where the solid's size is above `most`.
pub fn leaf_solid(alloc: Global, planes: &[Plane], most: u64) -> Result<Solid, BuildStop>
    requires some { 0 < length planes.now }
    requires reach { All ComesInReach planes.now }
    ensures built { IsBuilt (solid_of_leaf planes.now) most result }
    ensures solid { IfOk result (λ s. IsSolidOf (leaf planes.now) (tree_of s)) }
{
    let world = world_planes(alloc)?;
    if is_box(planes, &world) {
        box_solid(alloc, planes, &world, most)
    } else {
        chain_solid(alloc, planes, most)
    }
}

// The solid of a leaf, face by face.
fn chain_solid(alloc: Global, planes: &[Plane], most: u64) -> Result<Solid, BuildStop>
    requires reach { All ComesInReach planes.now }
    ensures built { IsBuilt (solid_of_leaf planes.now) most result }
    ensures solid { IfOk result (λ s. IsSolidOf (leaf planes.now) (tree_of s)) }
{
    let HalfFaces { planes, faces } = half_faces(alloc, planes)?;
    let table = PlaneTable::of(alloc, planes)?;
    behind_all(alloc, &table, &faces, most)
}

// The points behind the planes of all of some faces, in the world box, where their size is within the
// limit.
fn behind_all(
    alloc: Global,
    table: &PlaneTable,
    faces: &[Face],
    most: u64,
) -> Result<Solid, BuildStop>
    requires { All (IsFaceOver table.now) faces.now }
    ensures { IsBuilt (part_behind_all (map (outline_of table.now) faces.now)) most result }
{
    let mut growing = Growing::new(alloc, table, most);
    let root = grow_behind(alloc, &mut growing, table, faces)?;
    Ok(finish(alloc, growing, root)?)
}
