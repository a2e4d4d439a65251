//! The solids of leaves that are upright boxes, whose faces are known.

ghost use Rattle.std.specs.Prelude.{◌≡◌, ◌+◌, ◌<◌, length, All, IfOk, IsTrue};
ghost use Rattle.plane_predicate.specs.Space.{ComesInReach, IsPlane};
ghost use Rattle.plane_polygon.specs.Parallels.{HasSameDirection};
ghost use Rattle.plane_table.specs.Faces.{IsFaceOver};
ghost use Rattle.csg_tree.specs.HalfSpaceTrees.{leaf};
ghost use Rattle.bsp_tree.specs.Trees.{inside};
ghost use Rattle.bsp_tree.specs.Shapes.{tree_of};
ghost use Rattle.bsp_boolean.specs.Chains.{chain_of, outlines_of};
ghost use Rattle.bsp_boolean.specs.LeafSolids.{solid_of_leaf, IsBuilt, IsSolidOf};
ghost use Rattle.bsp_boolean.specs.UprightBoxes.{upright_box_faces, table_of, wall, world_walls, HasRoomBetween, IsBox, IsPair, IsPairAt};

use crate::chains::grow_faces;
use crate::leaf_building::BuildStop;
use bsp_tree::{Edges, Face, Growing, Solid, finish};
use plain_text::NoMemory;
use plane_polygon::is_alike;
use plane_predicate::{Plane, planes_keep_their_form};
use plane_table::PlaneTable;
use std::alloc::Global;

// The offset of the world box's planes.
const WORLD: i64 = 4096;

/// Whether the planes of a leaf are those of an upright box within the world box, in the order of the
/// world box's own.
pub fn is_box(planes: &[Plane], world: &[Plane]) -> bool
    requires { world.now ≡ world_walls }
    ensures { IsTrue result → IsBox planes.now }
{
    planes.len() == 6
        && is_pair_at(planes, world, 0)
        && is_pair_at(planes, world, 2)
        && is_pair_at(planes, world, 4)
}

// Whether planes `i` and `i + 1` face away from each other as those of the world box do.
fn is_pair_at(planes: &[Plane], world: &[Plane], i: usize) -> bool
    requires planes { i + 1 < length planes.now }
    requires world { i + 1 < length world.now }
    ensures { IsTrue result → IsPairAt planes.now world.now i }
{
    is_pair(
        &wall(planes, i),
        &wall(planes, i + 1),
        &wall(world, i),
        &wall(world, i + 1),
    )
}

// Whether two planes face away from each other as two of the world box do, with room between them, and
// lie within it.
#[tactic(auto, using(crate::proofs::BoxPairs::pair_of))]
fn is_pair(low: &Plane, high: &Plane, low_world: &Plane, high_world: &Plane) -> bool
    ensures { IsTrue result → IsPair low.now high.now low_world.now high_world.now }
{
    if !is_along(low, low_world) {
        return false;
    }
    if !is_along(high, high_world) {
        return false;
    }
    have_room(low, high)
}

// Whether a plane has the direction of another one.
fn is_along(plane: &Plane, world: &Plane) -> bool
    ensures alike { IsTrue result → HasSameDirection plane.now world.now }
    ensures plane { IsPlane plane.now }
{
    planes_keep_their_form(plane);
    is_alike(plane, world)
}

// Whether there is room between two planes that face away from each other, and both lie within the
// world box.
fn have_room(low: &Plane, high: &Plane) -> bool
    ensures { IsTrue result → HasRoomBetween low.now.d high.now.d }
{
    has_room(low.d, high.d)
}

// The same, by their offsets.
fn has_room(low: i64, high: i64) -> bool
    ensures { IsTrue result → HasRoomBetween low high }
{
    -WORLD < low && low < WORLD && -WORLD < high && high < WORLD && 0 < low + high
}

// Plane `i` of a list.
fn wall(planes: &[Plane], i: usize) -> Plane
    requires { i < length planes.now }
    ensures { result ≡ wall planes.now i }
{
    planes[i]
}

/// The solid of an upright box: its faces are cut by those before them, so that each is a rectangle.
pub fn box_solid(
    alloc: Global,
    planes: &[Plane],
    world: &[Plane],
    most: u64,
) -> Result<Solid, BuildStop>
    requires walls { IsBox planes.now }
    requires world { world.now ≡ world_walls }
    requires reach { All ComesInReach planes.now }
    ensures built { IsBuilt (solid_of_leaf planes.now) most result }
    ensures solid { IfOk result (λ s. IsSolidOf (leaf planes.now) (tree_of s)) }
{
    let table = PlaneTable::of(alloc, box_table(alloc, planes, world)?)?;
    let faces = faces_of_box(alloc)?;
    chained_solid(alloc, &table, &faces, most)
}

// The planes that a box's faces name, in ascending order.
fn box_table(alloc: Global, planes: &[Plane], world: &[Plane]) -> Result<Vec<Plane>, NoMemory>
    requires six { length planes.now ≡ 6 }
    requires world { world.now ≡ world_walls }
    ensures { IfOk result (λ v. v.items ≡ table_of planes.now) }
{
    let table = [
        wall(world, 4),
        wall(planes, 4),
        wall(planes, 5),
        wall(world, 5),
        wall(world, 2),
        wall(planes, 2),
        wall(planes, 3),
        wall(world, 3),
        wall(planes, 0),
        wall(planes, 1),
    ];
    Ok(Vec::from_slice(alloc, &table)?)
}

// The faces of a box over that list, in the order of its planes.
fn faces_of_box(alloc: Global) -> Result<Vec<Face>, NoMemory>
    ensures { IfOk result (λ v. v.items ≡ upright_box_faces) }
{
    let mut faces = Vec::with_capacity(alloc, 6)?;
    faces.push(face(alloc, 16, &[8, 6, 14, 0])?)?;
    faces.push(face(alloc, 18, &[8, 0, 14, 6])?)?;
    faces.push(face(alloc, 10, &[0, 18, 6, 16])?)?;
    faces.push(face(alloc, 12, &[6, 18, 0, 16])?)?;
    faces.push(face(alloc, 2, &[12, 18, 10, 16])?)?;
    faces.push(face(alloc, 4, &[10, 18, 12, 16])?)?;
    Ok(faces)
}

// A face by the numbers of its plane and its edges.
fn face(alloc: Global, plane: u32, edges: &[u32]) -> Result<Face, NoMemory>
    ensures { IfOk result (λ f. f ≡ record { plane = plane; edges = edges.now }) }
{
    Ok(Face {
        plane,
        edges: Edges::copy_of(alloc, edges)?,
    })
}

// The solid of faces one behind another, where its size is within the limit.
fn chained_solid(
    alloc: Global,
    table: &PlaneTable,
    faces: &[Face],
    most: u64,
) -> Result<Solid, BuildStop>
    requires { All (IsFaceOver table.now) faces.now }
    ensures { IsBuilt (chain_of (outlines_of table.now faces.now) inside) most result }
{
    let mut growing = Growing::new(alloc, table, most);
    growing.reserve(faces.len())?;
    let root = grow_faces(alloc, &mut growing, faces)?;
    Ok(finish(alloc, growing, root)?)
}
