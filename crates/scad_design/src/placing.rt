//! The trees of designs in world position.

ghost use Rattle.std.specs.Prelude.{◌<◌, ◌≤◌, ◌^◌, All, IfOk, IfErr, OnOk, length, []};
ghost use Rattle.primitives.specs.Shapes.{IsFaceOfShape};
ghost use Rattle.primitives.specs.Placing.{moved_mesh, ArePlanesOf};
ghost use Rattle.int_transform.specs.Maps.{map_of};
ghost use Rattle.csg_tree.specs.ProperTrees.{IsProper, subtree_count};
ghost use Rattle.csg_tree.specs.Trees.{plain_tree_of};
ghost use Rattle.scad_design.specs.Designs.{a_leaf};
ghost use Rattle.scad_design.specs.Placing.{placing_tree, EndsInReach, PlacesDesign, StaysSafe};
ghost use Rattle.scad_design.specs.Trees.{tree_size, IsFullTree, IsPlacedAs, IsRangeStop, IsStopOf};
ghost use Rattle.scad_design.specs.View.{plain_of};
ghost use Rattle.plane_predicate.specs.Space.{ComesInReach};

use crate::design::Design;
use crate::known::{PlaneKey, add_planes};
use crate::leaf_shape::LeafShape;
use csg_tree::{CsgTree, Planes, join};
use indexmap::IndexSet;
use plane_predicate::Plane;
use primitives::ShapeStop;
use std::alloc::Global;
use text_place::{FaultKind, Stop};

// The most distinct planes, up to orientation.
const PLANES: usize = 1024;

/// The tree of a design: its leaves from left to right, each as the planes of its faces once its steps
/// have moved it.
///
/// `TooLarge` comes at the first part, at its place, of which a coordinate after some step is past
/// 2^53 - 1 in size, `OutOfRange` where else one at the end is past 4095, and `TooManyPlanes` where
/// else the leaf brings the 1,025th distinct plane, up to orientation.
pub fn place(alloc: Global, design: &Design) -> Result<CsgTree, Stop>
    ensures tree { IfOk result (λ tree. IsPlacedAs (plain_of design.now) (plain_tree_of tree)) }
    ensures stop { IfErr result (IsStopOf (plain_of design.now) []) }
    ensures proper { IfOk result (λ tree. tree_size (plain_of design.now) < 2 ^ 32 →
        IsProper (plain_tree_of tree)) }
{
    let mut known = IndexSet::new(alloc);
    place_after(alloc, &mut known, design)
}

// The tree of a design behind the distinct planes of those before it.
fn place_after(
    alloc: Global,
    known: &mut IndexSet<PlaneKey>,
    design: &Design,
) -> Result<CsgTree, Stop>
    ensures tree { IfOk result (λ tree. PlacesDesign (plain_of design.now) known.old.keys
        (placing_tree (plain_tree_of tree) known.new.keys)) }
    ensures stop { IfErr result (IsStopOf (plain_of design.now) known.old.keys) }
    ensures full { IfOk result (λ tree. IsFullTree (plain_tree_of tree)) }
    ensures few { IfOk result (λ tree. subtree_count (plain_tree_of tree)
        ≤ tree_size (plain_of design.now)) }
{
    match design {
        Design::Empty => Ok(CsgTree::Nothing),
        Design::Leaf(part) => place_leaf(alloc, known, part),
        Design::Joined(op, left, right) => {
            let left = place_after(alloc, known, left)?;
            let right = place_after(alloc, known, right)?;
            Ok(join(alloc, *op, left, right)?)
        }
    }
}

// The tree of a leaf behind the distinct planes of those before it.
fn place_leaf(
    alloc: Global,
    known: &mut IndexSet<PlaneKey>,
    part: &LeafShape,
) -> Result<CsgTree, Stop>
    ensures tree { IfOk result (λ tree. PlacesDesign (a_leaf part.now) known.old.keys
        (placing_tree (plain_tree_of tree) known.new.keys)) }
    ensures stop { IfErr result (IsStopOf (a_leaf part.now) known.old.keys) }
    ensures full { IfOk result (λ tree. IsFullTree (plain_tree_of tree)) }
    ensures few { IfOk result (λ tree. subtree_count (plain_tree_of tree) ≤ 1) }
{
    let planes = planes_of(alloc, part)?;
    add_planes(known, &planes)?;
    if known.len() > PLANES {
        return Err(FaultKind::TooManyPlanes.at(part.place()));
    }
    Ok(CsgTree::Leaf(Planes::of(planes)))
}

// The planes of a leaf's faces once its steps have moved_mesh it, of equal ones the first.
fn planes_of(alloc: Global, part: &LeafShape) -> Result<Vec<Plane>, Stop>
    ensures faces { IfOk result (λ v. ArePlanesOf (moved_mesh (map_of part.now.steps) part.now.mesh)
        part.now.mesh.faces v.items) }
    ensures solid { OnOk result (All (IsFaceOfShape
        (moved_mesh (map_of part.now.steps) part.now.mesh))
        part.now.mesh.faces) }
    ensures some { IfOk result (λ v. 0 < length v.items) }
    ensures meet { IfOk result (λ v. All ComesInReach v.items) }
    ensures safe { OnOk result (StaysSafe part.now) }
    ensures reach { OnOk result (EndsInReach part.now) }
    ensures stop { IfErr result (IsRangeStop part.now) }
{
    match primitives::place(alloc, part.shape(), part.steps()) {
        Ok(planes) => Ok(planes),
        Err(ShapeStop::NoMemory) => Err(Stop::NoMemory),
        Err(ShapeStop::Kind(kind)) => Err(kind.at(part.place())),
    }
}
