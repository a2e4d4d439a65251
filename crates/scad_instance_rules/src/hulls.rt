//! Hulls of designs.

ghost use Rattle.std.specs.Prelude.{◌≡◌, ◌++◌, OnOk, IfErr, map};
ghost use Rattle.plane_predicate.specs.Space.{point_at};
ghost use Rattle.int_transform.specs.Maps.{coordinate_list, image, map_of};
ghost use Rattle.scad_design.specs.Placing.{StaysSafe};
ghost use Rattle.scad_design.specs.View.{plain_of};
ghost use Rattle.scad_meaning.specs.Hulls.{is_nothing, is_union, points_of, hull_mesh, StaySafe};
ghost use Rattle.scad_meaning.specs.Verdicts.{Judge, IsRightJudge};
ghost use Rattle.scad_instance_rules.specs.Answers.{MeetsShape, IsPastRange};

use csg_tree::Op;
use int_transform::apply;
use primitives::{Shape, ShapeStop};
use scad_design::{Design, LeafShape};
use scad_hull::hull_shape;
use std::alloc::Global;
use text_place::FaultKind;

/// Whether a design is empty.
pub fn is_nothing(design: &Design) -> bool
    ensures { result ≡ is_nothing (plain_of design.now) }
{
    match design {
        Design::Empty => true,
        Design::Leaf(_) => false,
        Design::Joined(_, _, _) => false,
    }
}

/// The hull of a design in grid steps, or what is wrong with it: `NotInProfile` where it has a join
/// other than a union, `TooLarge` where else a coordinate of a leaf is past 2^53 - 1 after some step,
/// and else what is wrong with the points of all leaves, moved by their steps.
pub fn design_hull(alloc: Global, design: &Design) -> Result<Shape, ShapeStop>
    ensures { (judge : Judge) → IsRightJudge judge →
        MeetsShape result (judge.hull (plain_of design.now)) (hull_mesh (plain_of design.now)) }
{
    if !is_union(design) {
        return Err(ShapeStop::Kind(FaultKind::NotInProfile));
    }
    let mut points = Vec::new(alloc);
    add_points(alloc, &mut points, design)?;
    hull_shape(alloc, &points)
}

// Whether a design has no join but unions.
fn is_union(design: &Design) -> bool
    ensures { result ≡ is_union (plain_of design.now) }
{
    match design {
        Design::Empty => true,
        Design::Leaf(_) => true,
        Design::Joined(Op::Union, left, right) => is_union(left) && is_union(right),
        Design::Joined(Op::Intersection | Op::Difference, _, _) => false,
    }
}

// Adds the points of all leaves of a design, each moved by its leaf's steps.
fn add_points(alloc: Global, points: &mut Vec<[i64; 3]>, design: &Design) -> Result<(), ShapeStop>
    ensures points { OnOk result (points.new.items ≡ points.old.items ++ points_of
        (plain_of design.now)) }
    ensures safe { OnOk result (StaySafe (plain_of design.now)) }
    ensures stops { IfErr result (IsPastRange (StaySafe (plain_of design.now))) }
{
    match design {
        Design::Empty => Ok(()),
        Design::Leaf(part) => add_leaf(alloc, points, part),
        Design::Joined(_, left, right) => {
            add_points(alloc, points, left)?;
            add_points(alloc, points, right)
        }
    }
}

// Adds the points of a leaf, moved by its steps.
fn add_leaf(alloc: Global, points: &mut Vec<[i64; 3]>, part: &LeafShape) -> Result<(), ShapeStop>
    ensures points { OnOk result (points.new.items ≡ points.old.items
        ++ map (λ p. coordinate_list (image (map_of part.now.steps) (point_at p)))
        part.now.mesh.points) }
    ensures safe { OnOk result (StaysSafe part.now) }
    ensures stops { IfErr result (IsPastRange (StaysSafe part.now)) }
{
    let moved = apply(alloc, part.steps(), part.shape().points())?;
    points.extend_from_slice(&moved)?;
    Ok(())
}
