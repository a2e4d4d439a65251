//! Shapes by what is known of them, or the first check that they fail.

ghost use Rattle.scad_modules.specs.Bounds.{IsSafeSolid, IsSafeFlat};
ghost use Rattle.scad_modules.specs.View.{solid_call_of, flat_call_of};
ghost use Rattle.scad_meaning.specs.Verdicts.{Judge, IsRightJudge, solid_mesh, flat_points};
ghost use Rattle.scad_instance_rules.specs.Answers.{MeetsShape, MeetsFlat};

use plane_predicate::Unit;
use primitives::{Flat, Shape, ShapeStop, cube_shape, polygon_flat, polyhedron_shape, square_flat};
use round_four::{circle_flat, cylinder_shape};
use scad_modules::{FlatShape, SolidShape};
use std::alloc::Global;

/// A solid shape in grid steps, or the first check of shapes that it fails.
pub fn solid_shape(alloc: Global, unit: Unit, shape: &SolidShape) -> Result<Shape, ShapeStop>
    requires { IsSafeSolid (solid_call_of shape.now) }
    ensures { (judge : Judge) → IsRightJudge judge →
        MeetsShape result (judge.solid unit (solid_call_of shape.now))
        (solid_mesh unit (solid_call_of shape.now)) }
{
    match shape {
        SolidShape::Cube { size, center } => cube_shape(alloc, *size, *center, unit),
        SolidShape::Polyhedron { points, faces } => polyhedron_shape(alloc, points, faces, unit),
        SolidShape::Cylinder {
            height,
            low,
            high,
            center,
        } => cylinder_shape(alloc, *height, *low, *high, *center, unit),
    }
}

/// A shape in the plane in grid steps, or the first check of shapes that it fails.
pub fn flat_shape(alloc: Global, unit: Unit, shape: &FlatShape) -> Result<Flat, ShapeStop>
    requires { IsSafeFlat (flat_call_of shape.now) }
    ensures { (judge : Judge) → IsRightJudge judge →
        MeetsFlat result (judge.flat unit (flat_call_of shape.now))
        (flat_points unit (flat_call_of shape.now)) }
{
    match shape {
        FlatShape::Square { size, center } => square_flat(alloc, *size, *center, unit),
        FlatShape::Polygon { points } => polygon_flat(alloc, points, unit),
        FlatShape::Circle { radius } => circle_flat(alloc, *radius, unit),
    }
}
