//! Shapes moved by steps.

ghost use Rattle.std.specs.Prelude.{◌<◌, ◌↔◌, All, Any, IfOk, IfErr, OnOk, length};
ghost use Rattle.std.specs.Bool.{OnTrue, OnFalse};
ghost use Rattle.plane_predicate.specs.Space.{Coordinates, point_at, IsInReach, ComesInReach};
ghost use Rattle.int_transform.specs.Maps.{image, map_of, KeepsSafeCoordinates};
ghost use Rattle.primitives.specs.Shapes.{IsFaceOfShape, IsInside};
ghost use Rattle.primitives.specs.Placing.{moved_mesh, ArePlanesOf, IsBehindAll, IsPlacingStop};

use crate::planes::planes_of;
use crate::shape::Shape;
use crate::stop::ShapeStop;
use int_transform::{Step, apply};
use plane_predicate::Plane;
use std::alloc::Global;
use text_place::FaultKind;

/// The planes of a shape's faces once the steps have moved it, in order, of equal ones the first. A
/// point is inside the shape exactly where its image is strictly behind every one of them.
///
/// `TooLarge` comes exactly where a coordinate after some step is past 2^53 - 1 in size, and
/// `OutOfRange` exactly where else a coordinate at the end is past 4095.
pub fn place(alloc: Global, shape: &Shape, steps: &[Step]) -> Result<Vec<Plane>, ShapeStop>
    ensures planes { IfOk result (λ v. ArePlanesOf (moved_mesh (map_of steps.now) shape.now)
        shape.now.faces v.items) }
    ensures inside { IfOk result (λ v. (p : Coordinates) → IsInside shape.now p
        ↔ IsBehindAll v.items (image (map_of steps.now) p)) }
    ensures some { IfOk result (λ v. 0 < length v.items) }
    ensures reach { IfOk result (λ v. All ComesInReach v.items) }
    // no step flattens the shape: its faces stay faces of a body
    ensures solid { OnOk result (All (IsFaceOfShape (moved_mesh (map_of steps.now) shape.now))
        shape.now.faces) }

    ensures in_range { OnOk result (All (λ p. KeepsSafeCoordinates steps.now (point_at p))
        shape.now.points) }
    ensures in_reach { OnOk result (All (λ p. IsInReach (image (map_of steps.now) (point_at p)))
        shape.now.points) }
    ensures stops { IfErr result (IsPlacingStop steps.now shape.now.points) }
{
    let points = apply(alloc, steps, shape.points())?;
    if !are_in_reach(&points) {
        return Err(ShapeStop::Kind(FaultKind::OutOfRange));
    }
    Ok(planes_of(alloc, &points, shape.faces())?)
}

// Whether all coordinates are at most 4095 in size.
fn are_in_reach(points: &[[i64; 3]]) -> bool
    ensures all { OnTrue result (All (λ p. IsInReach (point_at p)) points.now) }
    ensures past { OnFalse result (Any (λ p. IsInReach (point_at p) → ⊥) points.now) }
{
    for point in points {
        if !is_in_reach(*point) {
            return false;
        }
    }
    true
}

// Whether the coordinates of a point are at most 4095 in size.
fn is_in_reach(at: [i64; 3]) -> bool
    ensures all { OnTrue result (IsInReach (point_at at)) }
    ensures past { OnFalse result (IsInReach (point_at at) → ⊥) }
{
    at[0].unsigned_abs() <= 4095 && at[1].unsigned_abs() <= 4095 && at[2].unsigned_abs() <= 4095
}
