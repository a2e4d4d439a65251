//! Planes that bound a solid from outside.

ghost use Rattle.std.specs.Prelude.{◌≡◌, ◌<◌, ◌<ℤ◌, ◌≤ℤ◌, pos, All, Any, length};
ghost use Rattle.std.specs.Bool.{OnTrue, OnFalse};
ghost use Rattle.plane_predicate.specs.Space.{point_at, opposite_of};
ghost use Rattle.primitives.specs.Shapes.{value_at_point};
ghost use Rattle.primitives.specs.Bounding.{IsOuterPlane, IsFaceOfBody};
ghost use Rattle.primitives.specs.Shapes.{IsOnOnePlane};
ghost use Rattle.primitives.specs.GridSizes.{IsWithinGridLimits};
ghost use Rattle.primitives.specs.Checks.{AreCornersThere, HasOuterPlane, IsFlatFace};
ghost use Rattle.primitives.specs.CornerPlanes.{IsCornerPlane};
ghost use Rattle.primitives.specs.DirectedEdges.{AreEdgesOnGrid, HasNoneLeft, IsEdgeOnGrid};

use crate::facing::{FacePlane, opposite};
use crate::facing_out::turns_left;
use crate::ways::DirectedEdge;
use crate::{Corners, has_ahead};

/// Whether a face is convex with no point of a face ahead of it and some behind, by the plane that
/// three of its corners span.
pub fn is_bounded_by(
    points: &[[i64; 3]],
    faces: &[Corners],
    face: &[u32],
    ways: &[DirectedEdge],
    plane: &FacePlane,
) -> bool
    requires grid { All (λ p. IsWithinGridLimits (point_at p)) points.now }
    requires there { AreCornersThere (length points.now) faces.now }
    requires face_there { All (λ i. i < length points.now) face.now }
    requires flat { IsFlatFace points.now face.now }
    requires ways { AreEdgesOnGrid points.now face.now ways.now }
    requires spans { IsCornerPlane points.now face.now plane.now }
    ensures all { OnTrue result (IsFaceOfBody (record { points = points.now; faces = faces.now })
        face.now) }
    ensures past { OnFalse result (HasOuterPlane (record { points = points.now; faces = faces.now })
        face.now → IsOnOnePlane (record { points = points.now; faces = faces.now })) }
{
    let turned = opposite(plane);
    if bounds(points, faces, face, ways, plane, &turned) {
        return true;
    }
    bounds(points, faces, face, ways, &turned, plane)
}

// Whether, as seen from ahead of a plane, a face goes round clockwise, no point of a face is ahead,
// and some point is ahead of the opposite plane.
fn bounds(
    points: &[[i64; 3]],
    faces: &[Corners],
    face: &[u32],
    ways: &[DirectedEdge],
    plane: &FacePlane,
    other: &FacePlane,
) -> bool
    requires grid { All (λ p. IsWithinGridLimits (point_at p)) points.now }
    requires there { AreCornersThere (length points.now) faces.now }
    requires face_there { All (λ i. i < length points.now) face.now }
    requires ways { AreEdgesOnGrid points.now face.now ways.now }
    requires opposite_is { other.now ≡ opposite_of plane.now }
    ensures all { OnTrue result (IsOuterPlane
        (record { points = points.now; faces = faces.now }) face.now
        plane.now) }
    ensures past { OnFalse result (IsOuterPlane (record { points = points.now; faces = faces.now })
        face.now plane.now → ⊥) }
{
    if has_ahead(points, faces, plane) {
        return false;
    }
    if !has_ahead(points, faces, other) {
        return false;
    }
    is_clockwise(points, face, ways, plane)
}

// Whether no corner of a face is strictly to the left of some directed edges as seen from ahead of a plane.
fn is_clockwise(points: &[[i64; 3]], face: &[u32], ways: &[DirectedEdge], plane: &FacePlane) -> bool
    requires grid { All (λ p. IsWithinGridLimits (point_at p)) points.now }
    requires there { All (λ i. i < length points.now) face.now }
    requires ways_grid { All IsEdgeOnGrid ways.now }
    ensures all { OnTrue result (All (HasNoneLeft points.now face.now plane.now) ways.now) }
    ensures past { OnFalse result (All (HasNoneLeft points.now face.now plane.now) ways.now → ⊥) }
{
    for way in ways {
        if !has_none_left(points, face, *way, plane) {
            return false;
        }
    }
    true
}

// Whether no corner of a face is strictly to the left of one directed edge as seen from ahead of a plane.
fn has_none_left(points: &[[i64; 3]], face: &[u32], way: DirectedEdge, plane: &FacePlane) -> bool
    requires grid { All (λ p. IsWithinGridLimits (point_at p)) points.now }
    requires there { All (λ i. i < length points.now) face.now }
    requires from { IsWithinGridLimits (point_at way.from) }
    requires to { IsWithinGridLimits (point_at way.to) }
    ensures all { OnTrue result (HasNoneLeft points.now face.now plane.now way) }
    ensures past { OnFalse result (HasNoneLeft points.now face.now plane.now way → ⊥) }
{
    for i in face {
        if turns_left(plane, way.from, way.to, points[*i as usize]) {
            return false;
        }
    }
    true
}
