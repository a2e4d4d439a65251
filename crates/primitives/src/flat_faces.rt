//! Flat faces.

ghost use Rattle.std.specs.Prelude.{◌≡◌, ◌<◌, pos, All, Any, length};
ghost use Rattle.std.specs.Bool.{OnTrue, OnFalse};
ghost use Rattle.plane_predicate.specs.Space.{point_at};
ghost use Rattle.primitives.specs.Shapes.{value_at_point};
ghost use Rattle.primitives.specs.GridSizes.{IsWithinGridLimits};
ghost use Rattle.primitives.specs.Checks.{AreCornersThere, IsFlatFace};

use crate::Corners;
use crate::corner_planes::spanned;
use crate::facing::{FacePlane, goes_through};

/// Whether each face has three corners that are not on one line, and all its corners on one plane.
pub fn are_flat(points: &[[i64; 3]], faces: &[Corners]) -> bool
    requires grid { All (λ p. IsWithinGridLimits (point_at p)) points.now }
    requires there { AreCornersThere (length points.now) faces.now }
    requires some { All (λ f. 0 < length f) faces.now }
    ensures all { OnTrue result (All (IsFlatFace points.now) faces.now) }
    ensures past { OnFalse result (All (IsFlatFace points.now) faces.now → ⊥) }
{
    for face in faces {
        if !is_flat(points, face.items()) {
            return false;
        }
    }
    true
}

// Whether a face has three corners that are not on one line, and all its corners on one plane.
fn is_flat(points: &[[i64; 3]], face: &[u32]) -> bool
    requires grid { All (λ p. IsWithinGridLimits (point_at p)) points.now }
    requires there { All (λ i. i < length points.now) face.now }
    requires some { 0 < length face.now }
    ensures all { OnTrue result (IsFlatFace points.now face.now) }
    ensures past { OnFalse result (IsFlatFace points.now face.now → ⊥) }
{
    match spanned(points, face) {
        None => false,
        Some(plane) => holds_all(points, face, &plane),
    }
}

// Whether a plane goes through all corners of a face.
fn holds_all(points: &[[i64; 3]], face: &[u32], plane: &FacePlane) -> bool
    requires grid { All (λ p. IsWithinGridLimits (point_at p)) points.now }
    requires there { All (λ i. i < length points.now) face.now }
    ensures all { OnTrue result (All (λ i. value_at_point points.now plane.now i
        ≡ pos 0) face.now) }
    ensures past { OnFalse result (All (λ i. value_at_point points.now plane.now i
        ≡ pos 0) face.now →
        ⊥) }
{
    for i in face {
        if !goes_through(plane, points[*i as usize]) {
            return false;
        }
    }
    true
}
