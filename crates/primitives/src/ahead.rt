//! The side of a plane on which no point of a shape lies.

ghost use Rattle.std.specs.Prelude.{◌<◌, ◌<ℤ◌, ◌≤ℤ◌, pos, All, Any, length};
ghost use Rattle.std.specs.Bool.{OnTrue, OnFalse};
ghost use Rattle.plane_predicate.specs.Space.{point_at, value};
ghost use Rattle.primitives.specs.Shapes.{value_at_point};
ghost use Rattle.primitives.specs.GridSizes.{IsWithinGridLimits};

use crate::corners::Corners;
use crate::facing::{FacePlane, is_ahead};

/// Whether some point of a face is strictly ahead of a plane.
#[tactic(auto, using(crate::proofs::NoneAhead::none_of_faces))]
pub fn has_ahead(points: &[[i64; 3]], faces: &[Corners], plane: &FacePlane) -> bool
    requires grid { All (λ p. IsWithinGridLimits (point_at p)) points.now }
    requires there { All (λ f. All (λ i. i < length points.now) f) faces.now }
    ensures some { OnTrue result (Any (λ f. Any
        (λ i. pos 0 <ℤ value_at_point points.now plane.now i) f)
        faces.now) }
    ensures none { OnFalse result (All (λ f. All
        (λ i. value_at_point points.now plane.now i ≤ℤ pos 0) f)
        faces.now) }
{
    // A point is a corner of several faces. So where no point is ahead, the points are the shorter list.
    has_point_ahead(points, plane) && has_corner_ahead(points, faces, plane)
}

// Whether some point is strictly ahead of a plane.
fn has_point_ahead(points: &[[i64; 3]], plane: &FacePlane) -> bool
    requires grid { All (λ p. IsWithinGridLimits (point_at p)) points.now }
    ensures { OnFalse result (All (λ p. value plane.now (point_at p) ≤ℤ pos 0) points.now) }
{
    for point in points {
        if is_ahead(plane, *point) {
            return true;
        }
    }
    false
}

// Whether some corner of a face is strictly ahead of a plane.
fn has_corner_ahead(points: &[[i64; 3]], faces: &[Corners], plane: &FacePlane) -> bool
    requires grid { All (λ p. IsWithinGridLimits (point_at p)) points.now }
    requires there { All (λ f. All (λ i. i < length points.now) f) faces.now }
    ensures some { OnTrue result (Any (λ f. Any
        (λ i. pos 0 <ℤ value_at_point points.now plane.now i) f)
        faces.now) }
    ensures none { OnFalse result (All (λ f. All
        (λ i. value_at_point points.now plane.now i ≤ℤ pos 0) f)
        faces.now) }
{
    for face in faces {
        if face_has_ahead(points, face.items(), plane) {
            return true;
        }
    }
    false
}

/// Whether some point of one face is strictly ahead of a plane.
pub fn face_has_ahead(points: &[[i64; 3]], face: &[u32], plane: &FacePlane) -> bool
    requires grid { All (λ p. IsWithinGridLimits (point_at p)) points.now }
    requires there { All (λ i. i < length points.now) face.now }
    ensures some { OnTrue result (Any (λ i. pos 0 <ℤ value_at_point points.now plane.now i)
        face.now) }
    ensures none { OnFalse result (All (λ i. value_at_point points.now plane.now i ≤ℤ pos 0)
        face.now) }
{
    for i in face {
        if is_ahead(plane, points[*i as usize]) {
            return true;
        }
    }
    false
}
