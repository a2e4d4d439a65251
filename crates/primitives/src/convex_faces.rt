//! Convex solids.

ghost use Rattle.std.specs.Prelude.{◌<◌, All, IfOk, length};
ghost use Rattle.std.specs.Bool.{OnTrue, OnFalse};
ghost use Rattle.plane_predicate.specs.Space.{point_at};
ghost use Rattle.primitives.specs.Shapes.{IsOnOnePlane};
ghost use Rattle.primitives.specs.GridSizes.{IsWithinGridLimits};
ghost use Rattle.primitives.specs.Checks.{AreCornersThere, HasOuterPlane, IsConvexMesh, IsFlatFace};
ghost use Rattle.primitives.specs.Bounding.{IsFaceOfBody};

use crate::Corners;
use crate::bounding::is_bounded_by;
use crate::corner_planes::spanned;
use crate::ways::push_ways;
use std::alloc::{AllocError, Global};

/// Whether each face is convex with no point of a face ahead of it, and some point of a face is off
/// its plane.
pub fn are_convex(alloc: Global, points: &[[i64; 3]], faces: &[Corners]) -> Result<bool, AllocError>
    requires grid { All (λ p. IsWithinGridLimits (point_at p)) points.now }
    requires there { AreCornersThere (length points.now) faces.now }
    requires flat { All (IsFlatFace points.now) faces.now }
    ensures all { IfOk result (λ b. OnTrue b (All
        (IsFaceOfBody (record { points = points.now; faces = faces.now })) faces.now)) }
    ensures past { IfOk result (λ b. OnFalse b (IsConvexMesh
        (record { points = points.now; faces = faces.now }) → ⊥)) }
{
    for face in faces {
        if !is_bounded(alloc, points, faces, face.items())? {
            return Ok(false);
        }
    }
    Ok(true)
}

// Whether one face is convex with no point of a face ahead of it, and some point of a face is off
// its plane.
fn is_bounded(
    alloc: Global,
    points: &[[i64; 3]],
    faces: &[Corners],
    face: &[u32],
) -> Result<bool, AllocError>
    requires grid { All (λ p. IsWithinGridLimits (point_at p)) points.now }
    requires there { AreCornersThere (length points.now) faces.now }
    requires face_there { All (λ i. i < length points.now) face.now }
    requires flat { IsFlatFace points.now face.now }
    ensures all { IfOk result (λ b. OnTrue b (IsFaceOfBody
        (record { points = points.now; faces = faces.now }) face.now)) }
    ensures past { IfOk result (λ b. OnFalse b (HasOuterPlane
        (record { points = points.now; faces = faces.now }) face.now →
        IsOnOnePlane (record { points = points.now; faces = faces.now }))) }
{
    let plane = spanned(points, face).unwrap();
    let mut ways = Vec::new(alloc);
    push_ways(&mut ways, points, face)?;
    Ok(is_bounded_by(points, faces, face, &ways, &plane))
}
