//! The plane through three corners of a face that are not on one line.

ghost use Rattle.std.specs.Prelude.{◌<◌, All, IfSome, IsNone, length};
ghost use Rattle.plane_predicate.specs.Space.{point_at};
ghost use Rattle.primitives.specs.Shapes.{HasTriangle};
ghost use Rattle.primitives.specs.GridSizes.{IsWithinGridLimits};
ghost use Rattle.primitives.specs.CornerPlanes.{IsCornerPlane};

use crate::facing::{FacePlane, plane_through};
use crate::find_triangle;

/// The plane through three corners of a face that are not on one line. `None` where all corners are
/// on one line.
pub fn spanned(points: &[[i64; 3]], face: &[u32]) -> Option<FacePlane>
    requires grid { All (λ p. IsWithinGridLimits (point_at p)) points.now }
    requires there { All (λ i. i < length points.now) face.now }
    ensures some { IfSome result (IsCornerPlane points.now face.now) }
    ensures none { IsNone result → HasTriangle points.now face.now → ⊥ }
{
    let at = find_triangle(points, face)?;
    let p = points[face[at.first] as usize];
    let q = points[face[at.second] as usize];
    let r = points[face[at.third] as usize];
    Some(plane_through(p, q, r))
}
