//! Points on one plane.

ghost use Rattle.std.specs.Prelude.{◌≡◌, pos, All};
ghost use Rattle.std.specs.Bool.{OnTrue, OnFalse};
ghost use Rattle.plane_predicate.specs.Space.{point_at, value};
ghost use Rattle.primitives.specs.GridSizes.{IsWithinGridLimits};
ghost use Rattle.scad_hull.specs.Hulls.{AreOnOnePlane};
ghost use Rattle.scad_hull.specs.Steps.{AreNumberedPoints};

use primitives::facing::{FacePlane, goes_through, plane_through};
use primitives::find_triangle;

/// Whether all points are on one plane, by a triangle of them.
pub fn are_on_one_plane(points: &[[i64; 3]], all: &[u32]) -> bool
    requires { AreNumberedPoints points.now all.now }
    ensures flat { OnTrue result (AreOnOnePlane points.now) }
    ensures solid { OnFalse result (AreOnOnePlane points.now → ⊥) }
{
    match find_triangle(points, all) {
        None => true,
        Some(at) => {
            let p = points[all[at.first] as usize];
            let q = points[all[at.second] as usize];
            let r = points[all[at.third] as usize];
            holds_all(points, &plane_through(p, q, r))
        }
    }
}

// Whether a plane goes through all points.
fn holds_all(points: &[[i64; 3]], plane: &FacePlane) -> bool
    requires { All (λ p. IsWithinGridLimits (point_at p)) points.now }
    ensures all { OnTrue result (All (λ p. value plane.now (point_at p) ≡ pos 0) points.now) }
    ensures past { OnFalse result (All (λ p. value plane.now (point_at p) ≡ pos 0) points.now → ⊥) }
{
    for point in points {
        if !goes_through(plane, *point) {
            return false;
        }
    }
    true
}
