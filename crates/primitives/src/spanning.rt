//! Three corners of a face that are not on one line, and the plane through them.

ghost use Rattle.std.specs.Prelude.{◌<◌, All, IfSome, IsNone, get_or, length};
ghost use Rattle.std.specs.Bool.{OnTrue};
ghost use Rattle.plane_predicate.specs.Space.{point_at, AreCollinear, IsInReach};
ghost use Rattle.primitives.specs.Shapes.{mesh_point, HasTriangle};
ghost use Rattle.primitives.specs.GridSizes.{IsWithinGridLimits};
ghost use Rattle.primitives.specs.Spanning.{IsThird, IsTriangle, SpansFace};

use crate::facing::{has_direction, plane_through};
use plane_predicate::Plane;

/// Three corners of a face, by their places in it.
#[derive(Clone, Copy)]
pub struct Triangle {
    pub first: usize,
    pub second: usize,
    pub third: usize,
}

/// Three corners of a face that are not on one line. `None` where all corners are on one line.
pub fn find_triangle(points: &[[i64; 3]], face: &[u32]) -> Option<Triangle>
    requires grid { All (λ p. IsWithinGridLimits (point_at p)) points.now }
    requires there { All (λ i. i < length points.now) face.now }
    ensures some { IfSome result (IsTriangle points.now face.now) }
    ensures none { IsNone result → HasTriangle points.now face.now → ⊥ }
{
    // In most faces the first three corners are such ones.
    if begins_with_triangle(points, face) {
        return Some(Triangle {
            first: 0,
            second: 1,
            third: 2,
        });
    }
    search_triangle(points, face)
}

// Whether a face has three corners in front that are not on one line.
fn begins_with_triangle(points: &[[i64; 3]], face: &[u32]) -> bool
    requires grid { All (λ p. IsWithinGridLimits (point_at p)) points.now }
    requires there { All (λ i. i < length points.now) face.now }
    ensures { OnTrue result (IsTriangle points.now face.now
        (record { first = 0; second = 1; third = 2 })) }
{
    if face.len() < 3 {
        return false;
    }
    let p = points[face[0] as usize];
    let q = points[face[1] as usize];
    let r = points[face[2] as usize];
    has_direction(&plane_through(p, q, r))
}

// Three corners of a face that are not on one line, of which one is the first. `None` where all corners are on one line.
fn search_triangle(points: &[[i64; 3]], face: &[u32]) -> Option<Triangle>
    requires grid { All (λ p. IsWithinGridLimits (point_at p)) points.now }
    requires there { All (λ i. i < length points.now) face.now }
    ensures some { IfSome result (IsTriangle points.now face.now) }
    ensures none { IsNone result → HasTriangle points.now face.now → ⊥ }
{
    for second in 0..face.len() {
        if let Some(third) = third_corner(points, face, second) {
            return Some(Triangle {
                first: 0,
                second,
                third,
            });
        }
    }
    None
}

// A corner of a face that is not on one line with the first corner and a second one. `None` where
// all corners are on one line with them.
fn third_corner(points: &[[i64; 3]], face: &[u32], second: usize) -> Option<usize>
    requires grid { All (λ p. IsWithinGridLimits (point_at p)) points.now }
    requires there { All (λ i. i < length points.now) face.now }
    requires second_in { second < length face.now }
    ensures some { IfSome result (IsThird points.now face.now second) }
    ensures none { IsNone result →
        All (λ k. AreCollinear (mesh_point points.now (get_or face.now 0 0))
        (mesh_point points.now (get_or face.now second 0)) (mesh_point points.now k)) face.now }
{
    let (from, by) = (points[face[0] as usize], points[face[second] as usize]);
    for third in 0..face.len() {
        if has_direction(&plane_through(from, by, points[face[third] as usize])) {
            return Some(third);
        }
    }
    None
}

/// The plane through three corners of a face that has three that are not on one line.
pub fn spanned(points: &[[i64; 3]], face: &[u32]) -> Plane
    requires reach { All (λ p. IsInReach (point_at p)) points.now }
    requires there { All (λ i. i < length points.now) face.now }
    requires has { HasTriangle points.now face.now }
    ensures { SpansFace points.now face.now result }
{
    let at = find_triangle(points, face).unwrap();
    let p = points[face[at.first] as usize];
    let q = points[face[at.second] as usize];
    let r = points[face[at.third] as usize];
    plane_predicate::plane_through(p, q, r).unwrap()
}
