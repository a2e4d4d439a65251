//! Whether a polygon is convex.

ghost use Rattle.std.specs.Prelude.{◌≡◌, ◌*◌, ◌<◌, ◌≤◌, ◌≤ℤ◌, ◌-ℤ◌, pos, unsigned_abs, All, Any, length};
ghost use Rattle.std.specs.Bool.{OnTrue, OnFalse};
ghost use Rattle.plane_predicate.specs.Space.{minor};
ghost use Rattle.primitives.specs.Polygons.{polygon_point, orientation, GoesLeft, GoesRight, IsConvexPolygon, IsFlatPointWithinGridLimits};
ghost use Rattle.plane_predicate.specs.Indices.{index_after as after_of};

use crate::facing::minor_between;

/// Whether a polygon is convex: in one of its two directions no point lies strictly to the right of
/// a way from a point to the next, and not all points lie on one line.
pub fn is_convex(points: &[[i64; 2]]) -> bool
    requires some { 0 < length points.now }
    requires near { All IsFlatPointWithinGridLimits points.now }
    ensures yes { OnTrue result (IsConvexPolygon points.now) }
    ensures no { OnFalse result (IsConvexPolygon points.now → ⊥) }
{
    has_corner(points) && (goes_left(points) || goes_right(points))
}

// Whether the first point and two others are not on one line.
fn has_corner(points: &[[i64; 2]]) -> bool
    requires some { 0 < length points.now }
    requires near { All IsFlatPointWithinGridLimits points.now }
    ensures yes { OnTrue result (Any
        (λ q. Any (λ r. orientation (polygon_point points.now 0) q r ≡ pos 0 → ⊥) points.now) points.now) }
    ensures no { OnFalse result (All
        (λ q. All (λ r. orientation (polygon_point points.now 0) q r ≡ pos 0) points.now) points.now) }
{
    for second in points {
        if bends(points, points[0], *second) {
            return true;
        }
    }
    false
}

// Whether some point is not on one line with two others.
fn bends(points: &[[i64; 2]], first: [i64; 2], second: [i64; 2]) -> bool
    requires near { All IsFlatPointWithinGridLimits points.now }
    requires first_near { IsFlatPointWithinGridLimits first }
    requires second_near { IsFlatPointWithinGridLimits second }
    ensures yes { OnTrue result (Any (λ r. orientation first second r ≡ pos 0 → ⊥) points.now) }
    ensures no { OnFalse result (All (λ r. orientation first second r ≡ pos 0) points.now) }
{
    for third in points {
        if orientation_of(first, second, *third) != 0 {
            return true;
        }
    }
    false
}

// Whether no point lies strictly to the right of a way from a point to the next.
fn goes_left(points: &[[i64; 2]]) -> bool
    requires { All IsFlatPointWithinGridLimits points.now }
    ensures yes { OnTrue result (GoesLeft points.now) }
    ensures no { OnFalse result (GoesLeft points.now → ⊥) }
{
    for i in 0..points.len() {
        if !stays_left(points, points[i], points[next_point(points.len(), i)]) {
            return false;
        }
    }
    true
}

// Whether no point lies strictly to the right of a way from a point back to the one before.
fn goes_right(points: &[[i64; 2]]) -> bool
    requires { All IsFlatPointWithinGridLimits points.now }
    ensures yes { OnTrue result (GoesRight points.now) }
    ensures no { OnFalse result (GoesRight points.now → ⊥) }
{
    for i in 0..points.len() {
        if !stays_left(points, points[next_point(points.len(), i)], points[i]) {
            return false;
        }
    }
    true
}

/// The number of the point that follows point `i` of the given number of points, around the polygon.
pub fn next_point(count: usize, i: usize) -> usize
    requires { i < count }
    ensures value { result ≡ after_of count i }
    ensures there { result < count }
{
    if i + 1 == count { 0 } else { i + 1 }
}

// Whether no point lies strictly to the right of one way.
fn stays_left(points: &[[i64; 2]], from: [i64; 2], to: [i64; 2]) -> bool
    requires near { All IsFlatPointWithinGridLimits points.now }
    requires from_near { IsFlatPointWithinGridLimits from }
    requires to_near { IsFlatPointWithinGridLimits to }
    ensures yes { OnTrue result (All (λ r. pos 0 ≤ℤ orientation from to r) points.now) }
    ensures no { OnFalse result (All (λ r. pos 0 ≤ℤ orientation from to r) points.now → ⊥) }
{
    for point in points {
        if orientation_of(from, to, *point) < 0 {
            return false;
        }
    }
    true
}

// The orientation of the way from `p` to `q`, and on to `r`: above 0 where it goes left.
fn orientation_of(p: [i64; 2], q: [i64; 2], r: [i64; 2]) -> i64
    requires p_near { IsFlatPointWithinGridLimits p }
    requires q_near { IsFlatPointWithinGridLimits q }
    requires r_near { IsFlatPointWithinGridLimits r }
    ensures { result ≡ orientation p q r }
{
    let [px, py] = p;
    let [qx, qy] = q;
    let [rx, ry] = r;
    minor_between(px, py, qx, qy, rx, ry)
}
