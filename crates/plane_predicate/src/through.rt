//! The plane through three points.

ghost use Rattle.std.specs.Prelude.{◌≡◌, ◌↔◌, ◌+◌, ◌*◌, ◌≤◌, ◌<◌, ◌*ℤ◌, ◌+ℤ◌, ◌-ℤ◌, pos, unsigned_abs, IfSome, IsNone};
ghost use Rattle.plane_predicate.specs.Space.{point_at, minor, most_direction, most_offset, plane_of_points, value, AreCollinear, IsInReach, IsPlaneTimes};

use crate::Plane;
use crate::reduction::quotients;

/// The plane through three points, with the direction of `(q - p) x (r - p)`. `None` exactly where
/// they are collinear.
pub fn plane_through(p: [i64; 3], q: [i64; 3], r: [i64; 3]) -> Option<Plane>
    requires p_reach { IsInReach (point_at p) }
    requires q_reach { IsInReach (point_at q) }
    requires r_reach { IsInReach (point_at r) }
    ensures on { IfSome result (λ m. (value m (point_at p) ≡ pos 0) × (value m (point_at q) ≡ pos 0)
        × (value m (point_at r) ≡ pos 0)) }
    ensures direction { IfSome result
        (λ m. IsPlaneTimes (plane_of_points (point_at p) (point_at q) (point_at r)) m) }
    ensures none { IsNone result ↔ AreCollinear (point_at p) (point_at q) (point_at r) }
{
    let a = minor_between(p[1], p[2], q[1], q[2], r[1], r[2]);
    let b = minor_between(p[2], p[0], q[2], q[0], r[2], r[0]);
    let c = minor_between(p[0], p[1], q[0], q[1], r[0], r[1]);
    let d = offset(a, b, c, p[0], p[1], p[2]);
    plane_of(a, b, c, d)
}

// One part of the cross product `(q - p) x (r - p)`, from two coordinates of each point.
fn minor_between(py: i64, pz: i64, qy: i64, qz: i64, ry: i64, rz: i64) -> i64
    requires py_size { unsigned_abs py ≤ 4095 }
    requires pz_size { unsigned_abs pz ≤ 4095 }
    requires qy_size { unsigned_abs qy ≤ 4095 }
    requires qz_size { unsigned_abs qz ≤ 4095 }
    requires ry_size { unsigned_abs ry ≤ 4095 }
    requires rz_size { unsigned_abs rz ≤ 4095 }
    ensures value { result ≡ minor (qy -ℤ py) (qz -ℤ pz) (ry -ℤ py) (rz -ℤ pz) }
    ensures size { unsigned_abs result ≤ most_direction }
{
    small_minor(qy - py, qz - pz, ry - py, rz - pz)
}

// `a d - b c` of differences of coordinates.
fn small_minor(a: i64, b: i64, c: i64, d: i64) -> i64
    requires a_size { unsigned_abs a ≤ 8190 }
    requires b_size { unsigned_abs b ≤ 8190 }
    requires c_size { unsigned_abs c ≤ 8190 }
    requires d_size { unsigned_abs d ≤ 8190 }
    ensures value { result ≡ minor a b c d }
    ensures size { unsigned_abs result ≤ most_direction }
{
    a * d - b * c
}

// `a x + b y + c z` of a direction and a point.
fn offset(a: i64, b: i64, c: i64, x: i64, y: i64, z: i64) -> i64
    requires a_size { unsigned_abs a ≤ most_direction }
    requires b_size { unsigned_abs b ≤ most_direction }
    requires c_size { unsigned_abs c ≤ most_direction }
    requires x_size { unsigned_abs x ≤ 4095 }
    requires y_size { unsigned_abs y ≤ 4095 }
    requires z_size { unsigned_abs z ≤ 4095 }
    ensures value { result ≡ a *ℤ x +ℤ b *ℤ y +ℤ c *ℤ z }
    ensures size { unsigned_abs result ≤ most_offset }
{
    a * x + b * y + c * z
}

/// The plane with these numbers, divided by their common factor. `None` where the direction is 0.
pub fn plane_of(a: i64, b: i64, c: i64, d: i64) -> Option<Plane>
    requires a_size { unsigned_abs a ≤ most_direction }
    requires b_size { unsigned_abs b ≤ most_direction }
    requires c_size { unsigned_abs c ≤ most_direction }
    requires d_size { unsigned_abs d ≤ most_offset }
    ensures some { IfSome result (λ m. IsPlaneTimes (record { a = a; b = b; c = c; d = d }) m) }
    ensures none { IsNone result ↔ (a ≡ pos 0) × (b ≡ pos 0) × (c ≡ pos 0) }
{
    if a == 0 && b == 0 && c == 0 {
        None
    } else {
        Some(reduced_plane(a, b, c, d))
    }
}

// The plane with these numbers, divided by their common factor.
fn reduced_plane(a: i64, b: i64, c: i64, d: i64) -> Plane
    requires a_size { unsigned_abs a ≤ most_direction }
    requires b_size { unsigned_abs b ≤ most_direction }
    requires c_size { unsigned_abs c ≤ most_direction }
    requires d_size { unsigned_abs d ≤ most_offset }
    requires directed { 0 < unsigned_abs a + unsigned_abs b + unsigned_abs c }
    ensures { IsPlaneTimes (record { a = a; b = b; c = c; d = d }) result }
{
    let least = quotients(i128::from(a), i128::from(b), i128::from(c), i128::from(d));
    Plane {
        a: least.x as i64,
        b: least.y as i64,
        c: least.z as i64,
        d: least.w as i64,
    }
}
