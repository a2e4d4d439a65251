//! The orientation of three points as seen from ahead of a plane.

ghost use Rattle.std.specs.Prelude.{◌≡◌, ◌≤◌, ◌*◌, ◌*ℤ◌, ◌+ℤ◌, ◌<ℤ◌, ◌≤ℤ◌, pos, unsigned_abs};
ghost use Rattle.std.specs.Bool.{OnTrue, OnFalse};
ghost use Rattle.plane_predicate.specs.Space.{point_at, inner_product, plane_of_points};
ghost use Rattle.primitives.specs.GridSizes.{IsWithinGridLimits};

use crate::facing::{FacePlane, plane_through};

/// Whether `p`, `q` and `r` are counterclockwise as seen from ahead of a plane.
pub fn turns_left(m: &FacePlane, p: [i64; 3], q: [i64; 3], r: [i64; 3]) -> bool
    requires p_grid { IsWithinGridLimits (point_at p) }
    requires q_grid { IsWithinGridLimits (point_at q) }
    requires r_grid { IsWithinGridLimits (point_at r) }
    ensures left { OnTrue result (pos 0
        <ℤ inner_product m.now (plane_of_points (point_at p) (point_at q) (point_at r))) }
    ensures other { OnFalse result (inner_product m.now
        (plane_of_points (point_at p) (point_at q) (point_at r))
        ≤ℤ pos 0) }
{
    turn_at(m, p, q, r) > 0
}

// The orientation of `p`, `q` and `r` as seen from ahead of a plane: above 0 where they are
// counterclockwise.
fn turn_at(m: &FacePlane, p: [i64; 3], q: [i64; 3], r: [i64; 3]) -> i128
    requires p_grid { IsWithinGridLimits (point_at p) }
    requires q_grid { IsWithinGridLimits (point_at q) }
    requires r_grid { IsWithinGridLimits (point_at r) }
    ensures { result ≡ inner_product m.now (plane_of_points (point_at p) (point_at q)
        (point_at r)) }
{
    let n = plane_through(p, q, r);
    directions_dot(m.a, m.b, m.c, n.a, n.b, n.c)
}

// `a x + b y + c z` of two directions.
fn directions_dot(a: i64, b: i64, c: i64, x: i64, y: i64, z: i64) -> i128
    requires a_size { unsigned_abs a ≤ 137434759200 }
    requires b_size { unsigned_abs b ≤ 137434759200 }
    requires c_size { unsigned_abs c ≤ 137434759200 }
    requires x_size { unsigned_abs x ≤ 137434759200 }
    requires y_size { unsigned_abs y ≤ 137434759200 }
    requires z_size { unsigned_abs z ≤ 137434759200 }
    ensures { result ≡ a *ℤ x +ℤ b *ℤ y +ℤ c *ℤ z }
{
    product(a, x) + product(b, y) + product(c, z)
}

// The product of parts of two directions.
fn product(a: i64, b: i64) -> i128
    requires a_size { unsigned_abs a ≤ 137434759200 }
    requires b_size { unsigned_abs b ≤ 137434759200 }
    ensures value { result ≡ a *ℤ b }
    ensures size { unsigned_abs result ≤ 137434759200 * 137434759200 }
{
    i128::from(a) * i128::from(b)
}
