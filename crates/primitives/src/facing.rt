//! Planes through points of a shape in grid steps, with numbers as wide as these need.

ghost use Rattle.std.specs.Prelude.{◌≡◌, ◌≤◌, ◌*◌, ◌-ℤ◌, ◌*ℤ◌, ◌+ℤ◌, ◌<ℤ◌, ◌≤ℤ◌, pos, unsigned_abs};
ghost use Rattle.std.specs.Bool.{OnTrue, OnFalse};
ghost use Rattle.plane_predicate.specs.Space.{point_at, minor, opposite_of, plane_of_points, value};
ghost use Rattle.primitives.specs.GridSizes.{IsWithinGridLimits};
ghost use Rattle.primitives.specs.Spanning.{HasNoDirection};

use plane_predicate::Plane;
use std::marker::Model;

/// The points with `a x + b y + c z = d`, where a point is behind the plane if the left side is
/// smaller, and ahead of it if the left side is greater. Its numbers may have a common factor, and
/// its direction may be 0.
///
/// It keeps the sizes of planes through points whose coordinates are at most 131,070 in size.
#[derive(Clone, Copy)]
pub struct FacePlane {
    pub a: i64,
    pub b: i64,
    pub c: i64,
    pub d: i64,
}

impl Model for FacePlane {
    ghost use Rattle.plane_predicate.specs.Space.{Coefficients};
    ghost use Rattle.primitives.specs.GridSizes.{HasFaceSizes};

    ghost Value = { Coefficients };

    ghost view = { λ p. record { a = p.a; b = p.b; c = p.c; d = p.d } };

    ghost inverse = { λ v. record { a = v.a; b = v.b; c = v.c; d = v.d } };

    ghost invariant = { λ p. HasFaceSizes (record { a = p.a; b = p.b; c = p.c; d = p.d }) };
}

/// The plane through three points, with the direction of `(q - p) x (r - p)`.
pub fn plane_through(p: [i64; 3], q: [i64; 3], r: [i64; 3]) -> FacePlane
    requires p_grid { IsWithinGridLimits (point_at p) }
    requires q_grid { IsWithinGridLimits (point_at q) }
    requires r_grid { IsWithinGridLimits (point_at r) }
    ensures { result ≡ plane_of_points (point_at p) (point_at q) (point_at r) }
{
    let a = minor_between(p[1], p[2], q[1], q[2], r[1], r[2]);
    let b = minor_between(p[2], p[0], q[2], q[0], r[2], r[0]);
    let c = minor_between(p[0], p[1], q[0], q[1], r[0], r[1]);
    let d = offset(a, b, c, p[0], p[1], p[2]);
    FacePlane { a, b, c, d }
}

/// The plane with the same numbers.
pub fn of_plane(m: &Plane) -> FacePlane
    ensures { result ≡ m.now }
{
    FacePlane {
        a: m.a,
        b: m.b,
        c: m.c,
        d: m.d,
    }
}

/// The same points, seen from the other side.
pub fn opposite(m: &FacePlane) -> FacePlane
    ensures { result ≡ opposite_of m.now }
{
    FacePlane {
        a: -m.a,
        b: -m.b,
        c: -m.c,
        d: -m.d,
    }
}

/// Whether a direction is not 0.
pub fn has_direction(plane: &FacePlane) -> bool
    ensures some { OnTrue result (HasNoDirection plane.now → ⊥) }
    ensures none { OnFalse result (HasNoDirection plane.now) }
{
    plane.a != 0 || plane.b != 0 || plane.c != 0
}

/// Whether a point is strictly ahead of a plane.
pub fn is_ahead(m: &FacePlane, at: [i64; 3]) -> bool
    requires { IsWithinGridLimits (point_at at) }
    ensures some { OnTrue result (pos 0 <ℤ value m.now (point_at at)) }
    ensures none { OnFalse result (value m.now (point_at at) ≤ℤ pos 0) }
{
    value_at(m, at) > 0
}

/// Whether a plane goes through a point.
pub fn goes_through(m: &FacePlane, at: [i64; 3]) -> bool
    requires { IsWithinGridLimits (point_at at) }
    ensures on { OnTrue result (value m.now (point_at at) ≡ pos 0) }
    ensures off { OnFalse result (value m.now (point_at at) ≡ pos 0 → ⊥) }
{
    value_at(m, at) == 0
}

// The value of a plane at a point: above 0 where the point is ahead.
fn value_at(m: &FacePlane, at: [i64; 3]) -> i64
    requires { IsWithinGridLimits (point_at at) }
    ensures { result ≡ value m.now (point_at at) }
{
    offset(m.a, m.b, m.c, at[0], at[1], at[2]) - m.d
}

/// One part of the cross product `(q - p) x (r - p)`, from two coordinates of each point.
pub fn minor_between(py: i64, pz: i64, qy: i64, qz: i64, ry: i64, rz: i64) -> i64
    requires py_size { unsigned_abs py ≤ 131070 }
    requires pz_size { unsigned_abs pz ≤ 131070 }
    requires qy_size { unsigned_abs qy ≤ 131070 }
    requires qz_size { unsigned_abs qz ≤ 131070 }
    requires ry_size { unsigned_abs ry ≤ 131070 }
    requires rz_size { unsigned_abs rz ≤ 131070 }
    ensures value { result ≡ minor (qy -ℤ py) (qz -ℤ pz) (ry -ℤ py) (rz -ℤ pz) }
    ensures size { unsigned_abs result ≤ 137434759200 }
{
    small_minor(qy - py, qz - pz, ry - py, rz - pz)
}

// `a d - b c` of differences of coordinates.
fn small_minor(a: i64, b: i64, c: i64, d: i64) -> i64
    requires a_size { unsigned_abs a ≤ 262140 }
    requires b_size { unsigned_abs b ≤ 262140 }
    requires c_size { unsigned_abs c ≤ 262140 }
    requires d_size { unsigned_abs d ≤ 262140 }
    ensures value { result ≡ minor a b c d }
    ensures size { unsigned_abs result ≤ 137434759200 }
{
    a * d - b * c
}

// `a x + b y + c z` of a direction and a point.
fn offset(a: i64, b: i64, c: i64, x: i64, y: i64, z: i64) -> i64
    requires a_size { unsigned_abs a ≤ 137434759200 }
    requires b_size { unsigned_abs b ≤ 137434759200 }
    requires c_size { unsigned_abs c ≤ 137434759200 }
    requires x_size { unsigned_abs x ≤ 131070 }
    requires y_size { unsigned_abs y ≤ 131070 }
    requires z_size { unsigned_abs z ≤ 131070 }
    ensures value { result ≡ a *ℤ x +ℤ b *ℤ y +ℤ c *ℤ z }
    ensures size { unsigned_abs result ≤ 54040721665032000 }
{
    a * x + b * y + c * z
}
