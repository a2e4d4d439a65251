//! Where three planes meet, and on which side of a fourth.

ghost use Rattle.std.specs.Prelude.{◌≡◌, ◌≢◌, ◌↔◌, ◌*◌, ◌≤◌, ◌<◌, ◌^◌, ◌*ℤ◌, ◌+ℤ◌, ◌-ℤ◌, pos, unsigned_abs, IfSome, IsNone};
ghost use Rattle.plane_predicate.specs.Space.{minor, meeting_by_cramers_rule, meeting, value, most_direction, most_offset, opposite_of};
ghost use Rattle.plane_predicate.specs.Space.{with_weight_above_zero, HaveSamePoints};
ghost use Rattle.plane_predicate.specs.Sides.{side_of, value_signed_by};

use crate::arithmetic::{dot, minor_of, minors_dot, minus, times};
use crate::{Plane, Point, Side};
use std::marker::Model;

/// The same points, seen from the other side: all four signs are changed.
pub fn opposite(p: &Plane) -> Plane
    ensures numbers { result ≡ opposite_of p.now }
    ensures points { HaveSamePoints result p.now }
{
    Plane {
        a: -p.a,
        b: -p.b,
        c: -p.c,
        d: -p.d,
    }
}

/// The common point of three planes, not reduced. `None` exactly where their directions are
/// dependent.
pub fn meet(p: &Plane, q: &Plane, r: &Plane) -> Option<Point>
    ensures found { IfSome result (λ v. v ≡ meeting p.now q.now r.now) }
    ensures on { IfSome result (λ v. (value p.now v ≡ pos 0) × (value q.now v ≡ pos 0)
        × (value r.now v ≡ pos 0)) }
    ensures none { IsNone result ↔ (meeting_by_cramers_rule p.now q.now r.now).w ≡ pos 0 }
{
    let at = cramer_of(p, q, r);
    if at.w == 0 { None } else { Some(point_of(&at)) }
}

/// The side of `s` on which the meeting of `p`, `q` and `r` lies.
pub fn side(p: &Plane, q: &Plane, r: &Plane, s: &Plane) -> Side
    requires { (meeting_by_cramers_rule p.now q.now r.now).w ≢ pos 0 }
    ensures { result ≡ side_of (value s.now (meeting p.now q.now r.now)) }
{
    let at = cramer_of(p, q, r);
    side_by(at.w, value_at(s, &at))
}

/// The side of `m` on which a point lies.
pub fn point_side(m: &Plane, point: &Point) -> Side
    ensures { result ≡ side_of (value m.now point.now) }
{
    let at = Cramer {
        x: point.x,
        y: point.y,
        z: point.z,
        w: point.w,
    };
    side_by(at.w, value_at(m, &at))
}

// The cross product of two directions.
#[derive(Clone, Copy)]
struct Cross {
    a: i64,
    b: i64,
    c: i64,
}

// The cross product of the directions of two planes.
fn cross_of(p: &Plane, q: &Plane) -> Cross
    ensures a { result.a ≡ minor p.now.b p.now.c q.now.b q.now.c }
    ensures b { result.b ≡ minor p.now.c p.now.a q.now.c q.now.a }
    ensures c { result.c ≡ minor p.now.a p.now.b q.now.a q.now.b }
    ensures a_size { unsigned_abs result.a ≤ 2 * (most_direction * most_direction) }
    ensures b_size { unsigned_abs result.b ≤ 2 * (most_direction * most_direction) }
    ensures c_size { unsigned_abs result.c ≤ 2 * (most_direction * most_direction) }
{
    Cross {
        a: minor_of(p.b, p.c, q.b, q.c),
        b: minor_of(p.c, p.a, q.c, q.a),
        c: minor_of(p.a, p.b, q.a, q.b),
    }
}

// What Cramer's rule gives for three planes: the numbers of their meeting, with a `w` that is 0 or
// has either sign.
#[derive(Clone, Copy)]
struct Cramer {
    x: i128,
    y: i128,
    z: i128,
    w: i128,
}

impl Model for Cramer {
    ghost use Rattle.plane_predicate.specs.Space.{Coordinates, HasMeetingSizes};

    ghost Value = { Coordinates };

    ghost view = { λ p. record { x = p.x; y = p.y; z = p.z; w = p.w } };

    ghost inverse = { λ v. record { x = v.x; y = v.y; z = v.z; w = v.w } };

    ghost invariant = { λ p. HasMeetingSizes (record { x = p.x; y = p.y; z = p.z; w = p.w }) };
}

// Cramer's rule.
fn cramer_of(p: &Plane, q: &Plane, r: &Plane) -> Cramer
    ensures { result ≡ meeting_by_cramers_rule p.now q.now r.now }
{
    let first = cross_of(q, r);
    let second = cross_of(r, p);
    let third = cross_of(p, q);
    Cramer {
        x: minors_dot(p.d, q.d, r.d, first.a, second.a, third.a),
        y: minors_dot(p.d, q.d, r.d, first.b, second.b, third.b),
        z: minors_dot(p.d, q.d, r.d, first.c, second.c, third.c),
        w: minors_dot(p.a, p.b, p.c, first.a, first.b, first.c),
    }
}

// The value of a plane at what Cramer's rule gives.
fn value_at(m: &Plane, at: &Cramer) -> i128
    ensures value { result ≡ value m.now at.now }
    ensures size { unsigned_abs result < 2 ^ 127 }
{
    value_of(
        i128::from(m.a),
        i128::from(m.b),
        i128::from(m.c),
        i128::from(m.d),
        at,
    )
}

// `a x + b y + c z - d w`
fn value_of(a: i128, b: i128, c: i128, d: i128, at: &Cramer) -> i128
    requires a_size { unsigned_abs a ≤ most_direction }
    requires b_size { unsigned_abs b ≤ most_direction }
    requires c_size { unsigned_abs c ≤ most_direction }
    requires d_size { unsigned_abs d ≤ most_offset }
    ensures value { result ≡ value (record { a = a; b = b; c = c; d = d }) at.now }
    ensures size { unsigned_abs result < 2 ^ 127 }
{
    let high = dot(a, b, c, at.x, at.y, at.z);
    let low = times(d, at.w);
    minus(high, low)
}

// The point with these numbers, and with its `w` above 0.
fn point_of(at: &Cramer) -> Point
    requires { at.now.w ≢ pos 0 }
    ensures { result ≡ with_weight_above_zero at.now.w at.now }
{
    if at.w < 0 {
        Point {
            x: -at.x,
            y: -at.y,
            z: -at.z,
            w: -at.w,
        }
    } else {
        Point {
            x: at.x,
            y: at.y,
            z: at.z,
            w: at.w,
        }
    }
}

// The side that a value says, where the point was taken with the sign of `w`.
fn side_by(w: i128, value: i128) -> Side
    requires { unsigned_abs value < 2 ^ 127 }
    ensures { result ≡ side_of (value_signed_by w value) }
{
    let turned = if w < 0 { -value } else { value };
    if turned < 0 {
        Side::Behind
    } else if turned == 0 {
        Side::On
    } else {
        Side::Ahead
    }
}
