//! The line in which two planes meet.

ghost use Rattle.std.specs.Prelude.{◌≡◌, ◌≢◌, ◌≤◌, ◌*◌, pos, unsigned_abs, IfSome};
ghost use Rattle.plane_predicate.specs.Space.{minor, with_weight_above_zero};
ghost use Rattle.plane_predicate.specs.Lines.{small_direction, small_offset, HasDirectionSizes, IsAxisOf, IsOnBoth, IsSmall};

use crate::Plane;
use crate::small_arithmetic::{cross_part, offset_part};
use std::marker::Model;

/// A line, as its direction `(a, b, c)` and the point `(x / w, y / w, z / w)` of it.
#[derive(Clone, Copy)]
pub struct Line {
    pub a: i64,
    pub b: i64,
    pub c: i64,
    pub x: i64,
    pub y: i64,
    pub z: i64,
    pub w: i64,
}

impl Model for Line {
    ghost use Rattle.plane_predicate.specs.Lines.{Axis, HasAxisSizes};

    ghost Value = { Axis };

    ghost view = { λ l. record {
      a = l.a;
      b = l.b;
      c = l.c;
      point = record { x = l.x; y = l.y; z = l.z; w = l.w };
    } };

    ghost inverse = { λ v. record {
      a = v.a;
      b = v.b;
      c = v.c;
      x = v.point.x;
      y = v.point.y;
      z = v.point.z;
      w = v.point.w;
    } };

    ghost invariant = { λ l. HasAxisSizes (record {
      a = l.a;
      b = l.b;
      c = l.c;
      point = record { x = l.x; y = l.y; z = l.z; w = l.w };
    }) };
}

// The point `(x / w, y / w, z / w)` of a line.
#[derive(Clone, Copy)]
struct Spot {
    x: i64,
    y: i64,
    z: i64,
    w: i64,
}

impl Model for Spot {
    ghost use Rattle.plane_predicate.specs.Space.{Coordinates};
    ghost use Rattle.plane_predicate.specs.Lines.{HasSpotSizes};

    ghost Value = { Coordinates };

    ghost view = { λ p. record { x = p.x; y = p.y; z = p.z; w = p.w } };

    ghost inverse = { λ v. record { x = v.x; y = v.y; z = v.z; w = v.w } };

    ghost invariant = { λ p. HasSpotSizes (record { x = p.x; y = p.y; z = p.z; w = p.w }) };
}

/// The line in which two small planes meet. `None` is no promise: it is where they are parallel.
pub fn line_of(p: &Plane, m: &Plane) -> Option<Line>
    requires first { IsSmall p.now }
    requires second { IsSmall m.now }
    ensures { IfSome result (IsAxisOf p.now m.now) }
{
    let a = cross_part(p.b, p.c, m.b, m.c);
    let b = cross_part(p.c, p.a, m.c, m.a);
    let c = cross_part(p.a, p.b, m.a, m.b);
    let point = spot_on(p, m, a, b, c)?;
    Some(Line {
        a,
        b,
        c,
        x: point.x,
        y: point.y,
        z: point.z,
        w: point.w,
    })
}

// A point on two planes, by the cross product of their directions.
fn spot_on(p: &Plane, m: &Plane, a: i64, b: i64, c: i64) -> Option<Spot>
    requires first { IsSmall p.now }
    requires second { IsSmall m.now }
    requires sizes { HasDirectionSizes a b c }
    requires a { a ≡ minor p.now.b p.now.c m.now.b m.now.c }
    requires b { b ≡ minor p.now.c p.now.a m.now.c m.now.a }
    requires c { c ≡ minor p.now.a p.now.b m.now.a m.now.b }
    ensures { IfSome result (IsOnBoth p.now m.now) }
{
    if a != 0 {
        Some(at_no_x(p, m, a))
    } else if b != 0 {
        Some(at_no_y(p, m, b))
    } else if c != 0 {
        Some(at_no_z(p, m, c))
    } else {
        None
    }
}

// The point at which two planes meet the plane x = 0.
fn at_no_x(p: &Plane, m: &Plane, w: i64) -> Spot
    requires first { IsSmall p.now }
    requires second { IsSmall m.now }
    requires w { w ≡ minor p.now.b p.now.c m.now.b m.now.c }
    requires size { unsigned_abs w ≤ 2 * (small_direction * small_direction) }
    requires apart { w ≢ pos 0 }
    ensures { IsOnBoth p.now m.now result }
{
    let y = offset_part(p.d, p.c, m.d, m.c);
    let z = offset_part(m.d, m.b, p.d, p.b);
    spot_of(0, y, z, w)
}

// The point at which two planes meet the plane y = 0.
fn at_no_y(p: &Plane, m: &Plane, w: i64) -> Spot
    requires first { IsSmall p.now }
    requires second { IsSmall m.now }
    requires w { w ≡ minor p.now.c p.now.a m.now.c m.now.a }
    requires size { unsigned_abs w ≤ 2 * (small_direction * small_direction) }
    requires apart { w ≢ pos 0 }
    ensures { IsOnBoth p.now m.now result }
{
    let x = offset_part(m.d, m.c, p.d, p.c);
    let z = offset_part(p.d, p.a, m.d, m.a);
    spot_of(x, 0, z, w)
}

// The point at which two planes meet the plane z = 0.
fn at_no_z(p: &Plane, m: &Plane, w: i64) -> Spot
    requires first { IsSmall p.now }
    requires second { IsSmall m.now }
    requires w { w ≡ minor p.now.a p.now.b m.now.a m.now.b }
    requires size { unsigned_abs w ≤ 2 * (small_direction * small_direction) }
    requires apart { w ≢ pos 0 }
    ensures { IsOnBoth p.now m.now result }
{
    let x = offset_part(p.d, p.b, m.d, m.b);
    let y = offset_part(m.d, m.a, p.d, p.a);
    spot_of(x, y, 0, w)
}

// The point with these numbers, and with its `w` above 0.
fn spot_of(x: i64, y: i64, z: i64, w: i64) -> Spot
    requires x_size { unsigned_abs x ≤ 2 * (small_direction * small_offset) }
    requires y_size { unsigned_abs y ≤ 2 * (small_direction * small_offset) }
    requires z_size { unsigned_abs z ≤ 2 * (small_direction * small_offset) }
    requires w_size { unsigned_abs w ≤ 2 * (small_direction * small_direction) }
    requires apart { w ≢ pos 0 }
    ensures { result ≡ with_weight_above_zero w (record { x = x; y = y; z = z; w = w }) }
{
    if w < 0 {
        Spot {
            x: -x,
            y: -y,
            z: -z,
            w: -w,
        }
    } else {
        Spot { x, y, z, w }
    }
}
