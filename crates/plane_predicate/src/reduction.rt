//! Numbers without a common factor.

ghost use Rattle.std.specs.Prelude.{◌≡◌, ◌+◌, ◌*◌, ◌^◌, ◌≤◌, ◌<◌, ◌*ℤ◌, pos, unsigned_abs};
ghost use Rattle.std.specs.Int.{IsGcd};
ghost use Rattle.plane_predicate.specs.Space.{IsCommonFactor, AreQuotients, IsPointTimes, HasNoCommonFactor};
ghost use Prim.Native.Nat.{◌∣◌};

use crate::{Plane, Point};

/// The same point without a common factor above 1 in its four numbers.
pub fn reduce(p: &Point) -> Point
    ensures same { IsPointTimes p.now result }
    ensures reduced { HasNoCommonFactor result }
{
    let least = quotients(p.x, p.y, p.z, p.w);
    Point {
        x: least.x,
        y: least.y,
        z: least.z,
        w: least.w,
    }
}

/// Four numbers without a common factor.
#[derive(Clone, Copy)]
pub struct Reduced {
    pub x: i128,
    pub y: i128,
    pub z: i128,
    pub w: i128,
}

/// Four numbers divided by their greatest common divisor.
pub fn quotients(x: i128, y: i128, z: i128, w: i128) -> Reduced
    requires some { 0 < unsigned_abs x + unsigned_abs y + unsigned_abs z + unsigned_abs w }
    requires x_size { unsigned_abs x < 2 ^ 127 }
    requires y_size { unsigned_abs y < 2 ^ 127 }
    requires z_size { unsigned_abs z < 2 ^ 127 }
    requires w_size { unsigned_abs w < 2 ^ 127 }
    ensures { AreQuotients x y z w result.x result.y result.z result.w }
{
    let by = common_factor(
        x.unsigned_abs(),
        y.unsigned_abs(),
        z.unsigned_abs(),
        w.unsigned_abs(),
    );
    Reduced {
        x: divided(x, by),
        y: divided(y, by),
        z: divided(z, by),
        w: divided(w, by),
    }
}

// The greatest common divisor of two numbers, by Euclid's algorithm.
fn greatest_divisor(a: u128, b: u128) -> u128
    ensures { IsGcd a b result }
{
    let mut x = a;
    let mut y = b;
    while y != 0 {
        let rest = x % y;
        x = y;
        y = rest;
    }
    x
}

// The greatest common divisor of four numbers.
fn common_factor(x: u128, y: u128, z: u128, w: u128) -> u128
    ensures factor { IsCommonFactor x y z w result }
    ensures above { 0 < x + y + z + w → 0 < result }
{
    greatest_divisor(greatest_divisor(x, y), greatest_divisor(z, w))
}

// A number divided by one of its divisors.
fn divided(x: i128, by: u128) -> i128
    requires above { 0 < by }
    requires divides { by ∣ unsigned_abs x }
    requires size { unsigned_abs x < 2 ^ 127 }
    ensures { x ≡ pos by *ℤ result }
{
    let size = x.unsigned_abs() / by;
    if x < 0 { -(size as i128) } else { size as i128 }
}
