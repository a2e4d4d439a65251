//! Points in lowest terms.

ghost use Rattle.std.specs.Prelude.{◌≡◌, ◌+◌, ◌<◌, ◌*ℤ◌, pos, unsigned_abs, IfSome};
ghost use Rattle.std.specs.Int.{IsGcd};
ghost use Rattle.plane_predicate.specs.Space.{IsCommonFactor, IsPointTimes, HasNoCommonFactor};
ghost use Prim.Native.Nat.{◌∣◌};

use plane_predicate::{Point, reduce};
use std::marker::Model;

/// The same point without a common factor above 1 in its four numbers. A whole point has none, and
/// numbers of 64 bits are divided sooner than those of 128 bits.
pub fn lowest_terms(point: &Point) -> Point
    ensures same { IsPointTimes point.now result }
    ensures reduced { HasNoCommonFactor result }
{
    if point.w == 1 {
        return *point;
    }
    match Small::of(point) {
        Some(small) => small.lowest_terms(),
        None => reduce(point),
    }
}

// A point whose four numbers fit 64 bits.
#[derive(Clone, Copy)]
struct Small {
    x: i64,
    y: i64,
    z: i64,
    w: i64,
}

impl Model for Small {
    ghost use Rattle.plane_predicate.specs.Space.{Coordinates, IsPoint};

    ghost Value = { Coordinates };

    ghost view = { λ p. record { x = p.x; y = p.y; z = p.z; w = p.w } };

    ghost inverse = { λ v. record { x = v.x; y = v.y; z = v.z; w = v.w } };

    ghost invariant = { λ p. IsPoint (record { x = p.x; y = p.y; z = p.z; w = p.w }) };
}

impl Small {
    // The same point, where its numbers fit.
    fn of(point: &Point) -> Option<Small>
        ensures { IfSome result (λ small. small ≡ point.now) }
    {
        Some(Small {
            x: i64::try_from(point.x).ok()?,
            y: i64::try_from(point.y).ok()?,
            z: i64::try_from(point.z).ok()?,
            w: i64::try_from(point.w).ok()?,
        })
    }

    // The same point without a common factor above 1 in its four numbers.
    fn lowest_terms(&self) -> Point
        ensures same { IsPointTimes self.now result }
        ensures reduced { HasNoCommonFactor result }
    {
        let by = common_factor(
            self.x.unsigned_abs(),
            self.y.unsigned_abs(),
            self.z.unsigned_abs(),
            self.w.unsigned_abs(),
        );
        Point {
            x: quotient(self.x, by),
            y: quotient(self.y, by),
            z: quotient(self.z, by),
            w: quotient(self.w, by),
        }
    }
}

// A number divided by one of its divisors.
fn quotient(x: i64, by: u64) -> i128
    requires above { 0 < by }
    requires divides { by ∣ unsigned_abs x }
    ensures { x ≡ pos by *ℤ result }
{
    let size = i128::from(x.unsigned_abs() / by);
    if x < 0 { -size } else { size }
}

// The greatest common divisor of four numbers, beginning with the weight, which is often the least.
fn common_factor(x: u64, y: u64, z: u64, w: u64) -> u64
    ensures factor { IsCommonFactor x y z w result }
    ensures above { 0 < x + y + z + w → 0 < result }
{
    let with_x = greatest_divisor(x, w);
    let with_y = greatest_divisor(y, with_x);
    greatest_divisor(z, with_y)
}

// The greatest common divisor of two numbers, by Euclid's algorithm.
fn greatest_divisor(a: u64, b: u64) -> u64
    ensures { IsGcd a b result }
{
    let mut x = a;
    let mut y = b;
    while y != 0 {
        let rest = x % y;
        x = y;
        y = rest;
    }
    x
}
