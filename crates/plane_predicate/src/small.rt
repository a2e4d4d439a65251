//! Planes of small numbers.

ghost use Rattle.std.specs.Prelude.{◌≡◌, ◌≤◌, ◌≤ℤ◌, true, pos, unsigned_abs, All};
ghost use Rattle.plane_predicate.specs.Lines.{IsSmall};

use crate::Plane;

// The greatest size of a part of the direction of a small plane.
const MOST_DIRECTION: i64 = 100_000;

// The greatest size of the offset of a small plane.
const MOST_OFFSET: i64 = 100_000_000;

/// Whether a plane's numbers are small: at most 100,000 for `a`, `b` and `c`, and at most 100,000,000 for
/// `d`.
pub fn is_small(m: &Plane) -> bool
    ensures { result ≡ true → IsSmall m.now }
{
    is_within(m.a, MOST_DIRECTION)
        && is_within(m.b, MOST_DIRECTION)
        && is_within(m.c, MOST_DIRECTION)
        && is_within(m.d, MOST_OFFSET)
}

// Whether a number is at most another one in size.
fn is_within(number: i64, most: i64) -> bool
    requires { pos 0 ≤ℤ most }
    ensures { result ≡ true → unsigned_abs number ≤ unsigned_abs most }
{
    -most <= number && number <= most
}

/// Whether all planes of a list are small.
pub fn are_small(planes: &[Plane]) -> bool
    ensures { result ≡ true → All IsSmall planes.now }
{
    for plane in planes {
        if !is_small(plane) {
            return false;
        }
    }
    true
}
