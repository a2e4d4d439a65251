//! Where planes meet a line.

ghost use Rattle.std.specs.Prelude.{◌≡◌, ◌-ℤ◌, ◌*ℤ◌};
ghost use Rattle.plane_predicate.specs.Space.{Coefficients, meeting_by_cramers_rule, value};
ghost use Rattle.plane_predicate.specs.Sides.{side_of};
ghost use Rattle.plane_predicate.specs.Lines.{Axis, IsAxisOf, IsLinePlaceOf, IsSmall};

use crate::small_arithmetic::{dot, minus, times};
use crate::{Line, Plane, Side};

/// The place at which a plane meets a line.
#[derive(Clone, Copy)]
pub struct Place {
    /// The value of the plane at the line's point.
    pub at: i64,
    /// The product of the plane's direction with the line's.
    pub along: i64,
}

/// The place at which a small plane meets a line.
pub fn place_on(line: &Line, m: &Plane) -> Place
    requires { IsSmall m.now }
    ensures { IsLinePlaceOf m.now line.now result }
{
    let high = dot(m.a, m.b, m.c, line.x, line.y, line.z);
    let low = times(m.d, line.w);
    Place {
        at: minus(high, low),
        along: dot(m.a, m.b, m.c, line.a, line.b, line.c),
    }
}

/// The side of a plane on which another one meets two more, by the places of these two on the line in
/// which the first two meet. It is that of what Cramer's rule gives, whatever the sign of its `w`.
pub fn side_between(ends: Place, begins: Place) -> Side
    ensures { (p m q r : Coefficients) (line : Axis) → IsAxisOf p m line → IsLinePlaceOf q line ends →
        IsLinePlaceOf r line begins → result ≡ side_of (value m (meeting_by_cramers_rule p q r)) }
{
    side_past(
        product(begins.at, ends.along),
        product(ends.at, begins.along),
    )
}

// `a b`
fn product(a: i64, b: i64) -> i128
    ensures { result ≡ a *ℤ b }
{
    i128::from(a) * i128::from(b)
}

// The side of a number on which another one lies.
fn side_past(number: i128, other: i128) -> Side
    ensures { result ≡ side_of (number -ℤ other) }
{
    if number < other {
        Side::Behind
    } else if number == other {
        Side::On
    } else {
        Side::Ahead
    }
}
