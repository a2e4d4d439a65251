//! Coordinates of images.

ghost use Rattle.std.specs.Prelude.{◌≡◌, ◌≤◌, ◌<◌, ◌*◌, ◌+◌, ◌+ℤ◌, ◌*ℤ◌, unsigned_abs, IfSome, IsNone};
ghost use Rattle.plane_predicate.specs.Space.{point_at};
ghost use Rattle.int_transform.specs.Maps.{row_at, HasSafeCoordinates, IsSafeRow};

use crate::affine::Row;

// 2^53 - 1, the largest size of a number.
const LARGEST: u128 = 9_007_199_254_740_991;

/// A coordinate of the image of a point. `None` exactly where it is past 2^53 - 1 in size.
pub fn safe_value(row: &Row, point: [i64; 3]) -> Option<i64>
    requires row_is { IsSafeRow row.now }
    requires point_is { HasSafeCoordinates (point_at point) }
    ensures some { IfSome result (λ v. (v ≡ row_at row.now (point_at point))
        × (unsigned_abs v ≤ 9007199254740991)) }
    ensures none { IsNone result →
        9007199254740991 < unsigned_abs (row_at row.now (point_at point)) }
{
    let [x, y, z] = point;
    let sum = sum_of(
        product(row.a, x),
        product(row.b, y),
        product(row.c, z),
        i128::from(row.d),
    );
    if sum.unsigned_abs() > LARGEST {
        return None;
    }
    Some(sum as i64)
}

// The product of two numbers that are at most 2^53 - 1 in size.
fn product(a: i64, b: i64) -> i128
    requires a_size { unsigned_abs a ≤ 9007199254740991 }
    requires b_size { unsigned_abs b ≤ 9007199254740991 }
    ensures value { result ≡ a *ℤ b }
    ensures size { unsigned_abs result ≤ 9007199254740991 * 9007199254740991 }
{
    i128::from(a) * i128::from(b)
}

// The sum of four numbers.
fn sum_of(a: i128, b: i128, c: i128, d: i128) -> i128
    requires a_size { unsigned_abs a ≤ 9007199254740991 * 9007199254740991 }
    requires b_size { unsigned_abs b ≤ 9007199254740991 * 9007199254740991 }
    requires c_size { unsigned_abs c ≤ 9007199254740991 * 9007199254740991 }
    requires d_size { unsigned_abs d ≤ 9007199254740991 * 9007199254740991 }
    ensures { result ≡ a +ℤ b +ℤ c +ℤ d }
{
    a + b + c + d
}
