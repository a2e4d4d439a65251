//! Sums and products of numbers whose sizes are known.

ghost use Rattle.std.specs.Prelude.{◌≡◌, ◌+◌, ◌*◌, ◌^◌, ◌<◌, ◌≤◌, ◌+ℤ◌, ◌-ℤ◌, ◌*ℤ◌, unsigned_abs};
ghost use Rattle.plane_predicate.specs.Space.{minor, most_direction, most_offset};

#[tactic(auto, using(crate::proofs::lemmas::Sizes::size_times))]
pub fn times(a: i128, b: i128) -> i128
    requires { unsigned_abs a * unsigned_abs b < 2 ^ 127 }
    ensures value { result ≡ a *ℤ b }
    ensures size { unsigned_abs result ≤ unsigned_abs a * unsigned_abs b }
{
    a * b
}

#[tactic(auto, using(crate::proofs::lemmas::Sizes::size_sum))]
pub fn plus(a: i128, b: i128) -> i128
    requires { unsigned_abs a + unsigned_abs b < 2 ^ 127 }
    ensures value { result ≡ a +ℤ b }
    ensures size { unsigned_abs result ≤ unsigned_abs a + unsigned_abs b }
{
    a + b
}

#[tactic(auto, using(crate::proofs::lemmas::Sizes::size_difference))]
pub fn minus(a: i128, b: i128) -> i128
    requires { unsigned_abs a + unsigned_abs b < 2 ^ 127 }
    ensures value { result ≡ a -ℤ b }
    ensures size { unsigned_abs result ≤ unsigned_abs a + unsigned_abs b }
{
    a - b
}

/// `a x + b y + c z`
pub fn dot(a: i128, b: i128, c: i128, x: i128, y: i128, z: i128) -> i128
    requires { unsigned_abs a * unsigned_abs x + unsigned_abs b * unsigned_abs y
        + unsigned_abs c * unsigned_abs z < 2 ^ 127 }
    ensures value { result ≡ a *ℤ x +ℤ b *ℤ y +ℤ c *ℤ z }
    ensures size { unsigned_abs result ≤ unsigned_abs a * unsigned_abs x
        + unsigned_abs b * unsigned_abs y + unsigned_abs c * unsigned_abs z }
{
    plus(plus(times(a, x), times(b, y)), times(c, z))
}

/// `a d - b c` of parts of directions.
pub fn minor_of(a: i64, b: i64, c: i64, d: i64) -> i64
    requires a_size { unsigned_abs a ≤ most_direction }
    requires b_size { unsigned_abs b ≤ most_direction }
    requires c_size { unsigned_abs c ≤ most_direction }
    requires d_size { unsigned_abs d ≤ most_direction }
    ensures value { result ≡ minor a b c d }
    ensures size { unsigned_abs result ≤ 2 * (most_direction * most_direction) }
{
    a * d - b * c
}

/// `a x + b y + c z` of numbers of planes and minors of directions.
pub fn minors_dot(a: i64, b: i64, c: i64, x: i64, y: i64, z: i64) -> i128
    requires a_size { unsigned_abs a ≤ most_offset }
    requires b_size { unsigned_abs b ≤ most_offset }
    requires c_size { unsigned_abs c ≤ most_offset }
    requires x_size { unsigned_abs x ≤ 2 * (most_direction * most_direction) }
    requires y_size { unsigned_abs y ≤ 2 * (most_direction * most_direction) }
    requires z_size { unsigned_abs z ≤ 2 * (most_direction * most_direction) }
    ensures value { result ≡ a *ℤ x +ℤ b *ℤ y +ℤ c *ℤ z }
    ensures size { unsigned_abs result ≤ unsigned_abs a * unsigned_abs x
        + unsigned_abs b * unsigned_abs y + unsigned_abs c * unsigned_abs z }
{
    dot(
        i128::from(a),
        i128::from(b),
        i128::from(c),
        i128::from(x),
        i128::from(y),
        i128::from(z),
    )
}
