//! Sums and products of numbers whose sizes are known.

ghost use Rattle.std.specs.Prelude.{◌≡◌, ◌+◌, ◌*◌, ◌^◌, ◌<◌, ◌≤◌, ◌+ℤ◌, ◌-ℤ◌, ◌*ℤ◌, unsigned_abs};
ghost use Rattle.plane_predicate.specs.Space.{minor};
ghost use Rattle.plane_predicate.specs.Lines.{small_direction, small_offset};

#[tactic(auto, using(crate::proofs::lemmas::Sizes::size_times))]
pub fn times(a: i64, b: i64) -> i64
    requires { unsigned_abs a * unsigned_abs b < 2 ^ 63 }
    ensures value { result ≡ a *ℤ b }
    ensures size { unsigned_abs result ≤ unsigned_abs a * unsigned_abs b }
{
    a * b
}

#[tactic(auto, using(crate::proofs::lemmas::Sizes::size_sum))]
pub fn plus(a: i64, b: i64) -> i64
    requires { unsigned_abs a + unsigned_abs b < 2 ^ 63 }
    ensures value { result ≡ a +ℤ b }
    ensures size { unsigned_abs result ≤ unsigned_abs a + unsigned_abs b }
{
    a + b
}

#[tactic(auto, using(crate::proofs::lemmas::Sizes::size_difference))]
pub fn minus(a: i64, b: i64) -> i64
    requires { unsigned_abs a + unsigned_abs b < 2 ^ 63 }
    ensures value { result ≡ a -ℤ b }
    ensures size { unsigned_abs result ≤ unsigned_abs a + unsigned_abs b }
{
    a - b
}

/// `a x + b y + c z`
pub fn dot(a: i64, b: i64, c: i64, x: i64, y: i64, z: i64) -> i64
    requires { unsigned_abs a * unsigned_abs x + unsigned_abs b * unsigned_abs y
        + unsigned_abs c * unsigned_abs z < 2 ^ 63 }
    ensures value { result ≡ a *ℤ x +ℤ b *ℤ y +ℤ c *ℤ z }
    ensures size { unsigned_abs result ≤ unsigned_abs a * unsigned_abs x
        + unsigned_abs b * unsigned_abs y + unsigned_abs c * unsigned_abs z }
{
    plus(plus(times(a, x), times(b, y)), times(c, z))
}

/// `a d - b c` of parts of the directions of small planes.
pub fn cross_part(a: i64, b: i64, c: i64, d: i64) -> i64
    requires a_size { unsigned_abs a ≤ small_direction }
    requires b_size { unsigned_abs b ≤ small_direction }
    requires c_size { unsigned_abs c ≤ small_direction }
    requires d_size { unsigned_abs d ≤ small_direction }
    ensures value { result ≡ minor a b c d }
    ensures size { unsigned_abs result ≤ 2 * (small_direction * small_direction) }
{
    minus(times(a, d), times(b, c))
}

/// `d b - a e` of the offsets `d` and `e` of small planes and of parts `a` and `b` of their directions.
pub fn offset_part(d: i64, a: i64, e: i64, b: i64) -> i64
    requires d_size { unsigned_abs d ≤ small_offset }
    requires a_size { unsigned_abs a ≤ small_direction }
    requires e_size { unsigned_abs e ≤ small_offset }
    requires b_size { unsigned_abs b ≤ small_direction }
    ensures value { result ≡ minor d a e b }
    ensures size { unsigned_abs result ≤ 2 * (small_direction * small_offset) }
{
    minus(times(d, b), times(a, e))
}
