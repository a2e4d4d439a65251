//! The members `x`, `y` and `z` of lists and texts.

ghost use Rattle.std.specs.Prelude.{◌≡◌, ◌≤ℤ◌, IfSome, pos};
ghost use Rattle.scad_value.specs.Answers.{member_of};

/// What a member's name counts as.
pub fn member_of(name: &[u8]) -> Option<i64>
    ensures value { result ≡ member_of name.now }
    ensures small { IfSome result (λ n. pos 0 ≤ℤ n) }
{
    match name {
        b"x" => Some(0),
        b"y" => Some(1),
        b"z" => Some(2),
        _ => None,
    }
}
