//! Takes one or two values out of a function's arguments.

ghost use Rattle.std.specs.Prelude.{◌≡◌, [], ◌∷◌, length, MatchOption};
ghost use Rattle.scad_value.specs.View.{val_of, vals_in};

use scad_value::Value;

/// The value, where there is one.
pub(crate) fn only(values: &[Value]) -> Option<&Value>
    ensures { MatchOption result (¬ (length values.now ≡ 1))
        (λ v. vals_in values.now ≡ val_of v.now ∷ []) }
{
    match values {
        [value] => Some(value),
        _ => None,
    }
}

/// The values, where there are two.
pub(crate) fn both(values: &[Value]) -> Option<(&Value, &Value)>
    ensures { MatchOption result (¬ (length values.now ≡ 2))
        (λ p. vals_in values.now ≡ val_of p.0.now ∷ val_of p.1.now ∷ []) }
{
    match values {
        [first, second] => Some((first, second)),
        _ => None,
    }
}
