//! Whether each of some values keeps the limits of values.

ghost use Rattle.std.specs.Prelude.{◌≡◌};
ghost use Rattle.scad_value.specs.View.{vals_of, vals_in};
ghost use Rattle.scad_builtin.specs.Builtins.{are_bounded};

use scad_value::{Value, Values};

/// Whether each of the values is bounded, as the functions want it.
pub fn are_bounded(values: &Values) -> bool
    ensures { result ≡ are_bounded (vals_of values.now) }
{
    each_is_bounded(values.items())
}

// Whether each of these is bounded.
fn each_is_bounded(values: &[Value]) -> bool
    ensures { result ≡ are_bounded (vals_in values.now) }
{
    for value in values {
        if !value.is_bounded() {
            return false;
        }
    }
    true
}
