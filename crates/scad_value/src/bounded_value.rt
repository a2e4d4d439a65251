//! A value that keeps the limits of values.

ghost use Rattle.std.specs.Prelude.{IsTrue};
ghost use Rattle.scad_value.specs.Values.{is_bounded};
ghost use Rattle.scad_value.specs.View.{val_of};

use crate::value::Value;

/// A value that is bounded, which its type keeps.
#[derive(Drop)]
pub struct BoundedValue {
    pub value: Value,
    ghost bounded: { IsTrue (is_bounded (val_of value)) },
}
