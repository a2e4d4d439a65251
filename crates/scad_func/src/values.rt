//! A list of values that keep the limits of values.

ghost use Rattle.std.specs.Prelude.{◌≡◌, [], IsTrue};
ghost use Rattle.scad_value.specs.View.{vals_in};
ghost use Rattle.scad_builtin.specs.Builtins.{are_bounded};

use scad_value::{BoundedValue, Value, value_alone, with_next};
use std::alloc::Global;
use text_place::Stop;

/// Values, each of them bounded, which their type keeps.
#[derive(Drop)]
pub struct BoundedValues {
    pub items: Vec<Value>,
    ghost bounded: { IsTrue (are_bounded (vals_in items.items)) },
}

impl BoundedValues {
    ghost use Rattle.scad_func.specs.View.{IsOneMore};

    /// No values.
    pub fn new(alloc: Global) -> BoundedValues
        ensures { result.items.items ≡ [] }
    {
        BoundedValues {
            items: Vec::new(alloc),
        }
    }

    /// One value more, where there is one; else its stop, as it is.
    pub fn with_next(self, next: Result<BoundedValue, Stop>) -> Result<BoundedValues, Stop>
        ensures { IsOneMore self next result }
    {
        let BoundedValues { items } = self;
        let next = value_alone(next);
        match with_next(items, next) {
            Ok(items) => Ok(BoundedValues { items }),
            Err(stop) => Err(stop),
        }
    }
}
