//! The built-in functions: how many arguments each takes, and its value of them.

ghost use Rattle.std.specs.Prelude.{◌≡◌, IsTrue};
ghost use Rattle.scad_value.specs.Values.{vals_from};
ghost use Rattle.scad_value.specs.View.{val_of, vals_of, MeetsAnswer, GivesBounded};
ghost use Rattle.scad_builtin.specs.Builtins.{takes_count, builtin_value, of_one, are_bounded};
ghost use Rattle.scad_builtin.specs.Rows.{value_row};

use crate::arguments::only;
use crate::best::{Wanted, best_among};
use crate::list::{concat, length};
use crate::number::{NumberRow, of_number, power};
use scad_value::{Value, ValueStop, Values};
use std::alloc::Global;
use text_place::FaultKind;

/// A built-in function.
#[derive(Clone, Copy, PartialEq, Eq)]
pub enum Builtin {
    Abs,
    Sign,
    Floor,
    Ceil,
    Round,
    Min,
    Max,
    Len,
    Concat,
    Pow,
    IsUndef,
    IsNum,
    IsBool,
    IsList,
}

impl Builtin {
    /// Whether the function takes the given number of arguments.
    pub fn takes(self, count: usize) -> bool
        ensures { result ≡ takes_count self count }
    {
        match self {
            Builtin::Min | Builtin::Max => count > 0,
            Builtin::Concat => true,
            Builtin::Pow => count == 2,
            _ => count == 1,
        }
    }

    /// The function's value of its arguments' values, which are moved into it, or its first fault:
    /// TypeMismatch, then ZeroDivisor, NotWhole and TooLarge, or LongList. Another number of values
    /// than the function takes is TypeMismatch.
    pub fn apply(self, alloc: Global, values: Values) -> Result<Value, ValueStop>
        requires { IsTrue (are_bounded (vals_of values)) }
        ensures value { MeetsAnswer result (builtin_value self (vals_from (vals_of values))) }
        ensures bounded { GivesBounded result }
    {
        self.value_of(alloc, values)
    }

    // The value by the table of functions. That it is bounded follows from its definition.
    fn value_of(self, alloc: Global, values: Values) -> Result<Value, ValueStop>
        ensures { MeetsAnswer result (builtin_value self (vals_from (vals_of values))) }
    {
        match self {
            Builtin::Min => best_among(Wanted::Least, &values),
            Builtin::Max => best_among(Wanted::Greatest, &values),
            Builtin::Concat => concat(alloc, values),
            Builtin::Pow => power(&values),
            _ => self.of_only(&values),
        }
    }

    // The value of a function of one value, or TypeMismatch where there is another number.
    fn of_only(self, values: &Values) -> Result<Value, ValueStop>
        ensures { MeetsAnswer result (of_one (value_row self) (vals_from (vals_of values.now))) }
    {
        match only(values.items()) {
            Some(value) => self.of_one(value),
            None => Err(ValueStop::Kind(FaultKind::TypeMismatch)),
        }
    }

    // The value by the rows of functions of one value.
    fn of_one(self, value: &Value) -> Result<Value, ValueStop>
        ensures { MeetsAnswer result (value_row self (val_of value.now)) }
    {
        match self {
            Builtin::Abs => of_number(NumberRow::Size, value),
            Builtin::Sign => of_number(NumberRow::Direction, value),
            Builtin::Floor | Builtin::Ceil | Builtin::Round => of_number(NumberRow::Itself, value),
            Builtin::Len => length(value),
            Builtin::IsUndef => Ok(Value::Truth(matches!(value, Value::Undef))),
            Builtin::IsNum => Ok(Value::Truth(matches!(value, Value::Number(_)))),
            Builtin::IsBool => Ok(Value::Truth(matches!(value, Value::Truth(_)))),
            Builtin::IsList => Ok(Value::Truth(matches!(value, Value::List(_)))),
            _ => Err(ValueStop::Kind(FaultKind::TypeMismatch)),
        }
    }
}
