//! `min` and `max`.

ghost use Rattle.std.specs.Prelude.{◌≡◌, int_lt};
ghost use Rattle.scad_value.specs.Values.{vals_from, and_val, no_vals};
ghost use Rattle.scad_value.specs.Operators.{number_answer};
ghost use Rattle.scad_value.specs.View.{val_of, vals_of, vals_in, MeetsAnswer};
ghost use Rattle.scad_builtin.specs.Builtins.{better_number, best_of, best_number, best_among};
ghost use Rattle.scad_builtin.specs.Rows.{is_before};

use crate::arguments::only;
use scad_value::{Value, ValueStop, Values};
use text_place::FaultKind;

/// Which of several numbers is wanted.
#[derive(Clone, Copy, Debug, PartialEq, Eq)]
pub(crate) enum Wanted {
    Least,
    Greatest,
}

impl Wanted {
    // The wanted one of two numbers.
    fn better(self, left: i64, right: i64) -> i64
        ensures { result ≡ better_number (is_before self) left right }
    {
        match self {
            Wanted::Least => least(left, right),
            Wanted::Greatest => greatest(left, right),
        }
    }
}

// The lesser of two numbers.
fn least(left: i64, right: i64) -> i64
    ensures { result ≡ better_number int_lt left right }
{
    if left < right { left } else { right }
}

// The greater of two numbers.
fn greatest(left: i64, right: i64) -> i64
    ensures { result ≡ better_number (λ a b. int_lt b a) left right }
{
    if left > right { left } else { right }
}

/// The best of the numbers, or of those of the one list.
pub(crate) fn best_among(wanted: Wanted, values: &Values) -> Result<Value, ValueStop>
    ensures { MeetsAnswer result (best_among (is_before wanted) (vals_from (vals_of values.now))) }
{
    match only(values.items()) {
        Some(value) => best_in(wanted, value),
        None => best(wanted, values.items()),
    }
}

// The best of the items of a list, or a number alone.
fn best_in(wanted: Wanted, value: &Value) -> Result<Value, ValueStop>
    ensures { MeetsAnswer result (best_among (is_before wanted)
        (and_val (val_of value.now) no_vals)) }
{
    match value {
        Value::List(values) => best(wanted, values.items()),
        Value::Number(n) => Ok(Value::Number(*n)),
        _ => Err(ValueStop::Kind(FaultKind::TypeMismatch)),
    }
}

// The best of one or more numbers.
fn best(wanted: Wanted, values: &[Value]) -> Result<Value, ValueStop>
    ensures { MeetsAnswer result (best_number (is_before wanted) (vals_from (vals_in values.now))) }
{
    match values {
        [first, rest @ ..] => best_from(wanted, first, rest),
        [] => Err(ValueStop::Kind(FaultKind::TypeMismatch)),
    }
}

// The best of a first value and further ones, which are all numbers.
fn best_from(wanted: Wanted, first: &Value, rest: &[Value]) -> Result<Value, ValueStop>
    ensures { MeetsAnswer result (best_number (is_before wanted)
        (and_val (val_of first.now) (vals_from (vals_in rest.now)))) }
{
    match first {
        Value::Number(n) => Ok(Value::Number(best_of(wanted, *n, rest)?)),
        _ => Err(ValueStop::Kind(FaultKind::TypeMismatch)),
    }
}

// The best of a number and further ones.
fn best_of(wanted: Wanted, first: i64, rest: &[Value]) -> Result<i64, FaultKind>
    ensures { number_answer result ≡ best_of (is_before wanted) first
        (vals_from (vals_in rest.now)) }
{
    let mut best = first;
    for value in rest {
        let Value::Number(n) = value else {
            return Err(FaultKind::TypeMismatch);
        };
        best = wanted.better(best, *n);
    }
    Ok(best)
}
