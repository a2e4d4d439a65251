//! Built-in functions of one number, and powers.

ghost use Rattle.std.specs.Prelude.{◌≡◌, ◌≤◌, ◌<ℤ◌, pos, negsuc, unsigned_abs};
ghost use Rattle.scad_value.specs.Values.{vals_from};
ghost use Rattle.scad_value.specs.Operators.{number_or_too_large};
ghost use Rattle.scad_value.specs.View.{val_of, vals_of, MeetsAnswer};
ghost use Rattle.scad_builtin.specs.Builtins.{of_number, of_two, power, power_of_values, power_row};
ghost use Rattle.scad_builtin.specs.Rows.{number_row};

use crate::arguments::both;
use scad_value::{Value, ValueStop, Values, number_or_too_large, product_of_two};
use text_place::FaultKind;

/// What is done with one number.
#[derive(Clone, Copy, Debug, PartialEq, Eq)]
pub(crate) enum NumberRow {
    /// Its size.
    Size,
    /// -1, 0 or 1.
    Direction,
    Itself,
}

impl NumberRow {
    // The row of a number.
    fn of(self, n: i64) -> Result<i64, FaultKind>
        ensures { result ≡ number_row self n }
    {
        match self {
            NumberRow::Size => count(n.unsigned_abs()),
            NumberRow::Direction => Ok(n.signum()),
            NumberRow::Itself => Ok(n),
        }
    }
}

/// A count as a number, unless it is too large.
pub(crate) fn count(n: u64) -> Result<i64, FaultKind>
    ensures { result ≡ number_or_too_large (pos n) }
{
    number_or_too_large(n as i128)
}

/// What is done with a number.
pub(crate) fn of_number(row: NumberRow, value: &Value) -> Result<Value, ValueStop>
    ensures { MeetsAnswer result (of_number (number_row row) (val_of value.now)) }
{
    match value {
        Value::Number(n) => Ok(Value::Number(row.of(*n)?)),
        _ => Err(ValueStop::Kind(FaultKind::TypeMismatch)),
    }
}

/// The power of two numbers.
pub(crate) fn power(values: &Values) -> Result<Value, ValueStop>
    ensures { MeetsAnswer result (of_two power_of_values (vals_from (vals_of values.now))) }
{
    match both(values.items()) {
        Some((base, exponent)) => power_of_values(base, exponent),
        None => Err(ValueStop::Kind(FaultKind::TypeMismatch)),
    }
}

// The power of two values, which are numbers, or TypeMismatch.
fn power_of_values(base: &Value, exponent: &Value) -> Result<Value, ValueStop>
    ensures { MeetsAnswer result (power_of_values (val_of base.now) (val_of exponent.now)) }
{
    match (base, exponent) {
        (Value::Number(b), Value::Number(e)) => Ok(Value::Number(power_row(*b, *e)?)),
        _ => Err(ValueStop::Kind(FaultKind::TypeMismatch)),
    }
}

// The power of two whole numbers, or its fault.
fn power_row(base: i64, exponent: i64) -> Result<i64, FaultKind>
    ensures { result ≡ power_row base exponent }
{
    if exponent < 0 {
        inverse_power(base, exponent)
    } else {
        whole_power(base, exponent as u64)
    }
}

// A power with an exponent below 0, which is whole for 1 and -1 alone.
fn inverse_power(base: i64, exponent: i64) -> Result<i64, FaultKind>
    requires { exponent <ℤ pos 0 }
    ensures { result ≡ power_row base exponent }
{
    match base {
        0 => Err(FaultKind::ZeroDivisor),
        1 => Ok(1),
        -1 => Ok(alternating(exponent.unsigned_abs())),
        _ => Err(FaultKind::NotWhole),
    }
}

// A power with an exponent from 0 on. Those of 0, 1 and -1 are told by their exponents alone, so
// that no large exponent takes long.
fn whole_power(base: i64, exponent: u64) -> Result<i64, FaultKind>
    ensures { result ≡ number_or_too_large (power base exponent) }
{
    match base {
        0 => Ok(i64::from(exponent == 0)),
        1 => Ok(1),
        -1 => Ok(alternating(exponent)),
        _ => repeated(base, exponent),
    }
}

// A power of -1.
fn alternating(exponent: u64) -> i64
    ensures { result ≡ power (negsuc 0) exponent }
{
    if exponent % 2 == 0 { 1 } else { -1 }
}

// The product of the given number of equal factors, each at least 2 in size: so it is too large after at most
// 54 of them.
fn repeated(factor: i64, count: u64) -> Result<i64, FaultKind>
    requires { 2 ≤ unsigned_abs factor }
    ensures { result ≡ number_or_too_large (power factor count) }
{
    let mut product: i64 = 1;
    for _ in 0..count {
        product = product_of_two(product, factor)?;
    }
    Ok(product)
}
