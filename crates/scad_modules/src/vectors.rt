//! Values as numbers, and as vectors of a fixed number of them.

ghost use Rattle.std.specs.Prelude.{◌≡◌};
ghost use Rattle.scad_value.specs.Values.{vals_from};
ghost use Rattle.scad_value.specs.View.{val_of, vals_in};
ghost use Rattle.scad_modules.specs.Reading.{number_in_value, truth_in, corner_number, each_in, of_length, vector_in, with_third_from, coordinates_in, sides_in, angles_in, factors_in};

use scad_value::Value;

// A number that no corner of a face can have.
const NO_CORNER: u32 = 4_294_967_295;

/// The number that a value is.
pub(crate) fn number(value: &Value) -> Option<i64>
    ensures { result ≡ number_in_value (val_of value.now) }
{
    match value {
        Value::Number(n) => Some(*n),
        _ => None,
    }
}

/// The truth that a value is.
pub(crate) fn truth_value(value: &Value) -> Option<bool>
    ensures { result ≡ truth_in (val_of value.now) }
{
    match value {
        Value::Truth(truth) => Some(*truth),
        _ => None,
    }
}

/// The number of a corner, where one that no point can have stands for all that name none.
pub(crate) fn corner_number(n: i64) -> u32
    ensures { result ≡ corner_number n }
{
    if n < 0 || n >= NO_CORNER as i64 {
        return NO_CORNER;
    }
    n as u32
}

/// A list of 2 numbers.
pub(crate) fn pair(value: &Value) -> Option<[i64; 2]>
    ensures { result ≡ vector_in 2 (val_of value.now) }
{
    match value {
        Value::List(values) => two_numbers(values.items()),
        _ => None,
    }
}

/// A list of 3 numbers.
pub(crate) fn triple(value: &Value) -> Option<[i64; 3]>
    ensures { result ≡ vector_in 3 (val_of value.now) }
{
    match value {
        Value::List(values) => three_numbers(values.items()),
        _ => None,
    }
}

/// A list of 4 numbers.
pub(crate) fn quadruple(value: &Value) -> Option<[i64; 4]>
    ensures { result ≡ vector_in 4 (val_of value.now) }
{
    match value {
        Value::List(values) => four_numbers(values.items()),
        _ => None,
    }
}

/// A list of 2 numbers, with a third one that stands for the missing, or of 3.
pub(crate) fn coordinates(value: &Value, third: i64) -> Option<[i64; 3]>
    ensures { result ≡ coordinates_in third (val_of value.now) }
{
    match value {
        Value::List(values) => coordinates_of(values.items(), third),
        _ => None,
    }
}

/// One number for both sides, or a list of 2.
pub(crate) fn two_sides(value: &Value) -> Option<[i64; 2]>
    ensures { result ≡ sides_in 2 (val_of value.now) }
{
    match value {
        Value::Number(side) => Some([*side, *side]),
        Value::List(values) => two_numbers(values.items()),
        _ => None,
    }
}

/// One number for all three sides, or a list of 3.
pub(crate) fn three_sides(value: &Value) -> Option<[i64; 3]>
    ensures { result ≡ sides_in 3 (val_of value.now) }
{
    match value {
        Value::Number(side) => Some([*side, *side, *side]),
        Value::List(values) => three_numbers(values.items()),
        _ => None,
    }
}

/// One angle about z, or a list of 3 about x, y and z.
pub(crate) fn angles(value: &Value) -> Option<[i64; 3]>
    ensures { result ≡ angles_in (val_of value.now) }
{
    match value {
        Value::Number(angle) => Some([0, 0, *angle]),
        Value::List(values) => three_numbers(values.items()),
        _ => None,
    }
}

/// One factor for all axes, or a list of 2, with 1 for z, or of 3.
pub(crate) fn factors(value: &Value) -> Option<[i64; 3]>
    ensures { result ≡ factors_in (val_of value.now) }
{
    match value {
        Value::Number(factor) => Some([*factor, *factor, *factor]),
        Value::List(values) => coordinates_of(values.items(), 1),
        _ => None,
    }
}

// The numbers of two values.
fn two_numbers(values: &[Value]) -> Option<[i64; 2]>
    ensures { result ≡ of_length 2 (each_in number_in_value (vals_from (vals_in values.now))) }
{
    match values {
        [x, y] => Some([number(x)?, number(y)?]),
        _ => None,
    }
}

// The numbers of three values.
fn three_numbers(values: &[Value]) -> Option<[i64; 3]>
    ensures { result ≡ of_length 3 (each_in number_in_value (vals_from (vals_in values.now))) }
{
    match values {
        [x, y, z] => Some([number(x)?, number(y)?, number(z)?]),
        _ => None,
    }
}

// The numbers of four values.
fn four_numbers(values: &[Value]) -> Option<[i64; 4]>
    ensures { result ≡ of_length 4 (each_in number_in_value (vals_from (vals_in values.now))) }
{
    match values {
        [a, b, c, d] => Some([number(a)?, number(b)?, number(c)?, number(d)?]),
        _ => None,
    }
}

// The numbers of three values, or of two with one that stands for the missing third.
fn coordinates_of(values: &[Value], third: i64) -> Option<[i64; 3]>
    ensures { result ≡ with_third_from third (each_in number_in_value
        (vals_from (vals_in values.now))) }
{
    match values {
        [x, y] => Some([number(x)?, number(y)?, third]),
        [x, y, z] => Some([number(x)?, number(y)?, number(z)?]),
        _ => None,
    }
}
