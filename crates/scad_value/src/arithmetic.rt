//! Arithmetic on whole numbers within the limit of numbers, and on lists of them.

ghost use Rattle.std.specs.Prelude.{◌≡◌, ◌<◌, ◌≤◌, ◌^◌, ◌*ℤ◌, length, IsTrue, IfOk, unsigned_abs};
ghost use Rattle.scad_value.specs.Values.{count_of, element_count_in, vals_from, is_small, has_small_numbers, have_small_numbers};
ghost use Rattle.scad_value.specs.Operators.{number_or_too_large, by_elements, pairs_by_elements, if_equal, each_element, each_of_elements, dot_of, product_at, product_row, remainder_row, quotient_row};
ghost use Rattle.scad_value.specs.View.{val_of, vals_of, MeetsAnswer, MeetsAnswers};
ghost use Rattle.scad_value.specs.Rows.{pair_row, part_row};

use crate::limits::TOO_LARGE;
use crate::stop::ValueStop;
use crate::value::{Value, Values};
use std::alloc::Global;
use text_place::FaultKind;

/// What is done with two numbers.
#[derive(Clone, Copy, Debug, PartialEq, Eq)]
pub(crate) enum PairRow {
    Sum,
    Difference,
}

/// What is done with one number.
#[derive(Clone, Copy, Debug, PartialEq, Eq)]
pub(crate) enum PartRow {
    Times(i64),
    Over(i64),
    Negate,
    Keep,
}

/// The number, unless it is TooLarge: past 2^53 - 1 in size.
pub fn number_or_too_large(n: i128) -> Result<i64, FaultKind>
    ensures { result ≡ number_or_too_large n }
{
    if n.unsigned_abs() < u128::from(TOO_LARGE) {
        Ok(n as i64)
    } else {
        Err(FaultKind::TooLarge)
    }
}

// The sum or the difference, unless it is TooLarge.
fn pair(row: PairRow, left: i64, right: i64) -> Result<i64, FaultKind>
    ensures { result ≡ pair_row row left right }
{
    match row {
        PairRow::Sum => number_or_too_large(left as i128 + right as i128),
        PairRow::Difference => number_or_too_large(left as i128 - right as i128),
    }
}

/// The product, unless it is TooLarge: past 2^53 - 1 in size.
pub fn product_of_two(left: i64, right: i64) -> Result<i64, FaultKind>
    ensures { result ≡ product_row left right }
{
    number_or_too_large(left as i128 * right as i128)
}

// What is done with one number, or its fault.
fn part(row: PartRow, n: i64) -> Result<i64, FaultKind>
    ensures { result ≡ part_row row n }
{
    match row {
        PartRow::Times(by) => product_of_two(n, by),
        PartRow::Over(by) => quotient(n, by),
        PartRow::Negate => number_or_too_large(-(n as i128)),
        PartRow::Keep => number_or_too_large(n as i128),
    }
}

// The exact quotient. ZeroDivisor, or NotWhole where there is a remainder.
fn quotient(left: i64, right: i64) -> Result<i64, FaultKind>
    ensures { result ≡ quotient_row left right }
{
    if right == 0 {
        return Err(FaultKind::ZeroDivisor);
    }
    if left as i128 % right as i128 != 0 {
        return Err(FaultKind::NotWhole);
    }
    number_or_too_large(left as i128 / right as i128)
}

/// The remainder, with the sign of the dividend.
pub(crate) fn remainder(left: i64, right: i64) -> Result<i64, FaultKind>
    ensures { result ≡ remainder_row left right }
{
    if right == 0 {
        return Err(FaultKind::ZeroDivisor);
    }
    number_or_too_large(left as i128 % right as i128)
}

/// Two numbers, or two lists of one length by elements.
#[cycle(pairs)]
pub(crate) fn by_parts(
    alloc: Global,
    row: PairRow,
    left: &Value,
    right: &Value,
) -> Result<Value, ValueStop>
    ensures { MeetsAnswer result (by_elements (pair_row row) (val_of left.now) (val_of right.now)) }
{
    match (left, right) {
        (Value::Number(a), Value::Number(b)) => Ok(Value::Number(pair(row, *a, *b)?)),
        (Value::List(a), Value::List(b)) => Ok(Value::List(equal_lists(alloc, row, a, b)?)),
        _ => Err(ValueStop::Kind(FaultKind::TypeMismatch)),
    }
}

// Two lists by elements, or TypeMismatch where one is longer.
#[cycle(pairs)]
fn equal_lists(
    alloc: Global,
    row: PairRow,
    left: &Values,
    right: &Values,
) -> Result<Values, ValueStop>
    ensures { MeetsAnswers result (if_equal (count_of (vals_from (vals_of left.now)))
        (count_of (vals_from (vals_of right.now)))
        (pairs_by_elements (pair_row row) (vals_from (vals_of left.now))
        (vals_from (vals_of right.now)))) }
{
    if left.items.len() != right.items.len() {
        return Err(ValueStop::Kind(FaultKind::TypeMismatch));
    }
    each_pair(alloc, row, left, right)
}

// The values of two lists of one length, pair by pair, up to the first fault.
#[cycle(pairs)]
fn each_pair(
    alloc: Global,
    row: PairRow,
    left: &Values,
    right: &Values,
) -> Result<Values, ValueStop>
    requires { length left.now.items.items ≡ length right.now.items.items }
    ensures { MeetsAnswers result (pairs_by_elements (pair_row row) (vals_from (vals_of left.now))
        (vals_from (vals_of right.now))) }
{
    let mut items = Vec::new(alloc);
    for (i, value) in left.items.iter().enumerate() {
        items.push(by_parts(alloc, row, value, &right.items[i])?)?;
    }
    Ok(Values { items })
}

/// A number, or each element of a list.
#[cycle(parts)]
pub(crate) fn each_part(alloc: Global, row: PartRow, of: &Value) -> Result<Value, ValueStop>
    ensures { MeetsAnswer result (each_element (part_row row) (val_of of.now)) }
{
    match of {
        Value::Number(n) => Ok(Value::Number(part(row, *n)?)),
        Value::List(values) => Ok(Value::List(each_of(alloc, row, values)?)),
        _ => Err(ValueStop::Kind(FaultKind::TypeMismatch)),
    }
}

// The values of all items of a list in order, up to the first fault.
#[cycle(parts)]
fn each_of(alloc: Global, row: PartRow, of: &Values) -> Result<Values, ValueStop>
    ensures { MeetsAnswers result (each_of_elements (part_row row) (vals_from (vals_of of.now))) }
{
    let mut items = Vec::new(alloc);
    for value in &of.items {
        items.push(each_part(alloc, row, value)?)?;
    }
    Ok(Values { items })
}

/// The sum of the products of two lists of numbers of one length.
pub(crate) fn dot(left: &Values, right: &Values) -> Result<i128, FaultKind>
    requires left { IsTrue (have_small_numbers (vals_from (vals_of left.now))) }
    requires right { IsTrue (have_small_numbers (vals_from (vals_of right.now))) }
    requires few { element_count_in (vals_from (vals_of left.now)) < 2 ^ 20 }
    requires equal { length left.now.items.items ≡ length right.now.items.items }
    ensures { result ≡ dot_of (vals_from (vals_of left.now)) (vals_from (vals_of right.now)) }
{
    let mut sum: i128 = 0;
    for (i, value) in left.items.iter().enumerate() {
        sum += product(value, &right.items[i])?;
    }
    Ok(sum)
}

// The product of two items, which are numbers, or TypeMismatch.
fn product(left: &Value, right: &Value) -> Result<i128, FaultKind>
    requires left { IsTrue (has_small_numbers (val_of left.now)) }
    requires right { IsTrue (has_small_numbers (val_of right.now)) }
    ensures value { result ≡ product_at (val_of left.now) (val_of right.now) }
    ensures size { IfOk result (λ n. unsigned_abs n ≤ 2 ^ 106) }
{
    match (left, right) {
        (Value::Number(a), Value::Number(b)) => Ok(multiply(*a, *b)),
        _ => Err(FaultKind::TypeMismatch),
    }
}

// The product of two numbers of the profile, which is at most 2^106 in size.
fn multiply(left: i64, right: i64) -> i128
    requires left { IsTrue (is_small left) }
    requires right { IsTrue (is_small right) }
    ensures value { result ≡ left *ℤ right }
    ensures size { unsigned_abs result ≤ 2 ^ 106 }
{
    left as i128 * right as i128
}
