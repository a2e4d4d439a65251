//! The operators of the language on values.

ghost use Rattle.std.specs.Prelude.{◌≡◌, ◌<◌, ◌^◌, IsTrue, IfOk, Ok, length};
ghost use Rattle.scad_value.specs.Values.{Val, is_bounded, vals_from, has_small_numbers, have_small_numbers, element_count_in, NumberVal, TextVal, ListVal, UndefVal};
ghost use Rattle.scad_value.specs.Operators.{AnswerOrFault, binary_of, unary_of, index_of, value_or_long_list, product_of, quotient_of, remainder_of, dot_row, dot_of, and_then, number_or_too_large, number_answer, order_of, item_at, byte_at};
ghost use Rattle.scad_value.specs.View.{val_of, vals_of, GivesAnswer, MeetsAnswer, GivesBounded};

use crate::arithmetic::{
    PairRow, PartRow, by_parts, dot, each_part, number_or_too_large, product_of_two, remainder,
};
use crate::compare::same;
use crate::limits::{MOST_NESTING, MOST_PARTS};
use crate::stop::ValueStop;
use crate::value::{Value, Values, truth};
use scad_ast::{BinaryOp, UnaryOp};
use std::alloc::Global;
use std::cmp::Ordering;
use text_place::{Bytes, FaultKind, NoMemory};

/// The value of an operator of two sides, or its first fault: of the types of the sides, then of
/// their elements in order, then LongList. Of `&&` and `||` both sides are given here.
pub fn binary(alloc: Global, op: BinaryOp, left: &Value, right: &Value) -> Result<Value, ValueStop>
    requires left { IsTrue (is_bounded (val_of left.now)) }
    requires right { IsTrue (is_bounded (val_of right.now)) }
    ensures value { MeetsAnswer result (binary_of op (val_of left.now) (val_of right.now)) }
    ensures bounded { GivesBounded result }
{
    operate(alloc, op, left, right)
}

// The value of an operator of two sides. That it is bounded follows from its definition.
fn operate(alloc: Global, op: BinaryOp, left: &Value, right: &Value) -> Result<Value, ValueStop>
    requires left { IsTrue (is_bounded (val_of left.now)) }
    requires right { IsTrue (is_bounded (val_of right.now)) }
    ensures { MeetsAnswer result (binary_of op (val_of left.now) (val_of right.now)) }
{
    match op {
        BinaryOp::Or => Ok(Value::Truth(truth(left) || truth(right))),
        BinaryOp::And => Ok(Value::Truth(truth(left) && truth(right))),
        BinaryOp::Equal => Ok(Value::Truth(same(left, right))),
        BinaryOp::NotEqual => Ok(Value::Truth(!same(left, right))),
        BinaryOp::Less => Ok(Value::Truth(order(left, right)?.is_lt())),
        BinaryOp::LessEqual => Ok(Value::Truth(order(left, right)?.is_le())),
        BinaryOp::Greater => Ok(Value::Truth(order(left, right)?.is_gt())),
        BinaryOp::GreaterEqual => Ok(Value::Truth(order(left, right)?.is_ge())),
        BinaryOp::Add => made_of(by_parts(alloc, PairRow::Sum, left, right)),
        BinaryOp::Subtract => made_of(by_parts(alloc, PairRow::Difference, left, right)),
        BinaryOp::Multiply => made_of(product(alloc, left, right)),
        BinaryOp::Divide => made_of(quotient(alloc, left, right)),
        BinaryOp::Remainder => remainder_of_two(left, right),
    }
}

/// The value of an operator before its operand, or its first fault.
pub fn unary(alloc: Global, op: UnaryOp, of: &Value) -> Result<Value, ValueStop>
    requires { IsTrue (is_bounded (val_of of.now)) }
    ensures value { MeetsAnswer result (unary_of op (val_of of.now)) }
    ensures bounded { GivesBounded result }
{
    operate_on(alloc, op, of)
}

// The value of an operator before its operand. That it is bounded follows from its definition.
fn operate_on(alloc: Global, op: UnaryOp, of: &Value) -> Result<Value, ValueStop>
    ensures { MeetsAnswer result (unary_of op (val_of of.now)) }
{
    match op {
        UnaryOp::Negate => made_of(each_part(alloc, PartRow::Negate, of)),
        UnaryOp::Keep => made_of(each_part(alloc, PartRow::Keep, of)),
        UnaryOp::Not => Ok(Value::Truth(!truth(of))),
    }
}

/// An item of a list, or a text of one byte of a text, by its number from 0; undef where there is
/// none. Other types are TypeMismatch.
pub fn index(alloc: Global, of: &Value, at: &Value) -> Result<Value, ValueStop>
    requires of { IsTrue (is_bounded (val_of of.now)) }
    requires at { IsTrue (is_bounded (val_of at.now)) }
    ensures value { MeetsAnswer result (index_of (val_of of.now) (val_of at.now)) }
    ensures bounded { GivesBounded result }
{
    part(alloc, of, at)
}

// The item or the byte at a number. That it is bounded follows from its definition.
fn part(alloc: Global, of: &Value, at: &Value) -> Result<Value, ValueStop>
    ensures { MeetsAnswer result (index_of (val_of of.now) (val_of at.now)) }
{
    match (of, at) {
        (Value::List(values), Value::Number(n)) => item(alloc, values, *n),
        (Value::Text(bytes), Value::Number(n)) => byte(alloc, bytes, *n),
        _ => Err(ValueStop::Kind(FaultKind::TypeMismatch)),
    }
}

// A copy of an item, or undef where the list has none of this number.
fn item(alloc: Global, values: &Values, n: i64) -> Result<Value, ValueStop>
    ensures { MeetsAnswer result (index_of (ListVal (vals_from (vals_of values.now)))
        (NumberVal n)) }
{
    if n < 0 {
        return Ok(Value::Undef);
    }
    Ok(item_from_start(alloc, values, n as usize)?)
}

// A copy of the item at a number from 0, or undef behind the last.
fn item_from_start(alloc: Global, values: &Values, n: usize) -> Result<Value, NoMemory>
    ensures { IfOk result (λ v. val_of v ≡ item_at (vals_from (vals_of values.now)) n) }
{
    let items = values.items();
    if n >= items.len() {
        return Ok(undef());
    }
    items[n].copy(alloc)
}

// A byte as a text, or undef where the text has none of this number.
fn byte(alloc: Global, bytes: &Bytes, n: i64) -> Result<Value, ValueStop>
    ensures { MeetsAnswer result (index_of (TextVal bytes.now) (NumberVal n)) }
{
    if n < 0 {
        return Ok(Value::Undef);
    }
    Ok(byte_from_start(alloc, bytes.items(), n as usize)?)
}

// The byte at a number from 0 as a text, or undef behind the last.
fn byte_from_start(alloc: Global, bytes: &[u8], n: usize) -> Result<Value, NoMemory>
    ensures { IfOk result (λ v. val_of v ≡ byte_at bytes.now n) }
{
    if n >= bytes.len() {
        return Ok(undef());
    }
    Ok(text(vec![in alloc; bytes[n]]?))
}

// `undef`, seen as the plain value.
fn undef() -> Value
    ensures { val_of result ≡ UndefVal }
{
    Value::Undef
}

// A text of these bytes, seen as the plain value.
fn text(bytes: Vec<u8>) -> Value
    ensures { val_of result ≡ TextVal bytes.items }
{
    Value::Text(Bytes::of(bytes))
}

/// A value that an operator, a function or a bracket makes, unless it is LongList: it has more than
/// 4,096 elements, or lists that are more than 64 deep in one another.
pub fn value_or_long_list(value: Value) -> Result<Value, FaultKind>
    ensures value { GivesAnswer result (value_or_long_list (Ok (val_of value))) }
    ensures bounded { IsTrue (has_small_numbers (val_of value)) →
        IfOk result (λ v. IsTrue (is_bounded (val_of v))) }
{
    if value.parts() > MOST_PARTS || value.nesting() > MOST_NESTING {
        return Err(FaultKind::LongList);
    }
    Ok(value)
}

// The value that was given, unless it is LongList, or why none was.
fn made_of(given: Result<Value, ValueStop>) -> Result<Value, ValueStop>
    ensures { (answer : AnswerOrFault Val) → MeetsAnswer given answer →
        MeetsAnswer result (value_or_long_list answer) }
{
    Ok(value_or_long_list(given?)?)
}

// The order of two numbers; other values have none and are TypeMismatch.
fn order(left: &Value, right: &Value) -> Result<Ordering, FaultKind>
    ensures { result ≡ order_of (val_of left.now) (val_of right.now) }
{
    match (left, right) {
        (Value::Number(a), Value::Number(b)) => Ok(a.cmp(b)),
        _ => Err(FaultKind::TypeMismatch),
    }
}

// Two numbers, a number and each element of a list, or the dot product of two lists.
fn product(alloc: Global, left: &Value, right: &Value) -> Result<Value, ValueStop>
    requires left { IsTrue (is_bounded (val_of left.now)) }
    requires right { IsTrue (is_bounded (val_of right.now)) }
    ensures { MeetsAnswer result (product_of (val_of left.now) (val_of right.now)) }
{
    match (left, right) {
        (Value::Number(a), Value::Number(b)) => Ok(Value::Number(product_of_two(*a, *b)?)),
        (Value::Number(a), Value::List(_)) => each_part(alloc, PartRow::Times(*a), right),
        (Value::List(_), Value::Number(b)) => each_part(alloc, PartRow::Times(*b), left),
        (Value::List(a), Value::List(b)) => dot_product(a, b),
        _ => Err(ValueStop::Kind(FaultKind::TypeMismatch)),
    }
}

// The dot product. TypeMismatch where the lists are empty or one is longer.
fn dot_product(left: &Values, right: &Values) -> Result<Value, ValueStop>
    requires left { IsTrue (have_small_numbers (vals_from (vals_of left.now))) }
    requires right { IsTrue (have_small_numbers (vals_from (vals_of right.now))) }
    requires few { element_count_in (vals_from (vals_of left.now)) < 2 ^ 20 }
    ensures { MeetsAnswer result (dot_row (vals_from (vals_of left.now))
        (vals_from (vals_of right.now))) }
{
    if left.items.len() == 0 {
        return Err(ValueStop::Kind(FaultKind::TypeMismatch));
    }
    if left.items.len() != right.items.len() {
        return Err(ValueStop::Kind(FaultKind::TypeMismatch));
    }
    number(sized_dot(left, right))
}

// The dot product of two lists of one length, unless it is TooLarge.
fn sized_dot(left: &Values, right: &Values) -> Result<i64, FaultKind>
    requires left { IsTrue (have_small_numbers (vals_from (vals_of left.now))) }
    requires right { IsTrue (have_small_numbers (vals_from (vals_of right.now))) }
    requires few { element_count_in (vals_from (vals_of left.now)) < 2 ^ 20 }
    requires equal { length left.now.items.items ≡ length right.now.items.items }
    ensures { result ≡ and_then (dot_of (vals_from (vals_of left.now))
        (vals_from (vals_of right.now))) number_or_too_large }
{
    number_or_too_large(dot(left, right)?)
}

// The value of a number, or its fault.
fn number(answer: Result<i64, FaultKind>) -> Result<Value, ValueStop>
    ensures { MeetsAnswer result (number_answer answer) }
{
    Ok(Value::Number(answer?))
}

// A number or each element of a list, divided by a number.
fn quotient(alloc: Global, left: &Value, right: &Value) -> Result<Value, ValueStop>
    ensures { MeetsAnswer result (quotient_of (val_of left.now) (val_of right.now)) }
{
    match right {
        Value::Number(by) => each_part(alloc, PartRow::Over(*by), left),
        _ => Err(ValueStop::Kind(FaultKind::TypeMismatch)),
    }
}

// The remainder of two numbers; other values are TypeMismatch.
fn remainder_of_two(left: &Value, right: &Value) -> Result<Value, ValueStop>
    ensures { MeetsAnswer result (remainder_of (val_of left.now) (val_of right.now)) }
{
    match (left, right) {
        (Value::Number(a), Value::Number(b)) => Ok(Value::Number(remainder(*a, *b)?)),
        _ => Err(ValueStop::Kind(FaultKind::TypeMismatch)),
    }
}
