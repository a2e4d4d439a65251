//! Operators whose faults stand at a place.

ghost use Rattle.std.specs.Prelude.{◌≡◌};
ghost use Rattle.scad_value.specs.Values.{Val, truth_of};
ghost use Rattle.scad_value.specs.Operators.{AnswerOrFault, binary_of, unary_of};
ghost use Rattle.scad_value.specs.View.{MeetsAnswer, GivesBounded};
ghost use Rattle.scad_value.specs.BoundedView.{bounded_val};
ghost use Rattle.scad_value.specs.Answers.{wants_right};
ghost use Rattle.scad_value.specs.AnswerView.{MeetsAnswerAt};

// A value is lent where something can still fail: what is held there would be dropped on each way out, and each way
// would be proved with a drop of a type as deep as values are.

use crate::{BoundedValue, Value, ValueStop, binary, truth, unary};
use scad_ast::{BinaryOp, UnaryOp};
use std::alloc::Global;
use text_place::{Place, Stop};

/// An operator's answer, with its faults at a place.
pub fn answer_placed(answer: Result<Value, ValueStop>, place: Place) -> Result<BoundedValue, Stop>
    requires { GivesBounded answer }
    ensures { (wanted : AnswerOrFault Val) → MeetsAnswer answer wanted →
        MeetsAnswerAt result wanted place }
{
    match answer {
        Ok(value) => Ok(BoundedValue { value }),
        Err(ValueStop::Kind(kind)) => Err(kind.at(place)),
        Err(ValueStop::NoMemory) => Err(Stop::NoMemory),
    }
}

/// The value of an operator of two sides, with its faults at a place.
#[inline(never)]
pub fn binary_value(
    alloc: Global,
    op: BinaryOp,
    left: BoundedValue,
    right: BoundedValue,
    place: Place,
) -> Result<BoundedValue, Stop>
    ensures { MeetsAnswerAt result (binary_of op (bounded_val left) (bounded_val right)) place }
{
    binary_of_lent(alloc, op, &left, &right, place)
}

// The value of an operator of two sides, which are lent.
fn binary_of_lent(
    alloc: Global,
    op: BinaryOp,
    left: &BoundedValue,
    right: &BoundedValue,
    place: Place,
) -> Result<BoundedValue, Stop>
    ensures { MeetsAnswerAt result (binary_of op (bounded_val left.now)
        (bounded_val right.now)) place }
{
    answer_placed(binary(alloc, op, &left.value, &right.value), place)
}

/// The value of an operator before its operand, with its faults at a place.
#[inline(never)]
pub fn unary_value(
    alloc: Global,
    op: UnaryOp,
    of: BoundedValue,
    place: Place,
) -> Result<BoundedValue, Stop>
    ensures { MeetsAnswerAt result (unary_of op (bounded_val of)) place }
{
    unary_of_lent(alloc, op, &of, place)
}

// The value of an operator before its operand, which is lent.
fn unary_of_lent(
    alloc: Global,
    op: UnaryOp,
    of: &BoundedValue,
    place: Place,
) -> Result<BoundedValue, Stop>
    ensures { MeetsAnswerAt result (unary_of op (bounded_val of.now)) place }
{
    answer_placed(unary(alloc, op, &of.value), place)
}

/// Whether an operator with this left side wants its right side.
pub fn wants_right(op: BinaryOp, left: &BoundedValue) -> bool
    ensures { result ≡ wants_right op (bounded_val left.now) }
{
    match op {
        BinaryOp::Or => !truth(&left.value),
        BinaryOp::And => truth(&left.value),
        _ => true,
    }
}

/// Whether a value counts as true.
pub fn is_true(value: BoundedValue) -> bool
    ensures { result ≡ truth_of (bounded_val value) }
{
    truth(&value.value)
}
