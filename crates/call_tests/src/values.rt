//! What calls of values and operators give where no source has such values.

use scad_ast::{BinaryOp, UnaryOp};
use scad_builtin::{Builtin, are_bounded};
use scad_value::{Value, ValueStop, Values, binary, unary};
use std::alloc::Global;
use std::process::Abort;
use std::test::Fail;
use text_place::{FaultKind, NoMemory};

fn zeros(alloc: Global, count: u32) -> Result<Value, NoMemory> {
    let mut items = Vec::new(alloc);
    for _ in 0..count {
        items.push(Value::Number(0))?;
    }
    Ok(Value::List(Values::of(items)))
}

// The empty list in the given number of lists.
fn nested(alloc: Global, times: u32) -> Result<Value, NoMemory> {
    let mut value = Value::List(Values::of(Vec::new(alloc)));
    for _ in 0..times {
        value = Value::List(Values::of(vec![in alloc; value]?));
    }
    Ok(value)
}

fn are_equal(rt: &impl Abort, alloc: Global, left: &Value, right: &Value) -> bool {
    assert!(rt; left.is_bounded());
    assert!(rt; right.is_bounded());
    match binary(alloc, BinaryOp::Equal, left, right) {
        Ok(Value::Truth(truth)) => truth,
        _ => false,
    }
}

fn is_too_long(got: &Result<Value, ValueStop>) -> bool {
    match got {
        Err(ValueStop::Kind(kind)) => *kind == FaultKind::LongList,
        _ => false,
    }
}

fn negative(rt: &impl Abort, alloc: Global, of: &Value) -> Result<Value, ValueStop> {
    assert!(rt; of.is_bounded());
    unary(alloc, UnaryOp::Negate, of)
}

// Whether a list of zeros and empty lists is its own negative.
fn is_own_negative(rt: &impl Abort, alloc: Global, of: &Value) -> bool {
    match negative(rt, alloc, of) {
        Ok(negated) => are_equal(rt, alloc, &negated, of),
        Err(_) => false,
    }
}

fn joined(rt: &impl Abort, alloc: Global, of: Value) -> Result<Value, ValueStop> {
    let given = Values::of(vec![in alloc; of]?);
    assert!(rt; are_bounded(&given));
    Builtin::Concat.apply(alloc, given)
}

fn is_refused(rt: &impl Abort, alloc: Global, value: Value) -> bool {
    is_too_long(&negative(rt, alloc, &value)) && is_too_long(&joined(rt, alloc, value))
}

// At most 4,096 parts, and lists in one another at most 64 deep.
#[test]
fn keeps_lists_short(rt: HostRuntime) -> Result<(), Fail> {
    let alloc = rt.alloc();
    assert_eq!(rt; zeros(alloc, 4095)?.parts(), 4096);
    assert!(rt; is_own_negative(&rt, alloc, &zeros(alloc, 4095)?));
    assert!(rt; is_own_negative(&rt, alloc, &nested(alloc, 63)?));
    assert!(rt; is_refused(&rt, alloc, zeros(alloc, 4096)?));
    assert!(rt; is_refused(&rt, alloc, nested(alloc, 64)?));
    Ok(())
}
