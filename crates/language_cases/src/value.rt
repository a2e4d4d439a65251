//! Values in words.

ghost use Rattle.std.specs.Prelude.{◌≤◌, ◌^◌, length};

use crate::program::put_of_program;
use case_lines::{put, put_number};
use scad_ast::{Expr, Program, Statement};
use scad_func::{Meter, value_of};
use scad_scope::{Blocks, Scopes};
use scad_value::{Value, Values};
use std::alloc::Global;
use text_place::{Fault, NoMemory, Stop, word};

// A value, whose lists are shown to a depth.
#[cycle(values)]
fn put_value(alloc: Global, out: &mut Vec<u8>, value: &Value, depth: u32) -> Result<(), NoMemory> {
    match value {
        Value::Number(n) => put_number(alloc, out, i128::from(*n)),
        Value::Truth(true) => put(out, b"true"),
        Value::Truth(false) => put(out, b"false"),
        Value::Text(bytes) => put(out, bytes.items()),
        Value::List(_) if depth == 0 => put(out, b".."),
        Value::List(values) => put_values(alloc, out, values, depth - 1),
        Value::Range { from, by, upto } => {
            put_number(alloc, out, i128::from(*from))?;
            put(out, b":")?;
            put_number(alloc, out, i128::from(*by))?;
            put(out, b":")?;
            put_number(alloc, out, i128::from(*upto))
        }
        Value::Undef => put(out, b"undef"),
    }
}

#[cycle(values)]
fn put_values(
    alloc: Global,
    out: &mut Vec<u8>,
    values: &Values,
    depth: u32,
) -> Result<(), NoMemory> {
    put(out, b"[")?;
    for value in values.items() {
        put_value(alloc, out, value, depth)?;
        put(out, b" ")?;
    }
    put(out, b"]")
}

// A fault with its column, counted from the one behind `x = `.
fn put_fault(alloc: Global, out: &mut Vec<u8>, fault: Fault) -> Result<(), NoMemory> {
    put_number(alloc, out, i128::from(fault.place.column) - 4)?;
    put(out, b" ")?;
    put(out, word(fault.kind).as_bytes())
}

// A value, or why there is none.
fn put_answer(
    alloc: Global,
    out: &mut Vec<u8>,
    answer: Result<Value, Stop>,
) -> Result<(), NoMemory> {
    match answer {
        Ok(value) => put_value(alloc, out, &value, 64),
        Err(Stop::Fault(fault)) => put_fault(alloc, out, fault),
        Err(Stop::NoMemory) => put(out, b"no memory"),
    }
}

fn first_value(program: &Program) -> Option<&Expr> {
    for statement in &program.statements.items {
        if let Statement::Assignment(_, _, value) = statement {
            return Some(value);
        }
    }
    None
}

// The value where the given number of turns were counted, and `later` is 7.
fn value_after(alloc: Global, program: &Program, expr: &Expr, turns: u64) -> Result<Value, Stop> {
    if turns > 100_000 {
        return Ok(Value::Undef);
    }
    let blocks = Blocks::of(alloc, program)?;
    let mut scopes = Scopes::new(alloc)?;
    let scope = scopes.enter(alloc, 0, &blocks, 0)?;
    scopes.bind(alloc, scope, b"later", Value::Number(7))?;
    let mut meter = Meter {
        calls: 0,
        depth: 0,
        turns,
    };
    value_of(alloc, &mut scopes, program, scope, expr, &mut meter)
}

fn put_first(
    alloc: Global,
    out: &mut Vec<u8>,
    program: &Program,
    turns: u64,
) -> Result<(), NoMemory> {
    match first_value(program) {
        Some(expr) => put_answer(alloc, out, value_after(alloc, program, expr, turns)),
        None => put(out, b"no assignment"),
    }
}

/// The value of a source's first assignment where the given number of turns were counted, or the first fault.
pub fn put_value_after(
    alloc: Global,
    out: &mut Vec<u8>,
    source: &[u8],
    turns: u64,
) -> Result<(), NoMemory>
    requires { length source.now ≤ 2 ^ 20 }
{
    put_of_program(
        alloc,
        out,
        source,
        |out, program| put_first(alloc, out, program, turns),
    )
}
