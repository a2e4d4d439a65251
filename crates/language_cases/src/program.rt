//! Programs in words, each part with the column of its place.

ghost use Rattle.std.specs.Prelude.{◌≤◌, ◌^◌, length};

use crate::text::{put_at, put_name, put_special, put_stop};
use case_lines::put;
use scad_ast::{
    Arg, Args, BinaryOp, Binder, Body, Core, Expr, Exprs, Instance, Link, Modifier, Param, Params,
    PlacedModifier, Program, Statement, Statements, Suffix, UnaryOp,
};
use scad_parser::with_program;
use std::alloc::Global;
use text_place::{NoMemory, push_decimal};

fn operator(op: BinaryOp) -> &'static [u8] {
    match op {
        BinaryOp::Or => b"||",
        BinaryOp::And => b"&&",
        BinaryOp::Equal => b"==",
        BinaryOp::NotEqual => b"!=",
        BinaryOp::Less => b"<",
        BinaryOp::LessEqual => b"<=",
        BinaryOp::Greater => b">",
        BinaryOp::GreaterEqual => b">=",
        BinaryOp::Add => b"+",
        BinaryOp::Subtract => b"-",
        BinaryOp::Multiply => b"*",
        BinaryOp::Divide => b"/",
        BinaryOp::Remainder => b"%",
    }
}

fn sign(op: UnaryOp) -> &'static [u8] {
    match op {
        UnaryOp::Negate => b"neg",
        UnaryOp::Keep => b"keep",
        UnaryOp::Not => b"not",
    }
}

#[cycle(expressions)]
fn put_expr(alloc: Global, out: &mut Vec<u8>, e: &Expr) -> Result<(), NoMemory> {
    match e {
        Expr::Number(place, number) => {
            push_decimal(alloc, out, i128::from(number.get()))?;
            put_at(alloc, out, b"", *place)
        }
        Expr::Text(place, text) => {
            put(out, b"'")?;
            put_name(alloc, out, text, *place)
        }
        Expr::Truth(place, true) => put_at(alloc, out, b"true", *place),
        Expr::Truth(place, false) => put_at(alloc, out, b"false", *place),
        Expr::Undef(place) => put_at(alloc, out, b"undef", *place),
        Expr::ChildCount(place) => put_at(alloc, out, b"$children", *place),
        Expr::Special(place, name) => put_special(alloc, out, name, *place),
        Expr::Name(place, name) => put_name(alloc, out, name, *place),
        Expr::Call(_, _)
        | Expr::Paren(_, _)
        | Expr::List(_, _)
        | Expr::Range(_, _)
        | Expr::SteppedRange(_, _)
        | Expr::Postfix(_, _)
        | Expr::Unary(_, _, _)
        | Expr::Chain(_, _)
        | Expr::Choice(_, _) => put_compound(alloc, out, e),
    }
}

#[cycle(expressions)]
fn put_compound(alloc: Global, out: &mut Vec<u8>, e: &Expr) -> Result<(), NoMemory> {
    put(out, b"(")?;
    match e {
        Expr::Call(place, call) => {
            put(out, b"call ")?;
            put_name(alloc, out, &call.name, *place)?;
            put_args(alloc, out, &call.args)?;
        }
        Expr::Paren(place, inner) => {
            put_at(alloc, out, b"paren", *place)?;
            put_expr(alloc, out, inner)?;
        }
        Expr::List(place, items) => {
            put_at(alloc, out, b"list", *place)?;
            put_exprs(alloc, out, items)?;
        }
        Expr::Range(place, range) => {
            put_at(alloc, out, b"range", *place)?;
            put_expr(alloc, out, &range.from)?;
            put_expr(alloc, out, &range.to)?;
        }
        Expr::SteppedRange(place, range) => {
            put_at(alloc, out, b"range", *place)?;
            put_expr(alloc, out, &range.from)?;
            put_expr(alloc, out, &range.step)?;
            put_expr(alloc, out, &range.to)?;
        }
        Expr::Postfix(place, postfix) => {
            put_at(alloc, out, b"postfix", *place)?;
            put_expr(alloc, out, &postfix.of)?;
            put_suffix(alloc, out, &postfix.suffixes.first)?;
            for suffix in &postfix.suffixes.more {
                put_suffix(alloc, out, suffix)?;
            }
        }
        Expr::Unary(place, op, of) => {
            put_at(alloc, out, sign(*op), *place)?;
            put_expr(alloc, out, of)?;
        }
        Expr::Chain(place, chain) => {
            put_at(alloc, out, b"chain", *place)?;
            put_expr(alloc, out, &chain.first)?;
            put_link(alloc, out, &chain.links.first)?;
            for link in &chain.links.more {
                put_link(alloc, out, link)?;
            }
        }
        Expr::Choice(place, choice) => {
            put_at(alloc, out, b"choice", *place)?;
            put_expr(alloc, out, &choice.test)?;
            put_at(alloc, out, b"?", choice.mark)?;
            put_expr(alloc, out, &choice.yes)?;
            put_expr(alloc, out, &choice.no)?;
        }
        // `put_expr` prints these by themselves.
        Expr::Number(_, _)
        | Expr::Text(_, _)
        | Expr::Truth(_, _)
        | Expr::Undef(_)
        | Expr::ChildCount(_)
        | Expr::Special(_, _)
        | Expr::Name(_, _) => put(out, b"no compound")?,
    }
    put(out, b")")
}

#[cycle(expressions)]
fn put_exprs(alloc: Global, out: &mut Vec<u8>, exprs: &Exprs) -> Result<(), NoMemory> {
    for item in &exprs.items {
        put_expr(alloc, out, item)?;
    }
    Ok(())
}

#[cycle(expressions)]
fn put_args(alloc: Global, out: &mut Vec<u8>, args: &Args) -> Result<(), NoMemory> {
    for item in &args.items {
        match item {
            Arg::Named(place, name, value) => {
                put_name(alloc, out, name, *place)?;
                put(out, b"= ")?;
                put_expr(alloc, out, value)?;
            }
            Arg::Special(place, name, value) => {
                put_special(alloc, out, name, *place)?;
                put(out, b"= ")?;
                put_expr(alloc, out, value)?;
            }
            Arg::Positional(value) => put_expr(alloc, out, value)?,
        }
    }
    Ok(())
}

#[cycle(expressions)]
fn put_suffix(alloc: Global, out: &mut Vec<u8>, suffix: &Suffix) -> Result<(), NoMemory> {
    match suffix {
        Suffix::Index(place, index) => {
            put_at(alloc, out, b"[]", *place)?;
            put_expr(alloc, out, index)
        }
        Suffix::Member(place, name, name_place) => {
            put_at(alloc, out, b".", *place)?;
            put_name(alloc, out, name, *name_place)
        }
    }
}

#[cycle(expressions)]
fn put_link(alloc: Global, out: &mut Vec<u8>, link: &Link) -> Result<(), NoMemory> {
    put_at(alloc, out, operator(link.op), link.place)?;
    put_expr(alloc, out, &link.right)
}

fn put_params(alloc: Global, out: &mut Vec<u8>, params: &Params) -> Result<(), NoMemory> {
    put(out, b"[")?;
    for param in &params.items {
        match param {
            Param::Plain(place, name) => put_name(alloc, out, name, *place)?,
            Param::WithDefault(place, name, value) => {
                put_name(alloc, out, name, *place)?;
                put(out, b"= ")?;
                put_expr(alloc, out, value)?;
            }
        }
    }
    put(out, b"]")
}

fn put_binders(alloc: Global, out: &mut Vec<u8>, binders: &[Binder]) -> Result<(), NoMemory> {
    for binder in binders {
        put_name(alloc, out, &binder.name, binder.place)?;
        put(out, b"= ")?;
        put_expr(alloc, out, &binder.values)?;
    }
    Ok(())
}

fn put_modifiers(
    alloc: Global,
    out: &mut Vec<u8>,
    modifiers: &[PlacedModifier],
) -> Result<(), NoMemory> {
    for placed in modifiers {
        let text = match placed.modifier {
            Modifier::Disable => b"*",
            Modifier::Background => b"%",
            Modifier::Highlight => b"#",
            Modifier::Root => b"!",
        };
        put_at(alloc, out, text, placed.place)?;
    }
    Ok(())
}

#[cycle(statements)]
fn put_statements(alloc: Global, out: &mut Vec<u8>, all: &Statements) -> Result<(), NoMemory> {
    put(out, b"{")?;
    for statement in &all.items {
        put_statement(alloc, out, statement)?;
    }
    put(out, b"}")
}

#[cycle(statements)]
fn put_statement(alloc: Global, out: &mut Vec<u8>, all: &Statement) -> Result<(), NoMemory> {
    match all {
        Statement::Empty(place) => put_at(alloc, out, b";", *place),
        Statement::Block(place, statements) => {
            put_at(alloc, out, b"block", *place)?;
            put_statements(alloc, out, statements)
        }
        Statement::Assignment(place, name, value) => {
            put(out, b"set ")?;
            put_name(alloc, out, name, *place)?;
            put_expr(alloc, out, value)
        }
        Statement::SpecialAssignment(place, name, value) => {
            put(out, b"set ")?;
            put_special(alloc, out, name, *place)?;
            put_expr(alloc, out, value)
        }
        Statement::Module(place, name, name_place, params, body) => {
            put_at(alloc, out, b"module", *place)?;
            put_name(alloc, out, name, *name_place)?;
            put_params(alloc, out, params)?;
            put_body(alloc, out, body)
        }
        Statement::Function(place, name, name_place, params, value) => {
            put_at(alloc, out, b"function", *place)?;
            put_name(alloc, out, name, *name_place)?;
            put_params(alloc, out, params)?;
            put_expr(alloc, out, value)
        }
        Statement::Instantiation(instance) => put_instance(alloc, out, instance),
    }
}

#[cycle(statements)]
fn put_instance(alloc: Global, out: &mut Vec<u8>, all: &Instance) -> Result<(), NoMemory> {
    put_at(alloc, out, b"<", all.place)?;
    put_modifiers(alloc, out, &all.modifiers.items)?;
    put_core(alloc, out, &all.core)?;
    put(out, b">")
}

#[cycle(statements)]
fn put_core(alloc: Global, out: &mut Vec<u8>, core: &Core) -> Result<(), NoMemory> {
    match core {
        Core::If(place, test, body) => {
            put_at(alloc, out, b"if", *place)?;
            put_expr(alloc, out, test)?;
            put_body(alloc, out, body)
        }
        Core::IfElse(place, test, body, other) => {
            put_at(alloc, out, b"if", *place)?;
            put_expr(alloc, out, test)?;
            put_body(alloc, out, body)?;
            put(out, b"else ")?;
            put_body(alloc, out, other)
        }
        Core::For(place, binders, body) => {
            put_at(alloc, out, b"for", *place)?;
            put_binders(alloc, out, &binders.items)?;
            put_body(alloc, out, body)
        }
        Core::IntersectionFor(place, binders, body) => {
            put_at(alloc, out, b"intersection_for", *place)?;
            put_binders(alloc, out, &binders.items)?;
            put_body(alloc, out, body)
        }
        Core::Call(place, name, args, body) => {
            put_name(alloc, out, name, *place)?;
            put(out, b"(")?;
            put_args(alloc, out, args)?;
            put(out, b")")?;
            put_body(alloc, out, body)
        }
    }
}

#[cycle(statements)]
fn put_body(alloc: Global, out: &mut Vec<u8>, body: &Body) -> Result<(), NoMemory> {
    match body {
        Body::Semicolon(place) => put_at(alloc, out, b";", *place),
        Body::Braces(place, statements) => {
            put_at(alloc, out, b"body", *place)?;
            put_statements(alloc, out, statements)
        }
        Body::Single(instance) => put_instance(alloc, out, instance),
    }
}

/// What is written of the program of a source, or its first fault. The program is lent: who held it would drop all its syntax.
pub(crate) fn put_of_program<F: FnOnce(&mut Vec<u8>, &Program) -> Result<(), NoMemory>>(
    alloc: Global,
    out: &mut Vec<u8>,
    source: &[u8],
    put_it: F,
) -> Result<(), NoMemory>
    requires short { length source.now ≤ 2 ^ 20 }
    requires put_it { F.IsAlwaysCallable put_it }
{
    match with_program(alloc, source, |program| Ok(put_it(out, program))) {
        Ok(told) => told,
        Err(stop) => put_stop(alloc, out, stop),
    }
}

/// The program of a source in words, or its first fault.
pub(crate) fn put_program(alloc: Global, out: &mut Vec<u8>, source: &[u8]) -> Result<(), NoMemory>
    requires { length source.now ≤ 2 ^ 20 }
{
    put_of_program(alloc, out, source, |out, program| {
        put_statements(alloc, out, &program.statements)
    })
}

/// Whether a source is a program, or its first fault.
pub(crate) fn put_reads(alloc: Global, out: &mut Vec<u8>, source: &[u8]) -> Result<(), NoMemory>
    requires { length source.now ≤ 2 ^ 20 }
{
    put_of_program(alloc, out, source, |out, _program| put(out, b"a program"))
}
