//! Where statements stand, and what stands behind an end.

ghost use Rattle.std.specs.Prelude.{◌≤◌, ◌^◌, length};

use crate::program::put_of_program;
use crate::text::put_stop;
use case_lines::{cut, put, put_number, put_separated, put_tuple, unfolded};
use scad_ast::{Core, Program, Statement};
use scad_lexer::lex;
use scad_parser::with_parsed;
use std::alloc::Global;
use text_place::{NoMemory, Place, Stop};

fn column(place: Place) -> i128 {
    i128::from(place.column)
}

// The column of a statement, and of a choice those of its instance, its core and its two bodies, in parentheses.
fn put_columns(alloc: Global, out: &mut Vec<u8>, statement: &Statement) -> Result<(), NoMemory> {
    put_number(alloc, out, column(statement.place()))?;
    let Statement::Instantiation(instance) = statement else {
        return Ok(());
    };
    let Core::IfElse(_, _, body, other) = &instance.core else {
        return Ok(());
    };
    let columns = [
        column(instance.place()),
        column(instance.core.place()),
        column(body.place()),
        column(other.place()),
    ];
    put_tuple(alloc, out, &columns)
}

fn put_all(alloc: Global, out: &mut Vec<u8>, program: &Program) -> Result<(), NoMemory> {
    put_separated(
        out,
        &program.statements.items,
        b" ",
        |out, statement| put_columns(alloc, out, statement),
    )
}

/// The columns of a source's statements, or its first fault.
pub(crate) fn put_places(alloc: Global, out: &mut Vec<u8>, source: &[u8]) -> Result<(), NoMemory>
    requires { length source.now ≤ 2 ^ 20 }
{
    put_of_program(
        alloc,
        out,
        source,
        |out, program| put_all(alloc, out, program),
    )
}

// Whether a source's tokens with those of another source behind their end, of at most 100 bytes each, are a program.
fn read_behind(alloc: Global, source: &[u8], more: &[u8]) -> Result<(), Stop> {
    if source.len() > 100 || more.len() > 100 {
        return Err(Stop::NoMemory);
    }
    let mut tokens = lex(alloc, source)?;
    let mut behind = lex(alloc, more)?;
    if tokens.append(&mut behind).is_err() || tokens.len() > 202 {
        return Err(Stop::NoMemory);
    }
    with_parsed(alloc, &tokens, |_program| Ok(()))
}

/// Whether the tokens of a source, which has no blank, and those of what stands behind the blank are a program, or the first
/// fault.
pub(crate) fn put_behind(alloc: Global, out: &mut Vec<u8>, text: &[u8]) -> Result<(), NoMemory> {
    let (source, more) = cut(text);
    let source = unfolded(alloc, source)?;
    let more = unfolded(alloc, more)?;
    match read_behind(alloc, &source, &more) {
        Ok(()) => put(out, b"a program"),
        Err(stop) => put_stop(alloc, out, stop),
    }
}
