//! Parses the definitions of functions.

ghost use Rattle.scad_ast.specs.StatementView.{statement_of};
ghost use Rattle.scad_grammar.specs.Reads.{expr_read};
ghost use Rattle.scad_grammar.specs.StatementReads.{param_in, function_read};
ghost use Rattle.scad_expressions.specs.Views.{GivesRead};

use crate::assignments::ended;
use crate::parameters::params;
use scad_ast::Statement;
use scad_expressions::{Parsed, TokenClass, bytes, take, with};
use scad_lexer::{Reserved, Symbol, Token};
use std::alloc::Global;

/// A function, by the depth of its expression and that of its defaults.
#[inline(never)]
pub(crate) fn function<'a>(
    alloc: Global,
    tokens: &'a [Token],
    depth: u32,
    inner: u32,
) -> Parsed<'a, Statement>
    ensures value { GivesRead (λ p. (statement_of p.0, p.1.now)) result
        (function_read (expr_read depth) (param_in inner (expr_read inner)) tokens.now) }
{
    let (word, rest) = take(TokenClass::Word(Reserved::Function), tokens)?;
    let (name, rest) = take(TokenClass::Name, rest)?;
    let bytes = bytes(alloc, &name.kind)?;
    let ((bytes, params), rest) = with(bytes, params(alloc, rest, inner))?;
    let (((bytes, params), _), rest) = with(
        (bytes, params),
        take(TokenClass::Sign(Symbol::Assign), rest),
    )?;
    let (((bytes, params), value), rest) = with((bytes, params), ended(alloc, rest, depth))?;
    Ok((
        Statement::Function(word.place, bytes, name.place, params, value),
        rest,
    ))
}
