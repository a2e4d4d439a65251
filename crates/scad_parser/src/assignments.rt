//! Parses assignments.

ghost use Rattle.scad_ast.specs.ExprView.{term_of};
ghost use Rattle.scad_ast.specs.StatementView.{statement_of};
ghost use Rattle.scad_grammar.specs.Grammar.{assignment_term};
ghost use Rattle.scad_grammar.specs.Reading.{image_read};
ghost use Rattle.scad_grammar.specs.Reads.{expr_read};
ghost use Rattle.scad_grammar.specs.StatementReads.{ended_read, special_read};
ghost use Rattle.scad_expressions.specs.Views.{GivesRead};

use scad_ast::{Expr, Statement};
use scad_expressions::{Parsed, TokenClass, bytes, closed, expr, take};
use scad_lexer::{Symbol, Token};
use std::alloc::Global;

/// `name = value;`, by its name and what stands behind the `=`.
#[inline(never)]
pub(crate) fn assignment<'a>(
    alloc: Global,
    name: &Token,
    tokens: &'a [Token],
    depth: u32,
) -> Parsed<'a, Statement>
    ensures value { GivesRead (λ p. (statement_of p.0, p.1.now)) result
        (image_read (assignment_term name.now) (ended_read (expr_read depth)) tokens.now) }
{
    let bytes = bytes(alloc, &name.kind)?;
    let (value, rest) = ended(alloc, tokens, depth)?;
    Ok((Statement::Assignment(name.place, bytes, value), rest))
}

/// `$name = value;`, of a special name other than `$children`.
#[inline(never)]
pub(crate) fn special_assignment<'a>(
    alloc: Global,
    tokens: &'a [Token],
    depth: u32,
) -> Parsed<'a, Statement>
    ensures value { GivesRead (λ p. (statement_of p.0, p.1.now)) result
        (special_read (expr_read depth) tokens.now) }
{
    let (name, rest) = take(TokenClass::Special, tokens)?;
    let (_, rest) = take(TokenClass::Sign(Symbol::Assign), rest)?;
    let bytes = bytes(alloc, &name.kind)?;
    let (value, rest) = ended(alloc, rest, depth)?;
    Ok((Statement::SpecialAssignment(name.place, bytes, value), rest))
}

/// An expression and the `;` behind it.
pub(crate) fn ended<'a>(alloc: Global, tokens: &'a [Token], depth: u32) -> Parsed<'a, Expr>
    ensures value { GivesRead (λ p. (term_of p.0, p.1.now)) result
        (ended_read (expr_read depth) tokens.now) }
{
    closed(expr(alloc, tokens, depth), Symbol::Semicolon)
}
