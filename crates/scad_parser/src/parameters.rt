//! Parses lists of parameters.

ghost use Rattle.std.specs.Prelude.{◌≡◌, [], map};
ghost use Rattle.scad_ast.specs.StatementView.{param_of, params_of};
ghost use Rattle.scad_grammar.specs.Classes.{has_class, name_class, comma_sign};
ghost use Rattle.scad_grammar.specs.Reading.{trailing_items, in_front};
ghost use Rattle.scad_grammar.specs.Reads.{expr_read, in_parentheses};
ghost use Rattle.scad_grammar.specs.StatementReads.{param_in, params_read};
ghost use Rattle.scad_expressions.specs.Views.{GivesRead};

use scad_ast::{Param, Params};
use scad_expressions::{
    Parsed, TokenClass, behind, behind_comma, bytes, closed, is_comma_and_name, list_of, take,
    too_deep, with,
};
use scad_lexer::{Symbol, Token};
use std::alloc::Global;

/// Parameters in parentheses.
pub(crate) fn params<'a>(alloc: Global, tokens: &'a [Token], depth: u32) -> Parsed<'a, Params>
    ensures value { GivesRead (λ p. (params_of p.0, p.1.now)) result
        (in_parentheses (params_read (param_in depth (expr_read depth))) tokens.now) }
{
    let (_, rest) = take(TokenClass::Sign(Symbol::OpenParenthesis), tokens)?;
    closed(param_list(alloc, rest, depth), Symbol::CloseParenthesis)
}

// Parameters, and maybe a comma behind the last.
fn param_list<'a>(alloc: Global, tokens: &'a [Token], depth: u32) -> Parsed<'a, Params>
    ensures value { GivesRead (λ p. (params_of p.0, p.1.now)) result
        (params_read (param_in depth (expr_read depth)) tokens.now) }
{
    if !TokenClass::Name.begins(tokens) {
        return Ok((no_params(alloc), tokens));
    }
    let (first, rest) = param(alloc, tokens, depth)?;
    let items = list_of(alloc, first, 4)?;
    more_params(alloc, items, rest, depth)
}

// No parameters.
fn no_params(alloc: Global) -> Params
    ensures { params_of result ≡ [] }
{
    Params {
        items: Vec::new(alloc),
    }
}

// More parameters, each behind a comma, and maybe a comma behind the last.
fn more_params<'a>(
    alloc: Global,
    mut items: Vec<Param>,
    tokens: &'a [Token],
    depth: u32,
) -> Parsed<'a, Params>
    ensures value { GivesRead (λ p. (params_of p.0, p.1.now)) result
        (in_front (map param_of items.items) (trailing_items (has_class comma_sign)
        (has_class name_class)
        (param_in depth (expr_read depth)) tokens.now)) }
{
    let mut rest = tokens;
    'commas: while is_comma_and_name(rest) {
        let (item, after) = param(alloc, behind_comma(rest), depth)?;
        items.push(item)?;
        rest = after;
    }
    Ok((Params { items }, behind_comma(rest)))
}

// A parameter whose tokens are less deep than so much.
fn param<'a>(alloc: Global, tokens: &'a [Token], depth: u32) -> Parsed<'a, Param>
    ensures value { GivesRead (λ p. (param_of p.0, p.1.now)) result
        (param_in depth (expr_read depth) tokens.now) }
{
    if depth == 0 {
        return Err(too_deep(TokenClass::Name, TokenClass::LeftOut, tokens));
    }
    let (name, rest) = take(TokenClass::Name, tokens)?;
    let bytes = bytes(alloc, &name.kind)?;
    if !TokenClass::Sign(Symbol::Assign).begins(rest) {
        return Ok((Param::Plain(name.place, bytes), rest));
    }
    let ((bytes, value), rest) = with(bytes, behind(alloc, Symbol::Assign, rest, depth))?;
    Ok((Param::WithDefault(name.place, bytes, value), rest))
}
