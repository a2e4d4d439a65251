//! Parses the variables of a loop.

ghost use Rattle.std.specs.Prelude.{map};
ghost use Rattle.scad_ast.specs.StatementView.{binder_of, binders_of};
ghost use Rattle.scad_grammar.specs.Classes.{has_class, name_class, comma_sign};
ghost use Rattle.scad_grammar.specs.Reading.{trailing_items, in_front};
ghost use Rattle.scad_grammar.specs.Reads.{expr_read, in_parentheses};
ghost use Rattle.scad_grammar.specs.StatementReads.{binder_in, binders_read};
ghost use Rattle.scad_expressions.specs.Views.{GivesRead};

use scad_ast::{Binder, Binders};
use scad_expressions::{
    Parsed, TokenClass, behind, behind_comma, bytes, closed, is_comma_and_name, list_of, take,
    too_deep, with,
};
use scad_lexer::{Symbol, Token};
use std::alloc::Global;

/// Variables of a loop, in parentheses.
pub(crate) fn binders<'a>(alloc: Global, tokens: &'a [Token], depth: u32) -> Parsed<'a, Binders>
    ensures value { GivesRead (λ p. (binders_of p.0, p.1.now)) result
        (in_parentheses (binders_read (binder_in depth (expr_read depth))) tokens.now) }
{
    let (_, rest) = take(TokenClass::Sign(Symbol::OpenParenthesis), tokens)?;
    closed(binder_list(alloc, rest, depth), Symbol::CloseParenthesis)
}

// Variables of a loop, and maybe a comma behind the last.
fn binder_list<'a>(alloc: Global, tokens: &'a [Token], depth: u32) -> Parsed<'a, Binders>
    ensures value { GivesRead (λ p. (binders_of p.0, p.1.now)) result
        (binders_read (binder_in depth (expr_read depth)) tokens.now) }
{
    let (first, rest) = binder(alloc, tokens, depth)?;
    let items = list_of(alloc, first, 4)?;
    more_binders(alloc, items, rest, depth)
}

// More variables of a loop, each behind a comma, and maybe a comma behind the last.
fn more_binders<'a>(
    alloc: Global,
    mut items: Vec<Binder>,
    tokens: &'a [Token],
    depth: u32,
) -> Parsed<'a, Binders>
    ensures value { GivesRead (λ p. (binders_of p.0, p.1.now)) result
        (in_front (map binder_of items.items)
        (trailing_items (has_class comma_sign) (has_class name_class)
        (binder_in depth (expr_read depth)) tokens.now)) }
{
    let mut rest = tokens;
    'commas: while is_comma_and_name(rest) {
        let (item, after) = binder(alloc, behind_comma(rest), depth)?;
        items.push(item)?;
        rest = after;
    }
    Ok((Binders { items }, behind_comma(rest)))
}

// A variable of a loop, whose tokens are less deep than so much.
fn binder<'a>(alloc: Global, tokens: &'a [Token], depth: u32) -> Parsed<'a, Binder>
    ensures value { GivesRead (λ p. (binder_of p.0, p.1.now)) result
        (binder_in depth (expr_read depth) tokens.now) }
{
    if depth == 0 {
        return Err(too_deep(TokenClass::Name, TokenClass::LeftOut, tokens));
    }
    let (token, rest) = take(TokenClass::Name, tokens)?;
    let name = bytes(alloc, &token.kind)?;
    let ((name, values), rest) = with(name, behind(alloc, Symbol::Assign, rest, depth))?;
    let place = token.place;
    Ok((
        Binder {
            place,
            name,
            values,
        },
        rest,
    ))
}
