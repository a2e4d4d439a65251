//! Parses modifier characters, and puts instances together.

ghost use Rattle.std.specs.Prelude.{◌≡◌};
ghost use Rattle.scad_ast.specs.ExprView.{term_of};
ghost use Rattle.scad_ast.specs.StatementView.{instance_of, core_of, modifier_of, modifiers_of};
ghost use Rattle.scad_grammar.specs.Grammar.{modifier_term, instance_term};
ghost use Rattle.scad_grammar.specs.Reads.{expr_read, in_parentheses};
ghost use Rattle.scad_grammar.specs.StatementReads.{modifiers_read};
ghost use Rattle.scad_expressions.specs.Views.{GivesRead};

use scad_ast::{Core, Expr, Instance, PlacedModifier, PlacedModifiers};
use scad_expressions::{Parsed, TokenClass, closed, expr, modifier, take};
use scad_lexer::{Symbol, Token};
use std::alloc::Global;

/// The modifiers that stand here, which may be none.
pub(crate) fn modifiers<'a>(alloc: Global, tokens: &'a [Token]) -> Parsed<'a, PlacedModifiers>
    ensures value { GivesRead (λ p. (modifiers_of p.0, p.1.now)) result
        (modifiers_read tokens.now) }
{
    let mut items = Vec::new(alloc);
    let mut rest = tokens;
    'modifiers: while let Some((token, after)) = TokenClass::Modifier.split_first(rest) {
        items.push(placed(token))?;
        rest = after;
    }
    Ok((PlacedModifiers { items }, rest))
}

// A modifier.
fn placed(token: &Token) -> PlacedModifier
    ensures { modifier_of result ≡ modifier_term token.now }
{
    PlacedModifier {
        place: token.place,
        modifier: modifier(&token.kind),
    }
}

/// An instance, by its modifiers and its core.
pub(crate) fn instance_from(modifiers: PlacedModifiers, core: Core) -> Instance
    ensures { instance_of result ≡ instance_term (modifiers_of modifiers) (core_of core) }
{
    let place = match modifiers.items.first() {
        Some(first) => first.place,
        None => core.place(),
    };
    Instance {
        place,
        modifiers,
        core,
    }
}

/// The condition of an `if`: an expression in parentheses.
pub(crate) fn condition<'a>(alloc: Global, tokens: &'a [Token], depth: u32) -> Parsed<'a, Expr>
    ensures value { GivesRead (λ p. (term_of p.0, p.1.now)) result
        (in_parentheses (expr_read depth) tokens.now) }
{
    let (_, rest) = take(TokenClass::Sign(Symbol::OpenParenthesis), tokens)?;
    closed(expr(alloc, rest, depth), Symbol::CloseParenthesis)
}
