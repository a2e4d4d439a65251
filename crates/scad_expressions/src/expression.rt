//! Parses expressions by recursive descent, one function for each form of the grammar.

ghost use Rattle.std.specs.Prelude.{◌≡◌, ◌≤◌, ◌∷◌, [], true, Some, IfOk, length, map};
ghost use Rattle.scad_ast.specs.Terms.{ListTerm, terms_from};
ghost use Rattle.scad_ast.specs.ExprView.{term_of, terms_of, link_of, suffix_of, arg_of, args_of};
ghost use Rattle.scad_grammar.specs.Classes.{has_class_in, has_class, has_class_outside, symbol_class, bytes_of};
ghost use Rattle.scad_grammar.specs.Classes.{comma_sign, close_bracket_sign, close_parenthesis_sign, colon_sign, question_sign};
ghost use Rattle.scad_grammar.specs.Faults.{token_read};
ghost use Rattle.scad_grammar.specs.Grammar.{levels, named_argument_term, chain_term, choice_term, postfix_term, unary_term, name_term, bracket_term, list_or_range_term};
ghost use Rattle.scad_grammar.specs.Languages.{pair_of, second_of};
ghost use Rattle.scad_grammar.specs.Reading.{next_is, sequence_read, image_read, optional_read, repeated_read, trailing_items, in_front};
ghost use Rattle.scad_grammar.specs.Reads.{expr_read, operand_read, arg_in, args_read, postfix_read, suffix_read, chain_read, choice_read, name_read, paren_read, bracket_read, range_read, rest_read, in_parentheses};
ghost use Rattle.scad_expressions.specs.Climbing.{primary_in, unary_in, link_in, climb_read};
ghost use Rattle.scad_expressions.specs.TokenClasses.{operators_at, levels_below, atoms, suffix_signs};
ghost use Rattle.scad_expressions.specs.Views.{GivesRead, atom_of};

use crate::{
    Level, Parsed, TokenClass, assigned, behind_comma, binary_operator, boxed, bytes, closed,
    is_before, is_comma_before, list_of, lone_atom, take, take_first, too_deep, unary_operator,
    with,
};
use plain_text::CompactBytes;
use scad_ast::{
    Arg, Args, Call, Chain, Choice, Expr, Exprs, Link, Links, Postfix, Range, SteppedRange, Suffix,
    Suffixes,
};
use scad_lexer::{Reserved, Symbol, Token, TokenKind};
use std::alloc::Global;

// What is rare stands in functions that are not inlined: the locals of a function are cleared at each call, also
// those of forms that are not met. What was read is handed on as it is where nothing follows it, rather than taken
// apart and put together again. Most expressions are a literal or a name alone: `atom` makes these where the caller
// wants them, since it is inlined like `expr` and `arg`.

/// An expression whose tokens are less deep than so much.
#[cycle(expression)]
#[inline(always)]
pub fn expr<'a>(alloc: Global, tokens: &'a [Token], depth: u32) -> Parsed<'a, Expr>
    ensures value { GivesRead (λ p. (term_of p.0, p.1.now)) result (expr_read depth tokens.now) }
    ensures rest { IfOk result (λ p. length p.1.now ≤ length tokens.now) }
{
    if depth == 0 {
        return Err(too_deep(
            TokenClass::Expression,
            TokenClass::LeftOutOfExpressions,
            tokens,
        ));
    }
    if let Some((token, rest)) = lone_atom(tokens) {
        return atom(alloc, token, rest);
    }
    choice(alloc, tokens, depth - 1)
}

// An expression with its choice, over what is less deep than so much.
#[cycle(expression)]
#[inline(never)]
fn choice<'a>(alloc: Global, tokens: &'a [Token], depth: u32) -> Parsed<'a, Expr>
    ensures value { GivesRead (λ p. (term_of p.0, p.1.now)) result
        (choice_read (expr_read depth) (operand_read depth) (primary_in depth) tokens.now) }
{
    match chain(alloc, tokens, depth) {
        Ok((test, rest)) if TokenClass::Sign(Symbol::Question).begins(rest) => {
            chosen(alloc, test, rest, depth)
        }
        read => read,
    }
}

// A choice by what was read before its `?`.
#[cycle(expression)]
#[inline(never)]
fn chosen<'a>(alloc: Global, test: Expr, tokens: &'a [Token], depth: u32) -> Parsed<'a, Expr>
    ensures value { GivesRead (λ p. (term_of p.0, p.1.now)) result
        (image_read (choice_term (term_of test))
        (image_read Some (sequence_read pair_of (token_read (has_class question_sign))
        (sequence_read pair_of (expr_read depth)
        (sequence_read second_of (token_read (has_class colon_sign)) (expr_read depth)))))
        tokens.now) }
{
    let ((test, ((mark, yes), no)), rest) = with(test, sides(alloc, tokens, depth))?;
    let place = test.place();
    let choice = Choice {
        test,
        mark: mark.place,
        yes,
        no,
    };
    Ok((Expr::Choice(place, Box::new(alloc, choice)?), rest))
}

// The mark of a choice and its two sides.
#[cycle(expression)]
#[inline(always)]
fn sides<'a>(
    alloc: Global,
    tokens: &'a [Token],
    depth: u32,
) -> Parsed<'a, ((&'a Token, Expr), Expr)>
    ensures value { GivesRead
        (λ p. ((p.0.0.0.now, (term_of p.0.0.1, term_of p.0.1)), p.1.now)) result
        (sequence_read pair_of (token_read (has_class question_sign))
        (sequence_read pair_of (expr_read depth)
        (sequence_read second_of (token_read (has_class colon_sign)) (expr_read depth)))
        tokens.now) }
{
    let (mark, rest) = take(TokenClass::Sign(Symbol::Question), tokens)?;
    let (yes, rest) = expr(alloc, rest, depth)?;
    with((mark, yes), behind(alloc, Symbol::Colon, rest, depth))
}

/// A sign and the expression behind it.
#[cycle(expression)]
#[inline(always)]
pub fn behind<'a>(alloc: Global, sign: Symbol, tokens: &'a [Token], depth: u32) -> Parsed<'a, Expr>
    ensures value { GivesRead (λ p. (term_of p.0, p.1.now)) result
        (sequence_read second_of (token_read (has_class (symbol_class sign)))
        (expr_read depth) tokens.now) }
    ensures rest { IfOk result (λ p. length p.1.now ≤ length tokens.now) }
{
    let (_, rest) = take(TokenClass::Sign(sign), tokens)?;
    expr(alloc, rest, depth)
}

// Operands with operators between them.
#[cycle(expression)]
fn chain<'a>(alloc: Global, tokens: &'a [Token], depth: u32) -> Parsed<'a, Expr>
    ensures value { GivesRead (λ p. (term_of p.0, p.1.now)) result
        (chain_read levels (unary_in depth) tokens.now) }
{
    match unary(alloc, tokens, depth) {
        Ok((first, rest)) if TokenClass::BinaryOperator.begins(rest) => {
            climbed(alloc, first, rest, depth)
        }
        read => read,
    }
}

// What the operators of a level stand between.
#[cycle(expression)]
fn side<'a>(alloc: Global, tokens: &'a [Token], depth: u32, level: Level) -> Parsed<'a, Expr>
    ensures value { GivesRead (λ p. (term_of p.0, p.1.now)) result
        (chain_read (levels_below level) (unary_in depth) tokens.now) }
{
    if let Some((token, rest)) = lone_atom(tokens) {
        return atom(alloc, token, rest);
    }
    let (first, rest) = unary(alloc, tokens, depth)?;
    climb_below(alloc, first, rest, depth, level)
}

// An operand that was read, with the operators behind it.
#[cycle(expression)]
#[inline(never)]
fn climbed<'a>(alloc: Global, first: Expr, tokens: &'a [Token], depth: u32) -> Parsed<'a, Expr>
    ensures value { GivesRead (λ p. (term_of p.0, p.1.now)) result
        (climb_read levels (unary_in depth) (term_of first) tokens.now) }
{
    match climb_below(alloc, first, tokens, depth, Level::Or) {
        Ok((first, rest)) if TokenClass::Operator(Level::Or).begins(rest) => {
            linked(alloc, first, rest, depth, Level::Or)
        }
        read => read,
    }
}

// The same with the operators that bind more tightly than those of a level: those of the tightest level first, then
// those of the next one around what they make, and so on.
#[cycle(expression)]
fn climb_below<'a>(
    alloc: Global,
    first: Expr,
    tokens: &'a [Token],
    depth: u32,
    level: Level,
) -> Parsed<'a, Expr>
    ensures value { GivesRead (λ p. (term_of p.0, p.1.now)) result
        (climb_read (levels_below level) (unary_in depth) (term_of first) tokens.now) }
{
    let levels = level.tighter_levels();
    let mut first = first;
    let mut rest = tokens;
    let mut at = Level::Product;
    'levels: while at.tighter_levels() < levels {
        if TokenClass::Operator(at).begins(rest) {
            let (chained, after) = linked(alloc, first, rest, depth, at)?;
            first = chained;
            rest = after;
        }
        at = at.looser();
    }
    Ok((first, rest))
}

// What was read, with the operators of a level behind it.
#[cycle(expression)]
#[inline(never)]
fn linked<'a>(
    alloc: Global,
    first: Expr,
    tokens: &'a [Token],
    depth: u32,
    level: Level,
) -> Parsed<'a, Expr>
    requires { next_is (has_class_in (operators_at level)) tokens.now ≡ true }
    ensures value { GivesRead (λ p. (term_of p.0, p.1.now)) result
        (image_read (chain_term (term_of first)) (repeated_read (has_class_in (operators_at level))
        (link_in level depth)) tokens.now) }
{
    let ((first, (next, more)), rest) = with(first, some_links(alloc, tokens, depth, level))?;
    let place = first.place();
    let links = Links { first: next, more };
    let chain = Chain { first, links };
    Ok((Expr::Chain(place, Box::new(alloc, chain)?), rest))
}

// An operator of a level and what stands behind it, and more of them.
#[cycle(expression)]
#[inline(always)]
fn some_links<'a>(
    alloc: Global,
    tokens: &'a [Token],
    depth: u32,
    level: Level,
) -> Parsed<'a, (Link, Vec<Link>)>
    requires { next_is (has_class_in (operators_at level)) tokens.now ≡ true }
    ensures value { GivesRead (λ p. (link_of p.0.0 ∷ map link_of p.0.1.items, p.1.now)) result
        (repeated_read (has_class_in (operators_at level)) (link_in level depth) tokens.now) }
{
    let (next, rest) = link(alloc, tokens, depth, level)?;
    with(next, links(alloc, rest, depth, level))
}

// More operators of a level and what stands behind each.
#[cycle(expression)]
fn links<'a>(alloc: Global, tokens: &'a [Token], depth: u32, level: Level) -> Parsed<'a, Vec<Link>>
    ensures value { GivesRead (λ p. (map link_of p.0.items, p.1.now)) result
        (repeated_read (has_class_in (operators_at level)) (link_in level depth) tokens.now) }
{
    let mut items = Vec::new(alloc);
    let mut rest = tokens;
    'links: while TokenClass::Operator(level).begins(rest) {
        let (item, after) = link(alloc, rest, depth, level)?;
        items.push(item)?;
        rest = after;
    }
    Ok((items, rest))
}

// An operator of a level and what stands behind it.
#[cycle(expression)]
fn link<'a>(alloc: Global, tokens: &'a [Token], depth: u32, level: Level) -> Parsed<'a, Link>
    ensures value { GivesRead (λ p. (link_of p.0, p.1.now)) result
        (link_in level depth tokens.now) }
{
    let (operator, rest) = take(TokenClass::Operator(level), tokens)?;
    let (right, rest) = side(alloc, rest, depth, level)?;
    let op = binary_operator(&operator.kind);
    let place = operator.place;
    Ok((Link { op, place, right }, rest))
}

// An operand with its operators before it.
#[cycle(expression)]
fn unary<'a>(alloc: Global, tokens: &'a [Token], depth: u32) -> Parsed<'a, Expr>
    ensures value { GivesRead (λ p. (term_of p.0, p.1.now)) result (unary_in depth tokens.now) }
{
    match TokenClass::UnaryOperator.split_first(tokens) {
        Some((operator, rest)) => signed(alloc, operator, rest, depth),
        None => postfix(alloc, tokens, depth),
    }
}

// An operator and its operand.
#[cycle(expression)]
#[inline(never)]
fn signed<'a>(alloc: Global, operator: &Token, tokens: &'a [Token], depth: u32) -> Parsed<'a, Expr>
    ensures value { GivesRead (λ p. (term_of p.0, p.1.now)) result
        (image_read (unary_term operator.now) (operand_read depth) tokens.now) }
{
    let (of, rest) = boxed(alloc, operand(alloc, tokens, depth))?;
    let op = unary_operator(&operator.kind);
    Ok((Expr::Unary(operator.place, op, of), rest))
}

// An operand of a unary operator, whose tokens are less deep than so much.
#[cycle(expression)]
fn operand<'a>(alloc: Global, tokens: &'a [Token], depth: u32) -> Parsed<'a, Expr>
    ensures value { GivesRead (λ p. (term_of p.0, p.1.now)) result (operand_read depth tokens.now) }
{
    if depth == 0 {
        return Err(too_deep(
            TokenClass::Expression,
            TokenClass::LeftOutOfExpressions,
            tokens,
        ));
    }
    if let Some((token, rest)) = lone_atom(tokens) {
        return atom(alloc, token, rest);
    }
    unary(alloc, tokens, depth - 1)
}

// A primary with its indexes and members.
#[cycle(expression)]
fn postfix<'a>(alloc: Global, tokens: &'a [Token], depth: u32) -> Parsed<'a, Expr>
    ensures value { GivesRead (λ p. (term_of p.0, p.1.now)) result
        (postfix_read (expr_read depth) (primary_in depth) tokens.now) }
{
    match primary(alloc, tokens, depth) {
        Ok((of, rest)) if TokenClass::Suffix.begins(rest) => suffixed(alloc, of, rest, depth),
        read => read,
    }
}

// A primary that was read, with its indexes and members.
#[cycle(expression)]
#[inline(never)]
fn suffixed<'a>(alloc: Global, of: Expr, tokens: &'a [Token], depth: u32) -> Parsed<'a, Expr>
    requires { next_is (has_class_in suffix_signs) tokens.now ≡ true }
    ensures value { GivesRead (λ p. (term_of p.0, p.1.now)) result
        (image_read (postfix_term (term_of of))
        (repeated_read (has_class_in suffix_signs) (suffix_read (expr_read depth))) tokens.now) }
{
    let ((of, (next, more)), rest) = with(of, some_suffixes(alloc, tokens, depth))?;
    let place = of.place();
    let suffixes = Suffixes { first: next, more };
    let postfix = Postfix { of, suffixes };
    Ok((Expr::Postfix(place, Box::new(alloc, postfix)?), rest))
}

// An index or a member, and more of them.
#[cycle(expression)]
#[inline(always)]
fn some_suffixes<'a>(
    alloc: Global,
    tokens: &'a [Token],
    depth: u32,
) -> Parsed<'a, (Suffix, Vec<Suffix>)>
    requires { next_is (has_class_in suffix_signs) tokens.now ≡ true }
    ensures value { GivesRead (λ p. (suffix_of p.0.0 ∷ map suffix_of p.0.1.items, p.1.now)) result
        (repeated_read (has_class_in suffix_signs) (suffix_read (expr_read depth)) tokens.now) }
{
    let (next, rest) = suffix(alloc, tokens, depth)?;
    with(next, suffixes(alloc, rest, depth))
}

// More indexes and members.
#[cycle(expression)]
fn suffixes<'a>(alloc: Global, tokens: &'a [Token], depth: u32) -> Parsed<'a, Vec<Suffix>>
    ensures value { GivesRead (λ p. (map suffix_of p.0.items, p.1.now)) result
        (repeated_read (has_class_in suffix_signs) (suffix_read (expr_read depth)) tokens.now) }
{
    let mut items = Vec::new(alloc);
    let mut rest = tokens;
    'suffixes: while TokenClass::Suffix.begins(rest) {
        let (item, after) = suffix(alloc, rest, depth)?;
        items.push(item)?;
        rest = after;
    }
    Ok((items, rest))
}

// An index or a member.
#[cycle(expression)]
fn suffix<'a>(alloc: Global, tokens: &'a [Token], depth: u32) -> Parsed<'a, Suffix>
    ensures value { GivesRead (λ p. (suffix_of p.0, p.1.now)) result
        (suffix_read (expr_read depth) tokens.now) }
{
    if let Some((open, rest)) = TokenClass::Sign(Symbol::OpenBracket).split_first(tokens) {
        let (index, rest) = closed(expr(alloc, rest, depth), Symbol::CloseBracket)?;
        return Ok((Suffix::Index(open.place, index), rest));
    }
    let (dot, rest) = take(TokenClass::Sign(Symbol::Dot), tokens)?;
    let (name, rest) = take(TokenClass::Name, rest)?;
    let bytes = bytes(alloc, &name.kind)?;
    Ok((Suffix::Member(dot.place, bytes, name.place), rest))
}

// An expression without operators.
#[cycle(expression)]
fn primary<'a>(alloc: Global, tokens: &'a [Token], depth: u32) -> Parsed<'a, Expr>
    ensures value { GivesRead (λ p. (term_of p.0, p.1.now)) result (primary_in depth tokens.now) }
{
    if let Some((token, rest)) = TokenClass::Literal.split_first(tokens) {
        atom(alloc, token, rest)
    } else if TokenClass::Name.begins(tokens) {
        named(alloc, tokens, depth)
    } else if TokenClass::Sign(Symbol::OpenParenthesis).begins(tokens) {
        paren(alloc, tokens, depth)
    } else {
        bracket(alloc, tokens, depth)
    }
}

// An expression in parentheses.
#[cycle(expression)]
#[inline(never)]
fn paren<'a>(alloc: Global, tokens: &'a [Token], depth: u32) -> Parsed<'a, Expr>
    ensures value { GivesRead (λ p. (term_of p.0, p.1.now)) result
        (paren_read (expr_read depth) tokens.now) }
{
    let (open, rest) = take(TokenClass::Sign(Symbol::OpenParenthesis), tokens)?;
    let (inner, rest) = boxed(
        alloc,
        closed(expr(alloc, rest, depth), Symbol::CloseParenthesis),
    )?;
    Ok((Expr::Paren(open.place, inner), rest))
}

// A literal or a name alone, and the tokens behind it.
#[inline(always)]
fn atom<'a>(alloc: Global, token: &Token, rest: &'a [Token]) -> Parsed<'a, Expr>
    requires { has_class_in atoms token.now ≡ true }
    ensures { GivesRead (λ p. (term_of p.0, p.1.now)) result (Ok (atom_of token.now, rest.now)) }
{
    let place = token.place;
    let atom = match &token.kind {
        TokenKind::Name(_) => Expr::Name(place, bytes(alloc, &token.kind)?),
        TokenKind::Numeral(number) => Expr::Number(place, *number),
        TokenKind::Text(_) => Expr::Text(place, bytes(alloc, &token.kind)?),
        TokenKind::Reserved(Reserved::True) => Expr::Truth(place, true),
        TokenKind::Reserved(Reserved::False) => Expr::Truth(place, false),
        TokenKind::Reserved(Reserved::Undef) => Expr::Undef(place),
        kind if TokenClass::Special.has(kind) => Expr::Special(place, bytes(alloc, kind)?),
        _ => Expr::ChildCount(place),
    };
    Ok((atom, rest))
}

// A name, and its arguments where it has some.
#[cycle(expression)]
fn named<'a>(alloc: Global, tokens: &'a [Token], depth: u32) -> Parsed<'a, Expr>
    ensures value { GivesRead (λ p. (term_of p.0, p.1.now)) result
        (name_read (arg_in depth (expr_read depth)) tokens.now) }
{
    let (name, rest) = take(TokenClass::Name, tokens)?;
    if TokenClass::Sign(Symbol::OpenParenthesis).begins(rest) {
        return called(alloc, name, rest, depth);
    }
    atom(alloc, name, rest)
}

// A call of a function, by its name.
#[cycle(expression)]
#[inline(never)]
fn called<'a>(alloc: Global, name: &Token, tokens: &'a [Token], depth: u32) -> Parsed<'a, Expr>
    ensures value { GivesRead (λ p. (term_of p.0, p.1.now)) result
        (image_read (name_term name.now)
        (image_read Some (in_parentheses (args_read (arg_in depth (expr_read depth)))))
        tokens.now) }
{
    let bytes = bytes(alloc, &name.kind)?;
    let ((bytes, args), rest) = with(bytes, arguments(alloc, tokens, depth))?;
    let call = Call { name: bytes, args };
    Ok((Expr::Call(name.place, Box::new(alloc, call)?), rest))
}

// A list or a range.
#[cycle(expression)]
#[inline(never)]
fn bracket<'a>(alloc: Global, tokens: &'a [Token], depth: u32) -> Parsed<'a, Expr>
    ensures value { GivesRead (λ p. (term_of p.0, p.1.now)) result
        (bracket_read (expr_read depth) tokens.now) }
{
    let (open, rest) = take_first(TokenClass::Sign(Symbol::OpenBracket), tokens)?;
    closed(inside(alloc, open, rest, depth), Symbol::CloseBracket)
}

// What a bracket makes with what stands in it: a list or a range.
#[cycle(expression)]
fn inside<'a>(alloc: Global, bracket: &Token, tokens: &'a [Token], depth: u32) -> Parsed<'a, Expr>
    ensures value { GivesRead (λ p. (term_of p.0, p.1.now)) result
        (image_read (bracket_term bracket.now)
        (optional_read (has_class_outside (close_bracket_sign ∷ []))
        (sequence_read pair_of (expr_read depth) (rest_read (expr_read depth)))) tokens.now) }
{
    if !is_before(Symbol::CloseBracket, tokens) {
        return list(alloc, bracket, no_items(alloc), tokens);
    }
    let (first, rest) = expr(alloc, tokens, depth)?;
    filled(alloc, bracket, first, rest, depth)
}

// The same by its first expression.
#[cycle(expression)]
fn filled<'a>(
    alloc: Global,
    bracket: &Token,
    first: Expr,
    tokens: &'a [Token],
    depth: u32,
) -> Parsed<'a, Expr>
    ensures value { GivesRead (λ p. (term_of p.0, p.1.now)) result
        (image_read (list_or_range_term bracket.now (term_of first)) (rest_read (expr_read depth))
        tokens.now) }
{
    if !TokenClass::Sign(Symbol::Colon).begins(tokens) {
        let more = is_comma_before(Symbol::CloseBracket, tokens);
        let items = list_of(alloc, first, if more { 3 } else { 1 })?;
        let (items, rest) = more_items(alloc, items, tokens, depth)?;
        return list(alloc, bracket, items, rest);
    }
    range(alloc, bracket, first, tokens, depth)
}

// A list by its bracket and its items, and the tokens behind these.
#[inline(always)]
fn list<'a>(alloc: Global, bracket: &Token, items: Exprs, rest: &'a [Token]) -> Parsed<'a, Expr>
    ensures { GivesRead (λ p. (term_of p.0, p.1.now)) result
        (Ok (ListTerm bracket.now.place (terms_from (terms_of items)), rest.now)) }
{
    Ok((Expr::List(bracket.place, Box::new(alloc, items)?), rest))
}

// A range, by its bracket and its first expression.
#[cycle(expression)]
#[inline(never)]
fn range<'a>(
    alloc: Global,
    bracket: &Token,
    from: Expr,
    tokens: &'a [Token],
    depth: u32,
) -> Parsed<'a, Expr>
    ensures value { GivesRead (λ p. (term_of p.0, p.1.now)) result
        (image_read (list_or_range_term bracket.now (term_of from)) (range_read (expr_read depth))
        tokens.now) }
{
    let place = bracket.place;
    let ((from, _), rest) = with(from, take(TokenClass::Sign(Symbol::Colon), tokens))?;
    let ((from, next), rest) = with(from, expr(alloc, rest, depth))?;
    if !TokenClass::Sign(Symbol::Colon).begins(rest) {
        let range = Range { from, to: next };
        return Ok((Expr::Range(place, Box::new(alloc, range)?), rest));
    }
    let (((from, next), to), rest) = with((from, next), behind(alloc, Symbol::Colon, rest, depth))?;
    let range = SteppedRange {
        from,
        step: next,
        to,
    };
    Ok((Expr::SteppedRange(place, Box::new(alloc, range)?), rest))
}

// More items of a list, each behind a comma, and maybe a comma behind the last.
#[cycle(expression)]
fn more_items<'a>(
    alloc: Global,
    mut items: Vec<Expr>,
    tokens: &'a [Token],
    depth: u32,
) -> Parsed<'a, Exprs>
    ensures value { GivesRead (λ p. (terms_of p.0, p.1.now)) result
        (in_front (map term_of items.items)
        (trailing_items (has_class comma_sign) (has_class_outside (close_bracket_sign ∷ []))
        (expr_read depth)
        tokens.now)) }
{
    let mut rest = tokens;
    'commas: while is_comma_before(Symbol::CloseBracket, rest) {
        let (item, after) = expr(alloc, behind_comma(rest), depth)?;
        items.push(item)?;
        rest = after;
    }
    Ok((Exprs { items }, behind_comma(rest)))
}

/// Arguments in parentheses.
#[cycle(expression)]
#[inline(always)]
pub fn arguments<'a>(alloc: Global, tokens: &'a [Token], depth: u32) -> Parsed<'a, Args>
    ensures value { GivesRead (λ p. (args_of p.0, p.1.now)) result
        (in_parentheses (args_read (arg_in depth (expr_read depth))) tokens.now) }
    ensures rest { IfOk result (λ p. length p.1.now ≤ length tokens.now) }
{
    let (_, rest) = take(TokenClass::Sign(Symbol::OpenParenthesis), tokens)?;
    closed(arg_list(alloc, rest, depth), Symbol::CloseParenthesis)
}

// Arguments, and maybe a comma behind the last.
#[cycle(expression)]
fn arg_list<'a>(alloc: Global, tokens: &'a [Token], depth: u32) -> Parsed<'a, Args>
    ensures value { GivesRead (λ p. (args_of p.0, p.1.now)) result
        (args_read (arg_in depth (expr_read depth)) tokens.now) }
{
    if !is_before(Symbol::CloseParenthesis, tokens) {
        return Ok((no_args(alloc), tokens));
    }
    let (first, rest) = arg(alloc, tokens, depth)?;
    let more = is_comma_before(Symbol::CloseParenthesis, rest);
    let items = list_of(alloc, first, if more { 2 } else { 1 })?;
    more_args(alloc, items, rest, depth)
}

// More arguments, each behind a comma, and maybe a comma behind the last.
#[cycle(expression)]
fn more_args<'a>(
    alloc: Global,
    mut items: Vec<Arg>,
    tokens: &'a [Token],
    depth: u32,
) -> Parsed<'a, Args>
    ensures value { GivesRead (λ p. (args_of p.0, p.1.now)) result
        (in_front (map arg_of items.items)
        (trailing_items (has_class comma_sign) (has_class_outside (close_parenthesis_sign ∷ []))
        (arg_in depth (expr_read depth)) tokens.now)) }
{
    let mut rest = tokens;
    'commas: while is_comma_before(Symbol::CloseParenthesis, rest) {
        let (item, after) = arg(alloc, behind_comma(rest), depth)?;
        items.push(item)?;
        rest = after;
    }
    Ok((Args { items }, behind_comma(rest)))
}

// An argument whose tokens are less deep than so much.
#[cycle(expression)]
#[inline(always)]
fn arg<'a>(alloc: Global, tokens: &'a [Token], depth: u32) -> Parsed<'a, Arg>
    ensures value { GivesRead (λ p. (arg_of p.0, p.1.now)) result
        (arg_in depth (expr_read depth) tokens.now) }
{
    if depth == 0 {
        return Err(too_deep(
            TokenClass::Expression,
            TokenClass::LeftOutOfExpressions,
            tokens,
        ));
    }
    let Some((name, rest)) = assigned(TokenClass::ArgumentName, tokens) else {
        let (value, rest) = expr(alloc, tokens, depth)?;
        return Ok((Arg::Positional(value), rest));
    };
    let bytes = bytes(alloc, &name.kind)?;
    let ((bytes, value), rest) = with(bytes, expr(alloc, rest, depth))?;
    Ok((given(name, bytes, value), rest))
}

// An argument by its name and its value.
#[inline(always)]
fn given(name: &Token, bytes: CompactBytes, value: Expr) -> Arg
    requires { bytes ≡ bytes_of name.now.kind }
    ensures { arg_of result ≡ named_argument_term name.now (term_of value) }
{
    if TokenClass::Special.has(&name.kind) {
        Arg::Special(name.place, bytes, value)
    } else {
        Arg::Named(name.place, bytes, value)
    }
}

// A list of nothing.
fn no_items(alloc: Global) -> Exprs
    ensures { terms_of result ≡ [] }
{
    Exprs {
        items: Vec::new(alloc),
    }
}

// No arguments.
fn no_args(alloc: Global) -> Args
    ensures { args_of result ≡ [] }
{
    Args {
        items: Vec::new(alloc),
    }
}
