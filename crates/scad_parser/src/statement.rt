//! Parses statements, definitions of modules, and instances.

ghost use Rattle.scad_ast.specs.StatementView.{statement_of, statements_of, instance_of, core_of, body_of};
ghost use Rattle.scad_grammar.specs.Classes.{has_class_in, has_class, else_word};
ghost use Rattle.scad_grammar.specs.Languages.{second_of};
ghost use Rattle.scad_grammar.specs.Faults.{token_read};
ghost use Rattle.scad_grammar.specs.Reading.{sequence_read, repeated_read};
ghost use Rattle.scad_grammar.specs.Reads.{expr_read, arg_in};
ghost use Rattle.scad_grammar.specs.StatementReads.{firsts_of_statement, param_in, binder_in, if_read, loop_read, call_read, core_read, instance_in, braces_read, body_read, body_over, module_read, definition_read, statement_over, statement_read};
ghost use Rattle.scad_expressions.specs.Views.{GivesRead};

use crate::{
    assignment, binders, condition, function, instance_from, modifiers, params, special_assignment,
};
use scad_ast::{Body, Core, Instance, Statement, Statements};
use scad_expressions::{
    Parsed, TokenClass, arguments, assigned, boxed, bytes, closed, take, too_deep, with,
};
use scad_lexer::{Reserved, Symbol, Token};
use std::alloc::Global;

// Each form stands in a function that is not inlined: the locals of a function are cleared at each call, also those
// of forms that are not met.

/// A statement whose tokens are less deep than so much.
#[cycle(statement)]
pub fn statement<'a>(alloc: Global, tokens: &'a [Token], depth: u32) -> Parsed<'a, Statement>
    ensures value { GivesRead (λ p. (statement_of p.0, p.1.now)) result
        (statement_read depth tokens.now) }
{
    if depth == 0 {
        return Err(too_deep(TokenClass::Statement, TokenClass::LeftOut, tokens));
    }
    statement_over(alloc, tokens, depth, depth - 1)
}

// A statement, by its own depth and that of what it encloses.
#[cycle(statement)]
fn statement_over<'a>(
    alloc: Global,
    tokens: &'a [Token],
    depth: u32,
    inner: u32,
) -> Parsed<'a, Statement>
    ensures value { GivesRead (λ p. (statement_of p.0, p.1.now)) result
        (statement_over (expr_read depth) (param_in inner (expr_read inner)) (statement_read inner)
        (body_read inner) (instance_in inner (body_read inner)) tokens.now) }
{
    if let Some((end, rest)) = TokenClass::Sign(Symbol::Semicolon).split_first(tokens) {
        Ok((Statement::Empty(end.place), rest))
    } else if let Some((open, rest)) = TokenClass::Sign(Symbol::OpenBrace).split_first(tokens) {
        let (statements, rest) = braces(alloc, rest, inner)?;
        Ok((Statement::Block(open.place, statements), rest))
    } else if TokenClass::Special.begins(tokens) {
        special_assignment(alloc, tokens, depth)
    } else if let Some((name, rest)) = assigned(TokenClass::Name, tokens) {
        assignment(alloc, name, rest, depth)
    } else {
        definition(alloc, tokens, depth, inner)
    }
}

// Statements and the brace that closes them.
#[cycle(statement)]
fn braces<'a>(alloc: Global, tokens: &'a [Token], depth: u32) -> Parsed<'a, Statements>
    ensures value { GivesRead (λ p. (statements_of p.0, p.1.now)) result
        (braces_read (statement_read depth) tokens.now) }
{
    closed(statements(alloc, tokens, depth), Symbol::CloseBrace)
}

/// Statements, as long as one may begin.
#[cycle(statement)]
pub fn statements<'a>(alloc: Global, tokens: &'a [Token], depth: u32) -> Parsed<'a, Statements>
    ensures value { GivesRead (λ p. (statements_of p.0, p.1.now)) result
        (repeated_read (has_class_in firsts_of_statement) (statement_read depth) tokens.now) }
{
    let mut items = Vec::new(alloc);
    let mut rest = tokens;
    'statements: while TokenClass::Statement.begins(rest) {
        let (item, after) = statement(alloc, rest, depth)?;
        items.push(item)?;
        rest = after;
    }
    Ok((Statements { items }, rest))
}

// A module, a function or an instance.
#[cycle(statement)]
#[inline(never)]
fn definition<'a>(
    alloc: Global,
    tokens: &'a [Token],
    depth: u32,
    inner: u32,
) -> Parsed<'a, Statement>
    ensures value { GivesRead (λ p. (statement_of p.0, p.1.now)) result
        (definition_read (expr_read depth) (param_in inner (expr_read inner)) (body_read inner)
        (instance_in inner (body_read inner)) tokens.now) }
{
    if TokenClass::Word(Reserved::Module).begins(tokens) {
        module(alloc, tokens, inner)
    } else if TokenClass::Word(Reserved::Function).begins(tokens) {
        function(alloc, tokens, depth, inner)
    } else {
        let (instance, rest) = instance(alloc, tokens, inner)?;
        Ok((Statement::Instantiation(instance), rest))
    }
}

// A module.
#[cycle(statement)]
#[inline(never)]
fn module<'a>(alloc: Global, tokens: &'a [Token], depth: u32) -> Parsed<'a, Statement>
    ensures value { GivesRead (λ p. (statement_of p.0, p.1.now)) result
        (module_read (param_in depth (expr_read depth)) (body_read depth) tokens.now) }
{
    let (word, rest) = take(TokenClass::Word(Reserved::Module), tokens)?;
    let (name, rest) = take(TokenClass::Name, rest)?;
    let bytes = bytes(alloc, &name.kind)?;
    let ((bytes, params), rest) = with(bytes, params(alloc, rest, depth))?;
    let (((bytes, params), body), rest) = with((bytes, params), body(alloc, rest, depth))?;
    Ok((
        Statement::Module(word.place, bytes, name.place, params, body),
        rest,
    ))
}

// An instance over what is less deep than so much.
#[cycle(statement)]
fn instance<'a>(alloc: Global, tokens: &'a [Token], depth: u32) -> Parsed<'a, Instance>
    ensures value { GivesRead (λ p. (instance_of p.0, p.1.now)) result
        (instance_in depth (body_read depth) tokens.now) }
{
    let (modifiers, rest) = modifiers(alloc, tokens)?;
    let ((modifiers, core), rest) = with(modifiers, core(alloc, rest, depth))?;
    Ok((instance_from(modifiers, core), rest))
}

// An instance without its modifiers, over what is less deep than so much.
#[cycle(statement)]
fn core<'a>(alloc: Global, tokens: &'a [Token], depth: u32) -> Parsed<'a, Core>
    ensures value { GivesRead (λ p. (core_of p.0, p.1.now)) result
        (core_read (expr_read depth) (arg_in depth (expr_read depth))
        (binder_in depth (expr_read depth)) (body_read depth) tokens.now) }
{
    if TokenClass::Word(Reserved::If).begins(tokens) {
        branch(alloc, tokens, depth)
    } else if TokenClass::LoopWord.begins(tokens) {
        repetition(alloc, tokens, depth)
    } else {
        call(alloc, tokens, depth)
    }
}

// An `if`, with its `else` where one stands.
#[cycle(statement)]
#[inline(never)]
fn branch<'a>(alloc: Global, tokens: &'a [Token], depth: u32) -> Parsed<'a, Core>
    ensures value { GivesRead (λ p. (core_of p.0, p.1.now)) result
        (if_read (expr_read depth) (body_read depth) tokens.now) }
{
    let (word, rest) = take(TokenClass::Word(Reserved::If), tokens)?;
    let (test, rest) = condition(alloc, rest, depth)?;
    let ((test, then), rest) = with(test, boxed_body(alloc, rest, depth))?;
    if !TokenClass::Word(Reserved::Else).begins(rest) {
        return Ok((Core::If(word.place, test, then), rest));
    }
    let (((test, then), other), rest) = with((test, then), otherwise(alloc, rest, depth))?;
    Ok((Core::IfElse(word.place, test, then, other), rest))
}

// An `else` and its body.
#[cycle(statement)]
#[inline(always)]
fn otherwise<'a>(alloc: Global, tokens: &'a [Token], depth: u32) -> Parsed<'a, Box<Body>>
    ensures value { GivesRead (λ p. (body_of p.0.value, p.1.now)) result
        (sequence_read second_of (token_read (has_class else_word)) (body_read depth) tokens.now) }
{
    let (_, rest) = take(TokenClass::Word(Reserved::Else), tokens)?;
    boxed_body(alloc, rest, depth)
}

// A body in a box.
#[cycle(statement)]
#[inline(always)]
fn boxed_body<'a>(alloc: Global, tokens: &'a [Token], depth: u32) -> Parsed<'a, Box<Body>>
    ensures value { GivesRead (λ p. (body_of p.0.value, p.1.now)) result
        (body_read depth tokens.now) }
{
    boxed(alloc, body(alloc, tokens, depth))
}

// A `for` or an `intersection_for`.
#[cycle(statement)]
#[inline(never)]
fn repetition<'a>(alloc: Global, tokens: &'a [Token], depth: u32) -> Parsed<'a, Core>
    ensures value { GivesRead (λ p. (core_of p.0, p.1.now)) result
        (loop_read (binder_in depth (expr_read depth)) (body_read depth) tokens.now) }
{
    let (word, rest) = take(TokenClass::LoopWord, tokens)?;
    let (binders, rest) = binders(alloc, rest, depth)?;
    let ((binders, body), rest) = with(binders, boxed_body(alloc, rest, depth))?;
    if TokenClass::Word(Reserved::For).has(&word.kind) {
        Ok((Core::For(word.place, binders, body), rest))
    } else {
        Ok((Core::IntersectionFor(word.place, binders, body), rest))
    }
}

// A call of a module.
#[cycle(statement)]
fn call<'a>(alloc: Global, tokens: &'a [Token], depth: u32) -> Parsed<'a, Core>
    ensures value { GivesRead (λ p. (core_of p.0, p.1.now)) result
        (call_read (arg_in depth (expr_read depth)) (body_read depth) tokens.now) }
{
    let (name, rest) = take(TokenClass::Name, tokens)?;
    let bytes = bytes(alloc, &name.kind)?;
    let ((bytes, args), rest) = with(bytes, arguments(alloc, rest, depth))?;
    let (((bytes, args), body), rest) = with((bytes, args), boxed_body(alloc, rest, depth))?;
    Ok((Core::Call(name.place, bytes, args, body), rest))
}

// A body whose tokens are less deep than so much.
#[cycle(statement)]
fn body<'a>(alloc: Global, tokens: &'a [Token], depth: u32) -> Parsed<'a, Body>
    ensures value { GivesRead (λ p. (body_of p.0, p.1.now)) result (body_read depth tokens.now) }
{
    if depth == 0 {
        return Err(too_deep(TokenClass::Body, TokenClass::LeftOut, tokens));
    }
    body_over(alloc, tokens, depth - 1)
}

// A body over what is less deep than so much.
#[cycle(statement)]
fn body_over<'a>(alloc: Global, tokens: &'a [Token], depth: u32) -> Parsed<'a, Body>
    ensures value { GivesRead (λ p. (body_of p.0, p.1.now)) result
        (body_over (statement_read depth) (instance_in depth (body_read depth)) tokens.now) }
{
    if let Some((end, rest)) = TokenClass::Sign(Symbol::Semicolon).split_first(tokens) {
        Ok((Body::Semicolon(end.place), rest))
    } else if let Some((open, rest)) = TokenClass::Sign(Symbol::OpenBrace).split_first(tokens) {
        let (statements, rest) = braces(alloc, rest, depth)?;
        Ok((Body::Braces(open.place, statements), rest))
    } else {
        let (instance, rest) = boxed(alloc, instance(alloc, tokens, depth))?;
        Ok((Body::Single(instance), rest))
    }
}
