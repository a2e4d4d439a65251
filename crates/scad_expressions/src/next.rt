//! The parser's result: what was read with the tokens behind it, or why it stopped.

ghost use Rattle.std.specs.Prelude.{◌≡◌, ◌<◌, ◌≤◌, ◌∷◌, [], true, false, Ok, Err, Some, None, IfOk, IfErr, IfSome, IfNone, length};
ghost use Rattle.scad_grammar.specs.Classes.{token_class, bytes_of, symbol_class, has_class_in, has_class, has_class_outside};
ghost use Rattle.scad_grammar.specs.Classes.{name_class};
ghost use Rattle.scad_grammar.specs.Grammar.{binary_at, unary_at, modifier_at};
ghost use Rattle.scad_grammar.specs.Faults.{token_read, first_token_read};
ghost use Rattle.scad_grammar.specs.Reading.{next_is};
ghost use Rattle.scad_expressions.specs.TokenClasses.{classes_of, continuations};
ghost use Rattle.scad_expressions.specs.declared.class.TokenClass.TheVariants.{LeftOut};
ghost use Rattle.scad_expressions.specs.Views.{GivesRead, IsStop, IsClosedRead, IsBoxed, nested_fault, fault_at, item_stands, past_comma, value_assigned, has_lone_atom};

use crate::class::TokenClass;
use plain_text::CompactBytes;
use scad_ast::{BinaryOp, Modifier, UnaryOp};
use scad_grammar::SyntaxFault;
use scad_lexer::{Symbol, Token, TokenKind};
use std::alloc::{AllocError, AllocFailed, Global};

/// Why nothing was read: a fault and the tokens from where it stands, or that memory ran out.
#[derive(Drop)]
pub enum Stopped<'a> {
    Fault(SyntaxFault, &'a [Token]),
    NoMemory,
}

impl<'a> From<AllocError> for Stopped<'a> {
    ghost use Rattle.std.specs.Prelude.{◌≡◌};
    ghost use Rattle.scad_expressions.specs.declared.next.Stopped.TheVariants.{NoMemory};

    ghost from_gives = { λ _ stopped. stopped ≡ NoMemory };

    fn from(_refused: AllocError) -> Stopped<'a> {
        Stopped::NoMemory
    }
}

impl<'a, T: Drop> From<AllocFailed<T>> for Stopped<'a> {
    ghost use Rattle.std.specs.Prelude.{◌≡◌};
    ghost use Rattle.scad_expressions.specs.declared.next.Stopped.TheVariants.{NoMemory};

    ghost from_gives = { λ _ stopped. stopped ≡ NoMemory };

    fn from(_refused: AllocFailed<T>) -> Stopped<'a> {
        Stopped::NoMemory
    }
}

/// A value and the tokens behind it.
pub type Parsed<'a, T> = Result<(T, &'a [Token]), Stopped<'a>>;

/// What was read before, with what is read behind it. Where nothing is read, what was read before is dropped: here, for
/// every type alike, and not in each function that holds something while it reads on.
#[inline(always)]
pub fn with<'a, A: Drop, B>(before: A, read: Parsed<'a, B>) -> Parsed<'a, (A, B)>
    ensures ok { IfOk result (λ p. (p.0.0 ≡ before) × (read.entry ≡ Ok (p.0.1, p.1))) }
    ensures err { IfErr result (λ stopped. read.entry ≡ Err stopped) }
{
    match read {
        Ok((value, rest)) => Ok(((before, value), rest)),
        Err(stopped) => Err(stopped),
    }
}

/// What was read, where this sign stands behind it.
#[inline(always)]
pub fn closed<'a, T: Drop>(read: Parsed<'a, T>, close: Symbol) -> Parsed<'a, T>
    ensures { IsClosedRead (has_class (symbol_class close)) read.entry result }
{
    match read {
        Ok((value, rest)) => match take(TokenClass::Sign(close), rest) {
            Ok((_, rest)) => Ok((value, rest)),
            Err(stopped) => Err(stopped),
        },
        Err(stopped) => Err(stopped),
    }
}

/// What was read, in a box.
#[inline(always)]
pub fn boxed<'a, T: Drop>(alloc: Global, read: Parsed<'a, T>) -> Parsed<'a, Box<T>>
    ensures { IsBoxed read.entry result }
{
    let (value, rest) = read?;
    Ok((Box::new(alloc, value)?, rest))
}

/// A list of one item, with room for the given number.
#[inline(always)]
pub fn list_of<T: Drop>(alloc: Global, first: T, room: usize) -> Result<Vec<T>, AllocError>
    ensures { IfOk result (λ list. list.items ≡ first ∷ []) }
{
    let mut items = Vec::with_capacity(alloc, room)?;
    items.push(first)?;
    Ok(items)
}

impl TokenClass {
    /// Whether the next token is of this class.
    #[inline(always)]
    pub fn begins(self, tokens: &[Token]) -> bool
        ensures { result ≡ next_is (has_class_in (classes_of self)) tokens.now }
    {
        match tokens {
            [] => false,
            [token, ..] => self.has(&token.kind),
        }
    }

    /// The next token and those behind it, where it is of this class.
    #[inline(always)]
    pub fn split_first<'a>(self, tokens: &'a [Token]) -> Option<(&'a Token, &'a [Token])>
        ensures some { IfSome result (λ p. (next_is (has_class_in (classes_of self)) tokens.now
            ≡ true) ×
            (token_read (has_class_in (classes_of self)) tokens.now ≡ Ok (p.0.now, p.1.now))) }
        ensures none { IfNone result (next_is (has_class_in (classes_of self)) tokens.now ≡ false) }
    {
        match tokens {
            [token, rest @ ..] if self.has(&token.kind) => Some((token, rest)),
            _ => None,
        }
    }
}

/// Whether a token stands here, and another one than this symbol.
#[inline(always)]
pub(crate) fn is_before(close: Symbol, tokens: &[Token]) -> bool
    ensures { result ≡ next_is (has_class_outside (symbol_class close ∷ [])) tokens.now }
{
    match tokens {
        [] => false,
        [token, ..] => !TokenClass::Sign(close).has(&token.kind),
    }
}

/// Whether a comma stands here, and behind it another token than this symbol.
#[inline(always)]
pub(crate) fn is_comma_before(close: Symbol, tokens: &[Token]) -> bool
    ensures { result ≡ item_stands (has_class_outside (symbol_class close ∷ [])) tokens.now }
{
    match tokens {
        [] => false,
        [token, rest @ ..] => TokenClass::Sign(Symbol::Comma).has(&token.kind)
            && is_before(close, rest),
    }
}

/// Whether a comma stands here, and a name behind it.
pub fn is_comma_and_name(tokens: &[Token]) -> bool
    ensures { result ≡ item_stands (has_class name_class) tokens.now }
{
    match tokens {
        [] => false,
        [token, rest @ ..] => {
            TokenClass::Sign(Symbol::Comma).has(&token.kind) && TokenClass::Name.begins(rest)
        }
    }
}

/// The tokens behind a comma, where one stands.
pub fn behind_comma(tokens: &[Token]) -> &[Token]
    ensures rest { result.now ≡ past_comma tokens.now }
    ensures within { length result.now ≤ length tokens.now }
{
    match tokens {
        [token, rest @ ..] if TokenClass::Sign(Symbol::Comma).has(&token.kind) => rest,
        _ => tokens,
    }
}

/// An atom and the tokens behind it, where the first of these does not go on with it.
#[inline(always)]
pub(crate) fn lone_atom<'a>(tokens: &'a [Token]) -> Option<(&'a Token, &'a [Token])>
    ensures some { IfSome result (λ p. (tokens.now ≡ p.0.now ∷ p.1.now) ×
        (has_lone_atom tokens.now ≡ true)) }
    ensures none { IfNone result (has_lone_atom tokens.now ≡ false) }
{
    match tokens {
        [token, rest @ ..] if TokenClass::Atom.has(&token.kind) && ends_atom(rest) => Some((
            token, rest,
        )),
        _ => None,
    }
}

// Whether a token stands here that does not go on with an atom before it.
#[inline(always)]
fn ends_atom(tokens: &[Token]) -> bool
    ensures { result ≡ next_is (has_class_outside continuations) tokens.now }
{
    match tokens {
        [] => false,
        [token, ..] => !TokenClass::Continuation.has(&token.kind),
    }
}

/// A token of a class and the tokens behind the `=` that follows it, where both stand here.
pub fn assigned<'a>(class: TokenClass, tokens: &'a [Token]) -> Option<(&'a Token, &'a [Token])>
    ensures some { IfSome result (λ p. value_assigned (classes_of class) tokens.now
        ≡ Some (p.0.now, p.1.now)) }
    ensures none { IfNone result (value_assigned (classes_of class) tokens.now ≡ None) }
{
    match tokens {
        [token, sign, rest @ ..]
            if class.has(&token.kind) && TokenClass::Sign(Symbol::Assign).has(&sign.kind) => {
            Some((token, rest))
        }
        _ => None,
    }
}

/// One token of a class.
#[inline(always)]
pub fn take<'a>(class: TokenClass, tokens: &'a [Token]) -> Parsed<'a, &'a Token>
    ensures value { GivesRead (λ p. (p.0.now, p.1.now)) result
        (token_read (has_class_in (classes_of class)) tokens.now) }
    ensures shorter { IfOk result (λ p. length p.1.now < length tokens.now) }
{
    match tokens {
        [token, rest @ ..] if class.has(&token.kind) => Ok((token, rest)),
        _ => Err(Stopped::Fault(fault(TokenClass::LeftOut, tokens), tokens)),
    }
}

/// One token of a class, where an expression may begin.
#[inline(always)]
pub(crate) fn take_first<'a>(class: TokenClass, tokens: &'a [Token]) -> Parsed<'a, &'a Token>
    ensures value { GivesRead (λ p. (p.0.now, p.1.now)) result
        (first_token_read (has_class_in (classes_of class)) tokens.now) }
    ensures shorter { IfOk result (λ p. length p.1.now < length tokens.now) }
{
    match tokens {
        [token, rest @ ..] if class.has(&token.kind) => Ok((token, rest)),
        _ => Err(Stopped::Fault(fault(TokenClass::LeftOutOfExpressions, tokens), tokens)),
    }
}

// The fault of the next token, by what the profile leaves out here. It is not inlined, since faults are rare.
#[inline(never)]
fn fault(left_out: TokenClass, tokens: &[Token]) -> SyntaxFault
    ensures { result ≡ fault_at (classes_of left_out) tokens.now }
{
    if left_out.begins(tokens) {
        SyntaxFault::NotInProfile
    } else {
        SyntaxFault::Expected
    }
}

/// The fault where nothing may stand.
pub fn not_expected<'a>(tokens: &'a [Token]) -> Stopped<'a>
    ensures { IsStop result (fault_at (classes_of LeftOut) tokens.now) tokens.now }
{
    Stopped::Fault(fault(TokenClass::LeftOut, tokens), tokens)
}

/// The fault where nothing may stand that is deeper, by what would begin it.
pub fn too_deep<'a>(begins: TokenClass, left_out: TokenClass, tokens: &'a [Token]) -> Stopped<'a>
    ensures { IsStop result (nested_fault (classes_of begins) (classes_of left_out) tokens.now)
        tokens.now }
{
    if begins.begins(tokens) {
        Stopped::Fault(SyntaxFault::Nested, tokens)
    } else {
        Stopped::Fault(fault(left_out, tokens), tokens)
    }
}

/// A copy of the bytes of a name, a special name or a text, and none of another token.
#[inline(always)]
pub fn bytes(alloc: Global, kind: &TokenKind) -> Result<CompactBytes, AllocError>
    ensures { IfOk result (λ bytes. bytes ≡ bytes_of kind.now) }
{
    match kind {
        TokenKind::Name(bytes) | TokenKind::Special(bytes) | TokenKind::Text(bytes) => {
            bytes.copy(alloc)
        }
        _ => CompactBytes::of(alloc, &[]),
    }
}

/// The operator of two sides that a token is.
pub(crate) fn binary_operator(kind: &TokenKind) -> BinaryOp
    ensures { result ≡ binary_at (token_class kind.now) }
{
    match kind {
        TokenKind::Symbol(Symbol::Or) => BinaryOp::Or,
        TokenKind::Symbol(Symbol::And) => BinaryOp::And,
        TokenKind::Symbol(Symbol::Equal) => BinaryOp::Equal,
        TokenKind::Symbol(Symbol::NotEqual) => BinaryOp::NotEqual,
        TokenKind::Symbol(Symbol::Less) => BinaryOp::Less,
        TokenKind::Symbol(Symbol::LessEqual) => BinaryOp::LessEqual,
        TokenKind::Symbol(Symbol::Greater) => BinaryOp::Greater,
        TokenKind::Symbol(Symbol::GreaterEqual) => BinaryOp::GreaterEqual,
        TokenKind::Symbol(Symbol::Plus) => BinaryOp::Add,
        TokenKind::Symbol(Symbol::Minus) => BinaryOp::Subtract,
        TokenKind::Symbol(Symbol::Times) => BinaryOp::Multiply,
        TokenKind::Symbol(Symbol::Divide) => BinaryOp::Divide,
        _ => BinaryOp::Remainder,
    }
}

/// The operator before an operand that a token is.
pub(crate) fn unary_operator(kind: &TokenKind) -> UnaryOp
    ensures { result ≡ unary_at (token_class kind.now) }
{
    match kind {
        TokenKind::Symbol(Symbol::Minus) => UnaryOp::Negate,
        TokenKind::Symbol(Symbol::Plus) => UnaryOp::Keep,
        _ => UnaryOp::Not,
    }
}

/// The modifier that a token is.
pub fn modifier(kind: &TokenKind) -> Modifier
    ensures { result ≡ modifier_at (token_class kind.now) }
{
    match kind {
        TokenKind::Symbol(Symbol::Times) => Modifier::Disable,
        TokenKind::Symbol(Symbol::Remainder) => Modifier::Background,
        TokenKind::Symbol(Symbol::Hash) => Modifier::Highlight,
        _ => Modifier::Root,
    }
}
