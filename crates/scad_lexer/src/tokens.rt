//! The lexer: from the bytes of a source to its tokens, or to its first fault.

ghost use Rattle.std.specs.Prelude.{◌≡◌, ℕ, List, true, ◌+◌, ◌-◌, ◌^◌, ◌<◌, ◌≤◌, ◌++◌, ◌∷◌, [], ◌⊎◌, length, IfOk, IfErr, OnOk};
ghost use Rattle.scad_lexer.specs.Words.{IsLongest};
ghost use Rattle.scad_lexer.specs.Tokens.{LexOutcome, GivesTokens, FaultAt, Lexes, Agrees, IsLexStop, IsLexStopFrom, StandsAtByte, place_after, AppendsNext, ends_once};

use crate::class::ByteClass;
use crate::meaning::{WordMeaning, meant};
use crate::scan::{lone_symbol, longest_word};
use crate::token::{Token, TokenKind};
use crate::word::Word;
use std::alloc::Global;
use text_place::{FaultKind, NoMemory, Place, Stop};

/// The tokens of a source with fewer than 2^32 - 1 bytes, the last of which is `End`, or its first
/// fault: `BadCharacter`, `OpenComment`, `OpenText`, `NotWhole` or `TooLarge`.
pub fn lex(alloc: Global, text: &[u8]) -> Result<Vec<Token>, Stop>
    requires { length text.now < 2 ^ 32 - 1 }
    // What is given are the source's tokens, each as long as possible.
    ensures found { IfOk result (λ ts. Lexes text.now (GivesTokens ts.items)) }
    // A fault is the source's first one, at its place.
    ensures fault { IfErr result (λ stop. IsLexStop text.now stop) }
    // The place of a fault is that of a byte of the source.
    ensures place { IfErr result (λ stop. StandsAtByte text.now stop) }
    // What the source gives is answered, unless memory runs out.
    ensures only { (o : LexOutcome) → Lexes text.now o → Agrees result o }
    // The last token is the end, and no other is.
    ensures ends { IfOk result (λ ts. ends_once ts.items ≡ true) }
    // There are no more tokens than bytes, but for the end.
    ensures few { IfOk result (λ ts. length ts.items ≤ length text.now + 1) }
{
    read_tokens(alloc, text)
}

/// A source gives one thing: its tokens, or its first fault.
pub fn one_outcome()
    ensures { (text : List ℕ) (o q : LexOutcome) → Lexes text o → Lexes text q → o ≡ q }
{}

/// Each source gives something: its tokens, the last of which is their only end, or its first fault.
pub fn some_outcome()
    ensures { (text : List ℕ) → ((tokens : List Token) × Lexes text (GivesTokens tokens) ×
        (ends_once tokens ≡ true)) ⊎ ((kind : FaultKind) × (at : Place) ×
        Lexes text (FaultAt kind at)) }
{}

// Most words are blank bytes, and symbols that begin no longer word: they are read without a search for the
// longest one.
fn read_tokens(alloc: Global, text: &[u8]) -> Result<Vec<Token>, Stop>
    requires { length text.now < 2 ^ 32 - 1 }
    ensures found { IfOk result (λ ts. Lexes text.now (GivesTokens ts.items)) }
    ensures fault { IfErr result (λ stop. IsLexStop text.now stop) }
{
    let mut tokens = Vec::new(alloc);
    let mut rest = text;
    let mut place = Place { line: 1, column: 1 };
    'words: while !rest.is_empty() {
        if ByteClass::BlankByte.begins(rest) {
            place = advance(place, &rest[..1]);
            rest = &rest[1..];
            continue;
        }
        if let Some(symbol) = lone_symbol(rest) {
            push_token(&mut tokens, TokenKind::Symbol(symbol), place)?;
            place.column += 1;
            rest = &rest[1..];
            continue;
        }
        let Some((word, bytes)) = longest_word(rest) else {
            return Err(FaultKind::BadCharacter.at(place));
        };
        push_word(alloc, &mut tokens, place, word, rest, bytes)?;
        place = advance(place, &rest[..bytes]);
        rest = &rest[bytes..];
    }
    push_token(&mut tokens, TokenKind::End, place)?;
    Ok(tokens)
}

// Appends the token that the longest word of a text makes, if it makes one.
#[tactic(auto, using(crate::proofs::Lexing::taken_some, crate::proofs::Lexing::adds_none, crate::proofs::Lexing::adds_one))]
fn push_word(
    alloc: Global,
    tokens: &mut Vec<Token>,
    place: Place,
    word: Word,
    text: &[u8],
    bytes: usize,
) -> Result<(), Stop>
    requires longest { IsLongest text.now bytes word }
    requires line { place.line + length text.now < 2 ^ 32 }
    requires column { place.column + length text.now < 2 ^ 32 }
    ensures appended { OnOk result (AppendsNext tokens.old.items tokens.new.items place text.now
        bytes) }
    ensures fault { IfErr result (λ stop. IsLexStopFrom place text.now stop) }
{
    match meant(alloc, word, &text[..bytes])? {
        WordMeaning::NoToken => Ok(()),
        WordMeaning::OneToken(kind) => {
            push_token(tokens, kind, place)?;
            Ok(())
        }
        WordMeaning::BadWord(kind, before) => Err(kind.at(advance(place, &text[..before]))),
    }
}

#[inline(always)]
fn push_token(tokens: &mut Vec<Token>, kind: TokenKind, place: Place) -> Result<(), NoMemory>
    ensures { OnOk result
        (tokens.new.items ≡ tokens.old.items ++ record { kind = kind; place = place } ∷ []) }
{
    tokens.push(Token { kind, place })?;
    Ok(())
}

// The place behind these bytes.
fn advance(place: Place, bytes: &[u8]) -> Place
    requires line { place.line + length bytes.now < 2 ^ 32 }
    requires column { place.column + length bytes.now < 2 ^ 32 }
    ensures place_after { result ≡ place_after place bytes.now }
    ensures line { result.line ≤ place.line + length bytes.now }
    ensures column { result.column ≤ place.column + length bytes.now }
{
    let mut line = place.line;
    let mut column = place.column;
    for byte in bytes {
        if *byte == b'\n' {
            line += 1;
            column = 1;
        } else {
            column += 1;
        }
    }
    Place { line, column }
}
