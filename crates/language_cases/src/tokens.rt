//! Tokens in words.

ghost use Rattle.std.specs.Prelude.{◌≤◌, ◌^◌, length};

use crate::text::{put_place, put_stop};
use case_lines::{put, put_separated};
use scad_lexer::{Token, TokenKind, lex};
use std::alloc::Global;
use text_place::NoMemory;

fn put_token(alloc: Global, out: &mut Vec<u8>, token: &Token) -> Result<(), NoMemory> {
    let kind = match &token.kind {
        TokenKind::Numeral(number) => format!(in alloc; "{}", number.get())?,
        TokenKind::Name(bytes) => format!(in alloc; "name {:?}", bytes.items())?,
        TokenKind::Special(bytes) => format!(in alloc; "special {:?}", bytes.items())?,
        TokenKind::Text(bytes) => format!(in alloc; "text {:?}", bytes.items())?,
        TokenKind::Reserved(reserved) => format!(in alloc; "{reserved:?}")?,
        TokenKind::Symbol(symbol) => format!(in alloc; "{symbol:?}")?,
        TokenKind::End => format!(in alloc; "End")?,
    };
    put(out, kind.as_bytes())?;
    put(out, b" ")?;
    put_place(alloc, out, token.place)
}

fn put_all(alloc: Global, out: &mut Vec<u8>, tokens: &[Token]) -> Result<(), NoMemory> {
    put_separated(
        out,
        tokens,
        b", ",
        |out, token| put_token(alloc, out, token),
    )
}

/// The tokens of a source, or its first fault.
pub(crate) fn put_tokens(alloc: Global, out: &mut Vec<u8>, source: &[u8]) -> Result<(), NoMemory>
    requires { length source.now ≤ 2 ^ 20 }
{
    match lex(alloc, source) {
        Ok(tokens) => put_all(alloc, out, &tokens),
        Err(stop) => put_stop(alloc, out, stop),
    }
}
