//! Tokens.

use text_place::{CompactBytes, Numeral, Place};

/// A token of a source.
#[derive(Drop)]
pub struct Token {
    pub kind: TokenKind,
    /// Where its first byte stands.
    pub place: Place,
}

/// What a token is.
#[derive(Drop)]
pub enum TokenKind {
    /// A whole number, which its type keeps at most 2^53 - 1.
    Numeral(Numeral),
    /// A name that is not reserved.
    Name(CompactBytes),
    /// A special name, without its `$`.
    Special(CompactBytes),
    /// A text, without its quotes and with its escapes replaced.
    Text(CompactBytes),
    Reserved(Reserved),
    Symbol(Symbol),
    /// The end of the source.
    End,
}

/// A name that is reserved.
#[derive(Clone, Copy, Debug, PartialEq, Eq)]
pub enum Reserved {
    Module,
    Function,
    If,
    Else,
    For,
    IntersectionFor,
    True,
    False,
    Undef,
    Use,
    Include,
    Let,
    Each,
}

/// A symbol of one or two bytes.
#[derive(Clone, Copy, Debug, PartialEq, Eq)]
pub enum Symbol {
    OpenParenthesis,
    CloseParenthesis,
    OpenBracket,
    CloseBracket,
    OpenBrace,
    CloseBrace,
    Comma,
    Semicolon,
    Assign,
    Colon,
    Question,
    Dot,
    Plus,
    Minus,
    Times,
    Divide,
    Remainder,
    Less,
    Greater,
    LessEqual,
    GreaterEqual,
    Equal,
    NotEqual,
    And,
    Or,
    Not,
    Hash,
    Caret,
}
