//! The kinds of words that the scanner tells apart.

use crate::token::Symbol;

/// What a word of a source is: a blank or comment, a token, or the start of a fault.
#[derive(Clone, Copy, Debug, PartialEq, Eq)]
pub enum Word {
    /// White space or a closed comment.
    Blank,
    /// A comment that is not closed.
    UnclosedComment,
    Name,
    /// `$` and a name.
    Special,
    Numeral,
    /// A numeral and a letter directly after it.
    NumeralAndLetter,
    /// A text with both its quotes.
    Text,
    /// A text that is not closed on its line.
    UnclosedText,
    Symbol(Symbol),
}
