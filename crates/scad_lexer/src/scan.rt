//! Finds the longest word at which a text begins.

ghost use Rattle.std.specs.Prelude.{◌≡◌, ℕ, ◌+◌, ◌≤◌, ◌<◌, ◌^◌, length, false, not, nat_eq, ◌&&◌, Some, IfSome, IfNone};
ghost use Rattle.scad_lexer.specs.declared.class.ByteClass.TheVariants.{BlankByte, Letter, Digit};
ghost use Rattle.scad_lexer.specs.Words.{IsLongest, HasNoWord};
ghost use Rattle.scad_lexer.specs.Scanning.{is_of_class, longest_front, more_bytes, word_from, in_whole, in_fraction, number_end, after_e, in_exponent, after_point, after_slash, after_dollar, in_text, in_comment, one_byte_symbol, two_byte_symbol, two_byte_symbol_from, symbol_of, begins_with};

use crate::class::ByteClass;
use crate::token::Symbol;
use crate::word::Word;

/// The longest word that the text begins with, and how many bytes it has; `None` where no word
/// begins.
pub fn longest_word(text: &[u8]) -> Option<(Word, usize)>
    ensures some { IfSome result (λ p. IsLongest text.now p.1 p.0) }
    ensures none { IfNone result (HasNoWord text.now) }
{
    match text {
        [] => None,
        _ => longer(1, after_byte(text[0], &text[1..])),
    }
}

/// The symbol that the text begins with, where its byte begins no longer word, whatever follows.
#[inline(always)]
pub fn lone_symbol(text: &[u8]) -> Option<Symbol>
    ensures { IfSome result (λ s. IsLongest text.now 1 (Word.Symbol s)) }
{
    match text {
        [] => None,
        [byte, ..] => lone(*byte),
    }
}

// The symbol of a byte that begins no symbol of two bytes.
fn lone(byte: u8) -> Option<Symbol>
    ensures found { IfSome result (λ s. one_byte_symbol byte ≡ Some s) }
    ensures where_last { IfSome result (λ s. (next : ℕ) → two_byte_symbol byte next ≡ None) }
{
    match one_byte(byte) {
        Some(Symbol::Less | Symbol::Greater | Symbol::Assign | Symbol::Not) => None,
        symbol => symbol,
    }
}

// The same word with more bytes before it.
fn longer(bytes: usize, found: Option<(Word, usize)>) -> Option<(Word, usize)>
    requires { IfSome found (λ p. bytes + p.1 < 2 ^ 64) }
    ensures { result ≡ more_bytes bytes found }
{
    match found {
        None => None,
        Some((word, count)) => Some((word, bytes + count)),
    }
}

// The same after the first byte, which does not count.
fn after_byte(byte: u8, rest: &[u8]) -> Option<(Word, usize)>
    ensures found { result ≡ longest_front (word_from byte) rest.now }
    ensures within { IfSome result (λ p. p.1 ≤ length rest.now) }
{
    if ByteClass::BlankByte.has(byte) {
        Some((Word::Blank, 0))
    } else if ByteClass::Letter.has(byte) {
        Some((Word::Name, ByteClass::NameByte.run(rest)))
    } else if ByteClass::Digit.has(byte) {
        Some(whole(rest))
    } else {
        after_mark(byte, rest)
    }
}

// The same after a byte that is no blank, letter or digit.
fn after_mark(byte: u8, rest: &[u8]) -> Option<(Word, usize)>
    requires blank { is_of_class BlankByte byte ≡ false }
    requires letter { is_of_class Letter byte ≡ false }
    requires digit { is_of_class Digit byte ≡ false }
    ensures found { result ≡ longest_front (word_from byte) rest.now }
    ensures within { IfSome result (λ p. p.1 ≤ length rest.now) }
{
    if byte == b'$' {
        special(rest)
    } else if byte == b'"' {
        Some(text(rest))
    } else if byte == b'.' {
        Some(point(rest))
    } else if byte == b'/' {
        Some(slash(rest))
    } else {
        symbol(byte, rest)
    }
}

// What follows a digit of a numeral's whole part.
fn whole(text: &[u8]) -> (Word, usize)
    ensures found { longest_front in_whole text.now ≡ Some result }
    ensures within { result.1 ≤ length text.now }
{
    let digits = ByteClass::Digit.run(text);
    let rest = &text[digits..];
    let (word, count) = whole_end(rest);
    (word, digits + count)
}

// What follows the last digit of a numeral's whole part.
fn whole_end(text: &[u8]) -> (Word, usize)
    requires { begins_with (is_of_class Digit) text.now ≡ false }
    ensures found { longest_front in_whole text.now ≡ Some result }
    ensures within { result.1 ≤ length text.now }
{
    if ByteClass::Byte(b'.').begins(text) {
        let (word, count) = fraction(&text[1..]);
        (word, 1 + count)
    } else {
        number_tail(text)
    }
}

// What follows the point of a numeral.
fn fraction(text: &[u8]) -> (Word, usize)
    ensures found { longest_front in_fraction text.now ≡ Some result }
    ensures within { result.1 ≤ length text.now }
{
    let digits = ByteClass::Digit.run(text);
    let (word, count) = number_tail(&text[digits..]);
    (word, digits + count)
}

// What follows the last digit of a numeral's whole part or fraction.
fn number_tail(text: &[u8]) -> (Word, usize)
    ensures found { longest_front number_end text.now ≡ Some result }
    ensures within { result.1 ≤ length text.now }
{
    if ByteClass::Exponent.begins(text) {
        let (word, count) = power(&text[1..]);
        (word, 1 + count)
    } else if ByteClass::Letter.begins(text) {
        (Word::NumeralAndLetter, 1)
    } else {
        (Word::Numeral, 0)
    }
}

// What follows the letter of an exponent.
fn power(text: &[u8]) -> (Word, usize)
    ensures found { longest_front after_e text.now ≡ Some result }
    ensures within { result.1 ≤ length text.now }
{
    if ByteClass::Digit.begins(text) {
        let (word, count) = power_digits(&text[1..]);
        (word, 1 + count)
    } else if ByteClass::Sign.begins(text) && ByteClass::Digit.begins(&text[1..]) {
        let (word, count) = power_digits(&text[2..]);
        (word, 2 + count)
    } else {
        (Word::NumeralAndLetter, 0)
    }
}

// What follows a digit of an exponent.
fn power_digits(text: &[u8]) -> (Word, usize)
    ensures found { longest_front in_exponent text.now ≡ Some result }
    ensures within { result.1 ≤ length text.now }
{
    let digits = ByteClass::Digit.run(text);
    if ByteClass::Letter.begins(&text[digits..]) {
        (Word::NumeralAndLetter, digits + 1)
    } else {
        (Word::Numeral, digits)
    }
}

// What follows `.`.
fn point(text: &[u8]) -> (Word, usize)
    ensures found { longest_front after_point text.now ≡ Some result }
    ensures within { result.1 ≤ length text.now }
{
    if ByteClass::Digit.begins(text) {
        let (word, count) = fraction(&text[1..]);
        (word, 1 + count)
    } else {
        (Word::Symbol(Symbol::Dot), 0)
    }
}

// What follows `$`.
fn special(text: &[u8]) -> Option<(Word, usize)>
    ensures found { result ≡ longest_front after_dollar text.now }
    ensures within { IfSome result (λ p. p.1 ≤ length text.now) }
{
    if ByteClass::Letter.begins(text) {
        Some((Word::Special, 1 + ByteClass::NameByte.run(&text[1..])))
    } else {
        None
    }
}

// What follows `/`.
fn slash(text: &[u8]) -> (Word, usize)
    ensures found { longest_front after_slash text.now ≡ Some result }
    ensures within { result.1 ≤ length text.now }
{
    if ByteClass::Byte(b'/').begins(text) {
        (Word::Blank, 1 + ByteClass::InLine.run(&text[1..]))
    } else if ByteClass::Byte(b'*').begins(text) {
        let (word, count) = comment(&text[1..]);
        (word, 1 + count)
    } else {
        (Word::Symbol(Symbol::Divide), 0)
    }
}

// What follows `/*`.
fn comment(text: &[u8]) -> (Word, usize)
    ensures found { longest_front in_comment text.now ≡ Some result }
    ensures within { result.1 ≤ length text.now }
{
    let mut star = false;
    let mut count = 0;
    while count < text.len() {
        let byte = text[count];
        if ends_comment(star, byte) {
            return (Word::Blank, count + 1);
        }
        star = byte == b'*';
        count += 1;
    }
    (Word::UnclosedComment, count)
}

// Whether a byte ends a comment, after a star or not.
fn ends_comment(star: bool, byte: u8) -> bool
    ensures { result ≡ (star && nat_eq byte 47) }
{
    star && byte == b'/'
}

// What follows the opening quote of a text.
fn text(text: &[u8]) -> (Word, usize)
    ensures found { longest_front in_text text.now ≡ Some result }
    ensures within { result.1 ≤ length text.now }
{
    let mut escaped = false;
    let mut count = 0;
    while count < text.len() {
        let byte = text[count];
        if byte == b'\n' {
            return (Word::UnclosedText, count);
        }
        if ends_text(escaped, byte) {
            return (Word::Text, count + 1);
        }
        escaped = begins_escape(escaped, byte);
        count += 1;
    }
    (Word::UnclosedText, count)
}

// Whether a byte ends a text, after a backslash that takes it or not.
fn ends_text(escaped: bool, byte: u8) -> bool
    ensures { result ≡ (not escaped && nat_eq byte 34) }
{
    !escaped && byte == b'"'
}

// Whether a byte takes the next one with it.
fn begins_escape(escaped: bool, byte: u8) -> bool
    ensures { result ≡ (not escaped && nat_eq byte 92) }
{
    !escaped && byte == b'\\'
}

// What follows the first byte of a symbol.
fn symbol(byte: u8, text: &[u8]) -> Option<(Word, usize)>
    ensures found { result ≡ longest_front (symbol_of byte) text.now }
    ensures within { IfSome result (λ p. p.1 ≤ length text.now) }
{
    match pair(byte, text) {
        Some(symbol) => Some((Word::Symbol(symbol), 1)),
        None => match one_byte(byte) {
            Some(symbol) => Some((Word::Symbol(symbol), 0)),
            None => None,
        },
    }
}

// The symbol of a byte and the one that begins the text.
fn pair(byte: u8, text: &[u8]) -> Option<Symbol>
    ensures found { result ≡ two_byte_symbol_from byte text.now }
    ensures within { IfSome result (λ s. 1 ≤ length text.now) }
{
    match text {
        [] => None,
        [next, ..] => two_bytes(byte, *next),
    }
}

fn two_bytes(first: u8, second: u8) -> Option<Symbol>
    ensures { result ≡ two_byte_symbol first second }
{
    match (first, second) {
        (b'<', b'=') => Some(Symbol::LessEqual),
        (b'>', b'=') => Some(Symbol::GreaterEqual),
        (b'=', b'=') => Some(Symbol::Equal),
        (b'!', b'=') => Some(Symbol::NotEqual),
        (b'&', b'&') => Some(Symbol::And),
        (b'|', b'|') => Some(Symbol::Or),
        _ => None,
    }
}

#[inline(always)]
fn one_byte(byte: u8) -> Option<Symbol>
    ensures { result ≡ one_byte_symbol byte }
{
    match byte {
        b'(' => Some(Symbol::OpenParenthesis),
        b')' => Some(Symbol::CloseParenthesis),
        b'[' => Some(Symbol::OpenBracket),
        b']' => Some(Symbol::CloseBracket),
        b'{' => Some(Symbol::OpenBrace),
        b'}' => Some(Symbol::CloseBrace),
        b',' => Some(Symbol::Comma),
        b';' => Some(Symbol::Semicolon),
        b'=' => Some(Symbol::Assign),
        b':' => Some(Symbol::Colon),
        b'?' => Some(Symbol::Question),
        b'+' => Some(Symbol::Plus),
        b'-' => Some(Symbol::Minus),
        b'*' => Some(Symbol::Times),
        b'%' => Some(Symbol::Remainder),
        b'<' => Some(Symbol::Less),
        b'>' => Some(Symbol::Greater),
        b'!' => Some(Symbol::Not),
        b'#' => Some(Symbol::Hash),
        b'^' => Some(Symbol::Caret),
        _ => None,
    }
}
