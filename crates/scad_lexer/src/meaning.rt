//! What a word stands for: no token, a token, or a fault.

ghost use Rattle.std.specs.Prelude.{◌≡◌, ◌-◌, ◌^◌, ◌<◌, ◌≤◌, length, IfOk, IfErr, IfSome, IfNone, MatchOption, take, drop, nat_eq, MatchResult, Ok, Err};
ghost use Rattle.std.specs.Str.{bytes_eq};
ghost use Rattle.scad_lexer.specs.Scanning.{all_bytes};
ghost use Rattle.scad_lexer.specs.Tokens.{reserved_of, escape_at, with_byte, zero_fraction, decimal_from, numeral_meaning, or_letter, bytes_written, without_quotes, text_from, word_meaning, name_or, IsFaultWithin};

use crate::class::ByteClass;
use crate::token::{Reserved, TokenKind};
use crate::word::Word;
use std::alloc::Global;
use text_place::{CompactBytes, FaultKind, NoMemory, Numeral, TOO_LARGE};

/// What a word stands for.
#[derive(Drop)]
pub enum WordMeaning {
    /// No token.
    NoToken,
    OneToken(TokenKind),
    /// A fault, and how many bytes of the word stand before it.
    BadWord(FaultKind, usize),
}

/// What a word stands for, by the kind of word that it is.
pub fn meant(alloc: Global, word: Word, bytes: &[u8]) -> Result<WordMeaning, NoMemory>
    requires { 1 ≤ length bytes.now }
    ensures means { IfOk result (λ m. m ≡ word_meaning word bytes.now) }
    ensures within { IfOk result (λ m. IsFaultWithin (length bytes.now) m) }
{
    match word {
        Word::Blank => Ok(WordMeaning::NoToken),
        Word::UnclosedComment => Ok(WordMeaning::BadWord(FaultKind::OpenComment, 0)),
        Word::UnclosedText => Ok(WordMeaning::BadWord(FaultKind::OpenText, 0)),
        Word::Name => Ok(WordMeaning::OneToken(name(alloc, bytes)?)),
        Word::Special => {
            let name = CompactBytes::of(alloc, &bytes[1..])?;
            Ok(WordMeaning::OneToken(TokenKind::Special(name)))
        }
        Word::Numeral => Ok(numeral(bytes)),
        Word::NumeralAndLetter => Ok(numeral_and_letter(bytes)),
        Word::Text => text(alloc, bytes),
        Word::Symbol(symbol) => Ok(WordMeaning::OneToken(TokenKind::Symbol(symbol))),
    }
}

fn name(alloc: Global, bytes: &[u8]) -> Result<TokenKind, NoMemory>
    ensures { IfOk result (λ k. k ≡ name_or bytes.now (reserved_of bytes.now)) }
{
    match reserved(bytes) {
        Some(reserved) => Ok(TokenKind::Reserved(reserved)),
        None => Ok(TokenKind::Name(CompactBytes::of(alloc, bytes)?)),
    }
}

// The reserved name that a word is, if it is one. Only names of its length are compared with it.
fn reserved(word: &[u8]) -> Option<Reserved>
    ensures { result ≡ reserved_of word.now }
{
    match word.len() {
        2 if same(word, b"if") => Some(Reserved::If),
        3 if same(word, b"for") => Some(Reserved::For),
        3 if same(word, b"use") => Some(Reserved::Use),
        3 if same(word, b"let") => Some(Reserved::Let),
        4 if same(word, b"else") => Some(Reserved::Else),
        4 if same(word, b"true") => Some(Reserved::True),
        4 if same(word, b"each") => Some(Reserved::Each),
        5 if same(word, b"false") => Some(Reserved::False),
        5 if same(word, b"undef") => Some(Reserved::Undef),
        6 if same(word, b"module") => Some(Reserved::Module),
        7 if same(word, b"include") => Some(Reserved::Include),
        8 if same(word, b"function") => Some(Reserved::Function),
        16 if same(word, b"intersection_for") => Some(Reserved::IntersectionFor),
        _ => None,
    }
}

// Whether a word has the bytes of a name.
fn same(word: &[u8], name: &[u8]) -> bool
    ensures { result ≡ bytes_eq word.now name.now }
{
    word == name
}

// What a numeral stands for.
fn numeral(bytes: &[u8]) -> WordMeaning
    ensures means { result ≡ numeral_meaning bytes.now }
    ensures within { IsFaultWithin 0 result }
{
    let digits = ByteClass::Digit.run(bytes);
    if !is_zero_fraction(&bytes[digits..]) {
        return WordMeaning::BadWord(FaultKind::NotWhole, 0);
    }
    match number(&bytes[..digits]) {
        Some(number) => WordMeaning::OneToken(TokenKind::Numeral(number)),
        None => WordMeaning::BadWord(FaultKind::TooLarge, 0),
    }
}

// Whether what follows the whole part is nothing, or a point and zeros.
fn is_zero_fraction(bytes: &[u8]) -> bool
    ensures { result ≡ zero_fraction bytes.now }
{
    match bytes {
        [] => true,
        _ => ByteClass::Byte(b'.').begins(bytes) && is_zeros(&bytes[1..]),
    }
}

fn is_zeros(bytes: &[u8]) -> bool
    ensures { result ≡ all_bytes (λ c. nat_eq c 48) bytes.now }
{
    for byte in bytes {
        if *byte != b'0' {
            return false;
        }
    }
    true
}

// The number that digits write, where it is below 2^53.
fn number(digits: &[u8]) -> Option<Numeral>
    ensures { MatchOption result (2 ^ 53 ≤ decimal_from 0 digits.now) (λ n. (n
        ≡ decimal_from 0 digits.now) × (n < 2 ^ 53)) }
{
    let mut number: u64 = 0;
    for digit in digits {
        number = number * 10 + u64::from(digit.saturating_sub(b'0'));
        if number >= TOO_LARGE {
            return None;
        }
    }
    Numeral::of(number)
}

// The fault of a numeral with a letter behind it.
fn numeral_and_letter(bytes: &[u8]) -> WordMeaning
    requires { 1 ≤ length bytes.now }
    ensures means { result ≡ or_letter (numeral_meaning (take (length bytes.now - 1) bytes.now)) (length bytes.now - 1) }
    ensures within { IsFaultWithin (length bytes.now) result }
{
    let letter = bytes.len() - 1;
    match numeral(&bytes[..letter]) {
        WordMeaning::BadWord(kind, before) => WordMeaning::BadWord(kind, before),
        _ => WordMeaning::BadWord(FaultKind::BadCharacter, letter),
    }
}

// What a text with both its quotes stands for.
fn text(alloc: Global, bytes: &[u8]) -> Result<WordMeaning, NoMemory>
    ensures means { IfOk result (λ m. m ≡ text_from (bytes_written (without_quotes bytes.now))) }
    ensures within { IfOk result (λ m. IsFaultWithin (length bytes.now) m) }
{
    match decode(alloc, without_quotes(bytes))? {
        Ok(bytes) => Ok(WordMeaning::OneToken(TokenKind::Text(CompactBytes::of(alloc, &bytes)?))),
        Err(before) => Ok(WordMeaning::BadWord(FaultKind::BadCharacter, 1 + before)),
    }
}

fn without_quotes(bytes: &[u8]) -> &[u8]
    ensures without_quotes { result.now ≡ without_quotes bytes.now }
    ensures within { length result.now ≡ length bytes.now - 1 - 1 }
{
    if bytes.len() < 2 {
        &[]
    } else {
        &bytes[1..bytes.len() - 1]
    }
}

// The bytes that the inside of a text writes, or how many bytes stand before its first fault.
fn decode(alloc: Global, without_quotes: &[u8]) -> Result<Result<Vec<u8>, usize>, NoMemory>
    ensures value { IfOk result (λ r. MatchResult r (λ v. bytes_written without_quotes.now
        ≡ Ok v.items) (λ n. bytes_written without_quotes.now ≡ Err n)) }
    ensures within { IfOk result (λ r. IfErr r (λ n. n < length without_quotes.now)) }
{
    let mut bytes = Vec::new(alloc);
    let mut count = 0;
    while count < without_quotes.len() {
        match next_byte(&without_quotes[count..]) {
            Some((byte, written)) => {
                bytes.push(byte)?;
                count += written;
            }
            None => return Ok(Err(count)),
        }
    }
    Ok(Ok(bytes))
}

// The byte that the front of a text's inside writes, and in how many bytes.
fn next_byte(without_quotes: &[u8]) -> Option<(u8, usize)>
    requires { 1 ≤ length without_quotes.now }
    ensures some { IfSome result (λ p. bytes_written without_quotes.now
        ≡ with_byte p.0 p.1 (bytes_written (drop p.1 without_quotes.now))) }
    ensures within { IfSome result (λ p. (1 ≤ p.1) × (p.1 ≤ length without_quotes.now)) }
    ensures none { IfNone result (bytes_written without_quotes.now ≡ Err 0) }
{
    if ByteClass::Byte(b'\\').begins(without_quotes) {
        match escape(&without_quotes[1..]) {
            Some(byte) => Some((byte, 2)),
            None => None,
        }
    } else if ByteClass::Printable.begins(without_quotes) {
        Some((without_quotes[0], 1))
    } else {
        None
    }
}

// The byte that an escape stands for, behind its backslash.
fn escape(text: &[u8]) -> Option<u8>
    ensures found { result ≡ escape_at text.now }
    ensures some { IfSome result (λ b. 1 ≤ length text.now) }
{
    match text {
        [b'"', ..] => Some(b'"'),
        [b'\\', ..] => Some(b'\\'),
        [b'n', ..] => Some(b'\n'),
        [b't', ..] => Some(b'\t'),
        [b'r', ..] => Some(b'\r'),
        _ => None,
    }
}
