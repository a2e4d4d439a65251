//! Phrases: a word, and numbers behind it.

use crate::text::cut;
use plain_text::NoMemory;
use std::alloc::Global;

/// A word, and the numbers behind it up to the first word that is none.
#[derive(Drop)]
pub struct Phrase {
    pub word: Vec<u8>,
    pub numbers: Vec<i64>,
}

impl Phrase {
    /// A number, or 0 where there is none, or a negative one.
    pub fn number(&self, at: usize) -> u64 {
        u64::try_from(self.numbers.get(at).copied().unwrap_or(0)).unwrap_or(0)
    }

    /// The same, or the greatest one of 32 bits where it is above that.
    pub fn small_number(&self, at: usize) -> u32 {
        u32::try_from(self.number(at)).unwrap_or(u32::MAX)
    }
}

// A number with one digit more, where it is one.
fn grown(number: i64, digit: u8) -> Option<i64> {
    if digit.is_ascii_digit() {
        number.checked_mul(10)?.checked_add(i64::from(digit - b'0'))
    } else {
        None
    }
}

// A number in decimal digits, with a minus sign where it is negative.
fn number_of(text: &[u8]) -> Option<i64> {
    let (is_negative, digits) = match text {
        [b'-', rest @ ..] => (true, rest),
        _ => (false, text),
    };
    let mut number: i64 = 0;
    for digit in digits {
        number = grown(number, *digit)?;
    }
    if digits.is_empty() {
        None
    } else if is_negative {
        number.checked_neg()
    } else {
        Some(number)
    }
}

// The numbers of words, one space between two of them, up to the first word that is none.
fn numbers_of(alloc: Global, text: &[u8]) -> Result<Vec<i64>, NoMemory> {
    let mut numbers = Vec::new(alloc);
    for word in text.split(|byte| *byte == b' ') {
        match number_of(word) {
            Some(number) => numbers.push(number)?,
            None => return Ok(numbers),
        }
    }
    Ok(numbers)
}

fn phrase_of(alloc: Global, text: &[u8]) -> Result<Phrase, NoMemory> {
    let (word, rest) = cut(text);
    Ok(Phrase {
        word: word.to_vec(alloc)?,
        numbers: numbers_of(alloc, rest)?,
    })
}

/// The parts of a case, a stroke `|` between two of them.
pub fn parts_of(alloc: Global, text: &[u8]) -> Result<Vec<&[u8]>, NoMemory> {
    let mut parts = Vec::new(alloc);
    for part in text.split(|byte| *byte == b'|') {
        parts.push(part)?;
    }
    Ok(parts)
}

/// The phrases of a text, a comma and a space between two of them.
pub fn phrases_of(alloc: Global, text: &[u8]) -> Result<Vec<Phrase>, NoMemory> {
    let mut phrases = Vec::new(alloc);
    for part in text.split(|byte| *byte == b',') {
        let part = match part {
            [b' ', rest @ ..] => rest,
            _ => part,
        };
        phrases.push(phrase_of(alloc, part)?)?;
    }
    Ok(phrases)
}

/// What stands beside a word in a table.
pub fn found<V: Copy>(table: &[(&[u8], V)], word: &[u8]) -> Option<V> {
    for (other, what) in table {
        if *other == word {
            return Some(*what);
        }
    }
    None
}
