//! The parts of a line.

ghost use Rattle.std.specs.Prelude.{◌≡◌, ◌≢◌, ◌↔◌, ◌∷◌, ◌++◌, ℕ, List, [], All, IsTrue, IfSome, IfNone, IfOk, MatchOption};
ghost use Rattle.script_reader.specs.Lines.{IsTrimmed, IsFirstLine};
ghost use Rattle.script_reader.specs.Spelling.{IsName, BeginsWithName, IsKnownCommand, IsCommand};
ghost use Rattle.script_reader.specs.Reading.{IsCutAtSpace, IsEditOf, IsRange, IsPutOrBad, IsSetOrBad, IsCutOrBad, IsWordOrBad, IsKnownOrBad};

use crate::script::Command;
use plain_text::{Bytes, NoMemory, read_decimal};
use std::alloc::Global;

/// A line as it counts: without one carriage return at its end.
pub fn trimmed_line(raw: &[u8]) -> &[u8]
    ensures { IsTrimmed raw.now result.now }
{
    match raw {
        [line @ .., b'\r'] => line,
        _ => raw,
    }
}

/// What stands before and after the first byte that is this one, if there is one.
pub fn split_at_byte(bytes: &[u8], at: u8) -> Option<(&[u8], &[u8])>
    ensures around { IfSome result (λ cut. bytes.now ≡ cut.0.now ++ at ∷ cut.1.now) }
    ensures first { IfSome result (λ cut. All (λ b. b ≢ at) cut.0.now) }
    ensures none { IfNone result (All (λ b. b ≢ at) bytes.now) }
{
    let place = bytes.iter().position(|b| *b == at)?;
    Some((&bytes[..place], &bytes[place + 1..]))
}

/// The first line, and what stands behind it.
pub fn first_line(bytes: &[u8]) -> (&[u8], &[u8])
    requires { bytes.now ≢ [] }
    ensures { IsFirstLine bytes.now result.0.now result.1.now }
{
    match split_at_byte(bytes, b'\n') {
        Some((raw, rest)) => (trimmed_line(raw), rest),
        None => (trimmed_line(bytes), &[]),
    }
}

// What stands before the first space, and the rest from that space on.
fn split_space(bytes: &[u8]) -> (&[u8], &[u8])
    ensures { IsCutAtSpace bytes.now result.0.now result.1.now }
{
    match bytes.iter().position(|b| *b == b' ') {
        Some(place) => (&bytes[..place], &bytes[place..]),
        None => (bytes, &[]),
    }
}

fn is_name(bytes: &[u8]) -> bool
    ensures { IsTrue result ↔ IsName bytes.now }
{
    1 <= bytes.len()
        && bytes.len() <= 16
        && bytes
            .iter()
            .all(|b| b.is_ascii_lowercase() || b.is_ascii_digit())
}

/// The name at the front of a line, and what stands behind it.
pub fn split_name(line: &[u8]) -> Option<(&[u8], &[u8])>
    ensures found { IfSome result (λ cut. BeginsWithName line.now cut.0.now cut.1.now) }
    ensures none { IfNone result ((name tail : List ℕ) → BeginsWithName line.now name tail → ⊥) }
{
    let (name, tail) = split_space(line);
    if !is_name(name) {
        return None;
    }
    Some((name, tail))
}

// The number and the text behind `put ` or `set `.
fn edit_of(bytes: &[u8]) -> Option<(u32, &[u8])>
    ensures found { IfSome result (λ edit. IsEditOf bytes.now edit.0 edit.1.now) }
    ensures none { IfNone result ((line : ℕ) (text : List ℕ) → IsEditOf bytes.now line text → ⊥) }
{
    let (digits, tail) = split_space(bytes);
    let line = read_decimal(digits)?;
    let text: &[u8] = match tail {
        [_, text @ ..] => text,
        [] => &[],
    };
    Some((line as u32, text))
}

// The two numbers behind `cut `.
fn range_of(bytes: &[u8]) -> Option<(u32, u32)>
    ensures found { IfSome result (λ range. IsRange bytes.now range.0 range.1) }
    ensures none { IfNone result ((from upto : ℕ) → IsRange bytes.now from upto → ⊥) }
{
    let (digits, tail) = split_space(bytes);
    let from = read_decimal(digits)?;
    let [_, second @ ..] = tail else {
        return None;
    };
    let upto = read_decimal(second)?;
    Some((from as u32, upto as u32))
}

// The edit or the bad command behind `put `.
fn put_command(alloc: Global, edit: &[u8]) -> Result<Command, NoMemory>
    ensures { IfOk result (λ command. IsPutOrBad edit.now command) }
{
    let Some((line, text)) = edit_of(edit) else {
        return Ok(Command::Bad);
    };
    let text = Bytes::copy_of(alloc, text)?;
    Ok(Command::Put { line, text })
}

// The edit or the bad command behind `set `.
fn set_command(alloc: Global, edit: &[u8]) -> Result<Command, NoMemory>
    ensures { IfOk result (λ command. IsSetOrBad edit.now command) }
{
    let Some((line, text)) = edit_of(edit) else {
        return Ok(Command::Bad);
    };
    let text = Bytes::copy_of(alloc, text)?;
    Ok(Command::Set { line, text })
}

// The edit or the bad command behind `cut `.
fn cut_command(range: &[u8]) -> Command
    ensures { IsCutOrBad range.now result }
{
    let Some((from, upto)) = range_of(range) else {
        return Command::Bad;
    };
    Command::Cut { from, upto }
}

// A command of one word.
fn word_command(words: &[u8]) -> Command
    ensures { IsWordOrBad words.now result }
{
    match words {
        b"show" => Command::Show,
        b"export" => Command::Export,
        _ => Command::Bad,
    }
}

// What stands behind a word, where the bytes begin with it.
fn behind<'a>(bytes: &'a [u8], word: &[u8]) -> Option<&'a [u8]>
    ensures { MatchOption result ((rest : List ℕ) → bytes.now ≢ word.now ++ rest)
        (λ rest. bytes.now ≡ word.now ++ rest.now) }
{
    bytes.strip_prefix(word)
}

// One of the commands, or a bad one.
fn known_command(alloc: Global, words: &[u8]) -> Result<Command, NoMemory>
    ensures { IfOk result (λ command. IsKnownOrBad words.now command) }
{
    if let Some(edit) = behind(words, b"put ") {
        return put_command(alloc, edit);
    }
    if let Some(edit) = behind(words, b"set ") {
        return set_command(alloc, edit);
    }
    if let Some(range) = behind(words, b"cut ") {
        return Ok(cut_command(range));
    }
    Ok(word_command(words))
}

/// The command behind a name.
pub fn command_of(alloc: Global, tail: &[u8]) -> Result<Command, NoMemory>
    ensures { IfOk result (λ command. IsCommand tail.now command) }
{
    match tail {
        [b' ', words @ ..] => known_command(alloc, words),
        _ => Ok(Command::Bad),
    }
}
