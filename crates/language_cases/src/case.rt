//! One case and its answer.

use crate::places::{put_behind, put_places};
use crate::program::{put_program, put_reads};
use crate::tokens::put_tokens;
use crate::tree::put_meaning;
use crate::value::put_value_after;
use case_lines::{cut, put, unfolded};
use plane_predicate::Unit;
use std::alloc::Global;
use text_place::{NoMemory, read_decimal};

// The most bytes of a source.
const SOURCE_BYTES: usize = 1 << 20;

// The answer of a case of a source.
fn put_answer(
    alloc: Global,
    out: &mut Vec<u8>,
    asked: &[u8],
    source: &[u8],
) -> Result<(), NoMemory> {
    if source.len() > SOURCE_BYTES {
        put(out, b"too long")
    } else if asked == b"tokens".as_slice() {
        put_tokens(alloc, out, source)
    } else if asked == b"program".as_slice() {
        put_program(alloc, out, source)
    } else if asked == b"reads".as_slice() {
        put_reads(alloc, out, source)
    } else if asked == b"places".as_slice() {
        put_places(alloc, out, source)
    } else if asked == b"value".as_slice() {
        put_value_after(alloc, out, source, 0)
    } else if asked == b"tree".as_slice() {
        put_meaning(alloc, out, source, Unit::Whole)
    } else if asked == b"half".as_slice() {
        put_meaning(alloc, out, source, Unit::Half)
    } else {
        put(out, b"no case")
    }
}

// The value of a source where the turns were counted that stand before it.
fn put_turns(alloc: Global, out: &mut Vec<u8>, text: &[u8]) -> Result<(), NoMemory> {
    let (turns, source) = cut(text);
    let source = unfolded(alloc, source)?;
    if source.len() > SOURCE_BYTES {
        put(out, b"too long")
    } else {
        put_value_after(alloc, out, &source, read_decimal(turns).unwrap_or(0))
    }
}

/// The answer of a case.
pub fn put_case(alloc: Global, out: &mut Vec<u8>, case: &[u8]) -> Result<(), NoMemory> {
    let (asked, text) = cut(case);
    if asked == b"turns".as_slice() {
        put_turns(alloc, out, text)
    } else if asked == b"behind".as_slice() {
        put_behind(alloc, out, text)
    } else {
        let source = unfolded(alloc, text)?;
        put_answer(alloc, out, asked, &source)
    }
}
