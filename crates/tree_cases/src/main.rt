//! Answers cases of trees, in the form of `case_lines`. A case is phrases that put trees together, and ask for what they are:
//! `nothing`, `leaf` of all planes, `box LOW HIGH`, `slabs AXIS FROM N`, `copy`, and `+`, `*` and `-` of the last two.
//! `written` asks for the last tree in a line, where the last digits of its planes' offsets stand for a leaf, `long` for the
//! length of that line, `alike` for whether the lines of the last two are the same, and `halves` for the union by halves of
//! all. `key` asks for the number of its bytes, `nodes` for the number of its nodes, `node N` for one, `same M N` for two keys,
//! `size` for the size of its solid, `export UNIT` for its text, or the limit that it exceeds, and `export UNIT N` for the
//! first N bytes.
#![tactic(auto)]

mod proper;
mod stores;
mod trees;
mod written;

use crate::trees::Trees;
use case_lines::{CaseStop, answer_cases, cut, phrases_of, put_next, unfolded};
use std::alloc::Global;
use std::process::ExitCode;

// The answer of phrases that put trees.
fn put_answer(alloc: Global, out: &mut Vec<u8>, case: &[u8]) -> Result<(), CaseStop> {
    let text = unfolded(alloc, case)?;
    let (asked, rest) = cut(&text);
    if asked != b"tree".as_slice() {
        return Err(CaseStop::Unread);
    }
    let mut trees = Trees::new(alloc);
    let from = out.len();
    for phrase in &phrases_of(alloc, rest)? {
        let mut told = Vec::new(alloc);
        trees.follow(alloc, &mut told, phrase)?;
        put_next(out, from, &told)?;
    }
    Ok(())
}

fn main(rt: HostRuntime) -> ExitCode {
    let alloc = rt.alloc();
    answer_cases(
        &rt,
        |out: &mut Vec<u8>, case: &[u8]| -> Result<(), CaseStop> { put_answer(alloc, out, case) },
    )
}
