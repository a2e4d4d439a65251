//! Phrases that are followed one after another.

use crate::answers::put_next;
use crate::phrase::Phrase;
use crate::stop::CaseStop;
use std::alloc::Global;

/// What follows phrases, and keeps what they make.
pub trait Interpreter {
    /// Does what a phrase says, and writes what it asks.
    fn follow(&mut self, alloc: Global, out: &mut Vec<u8>, phrase: &Phrase) -> Result<(), CaseStop>;
}

/// Follows phrases in their order. What they ask is written one behind another, a semicolon and a space between.
pub fn follow_all<I: Interpreter>(
    alloc: Global,
    out: &mut Vec<u8>,
    interpreter: &mut I,
    phrases: &[Phrase],
) -> Result<(), CaseStop> {
    let from = out.len();
    for phrase in phrases {
        let mut told = Vec::new(alloc);
        interpreter.follow(alloc, &mut told, phrase)?;
        put_next(out, from, &told)?;
    }
    Ok(())
}
