//! The report on callers.

use crate::acts::{Answer, put_answers};
use crate::pieces::Pieces;
use case_lines::{put, put_number, put_numbers, put_separated, put_tally};
use flight_memo::{Claims, LogItem};
use plain_text::NoMemory;
use std::alloc::Global;
use subtree_memo::Tally;

/// What became of two callers: what each was answered, what was counted, what the entries weigh, how many items the
/// journal has, and how claims began and ended.
#[derive(Drop)]
pub struct RunEnd {
    pub first: Vec<Answer>,
    pub second: Vec<Answer>,
    pub tally: Tally,
    pub weight: u64,
    pub items: usize,
    pub claims: Claims<Pieces>,
}

fn put_event(alloc: Global, out: &mut Vec<u8>, event: &LogItem<u32>) -> Result<(), NoMemory> {
    match event {
        LogItem::Begun {
            number,
            caller,
            key,
        } => {
            let numbers = [i128::from(*number), i128::from(*caller), i128::from(**key)];
            put(out, b"began ")?;
            put_numbers(alloc, out, &numbers)
        }
        LogItem::Ended { number, filled } => {
            put(out, if *filled { b"filled " } else { b"given back " })?;
            put_number(alloc, out, i128::from(*number))
        }
    }
}

// How claims began and ended, a comma and a space between two of these.
fn put_log(alloc: Global, out: &mut Vec<u8>, log: &[LogItem<u32>]) -> Result<(), NoMemory> {
    put_separated(out, log, b", ", |out, event| put_event(alloc, out, event))?;
    put(out, b"; ")
}

// The tally, what the entries weigh, and how long the journal is.
fn put_counts(alloc: Global, out: &mut Vec<u8>, ended: &RunEnd) -> Result<(), NoMemory> {
    put_tally(alloc, out, &ended.tally.numbers(), ended.weight)?;
    put(out, b" items ")?;
    put_number(alloc, out, ended.items as i128)
}

// What a caller was answered, where it did something.
fn put_caller(
    alloc: Global,
    out: &mut Vec<u8>,
    caller: &[u8],
    answers: &[Answer],
) -> Result<(), NoMemory> {
    if answers.is_empty() {
        return Ok(());
    }
    put(out, caller)?;
    put_answers(alloc, out, answers)?;
    put(out, b"; ")
}

/// The report on callers, with their answers and the log where these are asked for.
pub fn put_ended(
    alloc: Global,
    out: &mut Vec<u8>,
    ended: &RunEnd,
    is_told: bool,
    has_log: bool,
) -> Result<(), NoMemory> {
    if is_told {
        put_caller(alloc, out, b"first ", &ended.first)?;
        put_caller(alloc, out, b"second ", &ended.second)?;
    }
    if has_log {
        put_log(alloc, out, ended.claims.log())?;
    }
    put_counts(alloc, out, ended)
}
