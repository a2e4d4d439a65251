//! Calls on one memo.

use crate::journals::put_items;
use crate::limits::Limits;
use crate::pieces::{LastDigits, Piece, Pieces};
use case_lines::{CaseStop, Interpreter, Phrase, follow_all, found, put, put_number, put_numbers};
use memo_core::{DroppedEntries, Fill, MemoCore, Probe};
use memo_shares::owned;
use plain_text::NoMemory;
use std::alloc::Global;
use std::sync::Arc;

#[derive(Clone, Copy)]
enum Word {
    Ask,
    Offer,
    OfferEach,
    Weight,
    Owned,
    Evicted,
    Dropped,
    Journal,
}

const WORDS: [(&[u8], Word); 8] = [
    (b"ask", Word::Ask),
    (b"offer", Word::Offer),
    (b"offer_each", Word::OfferEach),
    (b"weight", Word::Weight),
    (b"owned", Word::Owned),
    (b"evicted", Word::Evicted),
    (b"dropped", Word::Dropped),
    (b"journal", Word::Journal),
];

// What a probe found.
fn put_found(alloc: Global, out: &mut Vec<u8>, found: &Probe<Piece>) -> Result<(), NoMemory> {
    match found {
        Probe::Hit(piece) => {
            put(out, b"hit ")?;
            put_number(alloc, out, i128::from(piece.weight))
        }
        Probe::Miss => put(out, b"miss"),
    }
}

// Asks for a key.
fn ask(
    alloc: Global,
    core: &mut MemoCore<Pieces, LastDigits>,
    caller: u32,
    key: u32,
) -> Result<Probe<Piece>, NoMemory> {
    let key = Arc::new(alloc, key)?;
    core.room(alloc)?;
    core.probe(caller, &key)
}

// Offers a piece of this weight.
fn offer(
    alloc: Global,
    core: &mut MemoCore<Pieces, LastDigits>,
    caller: u32,
    key: u32,
    weight: u64,
) -> Result<Fill, NoMemory> {
    core.room(alloc)?;
    let key = Arc::new(alloc, key)?;
    let piece = Arc::new(alloc, Piece { weight })?;
    Ok(core.fill(alloc, caller, &key, piece, weight))
}

/// What became of a fill.
pub fn put_fill(out: &mut Vec<u8>, fill: Fill) -> Result<(), NoMemory> {
    match fill {
        Fill::Kept => put(out, b"kept"),
        Fill::TooHeavy => put(out, b"too heavy"),
        Fill::NoMemory => put(out, b"no memory"),
    }
}

// Offers a piece for each key of a range, for caller 0, and counts those that were kept.
fn offer_each(
    alloc: Global,
    core: &mut MemoCore<Pieces, LastDigits>,
    from: u32,
    to: u32,
    weight: u64,
) -> Result<u32, NoMemory> {
    let mut kept: u32 = 0;
    for key in from..=to {
        if let Fill::Kept = offer(alloc, core, 0, key, weight)? {
            kept = kept.saturating_add(1);
        }
    }
    Ok(kept)
}

// The keys of entries that were dropped, in their order.
fn put_dropped(
    alloc: Global,
    out: &mut Vec<u8>,
    dropped: &DroppedEntries<u32, Piece>,
) -> Result<(), NoMemory> {
    let mut keys = Vec::new(alloc);
    for place in 0..dropped.len() {
        keys.push(i128::from(**dropped.key(place)))?;
    }
    keys.sort_unstable();
    if keys.is_empty() {
        put(out, b"none")
    } else {
        put_numbers(alloc, out, &keys)
    }
}

// The answer of a call.
fn put_call(
    alloc: Global,
    out: &mut Vec<u8>,
    core: &mut MemoCore<Pieces, LastDigits>,
    phrase: &Phrase,
) -> Result<(), NoMemory> {
    let (first, second) = (phrase.small_number(0), phrase.small_number(1));
    let third = phrase.number(2);
    match found(&WORDS, &phrase.word) {
        Some(Word::Ask) => put_found(alloc, out, &ask(alloc, core, first, second)?),
        Some(Word::Offer) => put_fill(out, offer(alloc, core, first, second, third)?),
        Some(Word::OfferEach) => {
            let kept = offer_each(alloc, core, first, second, third)?;
            put_number(alloc, out, i128::from(kept))
        }
        Some(Word::Weight) => put_number(alloc, out, i128::from(core.weight())),
        Some(Word::Owned) => put_number(alloc, out, i128::from(owned(core, first))),
        Some(Word::Evicted) => put_number(alloc, out, i128::from(core.evicted())),
        Some(Word::Dropped) => put_dropped(alloc, out, &core.take_dropped(alloc)),
        Some(Word::Journal) => put_items(alloc, out, core.journal()),
        None => put(out, b"no call"),
    }
}

// A memo that is called.
#[derive(Drop)]
struct Called {
    core: MemoCore<Pieces, LastDigits>,
}

impl Interpreter for Called {
    fn follow(
        &mut self,
        alloc: Global,
        out: &mut Vec<u8>,
        phrase: &Phrase,
    ) -> Result<(), CaseStop> {
        Ok(put_call(alloc, out, &mut self.core, phrase)?)
    }
}

/// The answers of calls on a new memo.
pub fn put_calls(
    alloc: Global,
    out: &mut Vec<u8>,
    limits: Limits,
    calls: &[Phrase],
) -> Result<(), CaseStop> {
    let core = MemoCore::new(alloc, Pieces, LastDigits, limits.budget, limits.share)?;
    let mut called = Called { core };
    follow_all(alloc, out, &mut called, calls)
}
