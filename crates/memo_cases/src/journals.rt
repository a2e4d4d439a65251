//! Journals, as they are written and read.

use crate::limits::Limits;
use crate::pieces::{LastDigits, Pieces};
use case_lines::{CaseStop, Phrase, found, put, put_number, put_numbers, put_separated};
use memo_core::{Did, JournalItem};
use memo_shares::{JournalVerdict, check_journal};
use plain_text::NoMemory;
use std::alloc::Global;
use std::sync::Arc;

// The most items that are checked.
const MOST_ITEMS: usize = 1_000;

#[derive(Clone, Copy)]
enum Word {
    Hit,
    Miss,
    Kept,
    Heavy,
}

const WORDS: [(&[u8], Word); 4] = [
    (b"hit", Word::Hit),
    (b"miss", Word::Miss),
    (b"kept", Word::Kept),
    (b"heavy", Word::Heavy),
];

// What a word says that a call did, with these numbers where it is a fill.
fn did_of(word: Word, weight: u64, evicted: u32) -> Did {
    match word {
        Word::Hit => Did::Probed { hit: true },
        Word::Miss => Did::Probed { hit: false },
        Word::Kept => Did::Filled {
            weight,
            kept: true,
            evicted,
        },
        Word::Heavy => Did::Filled {
            weight,
            kept: false,
            evicted,
        },
    }
}

// The item that a phrase says.
fn item_of(alloc: Global, phrase: &Phrase) -> Result<JournalItem<u32>, CaseStop> {
    let word = found(&WORDS, &phrase.word).ok_or(CaseStop::Unread)?;
    Ok(JournalItem {
        caller: phrase.small_number(0),
        key: Arc::new(alloc, phrase.small_number(1))?,
        did: did_of(word, phrase.number(2), phrase.small_number(3)),
    })
}

// Reads the items of phrases.
fn read_items(
    alloc: Global,
    items: &mut Vec<JournalItem<u32>>,
    phrases: &[Phrase],
) -> Result<(), CaseStop> {
    for phrase in phrases {
        items.push(item_of(alloc, phrase)?)?;
    }
    Ok(())
}

// Whether items are the journal of a memo, or else the number of the first that is not.
fn put_checked(
    alloc: Global,
    out: &mut Vec<u8>,
    limits: Limits,
    items: &[JournalItem<u32>],
) -> Result<(), CaseStop> {
    if items.len() > MOST_ITEMS {
        return Err(CaseStop::Unread);
    }
    match check_journal(
        alloc,
        &Pieces,
        &LastDigits,
        limits.budget,
        limits.share,
        items,
    )? {
        JournalVerdict::Legal => put(out, b"legal")?,
        JournalVerdict::Differs(number) => {
            put(out, b"differs at ")?;
            put_number(alloc, out, i128::from(number))?;
        }
    }
    Ok(())
}

/// Whether phrases are the journal of a memo with these limits, or else the number of the first that is not.
pub fn put_verdict(
    alloc: Global,
    out: &mut Vec<u8>,
    limits: Limits,
    phrases: &[Phrase],
) -> Result<(), CaseStop> {
    let mut items = Vec::new(alloc);
    read_items(alloc, &mut items, phrases)?;
    put_checked(alloc, out, limits, &items)
}

// Writes an item.
fn put_item(alloc: Global, out: &mut Vec<u8>, item: &JournalItem<u32>) -> Result<(), NoMemory> {
    let (caller, key) = (i128::from(item.caller), i128::from(*item.key));
    match item.did {
        Did::Probed { hit } => {
            put(out, if hit { b"hit " } else { b"miss " })?;
            put_numbers(alloc, out, &[caller, key])
        }
        Did::Filled {
            weight,
            kept,
            evicted,
        } => {
            put(out, if kept { b"kept " } else { b"heavy " })?;
            let numbers = [caller, key, i128::from(weight), i128::from(evicted)];
            put_numbers(alloc, out, &numbers)
        }
    }
}

/// Writes items, a comma and a space between two of them.
pub fn put_items(
    alloc: Global,
    out: &mut Vec<u8>,
    items: &[JournalItem<u32>],
) -> Result<(), NoMemory> {
    put_separated(out, items, b", ", |out, item| put_item(alloc, out, item))
}
