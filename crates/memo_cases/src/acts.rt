//! What callers do, and what they are answered.

use crate::calls::put_fill;
use case_lines::{CaseStop, Phrase, found, phrases_of, put, put_number, put_separated};
use memo_core::Fill;
use plain_text::NoMemory;
use std::alloc::Global;

/// What a caller does.
#[derive(Clone, Copy)]
pub enum Act {
    /// Asks for a key, and ends its claim where the key was missed: by a piece of this weight, or by giving the claim
    /// back where there is none. Between the claim and its end is a meeting of this number, or none where it is 0.
    Claim {
        key: u32,
        weight: Option<u64>,
        meeting: u64,
    },
    /// Comes to a meeting of the given number.
    Meet(u64),
    /// Asks how many hold on to the first piece that it brought.
    Holders,
}

/// What an act was answered.
#[derive(Clone, Copy)]
pub enum Answer {
    /// The weight of a piece that was there.
    Value(u64),
    Finished(Fill),
    GivenBack,
    Met,
    /// Too few came to a meeting.
    MetInVain,
    Holders(usize),
    NoMemory,
}

#[derive(Clone, Copy)]
enum Word {
    Finish,
    FinishEach,
    GiveBack,
    Meet,
    Holders,
}

const WORDS: [(&[u8], Word); 5] = [
    (b"finish", Word::Finish),
    (b"finish_each", Word::FinishEach),
    (b"give_back", Word::GiveBack),
    (b"meet", Word::Meet),
    (b"holders", Word::Holders),
];

// Adds the acts that a phrase says.
fn push_acts(acts: &mut Vec<Act>, phrase: &Phrase) -> Result<(), CaseStop> {
    let word = found(&WORDS, &phrase.word).ok_or(CaseStop::Unread)?;
    let (key, second) = (phrase.small_number(0), phrase.number(1));
    match word {
        Word::Finish => acts.push(Act::Claim {
            key,
            weight: Some(second),
            meeting: phrase.number(2),
        })?,
        Word::FinishEach => {
            for key in key..=phrase.small_number(1) {
                acts.push(Act::Claim {
                    key,
                    weight: Some(phrase.number(2)),
                    meeting: 0,
                })?;
            }
        }
        Word::GiveBack => acts.push(Act::Claim {
            key,
            weight: None,
            meeting: second,
        })?,
        Word::Meet => acts.push(Act::Meet(phrase.number(0)))?,
        Word::Holders => acts.push(Act::Holders)?,
    }
    Ok(())
}

/// The acts that a list of phrases says; none where there is no list.
pub fn acts_of(alloc: Global, list: Option<&&[u8]>) -> Result<Vec<Act>, CaseStop> {
    let mut acts = Vec::new(alloc);
    if let Some(list) = list {
        for phrase in &phrases_of(alloc, list)? {
            push_acts(&mut acts, phrase)?;
        }
    }
    Ok(acts)
}

fn put_answer(alloc: Global, out: &mut Vec<u8>, answer: Answer) -> Result<(), NoMemory> {
    match answer {
        Answer::Value(weight) => {
            put(out, b"value ")?;
            put_number(alloc, out, i128::from(weight))
        }
        Answer::Finished(fill) => put_fill(out, fill),
        Answer::GivenBack => put(out, b"given back"),
        Answer::Met => put(out, b"met"),
        Answer::MetInVain => put(out, b"met in vain"),
        Answer::Holders(count) => {
            put(out, b"holders ")?;
            put_number(alloc, out, count as i128)
        }
        Answer::NoMemory => put(out, b"no memory"),
    }
}

/// Writes answers, a comma and a space between two of them.
pub fn put_answers(alloc: Global, out: &mut Vec<u8>, answers: &[Answer]) -> Result<(), NoMemory> {
    put_separated(
        out,
        answers,
        b", ",
        |out, answer| put_answer(alloc, out, *answer),
    )
}
