//! Answers cases of the memo: its calls, its journal, its clients step by step, and callers that claim keys at the same time.
//!
//! The form is that of `case_lines`. A case is a list of phrases, with a comma and a space between two of them. The first
//! phrase gives the kind of the case, the budget of a memo and the share of each caller, which is 0 where it isn't given. Keys
//! are numbers, and two of them have one name where their last four digits are the same, as 1 and 10001. Values are pieces,
//! each with a weight.
//!
//! - `memo BUDGET SHARE` is one memo. `ask CALLER KEY` probes for a key: a hit, with the weight of the piece, or a miss. `offer
//!   CALLER KEY WEIGHT` offers a piece for a key, and `offer_each FROM TO WEIGHT` one for each key of a range, for caller 0; it
//!   tells how many were kept. `weight` asks for the weight of all entries, `owned CALLER` for that of a caller's entries,
//!   `evicted` for how many were dropped so far, `dropped` for the keys, least first, of what was dropped since the last such
//!   question, and `journal` for the journal.
//! - `journal BUDGET SHARE` asks whether items are the journal of a memo, or else which of them, counted from 0, is the first
//!   that differs. An item is `hit CALLER KEY`, `miss CALLER KEY`, `kept CALLER KEY WEIGHT EVICTED` or `heavy CALLER KEY WEIGHT
//!   EVICTED`, and is written so too.
//! - `clients BUDGET SHARE` are two clients who share a memo, each with one command, of one node, which has key 1 for both.
//!   `command CLIENT`, `probe CLIENT NODE`, `build CLIENT NODE`, `fill CLIENT NODE` and `reply CLIENT` are steps, each of which
//!   is taken, or is not ready. The answer has the replies of both clients, the journal, and whether one run of these steps
//!   leaves the same.
//! - `callers BUDGET SHARE` are two callers who ask for keys at the same time, each in a thread, and claim those that are
//!   missed. A stroke `|` stands before what the first caller does, and another one before what the second caller does. `finish
//!   KEY WEIGHT` asks for a key, and finishes its claim by a piece where the key was missed; `finish_each FROM TO WEIGHT` does
//!   so for each key of a range; `give_back KEY` gives its claim back. `meet N` comes to a meeting, and waits until N have
//!   come; a number behind `finish KEY WEIGHT`, or `give_back KEY`, is that of a meeting between the claim and its end.
//!   `holders` asks how many hold on to the first piece that the caller brought. `told` writes what each caller was answered;
//!   `log` writes how claims began, by `began NUMBER CALLER KEY`, and how they ended, by `filled NUMBER` and `given back
//!   NUMBER`. The answer ends with the tally, the weight of the entries, and the number of items in the journal. `times N` runs
//!   the case N times, and expects the same answer each time.
//!
//! A meeting to which too few come ends after some turns. A caller that waits for a claim that never ends waits until the
//! program is stopped, as `rt ci` does after two minutes.
#![tactic(auto)]

mod acts;
mod callers;
mod calls;
mod clients;
mod journals;
mod limits;
mod meeting;
mod pieces;
mod told;

use crate::callers::put_callers;
use crate::calls::put_calls;
use crate::clients::put_clients;
use crate::journals::put_verdict;
use crate::limits::limits_of;
use case_lines::{CaseStop, answer_cases, found, parts_of, phrases_of, unfolded};
use std::alloc::Global;
use std::process::ExitCode;
use std::sync::Wait;
use std::thread::Threads;

// Whose cases there are.
#[derive(Clone, Copy)]
enum Subject {
    Memo,
    Journal,
    Clients,
    Callers,
}

const SUBJECTS: [(&[u8], Subject); 4] = [
    (b"memo", Subject::Memo),
    (b"journal", Subject::Journal),
    (b"clients", Subject::Clients),
    (b"callers", Subject::Callers),
];

// The answer of a case.
fn put_answer<R: Threads + Wait + Sync>(
    rt: &R,
    alloc: Global,
    out: &mut Vec<u8>,
    case: &[u8],
) -> Result<(), CaseStop> {
    let text = unfolded(alloc, case)?;
    let parts = parts_of(alloc, &text)?;
    let [asked, lists @ ..] = parts.as_slice() else {
        return Err(CaseStop::Unread);
    };
    let phrases = phrases_of(alloc, asked)?;
    let [first, rest @ ..] = phrases.as_slice() else {
        return Err(CaseStop::Unread);
    };
    let limits = limits_of(first);
    match found(&SUBJECTS, &first.word) {
        Some(Subject::Memo) => put_calls(alloc, out, limits, rest),
        Some(Subject::Journal) => put_verdict(alloc, out, limits, rest),
        Some(Subject::Clients) => put_clients(alloc, out, limits, rest),
        Some(Subject::Callers) => put_callers(rt, alloc, out, limits, rest, lists),
        None => Err(CaseStop::Unread),
    }
}

fn main(rt: HostRuntime) -> ExitCode {
    let threads = &rt;
    answer_cases(
        &rt,
        |out: &mut Vec<u8>, case: &[u8]| -> Result<(), CaseStop> {
            put_answer(threads, threads.alloc(), out, case)
        },
    )
}
