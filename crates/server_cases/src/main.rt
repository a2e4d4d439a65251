//! Answers cases of whole scripts, of the program's words, and of clients that share one memo.
//!
//! The form is that of `case_lines`. A stroke `|` stands for a newline in a script and in an output. Another byte that cannot
//! be seen, and a stroke, is written as its number between backticks. The answer is how the call ended, and the output.
//!
//! - `serve WORDS / SCRIPT` serves a script by the words of a command line. `head N WORDS / SCRIPT` and `tail N WORDS / SCRIPT`
//!   tell the first N bytes of the output, and the last N.
//! - `read K PIECE WORDS / SCRIPT` lets the read of number K fail, counted from 1, where each read gives at most PIECE bytes;
//!   `write K PIECE WORDS / SCRIPT` does the same for writes. `room N WORDS / SCRIPT` leaves room for N bytes of output.
//! - `reads PIECE WORDS / SCRIPT` lets each read fail in turn, and writes how the calls end, each end that differs from the one
//!   before; `writes PIECE WORDS / SCRIPT` lets each write fail, and writes in place of the output whether it is a beginning of
//!   the output where nothing fails.
//! - `streams WORDS / SCRIPT` serves a script from a reader of std in memory to a writer of std in memory, as the program does
//!   over standard input and standard output, and writes the status with which the program ends, and the output.
//! - `commands SCRIPT` asks for the clients of a script with their commands, or its fault.
//! - `option NAME=VALUE` asks whether a run takes an option, with its value in its own word, and behind `=`.
//! - `options OPTIONS` asks what a run chooses with the first option, with the first two, and so on, and with all and each of
//!   them once more: the numbers of workers, memo and share, and what has no value, once where it is the same for every way to
//!   write the options.
//! - `demonstration N` asks for the script of a demonstration with N parts.
//!
//! Any other case is of clients that are served at the same time and share one memo: a list of phrases, with a comma and a
//! space between two of them, and behind it one source or more, with a stroke and a space before each. Each client puts one of
//! these sources on its first line, in turn, and then exports.
//!
//! - `clients N`, `exports N` (of each client), `workers N` (of each client), `memo N` and `share N` set numbers. Without them
//!   there is one client with one export and one builder, and a memo of 500,000 that has no shares.
//! - `alike` names all trees alike.
//! - `pass N` lets N builds through and refuses each later one, `refuse N` refuses the first N builds, which are held for some
//!   turns, and `only CLIENT NODE` refuses all but those of one node of one client. `meet N` holds each of the first N builds
//!   until N were entered, and writes whether they were.
//! - `times N` runs the case N times, and expects the same answer each time.
//!
//! The answer has for each client its letter and the first words of each reply to an export, or with `counted` how many replies
//! are solids, lack memory, and are others. With `sized` it has the numbers of vertices and faces, and the 0 behind them, of
//! each solid whose text differs from that of the solid before. It says whether each reply that doesn't lack memory is that of
//! the same clients with one builder each and without a memo, how often the memo was probed, and whether all that was missed
//! was offered. `tally` writes in place of that all numbers of the tally, the weight of the entries of all clients, and how
//! many claims began and ended.
#![tactic(auto)]

mod asked;
mod commands;
mod demonstration;
mod gating;
mod options;
mod outside;
mod running;
mod serving;
mod setting;
mod told;
mod words;

use crate::asked::{asks_to_serve, put_served};
use crate::commands::put_commands;
use crate::demonstration::put_demonstration;
use crate::options::{put_option, put_options};
use crate::running::put_clients;
use crate::setting::setting_of;
use case_lines::{CaseStop, answer_cases, cut, parts_of, unfolded};
use plain_text::NoMemory;
use std::alloc::Global;
use std::process::ExitCode;
use std::sync::Wait;
use std::thread::Threads;

// A case, with a newline in place of each stroke.
fn script_of(alloc: Global, case: &[u8]) -> Result<Vec<u8>, NoMemory> {
    let mut script = Vec::new(alloc);
    for byte in case {
        script.push(if *byte == b'|' { b'\n' } else { *byte })?;
    }
    Ok(script)
}

// The answer of a case of clients that share one memo.
fn put_shared<R: Threads + Wait + Sync>(
    rt: &R,
    alloc: Global,
    out: &mut Vec<u8>,
    case: &[u8],
) -> Result<(), CaseStop> {
    let text = unfolded(alloc, case)?;
    let parts = parts_of(alloc, &text)?;
    let [phrases, sources @ ..] = parts.as_slice() else {
        return Err(CaseStop::Unread);
    };
    put_clients(rt, alloc, out, setting_of(alloc, phrases)?, sources)
}

// The answer of a case.
fn put_answer<R: Threads + Wait + Sync>(
    rt: &R,
    alloc: Global,
    out: &mut Vec<u8>,
    case: &[u8],
) -> Result<(), CaseStop> {
    let text = unfolded(alloc, &script_of(alloc, case)?)?;
    let (asked, rest) = cut(&text);
    if asked == b"commands".as_slice() {
        put_commands(alloc, out, rest)
    } else if asked == b"option".as_slice() {
        put_option(alloc, out, rest)
    } else if asked == b"options".as_slice() {
        put_options(alloc, out, rest)
    } else if asked == b"demonstration".as_slice() {
        put_demonstration(alloc, out, rest)
    } else if asks_to_serve(asked) {
        put_served(rt, alloc, out, &text)
    } else {
        put_shared(rt, alloc, out, case)
    }
}

fn main(rt: HostRuntime) -> ExitCode {
    let threads = &rt;
    answer_cases(
        &rt,
        |out: &mut Vec<u8>, case: &[u8]| -> Result<(), CaseStop> {
            put_answer(threads, threads.alloc(), out, case)
        },
    )
}
