//! What a case asks of a script.

use crate::outside::{Asked, CALM, Outside, Served, serve_in, serve_over};
use crate::serving::{Told, put_end, put_output, put_status};
use crate::words::words_of;
use case_lines::{CaseStop, cut, found, put, put_number};
use plain_text::read_decimal;
use script_reader::split_at_byte;
use script_server::Status;
use std::alloc::Global;
use std::process::ExitCode;
use std::sync::Wait;
use std::thread::Threads;

#[derive(Clone, Copy)]
enum Question {
    Serve,
    Head,
    Tail,
    Room,
    Read,
    Write,
    Reads,
    Writes,
    Streams,
}

const QUESTIONS: [(&[u8], Question); 9] = [
    (b"serve", Question::Serve),
    (b"head", Question::Head),
    (b"tail", Question::Tail),
    (b"room", Question::Room),
    (b"read", Question::Read),
    (b"write", Question::Write),
    (b"reads", Question::Reads),
    (b"writes", Question::Writes),
    (b"streams", Question::Streams),
];

/// Whether a word asks to serve a script.
pub fn asks_to_serve(word: &[u8]) -> bool {
    found(&QUESTIONS, word).is_some()
}

// How many numbers stand between a question and the words.
fn count_of(question: Question) -> usize {
    match question {
        Question::Serve | Question::Streams => 0,
        Question::Head | Question::Tail | Question::Room | Question::Reads | Question::Writes => 1,
        Question::Read | Question::Write => 2,
    }
}

// A number of up to seven digits, and what stands behind it.
fn number(text: &[u8]) -> Result<(u32, &[u8]), CaseStop> {
    let (digits, rest) = cut(text);
    let number = read_decimal(digits).ok_or(CaseStop::Unread)?;
    match u32::try_from(number) {
        Ok(number) => Ok((number, rest)),
        Err(_) => Err(CaseStop::Unread),
    }
}

// The words and the script of a case, a slash and a space between them.
fn asked_of(alloc: Global, text: &[u8]) -> Result<Asked, CaseStop> {
    let (words, script) = split_at_byte(text, b'/').ok_or(CaseStop::Unread)?;
    let script = match script {
        [b' ', rest @ ..] => rest,
        _ => script,
    };
    Ok(Asked {
        words: words_of(alloc, words)?,
        script: script.to_vec(alloc)?,
    })
}

// How calls end where the first read or write fails, the second one, and so on, up to the first call that is done: each end
// that differs from the one before.
fn put_ends<F: Fn(&mut Vec<u8>, u64) -> Result<Status, CaseStop>>(
    alloc: Global,
    out: &mut Vec<u8>,
    put_failing: F,
) -> Result<(), CaseStop>
    requires { F.IsAlwaysCallable put_failing }
{
    let mut last = Vec::new(alloc);
    for number in 1..1000 {
        let mut end = Vec::new(alloc);
        let status = put_failing(&mut end, number)?;
        if end != last {
            put(out, &end)?;
            put(out, b"; ")?;
            last = end;
        }
        if status == Status::Done {
            return Ok(());
        }
    }
    Err(CaseStop::Unread)
}

// The same of calls in each of which a read fails.
fn put_reads<R: Threads + Wait + Sync>(
    rt: &R,
    alloc: Global,
    out: &mut Vec<u8>,
    asked: &Asked,
    piece: u32,
) -> Result<(), CaseStop> {
    put_ends(
        alloc,
        out,
        |end: &mut Vec<u8>, read: u64| -> Result<Status, CaseStop> {
            let outside = Outside {
                read,
                piece,
                ..CALM
            };
            let served = serve_in(rt, alloc, asked, outside)?;
            put_end(alloc, end, &served, Told::All)?;
            Ok(served.status)
        },
    )
}

// How a call ended, and whether its output is a beginning of another one.
fn put_beginning(out: &mut Vec<u8>, served: &Served, whole: &[u8]) -> Result<(), CaseStop> {
    put_status(out, served.status)?;
    if served.output.as_slice() == whole {
        put(out, b" all")?;
    } else if whole.starts_with(&served.output) {
        put(out, b" a beginning")?;
    } else {
        put(out, b" something else")?;
    }
    Ok(())
}

// The same of calls in each of which a write fails, with what was written beside what is written where none does.
fn put_writes<R: Threads + Wait + Sync>(
    rt: &R,
    alloc: Global,
    out: &mut Vec<u8>,
    asked: &Asked,
    piece: u32,
) -> Result<(), CaseStop> {
    let whole = serve_in(rt, alloc, asked, CALM)?;
    put_ends(
        alloc,
        out,
        |end: &mut Vec<u8>, write: u64| -> Result<Status, CaseStop> {
            let outside = Outside {
                write,
                piece,
                ..CALM
            };
            let served = serve_in(rt, alloc, asked, outside)?;
            put_beginning(end, &served, &whole.output)?;
            Ok(served.status)
        },
    )
}

// The outside of a question, by its numbers.
fn outside_of(question: Question, first: u32, second: u32) -> Outside {
    match question {
        Question::Room => Outside {
            room: first as usize,
            ..CALM
        },
        Question::Read => Outside {
            read: u64::from(first),
            piece: second,
            ..CALM
        },
        Question::Write => Outside {
            write: u64::from(first),
            piece: second,
            ..CALM
        },
        _ => CALM,
    }
}

// The report on the output.
fn told_of(question: Question, first: u32) -> Told {
    match question {
        Question::Head => Told::First(first as usize),
        Question::Tail => Told::Last(first as usize),
        _ => Told::All,
    }
}

// The number of an exit status of the program.
fn number_of(code: ExitCode) -> i128 {
    for number in 0..u8::MAX {
        if code == ExitCode::from(number) {
            return i128::from(number);
        }
    }
    i128::from(u8::MAX)
}

// The status with which the program would end, and what it writes to a writer of std.
fn put_streamed<R: Threads + Wait + Sync>(
    rt: &R,
    alloc: Global,
    out: &mut Vec<u8>,
    asked: Asked,
) -> Result<(), CaseStop> {
    let streamed = serve_over(rt, alloc, asked)?;
    put_number(alloc, out, number_of(streamed.code))?;
    put(out, b" ")?;
    put_output(alloc, out, &streamed.output)
}

/// The answer of a case.
pub fn put_served<R: Threads + Wait + Sync>(
    rt: &R,
    alloc: Global,
    out: &mut Vec<u8>,
    text: &[u8],
) -> Result<(), CaseStop> {
    let (asked, rest) = cut(text);
    let question = found(&QUESTIONS, asked).ok_or(CaseStop::Unread)?;
    let count = count_of(question);
    let (first, rest) = if count > 0 { number(rest)? } else { (0, rest) };
    let (second, rest) = if count > 1 { number(rest)? } else { (0, rest) };
    let asked = asked_of(alloc, rest)?;
    match question {
        Question::Reads => put_reads(rt, alloc, out, &asked, first),
        Question::Writes => put_writes(rt, alloc, out, &asked, first),
        Question::Streams => put_streamed(rt, alloc, out, asked),
        _ => {
            let served = serve_in(rt, alloc, &asked, outside_of(question, first, second))?;
            put_end(alloc, out, &served, told_of(question, first))
        }
    }
}
