//! Answers of cases, by what a program says of each.

use crate::lines::lines_of;
use crate::stop::CaseStop;
use crate::text::put;
use outside_io::{ReadSource, Sink, Source, WriteSink, read_to_end, write_all};
use plain_text::{Bytes, NoMemory};
use std::alloc::Global;
use std::process::ExitCode;

// The most bytes of all cases.
const MOST_BYTES: usize = 1 << 20;

/// Writes an answer behind those that stand from a place on, with a semicolon and a space between. An empty one isn't written.
pub fn put_next(out: &mut Vec<u8>, from: usize, answer: &[u8]) -> Result<(), NoMemory> {
    if !answer.is_empty() {
        if from < out.len() {
            put(out, b"; ")?;
        }
        put(out, answer)?;
    }
    Ok(())
}

// Writes a line, and what stands before the answer where it is a case; whether it is one.
fn begin_line(out: &mut Vec<u8>, line: &[u8]) -> Result<bool, NoMemory> {
    put(out, line)?;
    put(out, b"\n")?;
    let is_case = !line.is_empty() && !line.starts_with(b"#");
    if is_case {
        put(out, b"    ")?;
    }
    Ok(is_case)
}

// Writes what stands behind the answer of a case, or in its place.
fn end_line(out: &mut Vec<u8>, told: Result<(), CaseStop>) -> Result<(), NoMemory> {
    match told {
        Ok(()) => {}
        Err(CaseStop::Unread) => put(out, b"no case")?,
        Err(CaseStop::NoMemory) => put(out, b"no memory")?,
    }
    put(out, b"\n")
}

// Each line, with its answer below where it is a case.
fn put_lines<F: Fn(&mut Vec<u8>, &[u8]) -> Result<(), CaseStop>>(
    out: &mut Vec<u8>,
    answer: F,
    lines: &[Bytes],
) -> Result<(), NoMemory>
    requires { F.IsAlwaysCallable answer }
{
    for line in lines {
        if begin_line(out, line.items())? {
            let told = answer(out, line.items());
            end_line(out, told)?;
        }
    }
    Ok(())
}

// Whether all cases of a source, of at most 1 MiB, were read and answered, and the answers written.
fn answers_all<F: Fn(&mut Vec<u8>, &[u8]) -> Result<(), CaseStop>, S: Source, K: Sink>(
    alloc: Global,
    answer: F,
    source: &mut S,
    sink: &mut K,
) -> bool
    requires { F.IsAlwaysCallable answer }
{
    let Ok(cases) = read_to_end(alloc, source, MOST_BYTES) else {
        return false;
    };
    let Ok(lines) = lines_of(alloc, &cases) else {
        return false;
    };
    let mut out = Vec::new(alloc);
    put_lines(&mut out, answer, &lines).is_ok() && write_all(sink, &out).is_ok()
}

/// Answers the cases of standard input on standard output, by what writes the answer of a case behind what was written. The
/// status is that of success where all cases were read and answered and the answers written, and else that of failure.
pub fn answer_cases<F: Fn(&mut Vec<u8>, &[u8]) -> Result<(), CaseStop>>(
    rt: &HostRuntime,
    answer: F,
) -> ExitCode
    requires { F.IsAlwaysCallable answer }
{
    let mut source = ReadSource::new(rt.stdin());
    let mut sink = WriteSink::new(rt.stdout());
    if answers_all(rt.alloc(), answer, &mut source, &mut sink) {
        ExitCode::SUCCESS
    } else {
        ExitCode::FAILURE
    }
}
