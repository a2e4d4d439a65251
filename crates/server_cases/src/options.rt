//! Options of a run, and what they choose.

use crate::words::word_of;
use case_lines::{CaseStop, put, put_next, put_number, put_numbers};
use plain_text::NoMemory;
use script_reader::split_at_byte;
use script_server::{Settings, WordsFault, read_words};
use std::alloc::Global;

// Adds an option; a value behind its `=` has a word of its own where that is asked for.
fn push_option(
    alloc: Global,
    words: &mut Vec<String>,
    option: &[u8],
    is_apart: bool,
) -> Result<(), CaseStop> {
    match split_at_byte(option, b'=') {
        Some((name, value)) if is_apart => {
            words.push(word_of(alloc, name)?)?;
            words.push(word_of(alloc, value)?)?;
        }
        _ => words.push(word_of(alloc, option)?)?,
    }
    Ok(())
}

// What a run with these options chooses, where its words are a run's. The bits of a number, the lowest one first, tell of each
// value whether it has a word of its own.
fn chosen(alloc: Global, options: &[&[u8]], apart: u32) -> Result<Option<Settings>, CaseStop> {
    let mut words = Vec::new(alloc);
    words.push(String::from_str(alloc, "run")?)?;
    let mut left = apart;
    for option in options {
        push_option(alloc, &mut words, option, left % 2 == 1)?;
        if option.contains(&b'=') {
            left /= 2;
        }
    }
    match read_words(alloc, &words) {
        Ok(settings) => Ok(Some(settings)),
        Err(WordsFault::BadWords) => Ok(None),
        Err(WordsFault::NoMemory) => Err(CaseStop::NoMemory),
    }
}

/// Whether an option is taken with its value in its own word, and with its value behind `=`.
pub fn put_option(alloc: Global, out: &mut Vec<u8>, option: &[u8]) -> Result<(), CaseStop> {
    let options = [b"--memo=2000000".as_slice(), option];
    for apart in [2, 0] {
        let is = chosen(alloc, &options, apart)?.is_some();
        put(out, if is { b"taken " } else { b"refused " })?;
    }
    Ok(())
}

// Settings in words: the numbers of workers, memo and share, and the options without a value.
fn put_settings(alloc: Global, out: &mut Vec<u8>, settings: Settings) -> Result<(), NoMemory> {
    match settings {
        Settings::Run {
            workers,
            memo,
            share,
            half,
            tally,
        } => {
            put_numbers(alloc, out, &[workers, memo, share])?;
            put(out, if half { b" half" } else { b"" })?;
            put(out, if tally { b" tally" } else { b"" })
        }
        Settings::Demo(parts) => {
            put(out, b"demo ")?;
            put_number(alloc, out, i128::from(parts))
        }
    }
}

// In how many ways options can be written: each value in a word of its own, and behind `=`.
fn ways(options: &[&[u8]]) -> u32 {
    let mut count: u32 = 1;
    for option in options {
        if option.contains(&b'=') {
            count = count.saturating_mul(2);
        }
    }
    count
}

// What options choose, told once where it is the same in all ways in which they can be written.
fn put_chosen(
    alloc: Global,
    out: &mut Vec<u8>,
    from: usize,
    options: &[&[u8]],
) -> Result<(), CaseStop> {
    let mut last = Vec::new(alloc);
    for apart in 0..ways(options) {
        let mut told = Vec::new(alloc);
        match chosen(alloc, options, apart)? {
            Some(settings) => put_settings(alloc, &mut told, settings)?,
            None => put(&mut told, b"BadWords")?,
        }
        if told != last {
            put_next(out, from, &told)?;
            last = told;
        }
    }
    Ok(())
}

/// What the first option chooses, the first two, and so on, and all of them with each option once more.
pub fn put_options(alloc: Global, out: &mut Vec<u8>, text: &[u8]) -> Result<(), CaseStop> {
    let from = out.len();
    let mut options = Vec::new(alloc);
    for option in text.split(|byte| *byte == b' ') {
        options.push(option)?;
        put_chosen(alloc, out, from, &options)?;
    }
    for again in text.split(|byte| *byte == b' ') {
        options.push(again)?;
        put_chosen(alloc, out, from, &options)?;
        options.pop();
    }
    Ok(())
}
