//! The text of replies.

ghost use Rattle.std.specs.Prelude.{◌≡◌, ◌++◌, ℕ, List, flat_map, IfOk, OnOk, OnErr};
ghost use Rattle.plain_text.specs.Decimals.{numeral};
ghost use Rattle.plain_text.specs.Separators.{newline};
ghost use Rattle.reply_text.specs.Texts.{refusal_word, limit_words, line_count, reply_body};
ghost use Rattle.reply_text.specs.Parts.{source_fault_words, first_words, further_lines, Grows};

use crate::reply::Reply;
use edit_session::SessionFault;
use export_limits::PassedLimit;
use std::alloc::Global;
use text_place::{Bytes, Fault, NoMemory, push_decimal, word};

fn refusal_text(why: SessionFault) -> &'static str
    ensures { result.now ≡ refusal_word why }
{
    match why {
        SessionFault::NoSuchLine => "NoSuchLine",
        SessionFault::TooManyLines => "TooManyLines",
        SessionFault::TooManyShows => "TooManyShows",
        SessionFault::TooManyExports => "TooManyExports",
        SessionFault::BadCommand => "BadCommand",
        SessionFault::NoMemory => "NoMemory",
    }
}

fn push_text(out: &mut Vec<u8>, text: &str) -> Result<(), NoMemory>
    ensures { OnOk result (out.new.items ≡ out.old.items ++ text.now) }
{
    out.extend_from_slice(text.as_bytes())?;
    Ok(())
}

fn push_number(alloc: Global, out: &mut Vec<u8>, number: u64) -> Result<(), NoMemory>
    ensures { OnOk result (out.new.items ≡ out.old.items ++ numeral number) }
{
    push_decimal(alloc, out, i128::from(number))
}

fn push_limit(alloc: Global, out: &mut Vec<u8>, limit: PassedLimit) -> Result<(), NoMemory>
    ensures { OnOk result (out.new.items ≡ out.old.items ++ limit_words limit) }
{
    match limit {
        PassedLimit::Solid(node) => {
            push_text(out, "solid ")?;
            push_number(alloc, out, u64::from(node))
        }
        PassedLimit::Sum(node) => {
            push_text(out, "sum ")?;
            push_number(alloc, out, u64::from(node))
        }
        PassedLimit::Facets => push_text(out, "facets"),
        PassedLimit::Corners => push_text(out, "corners"),
        PassedLimit::Vertices => push_text(out, "vertices"),
    }
}

fn push_fault(alloc: Global, out: &mut Vec<u8>, fault: Fault) -> Result<(), NoMemory>
    ensures { OnOk result (out.new.items ≡ out.old.items ++ source_fault_words fault) }
{
    push_text(out, " fault ")?;
    push_number(alloc, out, u64::from(fault.place.line))?;
    push_text(out, ":")?;
    push_number(alloc, out, u64::from(fault.place.column))?;
    push_text(out, " ")?;
    push_text(out, word(fault.kind))
}

fn push_count(alloc: Global, out: &mut Vec<u8>, what: &str, count: u64) -> Result<(), NoMemory>
    ensures { OnOk result (out.new.items ≡ out.old.items ++ (what.now ++ numeral count)) }
{
    push_text(out, what)?;
    push_number(alloc, out, count)
}

// The first line of a reply behind its number, without the newline.
fn push_first(alloc: Global, out: &mut Vec<u8>, reply: &Reply) -> Result<(), NoMemory>
    ensures { OnOk result (out.new.items ≡ out.old.items ++ first_words reply.now) }
{
    match reply {
        Reply::Lines(lines) => push_count(alloc, out, " ok ", u64::from(*lines)),
        Reply::Refused(why) => {
            push_text(out, " refused ")?;
            push_text(out, refusal_text(*why))
        }
        Reply::Faulted(fault) => push_fault(alloc, out, *fault),
        Reply::PassedLimit(limit) => {
            push_text(out, " complex ")?;
            push_limit(alloc, out, *limit)
        }
        Reply::NoMem => push_text(out, " nomem"),
        Reply::Text(lines) => push_count(alloc, out, " text ", lines.items().len() as u64),
        Reply::Solid(bytes) => push_count(alloc, out, " solid ", count_lines(bytes.items())),
    }
}

fn count_lines(bytes: &[u8]) -> u64
    ensures { result ≡ line_count bytes.now }
{
    bytes.iter().filter(|b| **b == b'\n').count() as u64
}

// The first line of a reply, with its number.
fn first_line(alloc: Global, number: u32, reply: &Reply) -> Result<Vec<u8>, NoMemory>
    ensures { IfOk result (λ line.
        line.items ≡ numeral number ++ first_words reply.now ++ newline) }
{
    let mut line = Vec::new(alloc);
    push_number(alloc, &mut line, u64::from(number))?;
    push_first(alloc, &mut line, reply)?;
    line.push(b'\n')?;
    Ok(line)
}

// Lines, each with its newline. Where memory runs out, some of their bytes may stand behind the others.
fn push_lines(out: &mut Vec<u8>, lines: &[Bytes]) -> Result<(), NoMemory>
    ensures ok { OnOk result
        (out.new.items ≡ out.old.items ++ flat_map (λ line. line ++ newline) lines.now) }
    ensures err { Grows out.old.items out.new.items }
{
    for line in lines {
        out.extend_from_slice(line.items())?;
        out.push(b'\n')?;
    }
    Ok(())
}

// The lines behind the first one.
fn push_further(out: &mut Vec<u8>, reply: &Reply) -> Result<(), NoMemory>
    ensures ok { OnOk result (out.new.items ≡ out.old.items ++ further_lines reply.now) }
    ensures err { Grows out.old.items out.new.items }
{
    match reply {
        Reply::Text(lines) => push_lines(out, lines.items()),
        Reply::Solid(bytes) => {
            out.extend_from_slice(bytes.items())?;
            Ok(())
        }
        _ => Ok(()),
    }
}

fn push_all(out: &mut Vec<u8>, line: &[u8], reply: &Reply) -> Result<(), NoMemory>
    ensures ok { OnOk result
        (out.new.items ≡ out.old.items ++ line.now ++ further_lines reply.now) }
    ensures err { Grows out.old.items out.new.items }
{
    out.extend_from_slice(line)?;
    push_further(out, reply)
}

/// Appends a reply with its number: its first line, and then the lines of a text or of a solid.
/// `NoMemory` leaves `out` as it was.
pub fn push_reply(
    alloc: Global,
    out: &mut Vec<u8>,
    number: u32,
    reply: &Reply,
) -> Result<(), NoMemory>
    ensures ok { OnOk result
        (out.new.items ≡ out.old.items ++ (numeral number ++ reply_body reply.now)) }
    ensures err { OnErr result (out.new.items ≡ out.old.items) }
{
    let line = first_line(alloc, number, reply)?;
    let kept = out.len();
    let pushed = push_all(out, line.as_slice(), reply);
    if pushed.is_err() {
        out.truncate(kept);
    }
    pushed
}

/// Appends the first line of a reply without its number and without its newline: a space and the words.
/// `NoMemory` leaves `out` as it was.
pub fn push_words(alloc: Global, out: &mut Vec<u8>, reply: &Reply) -> Result<(), NoMemory>
    ensures ok { OnOk result (out.new.items ≡ out.old.items ++ first_words reply.now) }
    ensures err { OnErr result (out.new.items ≡ out.old.items) }
{
    let mut words = Vec::new(alloc);
    push_first(alloc, &mut words, reply)?;
    out.extend_from_slice(&words)?;
    Ok(())
}
