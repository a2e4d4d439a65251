//! The report on a run.

use crate::setting::Setting;
use case_lines::{CaseStop, put, put_number, put_tally};
use plain_text::NoMemory;
use reply_text::{Replies, Reply, push_reply, push_words};
use std::alloc::Global;
use subtree_memo::Tally;

/// What clients were replied, and what became of the memo.
#[derive(Drop)]
pub struct Ended {
    pub replies: Vec<Replies>,
    pub tally: Tally,
    /// Of all clients' entries.
    pub weight: u64,
    /// How many claims began, and how many ended.
    pub begun: u64,
    pub ended: u64,
}

// How many replies are of each kind.
#[derive(Clone, Copy)]
struct Counts {
    solids: u32,
    nomems: u32,
    others: u32,
}

impl Counts {
    fn add(&mut self, reply: &Reply) {
        match reply {
            Reply::Solid(_) => self.solids = self.solids.saturating_add(1),
            Reply::NoMem => self.nomems = self.nomems.saturating_add(1),
            _ => self.others = self.others.saturating_add(1),
        }
    }
}

// The replies behind the first one, which is to the source's line.
fn exported(replies: &Replies) -> &[Reply] {
    match replies.items() {
        [_, rest @ ..] => rest,
        [] => &[],
    }
}

fn put_counts(alloc: Global, out: &mut Vec<u8>, replies: &[Replies]) -> Result<(), NoMemory> {
    let mut counts = Counts {
        solids: 0,
        nomems: 0,
        others: 0,
    };
    for client in replies {
        for reply in exported(client) {
            counts.add(reply);
        }
    }
    put_number(alloc, out, i128::from(counts.solids))?;
    put(out, b" solids ")?;
    put_number(alloc, out, i128::from(counts.nomems))?;
    put(out, b" nomem ")?;
    put_number(alloc, out, i128::from(counts.others))?;
    put(out, b" others")
}

// Each client's letter, and the words of its replies.
fn put_words(alloc: Global, out: &mut Vec<u8>, replies: &[Replies]) -> Result<(), NoMemory> {
    for (letter, client) in (b'a'..=b'p').zip(replies) {
        if letter > b'a' {
            put(out, b", ")?;
        }
        out.push(letter)?;
        for reply in exported(client) {
            push_words(alloc, out, reply)?;
        }
    }
    Ok(())
}

// The text of a solid, and nothing of another reply.
fn text_of(reply: &Reply) -> &[u8] {
    match reply {
        Reply::Solid(text) => text.items(),
        _ => b"",
    }
}

// The second line of a solid's text: how many vertices and faces it has.
fn second_line(text: &[u8]) -> &[u8] {
    let mut lines = text.split(|byte| *byte == b'\n');
    let _first = lines.next();
    lines.next().unwrap_or(b"")
}

// How many vertices and faces each solid has whose text is not that of the solid before.
fn put_sizes(out: &mut Vec<u8>, replies: &[Replies]) -> Result<(), NoMemory> {
    let mut last: &[u8] = b"";
    for client in replies {
        for reply in exported(client) {
            let text = text_of(reply);
            if !text.is_empty() && text != last {
                put(out, b"; ")?;
                put(out, second_line(text))?;
                last = text;
            }
        }
    }
    Ok(())
}

// Whether a reply lacks memory, or has the same text as another one.
fn is_as(alloc: Global, reply: &Reply, plain: &Reply) -> Result<bool, NoMemory> {
    if let Reply::NoMem = reply {
        return Ok(true);
    }
    let mut text = Vec::new(alloc);
    push_reply(alloc, &mut text, 0, reply)?;
    let mut other = Vec::new(alloc);
    push_reply(alloc, &mut other, 0, plain)?;
    Ok(text == other)
}

// The same of all replies of a client, of which there are as many.
fn are_as(alloc: Global, replies: &[Reply], plain: &[Reply]) -> Result<bool, NoMemory> {
    for (reply, other) in replies.iter().zip(plain) {
        if !is_as(alloc, reply, other)? {
            return Ok(false);
        }
    }
    Ok(replies.len() == plain.len())
}

// Whether all replies of all clients are as the others, but for those that lack memory.
fn all_are_as(alloc: Global, replies: &[Replies], plain: &[Replies]) -> Result<bool, NoMemory> {
    for (client, other) in replies.iter().zip(plain) {
        if !are_as(alloc, client.items(), other.items())? {
            return Ok(false);
        }
    }
    Ok(replies.len() == plain.len())
}

// All counts of the memo, what the entries weigh, and how many claims began and ended.
fn put_all_counts(alloc: Global, out: &mut Vec<u8>, ended: &Ended) -> Result<(), NoMemory> {
    put_tally(alloc, out, &ended.tally.numbers(), ended.weight)?;
    put(out, b" begun ")?;
    put_number(alloc, out, i128::from(ended.begun))?;
    put(out, b" ended ")?;
    put_number(alloc, out, i128::from(ended.ended))
}

// How often the memo was probed, and whether all that was missed was offered.
fn put_probes(alloc: Global, out: &mut Vec<u8>, tally: &Tally) -> Result<(), NoMemory> {
    put_number(alloc, out, i128::from(tally.probes))?;
    put(out, b" probes, ")?;
    put(
        out,
        if tally.offered == tally.misses {
            b"offered as missed"
        } else {
            b"not all offered"
        },
    )
}

/// The report on a run, beside the same clients without a memo.
pub fn put_ended(
    alloc: Global,
    out: &mut Vec<u8>,
    setting: Setting,
    ended: &Ended,
    plain: &Ended,
) -> Result<(), CaseStop> {
    if setting.is_counted {
        put_counts(alloc, out, &ended.replies)?;
    } else {
        put_words(alloc, out, &ended.replies)?;
    }
    if setting.is_sized {
        put_sizes(out, &ended.replies)?;
    }
    let are_alike = all_are_as(alloc, &ended.replies, &plain.replies)?;
    put(
        out,
        if are_alike {
            b"; as alone; "
        } else {
            b"; not as alone; "
        },
    )?;
    if setting.has_tally {
        put_all_counts(alloc, out, ended)?;
    } else {
        put_probes(alloc, out, &ended.tally)?;
    }
    Ok(())
}
