//! Writes what came of a call: the usage line, why there is no script, or the replies to its clients.

ghost use Rattle.std.specs.Prelude.{◌≡◌, ◌≤◌, ◌⊎◌, ◌++◌, ℕ, List, length, All};
ghost use Rattle.script_reader.specs.FaultLines.{script_fault_line};
ghost use Rattle.reply_text.specs.Texts.{output};
ghost use Rattle.script_service.specs.Endings.{ending};
ghost use Rattle.script_service.specs.Demos.{demo_text};
ghost use Rattle.script_service.specs.Streams.{stream_change};
ghost use Rattle.script_service.specs.Serving.{PrintsWeights, printed_text};
ghost use Rattle.script_service.specs.Outcomes.{Writes, WritesTextOrNothing, AppendsPart, PrintsReplies, HasStatusCause, RefusesWords, RefusesInput};

use crate::demo::demo_lines;
use crate::ending::ending_lines;
use crate::input::InputEnd;
use crate::status::Status;
use crate::{OutputEnd, write_output};
use outside_io::{Sink, write_all};
use reply_text::Replies;
use run_words::{Settings, WordsFault};
use script_reader::{ClientScript, ScriptFault, write_fault};
use std::alloc::Global;
use subtree_memo::Tally;

// How the program is called.
const USAGE: &[u8] =
    b"usage: scadserve run [--workers N] [--memo W] [--share S] [--half] [--tally] | demo N\n";

// Writes all of a text, and ends with the status unless the sink fails.
fn finish<K: Sink>(sink: &mut K, text: &[u8], status: Status) -> Status
    ensures writes { Writes status (stream_change K.held K.faults sink.old sink.new) text.now
        result }
    ensures cause { HasStatusCause Status.WriteFault (K.faults sink.old)
        (K.faults sink.new) result }
{
    match write_all(sink, text) {
        Ok(()) => status,
        Err(_) => Status::WriteFault,
    }
}

// Writes the line of a script's fault.
fn write_script_fault<K: Sink>(alloc: Global, fault: ScriptFault, sink: &mut K) -> Status
    ensures ends { WritesTextOrNothing Status.BadScript
        (stream_change K.held K.faults sink.old sink.new)
        (script_fault_line fault) result }
    ensures cause { HasStatusCause Status.WriteFault (K.faults sink.old)
        (K.faults sink.new) result }
{
    match write_fault(alloc, fault) {
        Ok(line) => finish(sink, line.as_slice(), Status::BadScript),
        Err(_) => Status::NoMemory,
    }
}

/// Tells why words choose no settings: the usage line, which takes no memory, and nothing where memory ran out at the words.
pub fn refuse_words<K: Sink>(fault: WordsFault, sink: &mut K) -> Status
    ensures told { RefusesWords fault (stream_change K.held K.faults sink.old sink.new) result }
    ensures cause { HasStatusCause Status.WriteFault (K.faults sink.old)
        (K.faults sink.new) result }
{
    match fault {
        WordsFault::BadWords => finish(sink, USAGE, Status::BadWords),
        WordsFault::NoMemory => Status::NoMemory,
    }
}

/// Tells why there is no script to serve: the line of its fault, and nothing where the source failed or memory ran out.
pub fn refuse_input<K: Sink>(alloc: Global, end: InputEnd, sink: &mut K) -> Status
    ensures told { RefusesInput end (stream_change K.held K.faults sink.old sink.new) result }
    ensures cause { HasStatusCause Status.WriteFault (K.faults sink.old)
        (K.faults sink.new) result }
{
    match end {
        InputEnd::BadScript(fault) => write_script_fault(alloc, fault, sink),
        InputEnd::Failed => Status::ReadFault,
        InputEnd::NoMemory => Status::NoMemory,
    }
}

// Writes the replies of a run, and an ending behind them.
fn write_replies<K: Sink>(
    alloc: Global,
    clients: &[ClientScript],
    replies: &[Replies],
    ending: &[u8],
    sink: &mut K,
) -> Status
    requires { All (λ rs. length rs ≤ 8192) replies.now }
    ensures told { WritesTextOrNothing Status.Done (stream_change K.held K.faults sink.old sink.new)
        (output clients.now replies.now ++ ending.now) result
        ⊎ ((result ≡ Status.NoMemory) × AppendsPart (K.held sink.old) (K.held sink.new)
        (output clients.now replies.now ++ ending.now)) }
    ensures cause { HasStatusCause Status.WriteFault (K.faults sink.old)
        (K.faults sink.new) result }
{
    match write_output(alloc, sink, clients, replies, ending) {
        Ok(()) => Status::Done,
        Err(OutputEnd::Failed) => Status::WriteFault,
        Err(OutputEnd::NoMemory) => Status::NoMemory,
    }
}

// Writes what is printed for replies, a tally and weights.
fn write_printed<K: Sink>(
    alloc: Global,
    settings: Settings,
    clients: &[ClientScript],
    replies: &[Replies],
    counts: Tally,
    owned: &[u64],
    sink: &mut K,
) -> Status
    requires { All (λ rs. length rs ≤ 8192) replies.now }
    ensures told { PrintsReplies settings (stream_change K.held K.faults sink.old sink.new)
        (printed_text settings clients.now replies.now counts owned.now) result }
    ensures cause { HasStatusCause Status.WriteFault (K.faults sink.old)
        (K.faults sink.new) result }
{
    match settings {
        Settings::Run { tally, share, .. } => {
            let Ok(ending) = ending_lines(alloc, tally, share, clients, counts, owned) else {
                return Status::NoMemory;
            };
            write_replies(alloc, clients, replies, ending.as_slice(), sink)
        }
        Settings::Demo(_) => {
            let Ok(lines) = demo_lines(alloc, clients, replies) else {
                return Status::NoMemory;
            };
            finish(sink, lines.as_slice(), Status::Done)
        }
    }
}

/// Writes what is to be written for the clients of a script that are given these replies, over a memo with this tally and
/// these weights of each client's entries: their replies and the ending, or the lines of the demonstration. The weights are
/// asked for only where they are printed.
pub fn write_outcome<K: Sink>(
    alloc: Global,
    settings: Settings,
    clients: &[ClientScript],
    replies: &[Replies],
    counts: Tally,
    owned: &[u64],
    sink: &mut K,
) -> Status
    requires { All (λ rs. length rs ≤ 8192) replies.now }
    ensures told { (weights : List ℕ) → (PrintsWeights settings → owned.now ≡ weights) →
        PrintsReplies settings (stream_change K.held K.faults sink.old sink.new)
        (printed_text settings clients.now replies.now counts weights) result }
    ensures cause { HasStatusCause Status.WriteFault (K.faults sink.old)
        (K.faults sink.new) result }
{
    write_printed(alloc, settings, clients, replies, counts, owned, sink)
}
