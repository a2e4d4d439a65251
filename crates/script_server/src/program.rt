//! The program: its words, standard input and standard output, handed to the server.

ghost use Rattle.std.specs.Prelude.{◌≡◌, map, string_bytes, IfOk, IfErr};
ghost use Rattle.std.specs.Process.{exit_status};
ghost use Rattle.script_service.specs.Streams.{stream_change, stream_changes};
ghost use Rattle.script_service.specs.declared.status.Status.TheVariants as Status;
ghost use Rattle.script_service.specs.Outcomes.{HasStatusCause, RefusesWords};
ghost use Rattle.script_server.specs.Serving.{StatusTells, HaveStatusCauses, ReadsAsAsked, ExitTells, ExitRefuses};

use crate::server::serve;
use outside_io::{ReadSource, Sink, Source, WriteSink};
use run_words::WordsFault;
use script_service::{Status, refuse_words};
use std::alloc::Global;
use std::io::{ErrorKind, Read, Write};
use std::process::ExitCode;
use std::sync::Wait;
use std::thread::Threads;
use std::{env, io};

// The words behind the program's name.
fn words(rt: &HostRuntime) -> io::Result<Vec<String>> {
    env::args(rt)?
        .skip(1)
        .collect(rt.alloc())
        .map_err(io::Error::from)
}

// The same, or why there are none to be read: words that are no UTF-8 are outside the grammar.
fn words_or_fault(rt: &HostRuntime) -> Result<Vec<String>, WordsFault> {
    match words(rt) {
        Ok(words) => Ok(words),
        Err(fault) if fault.kind() == ErrorKind::InvalidData => Err(WordsFault::BadWords),
        Err(_) => Err(WordsFault::NoMemory),
    }
}

// Serves words, or tells why there are none.
fn serve_words<S: Source, K: Sink, R: Threads + Wait + Sync>(
    rt: &R,
    alloc: Global,
    words: Result<Vec<String>, WordsFault>,
    source: &mut S,
    sink: &mut K,
) -> Status
    ensures told { IfOk words (λ words. StatusTells (map string_bytes words.items)
        (stream_changes S.left S.faults K.held K.faults source.old source.new sink.old sink.new)
        result) }
    ensures causes { IfOk words (λ words. HaveStatusCauses
        (stream_changes S.left S.faults K.held K.faults source.old source.new sink.old sink.new)
        result) }
    ensures reads { IfOk words (λ words. ReadsAsAsked (map string_bytes words.items)
        (stream_change S.left S.faults source.old source.new)) }
    ensures refused { IfErr words (λ fault.
        RefusesWords fault (stream_change K.held K.faults sink.old sink.new) result) }
    ensures cause { IfErr words (λ fault. HasStatusCause Status.WriteFault (K.faults sink.old)
        (K.faults sink.new) result) }
    ensures unread { IfErr words (λ fault. source.new ≡ source.old) }
{
    match words {
        Ok(words) => serve(rt, alloc, words.as_slice(), source, sink),
        Err(fault) => refuse_words(fault, sink),
    }
}

/// All that the program does with its words, its source and its sink: it serves the words, or tells why there are none, and
/// ends with the number of what came of that.
pub fn serve_to_exit<S: Source, K: Sink, R: Threads + Wait + Sync>(
    rt: &R,
    alloc: Global,
    words: Result<Vec<String>, WordsFault>,
    source: &mut S,
    sink: &mut K,
) -> ExitCode
    ensures told { IfOk words (λ words. ExitTells (map string_bytes words.items)
        (stream_changes S.left S.faults K.held K.faults source.old source.new sink.old sink.new)
        (exit_status result)) }
    ensures reads { IfOk words (λ words. ReadsAsAsked (map string_bytes words.items)
        (stream_change S.left S.faults source.old source.new)) }
    ensures refused { IfErr words (λ fault.
        ExitRefuses fault (stream_change K.held K.faults sink.old sink.new) (exit_status result)) }
    ensures unread { IfErr words (λ fault. source.new ≡ source.old) }
{
    let status = serve_words(rt, alloc, words, source, sink);
    ExitCode::from(status.number())
}

/// The same for any reader and any writer of std: what it tells is of the bytes that these tell.
pub fn serve_streams<I: Read, O: Write, R: Threads + Wait + Sync>(
    rt: &R,
    alloc: Global,
    words: Result<Vec<String>, WordsFault>,
    source: &mut ReadSource<I>,
    sink: &mut WriteSink<O>,
) -> ExitCode
    ensures told { IfOk words (λ words. ExitTells (map string_bytes words.items)
        (stream_changes (λ s. I.remaining s.reader) (λ s. s.faults) (λ s. O.contents s.writer)
        (λ s. s.faults) source.old source.new sink.old sink.new)
        (exit_status result)) }
    ensures reads { IfOk words (λ words. ReadsAsAsked (map string_bytes words.items)
        (stream_change (λ s. I.remaining s.reader) (λ s. s.faults) source.old source.new)) }
    ensures refused { IfErr words (λ fault. ExitRefuses fault
        (stream_change (λ s. O.contents s.writer) (λ s. s.faults) sink.old sink.new)
        (exit_status result)) }
    ensures unread { IfErr words (λ fault. source.new ≡ source.old) }
{
    serve_to_exit(rt, alloc, words, source, sink)
}

/// Hands the program's words, standard input and standard output to `serve_streams`, and nothing else.
pub fn run_program<R: Threads + Wait + Sync>(threads: &R, rt: &HostRuntime) -> ExitCode {
    let words = words_or_fault(rt);
    let mut source = ReadSource::new(rt.stdin());
    let mut sink = WriteSink::new(rt.stdout());
    serve_streams(threads, rt.alloc(), words, &mut source, &mut sink)
}
