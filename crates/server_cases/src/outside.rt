//! The outside of a call, and the call.

ghost use Rattle.std.specs.Prelude.{◌<◌};

use case_lines::CaseStop;
use outside_io::{MemorySink, MemorySource, ReadSource, WriteSink};
use script_server::{Status, serve, serve_streams};
use std::alloc::Global;
use std::process::ExitCode;
use std::sync::Wait;
use std::thread::Threads;

/// Which calls fail, 0 being none, how many bytes a call moves, and how many the output may have.
#[derive(Clone, Copy)]
pub struct Outside {
    pub read: u64,
    pub write: u64,
    pub piece: u32,
    pub room: usize,
}

/// No call fails.
pub const CALM: Outside = Outside {
    read: 0,
    write: 0,
    piece: 4096,
    room: 1 << 22,
};

/// How a call ended, and what it wrote.
#[derive(Drop)]
pub struct Served {
    pub status: Status,
    pub output: Vec<u8>,
}

/// The words of a command line.
#[derive(Drop)]
pub struct Asked {
    pub words: Vec<String>,
    pub script: Vec<u8>,
}

/// Serves a script in memory.
pub fn serve_in<R: Threads + Wait + Sync>(
    rt: &R,
    alloc: Global,
    asked: &Asked,
    outside: Outside,
) -> Result<Served, CaseStop> {
    if outside.piece == 0 {
        return Err(CaseStop::Unread);
    }
    let bytes = asked.script.to_vec(alloc)?;
    let source_plan = vec![in alloc; outside.read]?;
    let sink_plan = vec![in alloc; outside.write]?;
    let mut source = MemorySource::new(bytes, source_plan, outside.piece);
    let mut sink = MemorySink::new(alloc, outside.room, sink_plan, outside.piece)?;
    let status = serve(rt, alloc, &asked.words, &mut source, &mut sink);
    Ok(Served {
        status,
        output: sink.held().to_vec(alloc)?,
    })
}

/// What the program wrote to a writer of std, and the status with which it would end.
#[derive(Drop)]
pub struct Streamed {
    pub code: ExitCode,
    pub output: Vec<u8>,
}

/// Serves words over a reader and a writer of std in memory, as the program does over standard input and standard output.
pub fn serve_over<R: Threads + Wait + Sync>(
    rt: &R,
    alloc: Global,
    asked: Asked,
) -> Result<Streamed, CaseStop> {
    let Asked { words, script } = asked;
    let mut output = Vec::new(alloc);
    let mut source = ReadSource::new(script.as_slice());
    let mut sink = WriteSink::new(&mut output);
    let code = serve_streams(rt, alloc, Ok(words), &mut source, &mut sink);
    Ok(Streamed { code, output })
}
