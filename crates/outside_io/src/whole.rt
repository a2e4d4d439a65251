//! Reads a source to its end within a bound, and writes all of a list of bytes.

ghost use Rattle.std.specs.Prelude.{◌≡◌, ◌≤◌, ◌⊎◌, length, IfOk, IfErr, OnOk, OnErr, IsErrOf};
ghost use Rattle.std.specs.Io.KnownBytes.{Appends, Consumes, IsAtEnd};
ghost use Rattle.outside_io.specs.Counts.{HasCause};
ghost use Rattle.outside_io.specs.Moves.{EndsEarly, AppendsProperPrefix};

use crate::traits::{Failed, Sink, Source};
use std::alloc::Global;

/// How many bytes `read_to_end` asks a source for at once.
pub const PIECE_BYTES: usize = 4096;

/// Why `read_to_end` gives no bytes. What was read from the source until then stays read.
#[derive(Clone, Copy, Debug)]
pub enum ReadEnd {
    /// A read failed.
    Failed,
    /// More bytes came than were allowed.
    TooLarge,
    /// Memory ran out.
    NoMemory,
}

/// All bytes of a source up to its end, at most `most` of them.
///
/// `Failed` comes at the first read that fails. `TooLarge` comes where more than `most` bytes were
/// read, as soon as they were: at most `PIECE_BYTES` past `most`, and nothing is read after that.
/// At both of the other errors at most `most` bytes were read.
pub fn read_to_end<S: Source>(
    alloc: Global,
    source: &mut S,
    most: usize,
) -> Result<Vec<u8>, ReadEnd>
    ensures all { IfOk result (λ bytes. Consumes (S.left source.old)
        (S.left source.new) bytes.items) }
    ensures end { OnOk result (IsAtEnd (S.left source.new)) }
    ensures fits { IfOk result (λ bytes. length bytes.items ≤ most) }

    // Why it gives none, and what was read until then.
    ensures early { IfErr result (EndsEarly (S.left source.old) (S.left source.new)
        (S.faults source.old) (S.faults source.new) most PIECE_BYTES) }

    // The count of faults rises at a failed read alone.
    ensures later { S.faults source.old ≤ S.faults source.new }
    ensures quiet { IsErrOf result ReadEnd.Failed ⊎ (S.faults source.new ≡ S.faults source.old) }
{
    let mut bytes = Vec::new(alloc);
    let mut piece = [0u8; PIECE_BYTES];
    'pieces: loop {
        match source.read(&mut piece) {
            Ok(0) => return Ok(bytes),
            Ok(count) => {
                if count > most - bytes.len() {
                    return Err(ReadEnd::TooLarge);
                }
                if bytes.extend_from_slice(&piece[..count]).is_err() {
                    return Err(ReadEnd::NoMemory);
                }
            }
            Err(_) => return Err(ReadEnd::Failed),
        }
    }
}

/// Writes all of `bytes` into a sink, in as many calls as it takes.
///
/// `Failed` comes at the first write that fails: the sink holds a proper prefix of `bytes` then,
/// maybe none of them.
pub fn write_all<K: Sink>(sink: &mut K, bytes: &[u8]) -> Result<(), Failed>
    ensures ok { OnOk result (Appends (K.held sink.old) (K.held sink.new) bytes.now) }
    ensures err { OnErr result (AppendsProperPrefix (K.held sink.old) (K.held sink.new) bytes.now) }
    ensures cause { HasCause (K.faults sink.old) (K.faults sink.new) result }
{
    let mut done = 0;
    while done < bytes.len() {
        match sink.write(&bytes[done..]) {
            Ok(count) => done += count,
            Err(_) => return Err(Failed),
        }
    }
    Ok(())
}
