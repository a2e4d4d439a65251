//! Readers and writers of std as sources and sinks.

ghost use Rattle.std.specs.Prelude.{◌≡◌, ◌<◌, ◌≤◌, length, IfOk, OnOk, OnErr};
ghost use Rattle.std.specs.Io.{ReadsAtMost};
ghost use Rattle.std.specs.Io.KnownBytes.{ReadConsumes, WriteAppends};
ghost use Rattle.outside_io.specs.Counts.{next_count, HasCause};

use crate::traits::{Failed, Sink, Source};
use std::io::{Read, Write};
use std::marker::Model;

/// A reader of std as a source. It tells the bytes that its reader tells: those in memory tell theirs,
/// and standard input tells none.
#[derive(Drop)]
pub struct ReadSource<R: Read> {
    reader: R,
    faults: u64,
}

impl<R: Read> Model for ReadSource<R> {
    ghost use Rattle.outside_io.specs.Adapted.{AdaptedReader};

    ghost Value = { AdaptedReader R };

    ghost view = { λ s. record { reader = s.reader; faults = s.faults } };
}

impl<R: Read> ReadSource<R> {
    /// A source over a reader, with no fault yet.
    pub fn new(reader: R) -> Self
        ensures { result ≡ record { reader = reader; faults = 0 } }
    {
        ReadSource { reader, faults: 0 }
    }
}

impl<R: Read> Source for ReadSource<R> {
    ghost left = { λ s. R.remaining s.reader };

    ghost faults = { λ s. s.faults };

    /// Reads once. Each error of the reader is a fault, counted up to 2^64 - 1.
    fn read(&mut self, into: &mut [u8]) -> Result<usize, Failed>
        requires { 0 < length into.old }
        ensures bound { ReadsAtMost result into.new }
        ensures bytes { ReadConsumes (R.remaining self.old.reader) (R.remaining self.new.reader)
            result into.new }

        // Failures, and they alone, are counted.
        ensures cause { HasCause self.old.faults self.new.faults result }
        ensures ok { OnOk result (self.new.faults ≡ self.old.faults) }
        ensures err { OnErr result (self.new.faults ≡ next_count self.old.faults) }
    {
        match self.reader.read(into) {
            Ok(count) => Ok(count),
            Err(_) => {
                self.faults = self.faults.saturating_add(1);
                Err(Failed)
            }
        }
    }
}

/// A writer of std as a sink. It tells the bytes that its writer tells: those in memory tell theirs,
/// and standard output tells none.
#[derive(Drop)]
pub struct WriteSink<W: Write> {
    writer: W,
    faults: u64,
}

impl<W: Write> Model for WriteSink<W> {
    ghost use Rattle.outside_io.specs.Adapted.{AdaptedWriter};

    ghost Value = { AdaptedWriter W };

    ghost view = { λ s. record { writer = s.writer; faults = s.faults } };
}

impl<W: Write> WriteSink<W> {
    /// A sink over a writer, with no fault yet.
    pub fn new(writer: W) -> Self
        ensures { result ≡ record { writer = writer; faults = 0 } }
    {
        WriteSink { writer, faults: 0 }
    }
}

impl<W: Write> Sink for WriteSink<W> {
    ghost held = { λ s. W.contents s.writer };

    ghost faults = { λ s. s.faults };

    /// Writes once. Each error of the writer and each write of no byte is a fault, counted up to
    /// 2^64 - 1.
    fn write(&mut self, from: &[u8]) -> Result<usize, Failed>
        requires { 0 < length from.now }
        ensures bound { IfOk result (λ n. (0 < n) × (n ≤ length from.now)) }
        ensures bytes { WriteAppends (W.contents self.old.writer) (W.contents self.new.writer)
            result from.now }

        // Failures, and they alone, are counted.
        ensures cause { HasCause self.old.faults self.new.faults result }
        ensures ok { OnOk result (self.new.faults ≡ self.old.faults) }
        ensures err { OnErr result (self.new.faults ≡ next_count self.old.faults) }
    {
        match self.writer.write(from) {
            Ok(0) | Err(_) => {
                self.faults = self.faults.saturating_add(1);
                Err(Failed)
            }
            Ok(count) => Ok(count),
        }
    }
}
