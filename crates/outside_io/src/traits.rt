//! What the program asks of its input and its output.

ghost use Rattle.std.specs.Prelude.{ℕ, ◌<◌, ◌≤◌, List, length, IfOk};
ghost use Rattle.std.specs.declared.option.Option.{Option};
ghost use Rattle.std.specs.Io.{ReadsAtMost};
ghost use Rattle.std.specs.Io.KnownBytes.{ReadConsumes, WriteAppends};
ghost use Rattle.outside_io.specs.Counts.{HasCause};

/// A call of a source or a sink failed, and moved no byte.
#[derive(Clone, Copy, PartialEq, Eq)]
pub struct Failed;

/// Bytes that come from outside, in order and in pieces.
pub trait Source {
    // The bytes that reads will give from here on, where the source tells them.
    ghost left: { Self → Option (List ℕ) };

    // How many faults there were; it never falls.
    ghost faults: { Self → ℕ };

    /// Moves the next bytes into the front of `into`, and says how many: at least one, and at most
    /// as many as `into` has. `Ok(0)` is the end of the input. `Failed` comes only where the count
    /// of faults rose, and then the bytes that are left stay as they were. At `Ok` the count stays.
    fn read(&mut self, into: &mut [u8]) -> Result<usize, Failed>
        requires { 0 < length into.old }
        ensures bound { ReadsAtMost result into.new }
        ensures bytes { ReadConsumes (left self.old) (left self.new) result into.new }
        ensures cause { HasCause (faults self.old) (faults self.new) result };
}

/// Bytes that go outside, in order and in pieces.
pub trait Sink {
    // The bytes that the sink holds, where it tells them.
    ghost held: { Self → Option (List ℕ) };

    // How many faults there were; it never falls.
    ghost faults: { Self → ℕ };

    /// Appends the first bytes of `from`, and says how many: at least one, and at most as many as
    /// `from` has. `Failed` comes only where the count of faults rose, and then nothing was
    /// appended. At `Ok` the count stays.
    fn write(&mut self, from: &[u8]) -> Result<usize, Failed>
        requires { 0 < length from.now }
        ensures bound { IfOk result (λ n. (0 < n) × (n ≤ length from.now)) }
        ensures bytes { WriteAppends (held self.old) (held self.new) result from.now }
        ensures cause { HasCause (faults self.old) (faults self.new) result };
}
