//! A source in memory, for tests: it gives bytes in pieces and fails at chosen calls.

ghost use Rattle.std.specs.Prelude.{◌≡◌, ◌<◌, ◌≤◌, ◌↔◌, ◌++◌, length, min, take, drop, Some, IsErr, IfOk, OnErr};
ghost use Rattle.std.specs.Io.{ReadsAtMost};
ghost use Rattle.std.specs.Io.KnownBytes.{ReadConsumes};
ghost use Rattle.outside_io.specs.Counts.{HasCause, IsNextFailing};
ghost use Rattle.outside_io.specs.MemoryInput.{CountsFault, GivesBytes};

use crate::call_plan::CallPlan;
use crate::traits::{Failed, Source};
use std::marker::Model;

/// A source over bytes in memory, which gives them in pieces and fails at calls that were named.
#[derive(Drop)]
pub struct MemorySource {
    bytes: Vec<u8>,
    position: usize,
    piece: u32,
    plan: CallPlan,
}

impl Model for MemorySource {
    ghost use Rattle.std.specs.Prelude.{◌<◌, ◌≤◌, drop, vec_len};
    ghost use Rattle.outside_io.specs.MemoryInput.{MemoryInput};

    ghost Value = { MemoryInput };

    ghost view = { λ s. record {
      left = drop s.position s.bytes.items;
      failing = s.plan.failing.items;
      piece = s.piece;
      calls = s.plan.calls;
      faults = s.plan.faults;
    } };

    ghost invariant = { λ s. (0 < s.piece) × (s.position ≤ vec_len s.bytes) };
}

impl MemorySource {
    /// A source that gives `bytes`, at most `piece` of them at a call. Call number `k`, counted
    /// from 1 up to 2^64 - 1, fails exactly where `k` is in `failing`. No fault is counted yet.
    pub fn new(bytes: Vec<u8>, failing: Vec<u64>, piece: u32) -> Self
        requires { 0 < piece }
        ensures { result ≡ record {
          left = bytes.items;
          failing = failing.items;
          piece = piece;
          calls = 0;
          faults = 0;
        } }
    {
        MemorySource {
            bytes,
            position: 0,
            piece,
            plan: CallPlan::new(failing),
        }
    }
}

impl Source for MemorySource {
    ghost use Rattle.std.specs.Prelude.{Some};

    ghost left = { λ s. Some s.left };

    ghost faults = { λ s. s.faults };

    /// Gives as many bytes as a piece, `into` and what is left allow.
    fn read(&mut self, into: &mut [u8]) -> Result<usize, Failed>
        requires { 0 < length into.old }
        ensures bound { ReadsAtMost result into.new }
        ensures bytes { ReadConsumes (Some self.old.left) (Some self.new.left) result into.new }
        ensures cause { HasCause self.old.faults self.new.faults result }

        // It fails exactly where the call's number is one that is to fail.
        ensures fails { IsErr result ↔ IsNextFailing self.old.failing self.old.calls }

        // How many bytes it gives, where they stand in `into`, and what is left.
        ensures ok { IfOk result (GivesBytes self.old self.new into.old into.new) }

        // A failure only counts the call and the fault.
        ensures err { OnErr result (CountsFault self.old self.new into.old into.new) }
    {
        if self.plan.begin_call() {
            self.plan.count_fault();
            return Err(Failed);
        }
        let count = copy_from(&self.bytes, self.position, into, self.piece);
        self.position += count;
        Ok(count)
    }
}

// Copies the bytes from `position` on into the front of `into`: at most `piece`, and as many as both have.
fn copy_from(bytes: &[u8], position: usize, into: &mut [u8], piece: u32) -> usize
    requires { position ≤ length bytes.now }
    ensures count { result ≡ min piece (min (length into.old) (length (drop position bytes.now))) }
    ensures copied { into.new ≡ take result (drop position bytes.now) ++ drop result into.old }
{
    let from = &bytes[position..];
    let count = into.len().min(from.len()).min(piece as usize);
    into[..count].copy_from_slice(&from[..count]);
    count
}
