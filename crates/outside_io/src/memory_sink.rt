//! A sink in memory, for tests: it takes bytes in pieces and fails at chosen calls.

ghost use Rattle.std.specs.Prelude.{◌≡◌, ◌<◌, ◌≤◌, ◌↔◌, [], ◌++◌, length, take, Some, IsErr, IfOk, OnErr};
ghost use Rattle.std.specs.Io.KnownBytes.{WriteAppends};
ghost use Rattle.outside_io.specs.Counts.{next_count, HasCause};
ghost use Rattle.outside_io.specs.MemoryOutput.{IsRefusing, write_count};

use crate::call_plan::CallPlan;
use crate::traits::{Failed, Sink};
use plain_text::NoMemory;
use std::alloc::Global;
use std::marker::Model;

/// A sink that holds bytes in memory, up to a given room, which takes them in pieces and fails at
/// calls that were named.
#[derive(Drop)]
pub struct MemorySink {
    held: Vec<u8>,
    room: usize,
    piece: u32,
    plan: CallPlan,
}

impl Model for MemorySink {
    ghost use Rattle.std.specs.Prelude.{◌<◌, ◌≤◌, vec_len, vec_capacity};
    ghost use Rattle.outside_io.specs.MemoryOutput.{MemoryOutput};

    ghost Value = { MemoryOutput };

    ghost view = { λ s. record {
      held = s.held.items;
      failing = s.plan.failing.items;
      piece = s.piece;
      room = s.room;
      calls = s.plan.calls;
      faults = s.plan.faults;
    } };

    ghost invariant = { λ s. record {
      has_piece : 0 < s.piece;
      fits : vec_len s.held ≤ s.room;
      has_memory : s.room ≤ vec_capacity s.held;
    } };
}

impl MemorySink {
    /// A sink that holds at most `room` bytes, and takes at most `piece` of them at a call. Call
    /// number `k`, counted from 1 up to 2^64 - 1, fails where `k` is in `failing`, and each call
    /// fails once `room` bytes are held. No byte is held and no fault is counted yet.
    ///
    /// Takes the memory for `room` bytes here, and none later.
    pub fn new(alloc: Global, room: usize, failing: Vec<u64>, piece: u32) -> Result<Self, NoMemory>
        requires { 0 < piece }
        ensures { IfOk result
            (λ sink. sink ≡ record {
              held = [];
              failing = failing.items;
              piece = piece;
              room = room;
              calls = 0;
              faults = 0;
            }) }
    {
        Ok(MemorySink {
            held: Vec::with_capacity(alloc, room)?,
            room,
            piece,
            plan: CallPlan::new(failing),
        })
    }

    /// The bytes held, in the order in which they were written.
    pub fn held(&self) -> &[u8]
        ensures held { result.now ≡ self.now.held }
        ensures fits { length result.now ≤ self.now.room }
    {
        &self.held
    }
}

impl Sink for MemorySink {
    ghost use Rattle.std.specs.Prelude.{Some};

    ghost held = { λ s. Some s.held };

    ghost faults = { λ s. s.faults };

    /// Takes as many bytes as a piece, `from` and the room that is left allow.
    fn write(&mut self, from: &[u8]) -> Result<usize, Failed>
        requires { 0 < length from.now }
        ensures bound { IfOk result (λ n. (0 < n) × (n ≤ length from.now)) }
        ensures bytes { WriteAppends (Some self.old.held) (Some self.new.held) result from.now }
        ensures cause { HasCause self.old.faults self.new.faults result }

        // It fails exactly where the call's number is one that is to fail, or the room is full.
        ensures fails { IsErr result ↔ IsRefusing self.old }

        // How many bytes it takes, and what it holds then.
        ensures count { IfOk result (λ n. n ≡ write_count self.old (length from.now)) }
        ensures ok { IfOk result
            (λ n. self.new
            ≡ record self.old {
              held = self.old.held ++ take n from.now;
              calls = next_count self.old.calls;
            }) }

        // A failure only counts the call and the fault.
        ensures err { OnErr result
            (self.new
            ≡ record self.old {
              calls = next_count self.old.calls;
              faults = next_count self.old.faults;
            }) }
    {
        let is_named = self.plan.begin_call();
        let room_left = self.room - self.held.len();
        if is_named || room_left == 0 {
            self.plan.count_fault();
            return Err(Failed);
        }
        let count = from.len().min(room_left).min(self.piece as usize);
        self.held.extend_from_slice(&from[..count]).unwrap();
        Ok(count)
    }
}
