//! Bytes that need no allocation where they are few, as most names of a source are.

ghost use Rattle.std.specs.Prelude.{◌≡◌, ◌≤◌, length, IfOk, IsOk};

use std::alloc::{AllocError, Global};
use std::marker::Model;
use std::mem::size_of;

// The most bytes that lie in the value itself.
const ROOM: usize = 14;

/// Bytes, which contracts see as a list. The value takes 16 bytes, and up to 14 bytes lie in it; more are allocated.
#[derive(Drop)]
pub struct CompactBytes {
    stored: Stored,
}

// Where the bytes lie.
#[derive(Drop)]
enum Stored {
    /// How many bytes of the room count, and the room.
    Inline(u8, [u8; ROOM]),
    /// More bytes than there is room for.
    Boxed(Box<Vec<u8>>),
}

const _: () = prove!(size_of::<CompactBytes>() == 16);

impl Model for CompactBytes {
    ghost use Rattle.std.specs.Prelude.{List, ℕ};
    ghost use Rattle.plain_text.specs.Stored.{stored_bytes, IsStoredInPlace};

    ghost Value = { List ℕ };

    ghost view = { λ b. stored_bytes b.stored };

    ghost invariant = { λ b. IsStoredInPlace b.stored };
}

impl CompactBytes {
    /// A copy of these bytes.
    pub fn of(alloc: Global, bytes: &[u8]) -> Result<Self, AllocError>
        ensures value { IfOk result (λ copy. copy ≡ bytes.now) }
        // Up to 14 need no memory.
        ensures succeeds { length bytes.now ≤ 14 → IsOk result }
    {
        if bytes.len() > ROOM {
            let bytes = Box::new(alloc, bytes.to_vec(alloc)?)?;
            return Ok(CompactBytes {
                stored: Stored::Boxed(bytes),
            });
        }
        let mut room = [0; ROOM];
        room[..bytes.len()].copy_from_slice(bytes);
        Ok(CompactBytes {
            stored: Stored::Inline(bytes.len() as u8, room),
        })
    }

    /// The same bytes once more.
    pub fn copy(&self, alloc: Global) -> Result<Self, AllocError>
        ensures value { IfOk result (λ copy. copy ≡ self.now) }
        // Up to 14 need no memory.
        ensures succeeds { length self.now ≤ 14 → IsOk result }
    {
        match &self.stored {
            Stored::Inline(length, room) => Ok(CompactBytes {
                stored: Stored::Inline(*length, *room),
            }),
            Stored::Boxed(bytes) => CompactBytes::of(alloc, bytes),
        }
    }

    /// The bytes in order.
    pub fn items(&self) -> &[u8]
        ensures { result.now ≡ self.now }
    {
        match &self.stored {
            Stored::Inline(length, room) => &room[..usize::from(*length)],
            Stored::Boxed(bytes) => bytes,
        }
    }
}
