//! List types of bytes and of lines.

ghost use Rattle.std.specs.Prelude.{◌≡◌, IfOk};

use crate::memory::NoMemory;
use std::alloc::Global;
use std::marker::Model;

/// Bytes, which contracts see as a list.
#[derive(Drop)]
pub struct Bytes {
    items: Vec<u8>,
}

impl Model for Bytes {
    ghost use Rattle.std.specs.Prelude.{List, ℕ};

    ghost Value = { List ℕ };

    ghost view = { λ b. b.items.items };
}

impl Bytes {
    /// The bytes of a vector.
    pub fn of(items: Vec<u8>) -> Self
        ensures { result ≡ items.items }
    {
        Bytes { items }
    }

    /// A copy of bytes.
    pub fn copy_of(alloc: Global, bytes: &[u8]) -> Result<Self, NoMemory>
        ensures { IfOk result (λ copy. copy ≡ bytes.now) }
    {
        Ok(Bytes::of(Vec::from_slice(alloc, bytes)?))
    }

    /// The bytes in order.
    pub fn items(&self) -> &[u8]
        ensures { result.now ≡ self.now }
    {
        &self.items
    }
}

/// Lines of bytes, each without its newline, which contracts see as a list of lists.
#[derive(Drop)]
pub struct Lines {
    items: Vec<Bytes>,
}

impl Model for Lines {
    ghost use Rattle.std.specs.Prelude.{List, ℕ};

    ghost Value = { List (List ℕ) };

    ghost view = { λ l. l.items.items };
}

impl Lines {
    /// The lines of a vector.
    pub fn of(items: Vec<Bytes>) -> Self
        ensures { result ≡ items.items }
    {
        Lines { items }
    }

    /// A copy of lines.
    pub fn copy_of(alloc: Global, lines: &[Bytes]) -> Result<Self, NoMemory>
        ensures { IfOk result (λ copy. copy ≡ lines.now) }
    {
        let mut copy = Vec::new(alloc);
        for line in lines {
            copy.push(Bytes::copy_of(alloc, line.items())?)?;
        }
        Ok(Lines::of(copy))
    }

    /// The lines in order.
    pub fn items(&self) -> &[Bytes]
        ensures { result.now ≡ self.now }
    {
        &self.items
    }
}
