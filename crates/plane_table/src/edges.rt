//! Lists of plane numbers.

ghost use Rattle.std.specs.Prelude.{◌≡◌, ◌<◌, ◌++◌, [], ◌∷◌, length, slice_index, IfOk, OnOk};

use plain_text::NoMemory;
use smallvec::SmallVec;
use std::alloc::Global;
use std::marker::Model;

/// How many numbers stand in the value itself.
pub const FEW: usize = 6;

/// A list of plane numbers, which contracts see as a list. Up to six stand in the value itself, more
/// on the heap.
#[derive(Drop)]
pub struct Edges {
    numbers: SmallVec<u32, FEW>,
}

impl Model for Edges {
    ghost use Rattle.std.specs.Prelude.{List, ℕ};

    ghost Value = { List ℕ };

    ghost view = { λ e. e.numbers.items };
}

impl Edges {
    /// No numbers.
    pub fn new(alloc: Global) -> Edges
        ensures { result ≡ [] }
    {
        Edges {
            numbers: SmallVec::new(alloc),
        }
    }

    /// These numbers.
    pub fn of(items: Vec<u32>) -> Edges
        ensures { result ≡ items.items }
    {
        Edges {
            numbers: SmallVec::from_vec(items),
        }
    }

    /// Numbers that stand in the value already, where they are few.
    pub(crate) fn of_numbers(numbers: SmallVec<u32, FEW>) -> Edges
        ensures { result ≡ numbers.items }
    {
        Edges { numbers }
    }

    /// A copy of numbers.
    pub fn copy_of(alloc: Global, numbers: &[u32]) -> Result<Edges, NoMemory>
        ensures { IfOk result (λ e. e ≡ numbers.now) }
    {
        Ok(Edges {
            numbers: SmallVec::from_slice(alloc, numbers)?,
        })
    }

    /// Equal numbers.
    pub fn copy(&self, alloc: Global) -> Result<Edges, NoMemory>
        ensures { IfOk result (λ e. e ≡ self.now) }
    {
        Edges::copy_of(alloc, self.items())
    }

    /// Adds a number at the end.
    pub fn push(&mut self, number: u32) -> Result<(), NoMemory>
        ensures { OnOk result (self.new ≡ self.old ++ number ∷ []) }
    {
        self.numbers.push(number)?;
        Ok(())
    }

    /// How many numbers there are.
    pub fn len(&self) -> usize
        ensures { result ≡ length self.now }
    {
        self.numbers.len()
    }

    /// Number `i`.
    pub fn at(&self, i: usize) -> u32
        requires { i < length self.now }
        ensures { result ≡ slice_index self.now i }
    {
        self.items()[i]
    }

    /// The numbers in order.
    pub fn items(&self) -> &[u32]
        ensures { result.now ≡ self.now }
    {
        self.numbers.as_slice()
    }
}
