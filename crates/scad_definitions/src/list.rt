//! A list of names whose newest of a name is found without a search through all.

ghost use Rattle.std.specs.Prelude.{◌≡◌, ◌≤◌, ℕ, List, length, take, reverse};
ghost use Rattle.scad_definitions.specs.Newest.{place_of_newest, hidden_places};
ghost use Rattle.scad_definitions.specs.View.{pairs_in};
ghost use Rattle.scad_definitions.specs.Index.{place_of_name};

use crate::index::{place_in, put, put_back};
use std::alloc::Global;
use std::collections::BTreeMap;
use text_place::{Bytes, NoMemory};

// How many of the newest names are searched one after another. The others are found by an index, which few names
// don't need.
const RECENT: usize = 8;

/// A name with what it stands for.
#[derive(Drop)]
pub(crate) struct Named<T> {
    pub(crate) name: Bytes,
    pub(crate) item: T,
}

/// Names with what each stands for, the newest last. The newest of a name is found in the logarithm of their number.
#[derive(Drop)]
pub struct NameList<T> {
    pub(crate) items: Vec<Named<T>>,
    /// For each of the oldest names, up to the given number, the place of an older one that it hides.
    hidden: Vec<Option<usize>>,
    /// By name the place of the newest of these.
    index: BTreeMap<Vec<u8>, usize>,
    ghost covered: { length hidden.items ≤ length items.items },
    ghost hides: { reverse hidden.items
        ≡ hidden_places (pairs_in (take (length hidden.items) items.items)) },
    ghost indexed: { (name : List ℕ) → place_of_name index name
        ≡ place_of_newest (pairs_in (take (length hidden.items) items.items)) name },
}

impl<T> NameList<T> {
    ghost use Rattle.std.specs.Prelude.{◌∷◌, [], ◌<◌, ◌+◌, OnOk, OnErr, option_copied};
    ghost use Rattle.scad_definitions.specs.Newest.{find_in, oldest_pairs};
    ghost use Rattle.scad_definitions.specs.Names.{newest_first};

    /// No names.
    pub fn new(alloc: Global) -> NameList<T>
        ensures { newest_first result ≡ [] }
    {
        NameList {
            items: Vec::new(alloc),
            hidden: Vec::new(alloc),
            index: BTreeMap::new(alloc),
        }
    }

    /// How many names there are.
    pub fn len(&self) -> usize
        ensures { result ≡ length (newest_first self.now) }
    {
        self.items.len()
    }

    /// One name more, which is the newest. `NoMemory` leaves them as they were.
    pub fn push(&mut self, alloc: Global, name: Bytes, item: T) -> Result<(), NoMemory>
    where
        T: Drop,
        ensures pushed { OnOk result (newest_first self.new
            ≡ (name, item) ∷ newest_first self.old) }
        ensures unchanged { OnErr result (newest_first self.new ≡ newest_first self.old) }
    {
        if self.items.len() - self.hidden.len() >= RECENT {
            self.cover_one(alloc)?;
        }
        self.items.push(Named { name, item })?;
        Ok(())
    }

    // The index covers one name more.
    fn cover_one(&mut self, alloc: Global) -> Result<(), NoMemory>
        requires { length self.old.hidden.items < length self.old.items.items }
        ensures { self.new.items.items ≡ self.old.items.items }
    {
        let place = self.hidden.len();
        let name = self.items[place].name.items();
        self.hidden.push(place_in(&self.index, name))?;
        match put(&mut self.index, alloc, name, place) {
            Ok(()) => Ok(()),
            Err(NoMemory) => {
                self.hidden.pop();
                Err(NoMemory)
            }
        }
    }

    // The index covers one name less.
    fn uncover_one(&mut self)
        requires { 0 < length self.old.hidden.items }
        ensures items { self.new.items.items ≡ self.old.items.items }
        ensures fewer { length self.new.hidden.items + 1 ≡ length self.old.hidden.items }
    {
        if let Some(before) = self.hidden.pop() {
            let name = self.items[self.hidden.len()].name.items();
            put_back(&mut self.index, name, before);
        }
    }

    /// Cuts the names to the given number of the oldest ones.
    pub fn truncate(&mut self, to: usize)
    where
        T: Drop,
        requires { to ≤ length (newest_first self.old) }
        ensures { newest_first self.new ≡ oldest_pairs to (newest_first self.old) }
    {
        'back: while self.hidden.len() > to {
            self.uncover_one();
        }
        self.items.truncate(to);
    }

    /// What the newest of a name stands for.
    pub fn find(&self, name: &[u8]) -> Option<&T>
        ensures { option_copied result ≡ find_in (newest_first self.now) name.now }
    {
        let covered = self.hidden.len();
        let mut n = self.items.len();
        'newest: while n > covered {
            n -= 1;
            let named = &self.items[n];
            if named.name.items() == name {
                return Some(&named.item);
            }
        }
        let place = place_in(&self.index, name)?;
        Some(&self.items[place].item)
    }
}
