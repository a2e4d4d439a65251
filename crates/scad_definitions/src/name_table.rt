//! The names that a block's scope is expected to bind, shared by all scopes of that block.

ghost use Rattle.std.specs.Prelude.{◌≡◌, ℕ, List, take, reverse};
ghost use Rattle.scad_definitions.specs.Expected.{newest_place, place_if_before};
ghost use Rattle.scad_definitions.specs.Index.{place_of_name};

use crate::index::{place_in, put};
use crate::parameters::parameter_name;
use crate::text::Assignment;
use scad_ast::Param;
use std::alloc::Global;
use std::collections::BTreeMap;
use text_place::{Bytes, NoMemory};

/// Names in the order in which a scope of a block is expected to bind them, no two of them equal, each found with its
/// place. Scopes share a table: a name that is bound in its turn is neither copied nor indexed again.
#[derive(Drop)]
pub struct NameTable {
    pub(crate) names: Vec<Bytes>,
    index: BTreeMap<Vec<u8>, usize>,
    ghost placed: { (k : ℕ) (name : List ℕ) → newest_place (reverse (take k names.items)) name
        ≡ place_if_before k (place_of_name index name) },
}

impl NameTable {
    ghost use Rattle.std.specs.Prelude.{◌<◌, None, length, slice_index_or, IfSome, [], IsTrue};
    ghost use Rattle.scad_definitions.specs.ExpectedView.{names_expected};

    /// No names.
    fn new(alloc: Global) -> NameTable {
        NameTable {
            names: Vec::new(alloc),
            index: BTreeMap::new(alloc),
        }
    }

    /// The ordinary names of assignments.
    pub(crate) fn of_assignments(
        alloc: Global,
        assignments: &[Assignment<'_>],
    ) -> Result<NameTable, NoMemory> {
        NameTable::new(alloc).with_assigned(alloc, assignments)
    }

    /// The names of a module's parameters, that of the number of a call's children, and the ordinary names of the
    /// body's assignments.
    pub(crate) fn of_module(
        alloc: Global,
        params: &[Param],
        assignments: &[Assignment<'_>],
    ) -> Result<NameTable, NoMemory> {
        let mut table = NameTable::new(alloc);
        for param in params {
            table = table.with_name(alloc, parameter_name(param))?;
        }
        table
            .with_name(alloc, b"$children")?
            .with_assigned(alloc, assignments)
    }

    // The ordinary names of assignments more.
    fn with_assigned(
        self,
        alloc: Global,
        assignments: &[Assignment<'_>],
    ) -> Result<NameTable, NoMemory> {
        let mut table = self;
        for assignment in assignments {
            if !assignment.special {
                table = table.with_name(alloc, assignment.name)?;
            }
        }
        Ok(table)
    }

    // One name more. One that is there stays where it is.
    fn with_name(self, alloc: Global, name: &[u8]) -> Result<NameTable, NoMemory> {
        match place_in(&self.index, name) {
            Some(_) => Ok(self),
            None => self.with_new_name(alloc, name),
        }
    }

    // One name more, which isn't there.
    fn with_new_name(self, alloc: Global, name: &[u8]) -> Result<NameTable, NoMemory>
        requires { place_of_name self.index name.now ≡ None }
    {
        let NameTable { names, index } = self;
        let mut names = names;
        let mut index = index;
        let place = names.len();
        let copy = Bytes::copy_of(alloc, name)?;
        put(&mut index, alloc, name, place)?;
        names.push(copy)?;
        Ok(NameTable { names, index })
    }

    /// How many names there are.
    pub fn count(&self) -> usize
        ensures { result ≡ length (names_expected self.now) }
    {
        self.names.len()
    }

    /// The name at a place.
    pub fn name(&self, place: usize) -> &[u8]
        requires { place < length (names_expected self.now) }
        ensures { result.now ≡ slice_index_or (names_expected self.now) place [] }
    {
        self.names[place].items()
    }

    /// The place of a name, where it is before another place.
    pub fn place_before(&self, name: &[u8], end: usize) -> Option<usize>
        ensures { result ≡ newest_place (reverse (take end (names_expected self.now))) name.now }
    {
        match place_in(&self.index, name) {
            Some(place) if place < end => Some(place),
            _ => None,
        }
    }
}
