//! The assignments of a block: a name that is assigned again keeps its place and gets the later expression.

ghost use Rattle.std.specs.Prelude.{◌≡◌, map};
ghost use Rattle.scad_definitions.specs.Names.{newest_first};
ghost use Rattle.scad_definitions.specs.Newest.{find_in};
ghost use Rattle.scad_definitions.specs.Blocks.{SourceAssignment, place_of_assignment};
ghost use Rattle.scad_definitions.specs.Places.{of_kind};
ghost use Rattle.scad_definitions.specs.TextView.{source_assignment_of};

use crate::NameList;
use crate::text::{Assignment, LocalsUnderWay};
use std::alloc::Global;
use text_place::{Bytes, NoMemory};

/// Where the assignments of ordinary and of special names stand in a block.
#[derive(Drop)]
pub(crate) struct Places {
    pub(crate) ordinary: NameList<usize>,
    pub(crate) special: NameList<usize>,
}

/// What stands in a block so far, with the places of its assignments by name.
#[derive(Drop)]
pub(crate) struct LocalsSoFar<'a> {
    pub(crate) local: LocalsUnderWay<'a>,
    pub(crate) places: Places,
    ghost placed: { (a : SourceAssignment)
        → find_in (of_kind (newest_first places.ordinary)
        (newest_first places.special) a.special) a.name
        ≡ place_of_assignment (map source_assignment_of local.assignments.items) a },
}

impl Places {
    ghost use Rattle.std.specs.Prelude.{Bool, if◌then◌else◌, ◌∷◌, OnOk, OnErr};
    ghost use Rattle.std.specs.Bool.{beq};
    ghost use Rattle.scad_definitions.specs.PlacesView.{places_of};

    // The number of the assignment of a name, of special or of ordinary ones.
    fn find(&self, special: bool, name: &[u8]) -> Option<usize>
        ensures { result ≡ find_in (places_of self.now special) name.now }
    {
        if special {
            self.special.find(name).copied()
        } else {
            self.ordinary.find(name).copied()
        }
    }

    // One name more, with the number of its assignment.
    fn push(
        &mut self,
        alloc: Global,
        special: bool,
        name: Bytes,
        place: usize,
    ) -> Result<(), NoMemory>
        ensures pushed { OnOk result ((kind : Bool) → places_of self.new kind
            ≡ (if beq special kind then (name, place) ∷ places_of self.old kind
            else places_of self.old kind)) }
        ensures unchanged { OnErr result ((kind : Bool) → places_of self.new kind
            ≡ places_of self.old kind) }
    {
        if special {
            self.special.push(alloc, name, place)
        } else {
            self.ordinary.push(alloc, name, place)
        }
    }
}

impl<'a> LocalsSoFar<'a> {
    ghost use Rattle.std.specs.Prelude.{◌<◌, None, length, IfSome, OnOk};
    ghost use Rattle.scad_definitions.specs.Blocks.{with_assigned, no_locals};
    ghost use Rattle.scad_definitions.specs.TextView.{locals_under_way};

    /// Nothing yet.
    pub(crate) fn new(alloc: Global) -> LocalsSoFar<'a>
        ensures { locals_under_way result.local ≡ no_locals }
    {
        LocalsSoFar {
            local: LocalsUnderWay::new(alloc),
            places: Places {
                ordinary: NameList::new(alloc),
                special: NameList::new(alloc),
            },
        }
    }

    /// One assignment more. A name that is there keeps its place and gets this expression.
    pub(crate) fn assign(
        &mut self,
        alloc: Global,
        assignment: Assignment<'a>,
    ) -> Result<(), NoMemory>
        ensures definitions { self.new.local.definitions ≡ self.old.local.definitions }
        ensures assignments { OnOk result (map source_assignment_of self.new.local.assignments.items
            ≡ with_assigned (map source_assignment_of self.old.local.assignments.items)
            (source_assignment_of assignment.entry)) }
    {
        match self.place(&assignment) {
            Some(i) => {
                self.local.assignments[i].value = assignment.value;
                Ok(())
            }
            None => self.add(alloc, assignment),
        }
    }

    // The number of the assignment that has the same name.
    fn place(&self, sought: &Assignment<'_>) -> Option<usize>
        ensures value { result ≡ place_of_assignment
            (map source_assignment_of self.now.local.assignments.items)
            (source_assignment_of sought.now) }
        ensures within { IfSome result (λ k. k < length self.now.local.assignments.items) }
    {
        self.places.find(sought.special, sought.name)
    }

    // An assignment of a name that isn't there.
    fn add(&mut self, alloc: Global, assignment: Assignment<'a>) -> Result<(), NoMemory>
        requires { place_of_assignment (map source_assignment_of self.old.local.assignments.items)
            (source_assignment_of assignment) ≡ None }
        ensures definitions { self.new.local.definitions ≡ self.old.local.definitions }
        ensures assignments { OnOk result (map source_assignment_of self.new.local.assignments.items
            ≡ with_assigned (map source_assignment_of self.old.local.assignments.items)
            (source_assignment_of assignment.entry)) }
    {
        let place = self.local.assignments.len();
        let name = Bytes::copy_of(alloc, assignment.name)?;
        self.local.assignments.push(assignment)?;
        match self.places.push(alloc, assignment.special, name, place) {
            Ok(()) => Ok(()),
            Err(NoMemory) => {
                self.local.assignments.pop();
                Err(NoMemory)
            }
        }
    }
}
