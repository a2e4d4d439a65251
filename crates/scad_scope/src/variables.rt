//! The variables of one scope; those that its block expects share their names with other scopes.

ghost use Rattle.std.specs.Prelude.{◌≡◌, ◌≤◌, length, option_map, IsTrue};
ghost use Rattle.scad_definitions.specs.ExpectedView.{names_expected};
ghost use Rattle.scad_scope.specs.Known.{names_known, IsNameAt};

use crate::table::find_variable;
use scad_definitions::{NameList, NameTable};
use scad_value::BoundedValue;
use std::alloc::Global;
use std::rc::Rc;
use text_place::{Bytes, NoMemory};

/// The variables of a scope. Those that were bound in the order in which a scope of its block is expected to bind them
/// have their names in a table, which all scopes of the block share. The others have names of their own.
#[derive(Drop)]
pub(crate) struct Variables {
    /// Those that were bound before the first name of the table.
    pub(crate) earlier: NameList<BoundedValue>,
    pub(crate) table: Option<Rc<NameTable>>,
    /// The values of the given number of the table's first names.
    pub(crate) values: Vec<BoundedValue>,
    /// Those that were bound behind these.
    pub(crate) later: NameList<BoundedValue>,
    ghost fit: { length values.items ≤ length
        (names_known (option_map (λ shared. shared.value) table)) },
}

impl Variables {
    ghost use Rattle.std.specs.Prelude.{[], ◌∷◌, ◌<◌, IfSome, OnOk, OnErr, take, reverse};
    ghost use Rattle.scad_definitions.specs.Expected.{newest_place};
    ghost use Rattle.scad_value.specs.View.{val_of};
    ghost use Rattle.scad_scope.specs.Names.{find_in};
    ghost use Rattle.scad_scope.specs.Known.{IsNextName};
    ghost use Rattle.scad_scope.specs.View.{names_in_table, variables_of, variables_bound, IsValueFound};

    /// No variables, where the names of a table are expected.
    pub(crate) fn new(alloc: Global, table: Option<Rc<NameTable>>) -> Variables
        ensures { variables_bound result ≡ [] }
    {
        Variables {
            earlier: NameList::new(alloc),
            table,
            values: Vec::new(alloc),
            later: NameList::new(alloc),
        }
    }

    /// One variable more, as the newest of its name. `NoMemory` leaves them as they were.
    pub(crate) fn bind(
        &mut self,
        alloc: Global,
        name: &[u8],
        value: BoundedValue,
    ) -> Result<(), NoMemory>
        ensures bound { OnOk result (variables_bound self.new
            ≡ (name.now, val_of value.value) ∷ variables_bound self.old) }
        ensures unchanged { OnErr result (variables_bound self.new ≡ variables_bound self.old) }
    {
        if self.is_next(name) {
            self.bind_next(name, value)
        } else {
            let name = Bytes::copy_of(alloc, name)?;
            self.bind_other(alloc, name, value)
        }
    }

    // Whether a name is the next one that is expected.
    fn is_next(&self, name: &[u8]) -> bool
        ensures { IsTrue result → IsNextName (variables_of self.now.later) (names_in_table self.now)
            (length self.now.values.items) name.now }
    {
        if self.later.len() > 0 {
            return false;
        }
        match &self.table {
            Some(table) => is_at(table, self.values.len(), name),
            None => false,
        }
    }

    // One variable more, of the next name that is expected.
    fn bind_next(&mut self, name: &[u8], value: BoundedValue) -> Result<(), NoMemory>
        requires { IsNextName (variables_of self.old.later) (names_in_table self.old)
            (length self.old.values.items) name.now }
        ensures bound { OnOk result (variables_bound self.new
            ≡ (name.now, val_of value.value) ∷ variables_bound self.old) }
        ensures unchanged { OnErr result (variables_bound self.new ≡ variables_bound self.old) }
    {
        let _name = name;
        self.values.push(value)?;
        Ok(())
    }

    // One variable more, of another name than the next one that is expected.
    fn bind_other(
        &mut self,
        alloc: Global,
        name: Bytes,
        value: BoundedValue,
    ) -> Result<(), NoMemory>
        ensures bound { OnOk result (variables_bound self.new
            ≡ (name, val_of value.value) ∷ variables_bound self.old) }
        ensures unchanged { OnErr result (variables_bound self.new ≡ variables_bound self.old) }
    {
        if self.values.is_empty() && self.later.len() == 0 {
            self.earlier.push(alloc, name, value)
        } else {
            self.later.push(alloc, name, value)
        }
    }

    /// The newest value of a name.
    pub(crate) fn find(&self, name: &[u8]) -> Option<&BoundedValue>
        ensures { IsValueFound (find_in (variables_bound self.now) name.now) result }
    {
        if let Some(found) = find_variable(&self.later, name) {
            return Some(found);
        }
        if let Some(place) = self.place(name) {
            return Some(&self.values[place]);
        }
        find_variable(&self.earlier, name)
    }

    // The place of a name among the first ones of the table that have values.
    fn place(&self, name: &[u8]) -> Option<usize>
        ensures value { result ≡ newest_place
            (reverse (take (length self.now.values.items) (names_in_table self.now))) name.now }
        ensures within { IfSome result (λ k. k < length self.now.values.items) }
    {
        match &self.table {
            Some(table) => table.place_before(name, self.values.len()),
            None => None,
        }
    }
}

// Whether the name at a place of a table is this one.
fn is_at(table: &NameTable, place: usize, name: &[u8]) -> bool
    ensures { IsTrue result → IsNameAt (names_expected table.now) place name.now }
{
    place < table.count() && table.name(place) == name
}
