//! Finds a definition's parameter by its name.

ghost use Rattle.std.specs.Prelude.{◌≡◌, ◌<◌, ℕ, List, length, map, IfOk, IfSome, OnOk};
ghost use Rattle.std.specs.Option.{ForSome};
ghost use Rattle.scad_ast.specs.StatementView.{param_of};
ghost use Rattle.scad_definitions.specs.Names.{newest_first};
ghost use Rattle.scad_definitions.specs.Arguments.{first_named, parameter_names};
ghost use Rattle.scad_definitions.specs.Lookup.{names_of_pairs, numbered_from, names_after};

use crate::NameList;
use crate::parameters::{Destination, first_param, parameter_name};
use scad_ast::{Arg, Param};
use std::alloc::Global;
use text_place::{Bytes, NoMemory};

// How many names are looked up one after another.
const FEW: usize = 8;

/// The names of a definition's parameters. Many are found by an index, which is made once; few are searched one after
/// another.
#[derive(Drop)]
pub struct ParameterNames<'a> {
    pub(crate) params: &'a [Param],
    index: Option<NameList<usize>>,
    ghost indexed: { ForSome index (λ index. newest_first index
        ≡ numbered_from 0 (parameter_names (map param_of params.now))) },
}

impl<'a> ParameterNames<'a> {
    ghost use Rattle.scad_definitions.specs.ArgumentsView.{names_of_params};

    /// The names of parameters, with an index where they are many.
    pub fn of(alloc: Global, params: &'a [Param]) -> Result<ParameterNames<'a>, NoMemory>
        ensures { IfOk result (λ names. names_of_params names
            ≡ parameter_names (map param_of params.now)) }
    {
        let index = if params.len() > FEW {
            Some(index_of(alloc, params)?)
        } else {
            None
        };
        Ok(ParameterNames { params, index })
    }

    /// How many parameters there are.
    pub(crate) fn count(&self) -> usize
        ensures { result ≡ length (names_of_params self.now) }
    {
        self.params.len()
    }

    /// The first parameter of a name.
    pub(crate) fn first_named(&self, name: &[u8]) -> Option<usize>
        ensures value { result ≡ first_named (names_of_params self.now) name.now }
        ensures within { IfSome result (λ k. k < length (names_of_params self.now)) }
    {
        match &self.index {
            Some(index) => number_in(index, name),
            None => first_param(self.params, name),
        }
    }
}

// The first parameter of a name, where an index has each parameter with its number.
fn number_in(index: &NameList<usize>, name: &[u8]) -> Option<usize>
    ensures value { (names : List (List ℕ)) → newest_first index.now
        ≡ numbered_from 0 names → result ≡ first_named names name.now }
    ensures within { (names : List (List ℕ)) → newest_first index.now
        ≡ numbered_from 0 names → IfSome result (λ k. k < length names) }
{
    index.find(name).copied()
}

// An index of parameters' names, each with its number.
fn index_of(alloc: Global, params: &[Param]) -> Result<NameList<usize>, NoMemory>
    ensures { IfOk result (λ index. newest_first index
        ≡ numbered_from 0 (parameter_names (map param_of params.now))) }
{
    let mut index = NameList::new(alloc);
    let mut left = params.len();
    // From the last on, so that the first of a name is its newest.
    'back: while left > 0 {
        left -= 1;
        let name = Bytes::copy_of(alloc, parameter_name(&params[left]))?;
        index.push(alloc, name, left)?;
    }
    Ok(index)
}

/// Whether many arguments have special names.
pub(crate) fn are_many_special(args: &[Arg]) -> bool {
    let mut special: usize = 0;
    for arg in args {
        if let Arg::Special(_, _, _) = arg {
            special = special.saturating_add(1);
        }
    }
    special > FEW
}

/// Special names with the one that takes an argument, where one does.
pub(crate) fn add_special(
    specials: &mut NameList<()>,
    alloc: Global,
    destination: Destination<'_>,
) -> Result<(), NoMemory>
    ensures { OnOk result (names_of_pairs (newest_first specials.new)
        ≡ names_after (names_of_pairs (newest_first specials.old)) destination.entry) }
{
    match destination {
        Destination::Parameter(_) => Ok(()),
        Destination::Special(name) => {
            let name = Bytes::copy_of(alloc, name)?;
            specials.push(alloc, name, ())
        }
    }
}
