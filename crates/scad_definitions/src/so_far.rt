//! The state of matching while the arguments of a call are gone through.

ghost use Rattle.std.specs.Prelude.{◌≡◌, length};
ghost use Rattle.std.specs.Option.{ForSome};
ghost use Rattle.scad_definitions.specs.Names.{newest_first};
ghost use Rattle.scad_definitions.specs.ArgumentsView.{names_in, special_pairs};
ghost use Rattle.scad_definitions.specs.Lookup.{names_of_pairs};

use crate::NameList;
use crate::lookup::{add_special, are_many_special};
use crate::parameters::{
    CallArguments, Destination, Names, argument_place, count_of, first_named, free_parameter,
    has_special, no_arguments_of, with_argument,
};
use scad_ast::Arg;
use std::alloc::Global;
use text_place::{FaultKind, NoMemory, Stop};

/// What the arguments of a call give so far, with the names of the parameters that they are matched to. What takes the
/// next argument is found in the logarithm of the number of a definition's parameters and of special arguments.
#[derive(Drop)]
pub struct ArgumentsSoFar<'n, 'a, T> {
    pub names: Names<'n>,
    pub given: CallArguments<'a, T>,
    /// The special names that were given something, where many arguments have special names. Few are searched one after
    /// another.
    pub(crate) specials: Option<Box<NameList<()>>>,
    ghost one_each: { length given.bound.items ≡ length (names_in names) },
    ghost specials_indexed: { ForSome specials (λ specials.
        names_of_pairs (newest_first specials.value)
        ≡ names_of_pairs (special_pairs given.dynamic.items)) },
}

impl<'n, 'a, T: Drop> ArgumentsSoFar<'n, 'a, T> {
    ghost use Rattle.std.specs.Prelude.{ℕ, ◌<◌, Ok, Some, None, is_some, if◌then◌else◌, IfSome, IfOk, IfErr};
    ghost use Rattle.text_place.specs.declared.fault.FaultKind.TheVariants.{BadArgument};
    ghost use Rattle.scad_ast.specs.ExprView.{arg_of};
    ghost use Rattle.scad_definitions.specs.Newest.{find_in};
    ghost use Rattle.scad_definitions.specs.Arguments.{first_named, parameter_taken_by, argument_place, no_arguments_of, destination_of, to_special};
    ghost use Rattle.scad_definitions.specs.ArgumentsView.{call_arguments_of, destination_term, destination_term_of, IsDestinationThere, IsOneMoreGiven, IsFaultAt};
    ghost use Rattle.scad_definitions.specs.SoFarView.{only_arguments};

    /// Nothing yet, of the arguments of a call that are to be matched to parameters of these names.
    pub fn of(alloc: Global, names: Names<'n>, args: &[Arg]) -> Result<Self, NoMemory>
        ensures given { IfOk result (λ so_far. call_arguments_of so_far.given
            ≡ no_arguments_of (length (names_in names.entry))) }
        ensures names { IfOk result (λ so_far. so_far.names ≡ names.entry) }
    {
        let given = no_arguments_of(alloc, count_of(names))?;
        let specials = if are_many_special(args) {
            Some(Box::new(alloc, NameList::new(alloc))?)
        } else {
            None
        };
        Ok(ArgumentsSoFar {
            names,
            given,
            specials,
        })
    }

    /// What takes an argument behind others. BadArgument at its first token where nothing does.
    pub fn destination_for(&self, positional: usize, arg: &'a Arg) -> Result<Destination<'a>, Stop>
        ensures free { IfOk result (λ t. destination_of (names_in self.now.names) positional
            (call_arguments_of self.now.given) (arg_of arg.now) ≡ Some (destination_term t)) }
        ensures within { IfOk result (IsDestinationThere (length self.now.given.bound.items)) }
        ensures none { IfErr result (λ stop.
            (destination_of (names_in self.now.names) positional (call_arguments_of self.now.given)
            (arg_of arg.now) ≡ None)
            × IsFaultAt stop BadArgument (argument_place (arg_of arg.now))) }
    {
        match self.free_destination(positional, arg) {
            Some(destination) => Ok(destination),
            None => Err(FaultKind::BadArgument.at(argument_place(arg))),
        }
    }

    // What takes an argument: a parameter or a special name that was given nothing yet.
    fn free_destination(&self, positional: usize, arg: &'a Arg) -> Option<Destination<'a>>
        ensures value { destination_of (names_in self.now.names) positional
            (call_arguments_of self.now.given) (arg_of arg.now) ≡ destination_term_of result }
        ensures within { IfSome result (IsDestinationThere (length self.now.given.bound.items)) }
    {
        match arg {
            Arg::Special(_, name, _) => self.free_special(name.items()),
            Arg::Named(_, _, _) => free_parameter(
                &self.given.bound,
                self.parameter_taken_by(positional, arg),
            ),
            Arg::Positional(_) => free_parameter(
                &self.given.bound,
                self.parameter_taken_by(positional, arg),
            ),
        }
    }

    // A special name that was given nothing yet.
    fn free_special(&self, name: &'a [u8]) -> Option<Destination<'a>>
        ensures value { destination_term_of result
            ≡ (if is_some (find_in (special_pairs self.now.given.dynamic.items) name.now) then None
            else Some (to_special name.now)) }
        ensures within { (n : ℕ) → IfSome result (IsDestinationThere n) }
    {
        if self.has_special(name) {
            return None;
        }
        Some(Destination::Special(name))
    }

    // Whether a special name was given something.
    fn has_special(&self, name: &[u8]) -> bool
        ensures { result ≡ is_some (find_in (special_pairs self.now.given.dynamic.items) name.now) }
    {
        match &self.specials {
            Some(specials) => specials.find(name).is_some(),
            None => has_special(&self.given.dynamic, name),
        }
    }

    // The parameter that an argument takes after the given number of positional ones. A special argument takes none.
    fn parameter_taken_by(&self, positional: usize, arg: &Arg) -> Option<usize>
        ensures value { result ≡ parameter_taken_by (names_in self.now.names) positional
            (arg_of arg.now) }
        ensures within { IfSome result (λ k. k < length (names_in self.now.names)) }
    {
        match arg {
            Arg::Named(_, name, _) => first_named(self.names, name.items()),
            Arg::Special(_, _, _) => None,
            Arg::Positional(_) => {
                if positional < count_of(self.names) {
                    Some(positional)
                } else {
                    None
                }
            }
        }
    }

    /// Arguments of which one more gives something, where there is something: what was given so far is dropped with
    /// a stop.
    pub fn with_next(
        self,
        alloc: Global,
        destination: Destination<'a>,
        next: Result<T, Stop>,
    ) -> Result<Self, Stop>
        requires { IsDestinationThere (length self.given.bound.items) destination }
        ensures given { IsOneMoreGiven self.entry.given destination.entry next
            (only_arguments result) }
        ensures names { IfOk result (λ so_far. so_far.names ≡ self.entry.names) }
    {
        match next {
            Ok(value) => self.with_value(alloc, destination, value),
            Err(stop) => Err(stop),
        }
    }

    // Arguments of which one more gives a value, with its special name in the index.
    fn with_value(self, alloc: Global, destination: Destination<'a>, value: T) -> Result<Self, Stop>
        requires { IsDestinationThere (length self.given.bound.items) destination }
        ensures given { IsOneMoreGiven self.entry.given destination.entry (Ok value)
            (only_arguments result) }
        ensures names { IfOk result (λ so_far. so_far.names ≡ self.entry.names) }
    {
        let ArgumentsSoFar {
            names,
            given,
            specials,
        } = self;
        let specials = match specials {
            Some(held) => {
                let mut held = held;
                add_special(&mut held, alloc, destination)?;
                Some(held)
            }
            None => None,
        };
        let given = with_argument(given, destination, value)?;
        Ok(ArgumentsSoFar {
            names,
            given,
            specials,
        })
    }
}
