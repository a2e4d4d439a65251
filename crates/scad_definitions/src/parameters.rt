//! Matches the arguments of a call to parameters.

ghost use Rattle.std.specs.Prelude.{◌≡◌, ℕ, ◌+◌, ◌^◌, ◌<◌, ◌≤◌, length, map, replicate, Some, None, slice_index_or, is_some, if◌then◌else◌, IfSome, IfOk};
ghost use Rattle.scad_ast.specs.ExprView.{arg_of};
ghost use Rattle.scad_ast.specs.StatementView.{param_of};
ghost use Rattle.scad_definitions.specs.Newest.{find_in};
ghost use Rattle.scad_definitions.specs.Arguments.{parameter_name, parameter_names, first_named, argument_place, positional_after, matching_of, no_arguments_of, unless_bound, MeetsMatching};
ghost use Rattle.scad_definitions.specs.ArgumentsView.{names_seen, names_in, special_pairs, call_arguments_of, destination_term_of, IsDestinationThere, IsOneMoreGiven};

use crate::lookup::ParameterNames;
use crate::so_far::ArgumentsSoFar;
use scad_ast::{Arg, Param};
use std::alloc::Global;
use std::marker::Model;
use text_place::{NoMemory, Place, Stop};

/// For each parameter the number of its argument, from 0, or none.
#[derive(Drop)]
pub struct Matching {
    given: Vec<Option<u32>>,
}

impl Model for Matching {
    ghost use Rattle.std.specs.Prelude.{List, ℕ, Option};

    ghost Value = { List (Option ℕ) };

    ghost view = { λ m. m.given.items };
}

impl Matching {
    /// The number of parameters.
    pub fn count(&self) -> usize
        ensures { result ≡ length self.now }
    {
        self.given.len()
    }

    /// The number of a parameter's argument, from 0, or none.
    pub fn argument(&self, param: u32) -> Option<u32>
        requires { param < length self.now }
        ensures { result ≡ slice_index_or self.now param None }
    {
        self.given[param as usize]
    }
}

/// The names of parameters: those of a definition of the source, or a list of names.
#[derive(Clone, Copy)]
pub enum Names<'a> {
    Params(&'a ParameterNames<'a>),
    Listed(&'a [&'a [u8]]),
}

/// A special argument: its name, without its `$`, and what it gives.
#[derive(Drop)]
pub struct SpecialArgument<'a, T> {
    pub name: &'a [u8],
    pub value: T,
}

/// What the arguments of a call give: to each parameter something or nothing, and the special arguments, the newest last.
/// In an evaluation that is a value, in a matching the argument's number.
#[derive(Drop)]
pub struct CallArguments<'a, T> {
    pub bound: Vec<Option<T>>,
    pub dynamic: Vec<SpecialArgument<'a, T>>,
}

/// What takes an argument: a parameter by its number, or a special name.
#[derive(Clone, Copy)]
pub enum Destination<'a> {
    Parameter(usize),
    Special(&'a [u8]),
}

/// Which argument each parameter of a call of a function or module of the source gets: the positional
/// ones are given to the parameters in order, whatever named ones stand before, and a named one to the
/// first of its name. A special argument is given to no parameter. BadArgument at the first token of the
/// first argument that is surplus, unknown or given twice; the place of the call is that of no such fault.
pub fn arguments(
    alloc: Global,
    params: &[Param],
    args: &[Arg],
    _place: Place,
) -> Result<Matching, Stop>
    ensures size { IfOk result (λ m. length m ≡ length params.now) }
    ensures value { MeetsMatching result (matching_of (parameter_names (map param_of params.now))
        (map arg_of args.now)) }
{
    let names = ParameterNames::of(alloc, params)?;
    let mut so_far = ArgumentsSoFar::of(alloc, Names::Params(&names), args)?;
    let mut positional: usize = 0;
    'each: for (number, arg) in args.iter().enumerate() {
        let destination = so_far.destination_for(positional, arg)?;
        if number > u32::MAX as usize {
            return Err(Stop::NoMemory);
        }
        so_far = so_far.with_next(alloc, destination, Ok(number as u32))?;
        positional = positional_after(positional, arg);
    }
    let ArgumentsSoFar { given, .. } = so_far;
    Ok(Matching { given: given.bound })
}

/// How many names there are.
pub(crate) fn count_of(names: Names<'_>) -> usize
    ensures { result ≡ length (names_in names.entry) }
{
    match names {
        Names::Params(names) => names.count(),
        Names::Listed(listed) => listed.len(),
    }
}

/// Nothing yet, for the given number of parameters.
pub(crate) fn no_arguments_of<'a, T: Drop>(
    alloc: Global,
    params: usize,
) -> Result<CallArguments<'a, T>, NoMemory>
    ensures { IfOk result (λ given. call_arguments_of given ≡ no_arguments_of params) }
{
    let bound = all_unbound(alloc, params)?;
    Ok(CallArguments {
        bound,
        dynamic: Vec::new(alloc),
    })
}

// No bound argument for each of the given number of parameters.
fn all_unbound<T: Drop>(alloc: Global, params: usize) -> Result<Vec<Option<T>>, NoMemory>
    ensures { IfOk result (λ bound. bound.items ≡ replicate params None) }
{
    let mut bound = Vec::new(alloc);
    for _ in 0..params {
        bound.push(None)?;
    }
    Ok(bound)
}

/// Whether one of these is the special argument of a name.
pub(crate) fn has_special<T>(dynamic: &[SpecialArgument<'_, T>], name: &[u8]) -> bool
    ensures { result ≡ is_some (find_in (special_pairs dynamic.now) name.now) }
{
    let mut n = dynamic.len();
    'newest: while n > 0 {
        n -= 1;
        if dynamic[n].name == name {
            return true;
        }
    }
    false
}

/// A parameter that was given nothing yet.
pub(crate) fn free_parameter<'a, T>(
    bound: &[Option<T>],
    param: Option<usize>,
) -> Option<Destination<'a>>
    requires { IfSome param (λ k. k < length bound.now) }
    ensures value { destination_term_of result ≡ unless_bound bound.now param }
    ensures within { IfSome result (IsDestinationThere (length bound.now)) }
{
    let param = param?;
    if bound[param].is_some() {
        return None;
    }
    Some(Destination::Parameter(param))
}

/// The first parameter of a name.
pub(crate) fn first_named(names: Names<'_>, name: &[u8]) -> Option<usize>
    ensures value { result ≡ first_named (names_in names.entry) name.now }
    ensures within { IfSome result (λ k. k < length (names_in names.entry)) }
{
    match names {
        Names::Params(names) => names.first_named(name),
        Names::Listed(listed) => first_listed(listed, name),
    }
}

/// The first of parameters that has a name.
pub(crate) fn first_param(params: &[Param], name: &[u8]) -> Option<usize>
    ensures value { result ≡ first_named (parameter_names (map param_of params.now)) name.now }
    ensures within { IfSome result (λ k. k < length params.now) }
{
    for (i, param) in params.iter().enumerate() {
        if parameter_name(param) == name {
            return Some(i);
        }
    }
    None
}

// The first of these names that is a name.
fn first_listed(names: &[&[u8]], name: &[u8]) -> Option<usize>
    ensures value { result ≡ first_named (names_seen names.now) name.now }
    ensures within { IfSome result (λ k. k < length names.now) }
{
    for (i, known) in names.iter().enumerate() {
        if *known == name {
            return Some(i);
        }
    }
    None
}

/// Arguments of which one more gives something.
pub(crate) fn with_argument<'a, T: Drop>(
    given: CallArguments<'a, T>,
    destination: Destination<'a>,
    value: T,
) -> Result<CallArguments<'a, T>, Stop>
    requires { IsDestinationThere (length given.bound.items) destination }
    ensures { IsOneMoreGiven given.entry destination.entry (Ok value) result }
{
    let mut more = given;
    match destination {
        Destination::Parameter(param) => {
            more.bound[param] = Some(value);
            Ok(more)
        }
        Destination::Special(name) => match more.dynamic.push(SpecialArgument { name, value }) {
            Ok(()) => Ok(more),
            Err(_) => Err(Stop::NoMemory),
        },
    }
}

/// How many positional arguments there are with this one.
pub fn positional_after(positional: usize, arg: &Arg) -> usize
    requires { positional + 1 < 2 ^ 64 }
    ensures value { result ≡ positional_after positional (arg_of arg.now) }
    ensures within { result ≤ positional + 1 }
{
    match arg {
        Arg::Positional(_) => positional + 1,
        Arg::Named(_, _, _) => positional,
        Arg::Special(_, _, _) => positional,
    }
}

/// The name of a parameter.
pub fn parameter_name(param: &Param) -> &[u8]
    ensures { result.now ≡ parameter_name (param_of param.now) }
{
    match param {
        Param::Plain(_, name) => name.items(),
        Param::WithDefault(_, name, _) => name.items(),
    }
}

/// The place of an argument's first token.
pub(crate) fn argument_place(arg: &Arg) -> Place
    ensures { result ≡ argument_place (arg_of arg.now) }
{
    match arg {
        Arg::Named(place, _, _) => *place,
        Arg::Special(place, _, _) => *place,
        Arg::Positional(value) => value.place(),
    }
}
