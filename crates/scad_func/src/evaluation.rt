//! The state of an evaluation of expressions.

ghost use Rattle.std.specs.Prelude.{◌<◌, ◌≤◌, length, IsTrue};
ghost use Rattle.scad_scope.specs.Numbered.{modules_below};
ghost use Rattle.scad_scope.specs.Table.{rows_of};
ghost use Rattle.scad_func.specs.Limits.{most_calls, most_evaluations, most_turns};
ghost use Rattle.scad_func.specs.View.{AreFunctionsThere, table_in};

use crate::source::Source;
use scad_scope::Scopes;
use std::alloc::Global;

/// An evaluation under way: what it reads, the scopes and special names that it adds to, the scope in which it is, and
/// what it counts. The type keeps each limit, that its scope is there, and that the scopes name functions and modules of
/// the source alone.
#[derive(Drop)]
pub struct Evaluation<'a, 's> {
    pub alloc: Global,
    pub source: &'a Source<'a>,
    pub scopes: &'s mut Scopes,
    /// The current scope.
    pub scope: u32,
    /// Calls in one another.
    pub calls: u32,
    /// Evaluations in one another.
    pub depth: u32,
    /// Turns so far.
    pub turns: u64,
    ghost numbered: { AreFunctionsThere source.now (rows_of scopes.now) },
    ghost modules: { IsTrue (modules_below (length (table_in source.now).modules)
        (rows_of scopes.now)) },
    ghost there: { scope < length (rows_of scopes.now) },
    ghost few_calls: { calls ≤ most_calls },
    ghost shallow: { depth ≤ most_evaluations },
    ghost few_turns: { turns ≤ most_turns },
}
