//! The public calls that give an expression's value.

ghost use Rattle.scad_ast.specs.ExprView.{term_of};
ghost use Rattle.scad_ast.specs.ProgramView.{program_of};
ghost use Rattle.scad_scope.specs.Names.{env_of};
ghost use Rattle.scad_definitions.specs.Blocks.{block_table};
ghost use Rattle.scad_scope.specs.Table.{rows_of};
ghost use Rattle.scad_func.specs.Definitions.{env_in};
ghost use Rattle.scad_func.specs.View.{env_seen, table_in};
ghost use Rattle.scad_func.specs.Metered.{GivesValue, IsScopeOf, KeepsAllButTurns};

use crate::evaluator::evaluate;
use crate::{Evaluation, Meter, Source};
use scad_ast::{Expr, Program};
use scad_scope::Scopes;
use scad_value::{Value, value_alone};
use std::alloc::Global;
use text_place::Stop;

/// The value of an expression in a scope, with the special names of the dynamic bindings, or its first fault.
/// After Ok the meter's turns have grown by those that were counted, and after a fault too they are
/// within their limit; the meter's calls and depth, the scopes and the bindings are always as before. TooDeep
/// comes at the 65th call and at the 513th evaluation in one another, TooManyTurns at turn 100,001.
///
/// `evaluate` says how much of the stack it takes.
pub(crate) fn value_in(
    alloc: Global,
    scopes: &mut Scopes,
    source: &Source<'_>,
    scope: u32,
    expr: &Expr,
    meter: &mut Meter,
) -> Result<Value, Stop>
    requires { IsScopeOf (table_in source.now) (rows_of scopes.old) scope }
    ensures value { GivesValue scopes.old meter.old meter.new
        (env_seen source.now (rows_of scopes.old) scope) (term_of expr.now) result }
    ensures kept { KeepsAllButTurns scopes.old scopes.new meter.old meter.new }
{
    let mut evaluation = Evaluation {
        alloc,
        source,
        scopes,
        scope,
        calls: meter.calls,
        depth: meter.depth,
        turns: meter.turns,
    };
    let value = value_alone(evaluate(&mut evaluation, expr));
    meter.turns = evaluation.turns;
    value
}

/// The value of one expression of a program in a scope, or its first fault, as `value_in` gives it.
/// The program's functions are numbered for this one call.
pub fn value_of(
    alloc: Global,
    scopes: &mut Scopes,
    program: &Program,
    scope: u32,
    expr: &Expr,
    meter: &mut Meter,
) -> Result<Value, Stop>
    requires { IsScopeOf (block_table (program_of program.now)) (rows_of scopes.old) scope }
    ensures value { GivesValue scopes.old meter.old meter.new
        (env_in (block_table (program_of program.now)) (env_of (rows_of scopes.old) scope))
        (term_of expr.now) result }
    ensures kept { KeepsAllButTurns scopes.old scopes.new meter.old meter.new }
{
    let source = Source::of(alloc, program)?;
    value_in(alloc, scopes, &source, scope, expr, meter)
}
