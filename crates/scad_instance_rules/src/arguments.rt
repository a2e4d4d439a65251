//! The arguments of built-in modules, and their effects.

ghost use Rattle.std.specs.Prelude.{◌≡◌, IfOk, is_some, codes, if◌then◌else◌};
ghost use Rattle.text_place.specs.declared.fault.FaultKind.TheVariants.{NotInProfile, UnknownModule};
ghost use Rattle.scad_ast.specs.Terms.{args_from};
ghost use Rattle.scad_ast.specs.ExprView.{arg_of, args_of};
ghost use Rattle.scad_ast.specs.StatementView.{body_of};
ghost use Rattle.scad_scope.specs.Names.{find_in};
ghost use Rattle.scad_scope.specs.Table.{bindings_of};
ghost use Rattle.scad_definitions.specs.Arguments.{no_arguments_of};
ghost use Rattle.scad_definitions.specs.SoFarView.{only_arguments};
ghost use Rattle.scad_func.specs.View.{bound_arguments_in, arguments_of};
ghost use Rattle.scad_func.specs.Evaluations.{EvaluatesTo};
ghost use Rattle.scad_modules.specs.Bounds.{IsSafeCall};
ghost use Rattle.scad_modules.specs.Calls.{effect_of};
ghost use Rattle.scad_modules.specs.Table.{is_left_out_module};
ghost use Rattle.scad_modules.specs.View.{effect_call_of};
ghost use Rattle.scad_meaning.specs.Meaning.{arguments_for, each_echo_argument};
ghost use Rattle.scad_instance_rules.specs.Seen.{MeetsNoGeometry};
ghost use Rattle.scad_instance_rules.specs.Calls.{MeetsEffectAt, with_echo_argument};

use crate::bodies::is_bare;
use crate::joins::nothing_made;
use crate::position::{InstanceResult, Position};
use plane_predicate::Unit;
use scad_ast::{Arg, Args, Body};
use scad_func::{Evaluation, arguments, evaluate, with};
use scad_modules::{BuiltinModule, Effect, effect, is_left_out_module};
use scad_scope::{ArgumentsSoFar, CallArguments, Names};
use scad_value::{BoundedValue, ValueStop};
use text_place::{FaultKind, Place, Stop};

/// The effect of a call of a built-in module, in a unit. Its faults stand at the module's name.
pub fn effect_of(
    evaluation: &Evaluation<'_, '_>,
    unit: Unit,
    position: Position<'_, '_>,
    place: Place,
    built_in: BuiltinModule,
    bound: Vec<Option<BoundedValue>>,
) -> Result<Effect, Stop>
    ensures effect { MeetsEffectAt result place (effect_of unit (is_some position.entry.inside)
        (find_in (bindings_of evaluation.now.scopes.now) (codes "fn")) built_in
        (bound_arguments_in bound.items)) }
    ensures safe { IfOk result (λ effect. IsSafeCall (effect_call_of effect)) }
{
    let fragments = match evaluation.scopes.special(b"fn", place) {
        Ok(value) => Some(value),
        Err(_) => None,
    };
    let inside = position.inside.is_some();
    match effect(evaluation.alloc, unit, inside, fragments, built_in, &bound) {
        Ok(effect) => Ok(effect),
        Err(ValueStop::Kind(kind)) => Err(kind.at(place)),
        Err(ValueStop::NoMemory) => Err(Stop::NoMemory),
    }
}

/// The arguments of a call of a built-in module, from the first on. Those of `echo` may be any.
pub fn arguments_for<'b>(
    evaluation: &mut Evaluation<'_, '_>,
    built_in: BuiltinModule,
    args: &'b Args,
) -> Result<CallArguments<'b, BoundedValue>, Stop>
    ensures { EvaluatesTo arguments_of evaluation.old evaluation.new result
        (λ here. arguments_for built_in here (args_from (args_of args.now))) }
{
    if built_in == BuiltinModule::Echo {
        return echo_arguments(evaluation, args);
    }
    let names = Names::Listed(built_in.parameters());
    arguments(evaluation, names, args)
}

// The arguments of `echo`, from the first on: a name may come twice, a special name may not.
fn echo_arguments<'b>(
    evaluation: &mut Evaluation<'_, '_>,
    args: &'b Args,
) -> Result<CallArguments<'b, BoundedValue>, Stop>
    ensures { EvaluatesTo arguments_of evaluation.old evaluation.new result
        (λ here. each_echo_argument here (args_from (args_of args.now)) (no_arguments_of 0)) }
{
    let mut so_far = ArgumentsSoFar::of(evaluation.alloc, Names::Listed(&[]), &args.items)?;
    'each: for arg in &args.items {
        so_far = echo_argument(evaluation, so_far, arg)?;
    }
    let ArgumentsSoFar { given, .. } = so_far;
    Ok(given)
}

// The arguments of `echo` with one more, which gives something where it is a special one.
fn echo_argument<'n, 'b>(
    evaluation: &mut Evaluation<'_, '_>,
    so_far: ArgumentsSoFar<'n, 'b, BoundedValue>,
    arg: &'b Arg,
) -> Result<ArgumentsSoFar<'n, 'b, BoundedValue>, Stop>
    ensures { EvaluatesTo arguments_of evaluation.old evaluation.new (only_arguments result)
        (λ here. with_echo_argument here (arg_of arg.now) (arguments_of so_far.entry.given)) }
{
    match arg {
        Arg::Special(_, _, value) => {
            let free = so_far.destination_for(0, arg);
            let (held, destination) = with(so_far, free)?;
            let next = evaluate(evaluation, value);
            held.with_next(evaluation.alloc, destination, next)
        }
        Arg::Named(_, _, value) | Arg::Positional(value) => {
            let echo_arguments = evaluate(evaluation, value);
            let (held, _) = with(so_far, echo_arguments)?;
            Ok(held)
        }
    }
}

/// The kind of fault of a name that no module has.
pub fn unknown_module(name: &[u8]) -> FaultKind
    ensures { result ≡ if is_left_out_module name.now then NotInProfile else UnknownModule }
{
    if is_left_out_module(name) {
        return FaultKind::NotInProfile;
    }
    FaultKind::UnknownModule
}

/// A call that has no geometry has no body.
pub fn without_geometry(place: Place, body: &Body) -> Result<InstanceResult, Stop>
    ensures { MeetsNoGeometry result place (body_of body.now) }
{
    if is_bare(body) {
        return Ok(nothing_made());
    }
    Err(FaultKind::NotInProfile.at(place))
}
