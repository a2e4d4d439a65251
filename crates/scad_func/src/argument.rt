//! Calls of built-in functions, and an argument's value.

ghost use Rattle.std.specs.Prelude.{◌≡◌, ◌<◌, ℕ, IfOk, IfErr, Err, if◌then◌else◌};
ghost use Rattle.text_place.specs.declared.fault.FaultKind.TheVariants.{UnknownFunction, NotInProfile};
ghost use Rattle.scad_ast.specs.ExprView.{term_of, arg_of, args_of};
ghost use Rattle.scad_ast.specs.declared.expression.Expr.{size-Expr};
ghost use Rattle.scad_ast.specs.declared.expression.Arg.{size-Arg};
ghost use Rattle.scad_ast.specs.Terms.{args_from};
ghost use Rattle.scad_builtin.specs.Builtins.{builtin_value, builtin_of, is_left_out_function};
ghost use Rattle.scad_func.specs.Meaning.{ExpressionContext, then_with, outcome_of_answer, each_value, built_in_call_value};
ghost use Rattle.scad_func.specs.Steps.{have_no_names, is_named, all_values, argument_of};
ghost use Rattle.scad_value.specs.BoundedView.{bounded_val};
ghost use Rattle.scad_func.specs.View.{MeetsOutcome};

use scad_ast::{Arg, Args, Expr};
use scad_builtin::{Builtin, builtin, is_left_out_function};
use text_place::{FaultKind, Place, Stop};

// Whether no argument has a name.
fn have_no_names(args: &Args) -> bool
    ensures { result ≡ have_no_names (args_from (args_of args.now)) }
{
    for arg in &args.items {
        if has_name(arg) {
            return false;
        }
    }
    true
}

fn has_name(arg: &Arg) -> bool
    ensures { result ≡ is_named (arg_of arg.now) }
{
    match arg {
        Arg::Named(_, _, _) | Arg::Special(_, _, _) => true,
        Arg::Positional(_) => false,
    }
}

/// The value of an argument, as an expression.
pub(crate) fn argument_value(arg: &Arg) -> &Expr
    ensures value { term_of result.now ≡ argument_of (arg_of arg.now) }
    ensures smaller { size-Expr result.now < size-Arg arg.now }
{
    match arg {
        Arg::Named(_, _, value) | Arg::Special(_, _, value) => value,
        Arg::Positional(value) => value,
    }
}

/// The built-in function of a call, whose faults stand at its name.
pub(crate) fn built_in_for(name: &[u8], place: Place, args: &Args) -> Result<Builtin, Stop>
    ensures called { IfOk result (λ f. (here : ExpressionContext) (turns : ℕ)
        → built_in_call_value here place name.now (args_from (args_of args.now)) turns
        (builtin_of name.now)
        ≡ then_with (each_value here (all_values (args_from (args_of args.now))) turns) (λ turns vs.
        outcome_of_answer (builtin_value f vs) place turns)) }
    ensures refused { IfErr result (λ stop. (here : ExpressionContext) (turns n : ℕ) →
        MeetsOutcome bounded_val (Err stop) n
        (built_in_call_value here place name.now (args_from (args_of args.now)) turns
        (builtin_of name.now))) }
{
    let Some(function) = builtin(name) else {
        return Err(unknown_function(name).at(place));
    };
    if !have_no_names(args) || !function.takes(args.items.len()) {
        return Err(FaultKind::BadArgument.at(place));
    }
    Ok(function)
}

// The kind of fault of a name that no function has.
fn unknown_function(name: &[u8]) -> FaultKind
    ensures { result ≡ if is_left_out_function name.now then NotInProfile else UnknownFunction }
{
    if is_left_out_function(name) {
        return FaultKind::NotInProfile;
    }
    FaultKind::UnknownFunction
}
