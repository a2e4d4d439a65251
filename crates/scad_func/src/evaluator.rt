//! Evaluates expressions, one function for each form.

ghost use Rattle.std.specs.Prelude.{◌≡◌, ◌≤◌, IfOk, Ok, None, length, true, false, if◌then◌else◌};
ghost use Rattle.scad_ast.specs.Terms.{terms_from, args_from, suffixes_from, links_from};
ghost use Rattle.scad_ast.specs.ExprView.{term_of, terms_of, args_of, suffix_of, suffixes_of, link_of, links_of};
ghost use Rattle.scad_ast.specs.StatementView.{param_of, params_of};
ghost use Rattle.scad_value.specs.Values.{ListVal, truth_of};
ghost use Rattle.scad_value.specs.Operators.{value_or_long_list, unary_of};
ghost use Rattle.scad_value.specs.BoundedView.{bounded_val};
ghost use Rattle.scad_definitions.specs.Arguments.{no_arguments_of};
ghost use Rattle.scad_definitions.specs.ArgumentsView.{names_in};
ghost use Rattle.scad_func.specs.Meaning.{Gives, then_with, outcome_of_answer, value_at_next_depth, value_here, each_value, each_argument, each_parameter, parameter_value, function_value, function_call_value, each_suffix, each_link, call_value, visible_function, count_elements};
ghost use Rattle.scad_value.specs.Answers.{range_of, stepped_range_of};
ghost use Rattle.scad_func.specs.Steps.{all_values, suffix_value, link_value, with_parameters};
ghost use Rattle.scad_definitions.specs.TextView.{function_of};
ghost use Rattle.scad_func.specs.View.{MeetsOutcome, values_seen, indexed_val, HasIndexedValue, bound_argument_of, bound_arguments_in, arguments_of, function_size, greatest_depth};
ghost use Rattle.scad_func.specs.Evaluations.{KeepsEvaluation, EvaluatesTo, numbered_env_here, expression_context_here};
ghost use Rattle.scad_func.specs.Transitions.{EvaluatesParameters};

use crate::{
    BoundedValues, EVALUATIONS, Evaluation, Indexed, TURNS, apply_builtin, argument_value,
    built_in_for, list_value, text_of,
};
use scad_ast::{Args, Expr, Exprs, Link, Links, Param, Params, Suffix, Suffixes, UnaryOp};
use scad_scope::{ArgumentsSoFar, CallArguments, Function, Names, positional_after};
use scad_value::{
    BoundedValue, Value, binary_value, is_true, range_value, stepped_range_value, unary_value,
    wants_right, with,
};
use std::mem;
use text_place::{FaultKind, Place, Stop};

/// The value of an expression in the current scope, whose elements are counted where it is a list.
///
/// At 512 evaluations in one another, each through many forms, it takes less than 4 MiB of the stack: 2.0 MiB were
/// measured. No contract speaks of the stack.
#[cycle(value)]
#[tactic(auto, using(crate::proofs::lemmas::Kept::keeps_trans))]
pub fn evaluate(evaluation: &mut Evaluation<'_, '_>, expr: &Expr) -> Result<BoundedValue, Stop>
    ensures { EvaluatesTo bounded_val evaluation.old evaluation.new result (λ here.
        value_at_next_depth here true (term_of expr.now)) }
{
    let value = at_next_depth(evaluation, expr)?;
    count_elements(evaluation, value, expr.place())
}

// The value of an expression, one evaluation deeper.
#[cycle(value)]
fn at_next_depth(evaluation: &mut Evaluation<'_, '_>, expr: &Expr) -> Result<BoundedValue, Stop>
    ensures { EvaluatesTo bounded_val evaluation.old evaluation.new result (λ here.
        value_at_next_depth here false (term_of expr.now)) }
{
    if evaluation.depth == EVALUATIONS {
        return Err(FaultKind::TooDeep.at(expr.place()));
    }
    evaluation.depth += 1;
    let value = operand(evaluation, expr);
    evaluation.depth -= 1;
    value
}

// The value of an expression at its own depth. Each form stands in a function that is not inlined, so that the
// stack holds the locals of the forms that are met alone.
#[cycle(value)]
fn operand(evaluation: &mut Evaluation<'_, '_>, expr: &Expr) -> Result<BoundedValue, Stop>
    ensures { EvaluatesTo bounded_val evaluation.old evaluation.new result (λ here.
        value_here here (term_of expr.now)) }
{
    match expr {
        Expr::Number(_, n) => Ok(BoundedValue {
            value: Value::Number(n.get() as i64),
        }),
        Expr::Text(_, bytes) => text_of(evaluation.alloc, bytes),
        Expr::Truth(_, truth) => Ok(BoundedValue {
            value: Value::Truth(*truth),
        }),
        Expr::Undef(_) => Ok(BoundedValue {
            value: Value::Undef,
        }),
        Expr::ChildCount(place) => evaluation.child_count(*place),
        Expr::Name(place, name) => evaluation.variable_of(name.items(), *place),
        Expr::Special(place, name) => evaluation.special_of(name.items(), *place),
        Expr::Call(place, parts) => call(evaluation, parts.name.items(), *place, &parts.args),
        Expr::Paren(_, inner) => evaluate(evaluation, inner),
        Expr::List(place, items) => list(evaluation, items, *place),
        Expr::Range(place, parts) => range(evaluation, &parts.from, &parts.to, *place),
        Expr::SteppedRange(place, parts) => {
            stepped_range(evaluation, &parts.from, &parts.step, &parts.to, *place)
        }
        Expr::Postfix(_, parts) => postfix(evaluation, &parts.of, &parts.suffixes),
        Expr::Unary(place, op, of) => unary(evaluation, *op, of, *place),
        Expr::Chain(_, parts) => operators(evaluation, &parts.first, &parts.links),
        Expr::Choice(_, parts) => choice(evaluation, &parts.test, &parts.yes, &parts.no),
    }
}

// The list of expressions.
#[cycle(value)]
#[inline(never)]
#[tactic(auto, using(crate::proofs::lemmas::Kept::keeps_trans))]
fn list(
    evaluation: &mut Evaluation<'_, '_>,
    items: &Exprs,
    place: Place,
) -> Result<BoundedValue, Stop>
    ensures { EvaluatesTo bounded_val evaluation.old evaluation.new result (λ here turns.
        then_with (each_value here (terms_from (terms_of items.now)) turns) (λ turns vs.
        outcome_of_answer (value_or_long_list (Ok (ListVal vs))) place turns)) }
{
    let values = each_value(evaluation, items)?;
    list_value(values, place)
}

// An operator and its operand, which is one evaluation deeper.
#[cycle(value)]
#[inline(never)]
#[tactic(auto, using(crate::proofs::lemmas::Kept::keeps_trans))]
fn unary(
    evaluation: &mut Evaluation<'_, '_>,
    op: UnaryOp,
    of: &Expr,
    place: Place,
) -> Result<BoundedValue, Stop>
    ensures { EvaluatesTo bounded_val evaluation.old evaluation.new result (λ here turns.
        then_with (value_at_next_depth here false (term_of of.now) turns) (λ turns v.
        outcome_of_answer (unary_of op v) place turns)) }
{
    let value = at_next_depth(evaluation, of)?;
    unary_value(evaluation.alloc, op, value, place)
}

// The values of expressions, from the first on.
#[cycle(value)]
#[inline(never)]
#[tactic(auto, using(crate::proofs::lemmas::Kept::keeps_trans))]
fn each_value(evaluation: &mut Evaluation<'_, '_>, exprs: &Exprs) -> Result<BoundedValues, Stop>
    ensures { EvaluatesTo values_seen evaluation.old evaluation.new result (λ here.
        each_value here (terms_from (terms_of exprs.now))) }
{
    let mut values = BoundedValues::new(evaluation.alloc);
    'each: for expr in &exprs.items {
        let next = evaluate(evaluation, expr);
        values = values.with_next(next)?;
    }
    Ok(values)
}

// The range of two expressions.
#[cycle(value)]
#[inline(never)]
#[tactic(auto, using(crate::proofs::lemmas::Kept::keeps_trans))]
fn range(
    evaluation: &mut Evaluation<'_, '_>,
    from: &Expr,
    upto: &Expr,
    place: Place,
) -> Result<BoundedValue, Stop>
    ensures { EvaluatesTo bounded_val evaluation.old evaluation.new result (λ here turns.
        then_with (value_at_next_depth here true (term_of from.now) turns) (λ turns a.
        then_with (value_at_next_depth here true (term_of upto.now) turns) (λ turns b.
        outcome_of_answer (range_of a b) place turns))) }
{
    let first = evaluate(evaluation, from)?;
    let next = evaluate(evaluation, upto);
    let (a, b) = with(first, next)?;
    range_value(a, b, place)
}

// The range of three expressions.
#[cycle(value)]
#[inline(never)]
#[tactic(auto, using(crate::proofs::lemmas::Kept::keeps_trans))]
fn stepped_range(
    evaluation: &mut Evaluation<'_, '_>,
    from: &Expr,
    by: &Expr,
    upto: &Expr,
    place: Place,
) -> Result<BoundedValue, Stop>
    ensures { EvaluatesTo bounded_val evaluation.old evaluation.new result (λ here turns.
        then_with (value_at_next_depth here true (term_of from.now) turns) (λ turns a.
        then_with (value_at_next_depth here true (term_of by.now) turns) (λ turns s.
        then_with (value_at_next_depth here true (term_of upto.now) turns) (λ turns b.
        outcome_of_answer (stepped_range_of a s b) place turns)))) }
{
    let a = evaluate(evaluation, from)?;
    let second = evaluate(evaluation, by);
    let (a, s) = with(a, second)?;
    let third = evaluate(evaluation, upto);
    let ((a, s), b) = with((a, s), third)?;
    stepped_range_value(a, s, b, place)
}

// The indexes and members behind an expression. A variable is lent where it stands.
#[cycle(value)]
#[inline(never)]
#[tactic(auto, using(crate::proofs::lemmas::Kept::keeps_trans))]
fn postfix(
    evaluation: &mut Evaluation<'_, '_>,
    of: &Expr,
    rest: &Suffixes,
) -> Result<BoundedValue, Stop>
    ensures { EvaluatesTo bounded_val evaluation.old evaluation.new result (λ here turns.
        then_with (value_here here (term_of of.now) turns) (λ turns v.
        each_suffix here v (suffixes_from (suffixes_of rest.now)) turns)) }
{
    if let Expr::Name(place, name) = of {
        let variable = evaluation.variable_there(name.items(), *place)?;
        return suffixes(evaluation, variable, rest);
    }
    let value = operand(evaluation, of)?;
    suffixes(evaluation, Indexed::Value(value), rest)
}

// The indexes and members behind what is indexed.
#[cycle(value)]
#[tactic(auto, using(crate::proofs::lemmas::Kept::keeps_trans))]
fn suffixes(
    evaluation: &mut Evaluation<'_, '_>,
    of: Indexed<'_>,
    rest: &Suffixes,
) -> Result<BoundedValue, Stop>
    requires there { HasIndexedValue (numbered_env_here evaluation.old) of }
    ensures { EvaluatesTo bounded_val evaluation.old evaluation.new result (λ here.
        each_suffix here (indexed_val (numbered_env_here evaluation.old) of.entry)
        (suffixes_from (suffixes_of rest.now))) }
{
    let mut so_far = suffix(evaluation, of, &rest.first)?;
    'each: for part in &rest.more {
        so_far = suffix(evaluation, Indexed::Value(so_far), part)?;
    }
    Ok(so_far)
}

// An index or a member.
#[cycle(value)]
fn suffix(
    evaluation: &mut Evaluation<'_, '_>,
    of: Indexed<'_>,
    part: &Suffix,
) -> Result<BoundedValue, Stop>
    requires there { HasIndexedValue (numbered_env_here evaluation.old) of }
    ensures { EvaluatesTo bounded_val evaluation.old evaluation.new result (λ here.
        suffix_value here (indexed_val (numbered_env_here evaluation.old) of.entry)
        (suffix_of part.now)) }
{
    match part {
        Suffix::Index(place, index) => {
            let next = evaluate(evaluation, index);
            let (of, at) = with(of, next)?;
            evaluation.item_of(of, at, *place)
        }
        Suffix::Member(place, name, name_place) => {
            evaluation.member_item(of, name, *name_place, *place)
        }
    }
}

// Operators of one level and what stands between them, from the left.
#[cycle(value)]
#[inline(never)]
#[tactic(auto, using(crate::proofs::lemmas::Kept::keeps_trans))]
fn operators(
    evaluation: &mut Evaluation<'_, '_>,
    first: &Expr,
    rest: &Links,
) -> Result<BoundedValue, Stop>
    ensures { EvaluatesTo bounded_val evaluation.old evaluation.new result (λ here turns.
        then_with (value_here here (term_of first.now) turns) (λ turns v.
        each_link here v (links_from (links_of rest.now)) turns)) }
{
    let left = operand(evaluation, first)?;
    links(evaluation, left, rest)
}

// Operators of one level behind a value, from the left.
#[cycle(value)]
#[tactic(auto, using(crate::proofs::lemmas::Kept::keeps_trans))]
fn links(
    evaluation: &mut Evaluation<'_, '_>,
    left: BoundedValue,
    rest: &Links,
) -> Result<BoundedValue, Stop>
    ensures { EvaluatesTo bounded_val evaluation.old evaluation.new result (λ here.
        each_link here (bounded_val left) (links_from (links_of rest.now))) }
{
    let mut so_far = link(evaluation, left, &rest.first)?;
    'each: for part in &rest.more {
        so_far = link(evaluation, so_far, part)?;
    }
    Ok(so_far)
}

// An operator and its right side. A variable on the right is lent where it stands.
#[cycle(value)]
fn link(
    evaluation: &mut Evaluation<'_, '_>,
    left: BoundedValue,
    part: &Link,
) -> Result<BoundedValue, Stop>
    ensures { EvaluatesTo bounded_val evaluation.old evaluation.new result (λ here.
        link_value here (bounded_val left) (link_of part.now)) }
{
    if !wants_right(part.op, &left) {
        return Ok(BoundedValue {
            value: Value::Truth(is_true(left)),
        });
    }
    if let Expr::Name(at, name) = &part.right {
        return evaluation.binary_with_variable(left, part, name, *at);
    }
    let next = operand(evaluation, &part.right);
    let (left, right) = with(left, next)?;
    binary_value(evaluation.alloc, part.op, left, right, part.place)
}

// One of two expressions, by a test.
#[cycle(value)]
#[inline(never)]
#[tactic(auto, using(crate::proofs::lemmas::Kept::keeps_trans))]
fn choice(
    evaluation: &mut Evaluation<'_, '_>,
    test: &Expr,
    yes: &Expr,
    no: &Expr,
) -> Result<BoundedValue, Stop>
    ensures { EvaluatesTo bounded_val evaluation.old evaluation.new result (λ here turns.
        then_with (value_here here (term_of test.now) turns) (λ turns v.
        value_at_next_depth here true (if truth_of v then term_of yes.now else term_of no.now)
        turns)) }
{
    let value = operand(evaluation, test)?;
    if is_true(value) {
        evaluate(evaluation, yes)
    } else {
        evaluate(evaluation, no)
    }
}

// A call: the source's functions go before built-in ones.
#[cycle(value)]
#[inline(never)]
fn call(
    evaluation: &mut Evaluation<'_, '_>,
    name: &[u8],
    place: Place,
    args: &Args,
) -> Result<BoundedValue, Stop>
    ensures { EvaluatesTo bounded_val evaluation.old evaluation.new result (λ here turns.
        call_value here place name.now (args_from (args_of args.now)) turns
        (visible_function here.env name.now)) }
{
    match evaluation.function(name) {
        Some((function, defining_scope, names)) => {
            let given = arguments(evaluation, names, args)?;
            let scope = evaluation.scope;
            evaluation.scope = defining_scope;
            let value = function_call(evaluation, function, given, place);
            evaluation.scope = scope;
            value
        }
        None => {
            let function = built_in_for(name, place, args)?;
            let values = each_positional(evaluation, args)?;
            apply_builtin(evaluation.alloc, function, values, place)
        }
    }
}

/// The arguments of a call, from the first on: each is matched to a parameter, or to its special
/// name, and then evaluated.
#[cycle(value)]
#[inline(never)]
#[tactic(auto, using(crate::proofs::lemmas::Kept::keeps_trans))]
pub fn arguments<'b>(
    evaluation: &mut Evaluation<'_, '_>,
    names: Names<'_>,
    args: &'b Args,
) -> Result<CallArguments<'b, BoundedValue>, Stop>
    ensures given { EvaluatesTo arguments_of evaluation.old evaluation.new result (λ here.
        each_argument here (names_in names.entry) 0 (args_from (args_of args.now))
        (no_arguments_of (length (names_in names.entry)))) }
    ensures count { IfOk result (λ given. length given.bound.items
        ≡ length (names_in names.entry)) }
{
    let mut so_far = ArgumentsSoFar::of(evaluation.alloc, names, &args.items)?;
    let mut positional: usize = 0;
    'each: for arg in &args.items {
        let free = so_far.destination_for(positional, arg);
        let (held, destination) = with(so_far, free)?;
        let next = evaluate(evaluation, argument_value(arg));
        so_far = held.with_next(evaluation.alloc, destination, next)?;
        positional = positional_after(positional, arg);
    }
    let ArgumentsSoFar { given, .. } = so_far;
    Ok(given)
}

// A call of a function of the source, one call deeper, in the scope of its definition.
#[cycle(value)]
#[inline(never)]
fn function_call(
    evaluation: &mut Evaluation<'_, '_>,
    function: Function<'_>,
    given: CallArguments<'_, BoundedValue>,
    place: Place,
) -> Result<BoundedValue, Stop>
    requires within { function_size function ≤ greatest_depth
        evaluation.old.source.now.blocks.functions.items }
    requires count { length given.bound.items ≡ length function.params.now.items.items }
    ensures { EvaluatesTo bounded_val evaluation.old evaluation.new result (λ here.
        function_call_value here place (function_of function.entry) (arguments_of given.entry)) }
{
    let begun = evaluation.begin_counted_call(place);
    let (given, ()) = with(given, begun)?;
    let value = function_value(evaluation, function, given);
    evaluation.end_call();
    value
}

// The value of a function. Its special arguments stand meanwhile, and are gone behind it.
#[cycle(value)]
#[inline(never)]
fn function_value(
    evaluation: &mut Evaluation<'_, '_>,
    function: Function<'_>,
    given: CallArguments<'_, BoundedValue>,
) -> Result<BoundedValue, Stop>
    requires count { length given.bound.items ≡ length function.params.now.items.items }
    ensures { EvaluatesTo bounded_val evaluation.old evaluation.new result (λ here.
        function_value here (function_of function.entry) (arguments_of given.entry)) }
{
    let CallArguments { bound, dynamic } = given;
    let begun = evaluation.push_bindings(dynamic);
    let (bound, before) = with(bound, begun)?;
    let value = with_defaults(evaluation, function, bound);
    evaluation.pop_bindings(before);
    value
}

// The value of a function, with its special arguments among the dynamic bindings: its parameters without an
// argument have their defaults, which are evaluated in the scope of its definition.
#[cycle(value)]
#[inline(never)]
fn with_defaults(
    evaluation: &mut Evaluation<'_, '_>,
    function: Function<'_>,
    bound: Vec<Option<BoundedValue>>,
) -> Result<BoundedValue, Stop>
    requires count { length bound.items ≡ length function.params.now.items.items }
    ensures { EvaluatesTo bounded_val evaluation.old evaluation.new result (λ here turns.
        then_with (each_parameter here (params_of function.entry.params.now)
        (bound_arguments_in bound.items) turns) (λ turns vs.
        with_parameters here (function_of function.entry) vs turns)) }
{
    let values = parameters(evaluation, function.params, bound)?;
    in_new_scope(evaluation, function, values)
}

// The value of a function with the values of its parameters, in a scope of its own.
#[cycle(value)]
#[inline(never)]
fn in_new_scope(
    evaluation: &mut Evaluation<'_, '_>,
    function: Function<'_>,
    values: BoundedValues,
) -> Result<BoundedValue, Stop>
    requires count { length values.items.items ≡ length function.params.now.items.items }
    ensures { EvaluatesTo bounded_val evaluation.old evaluation.new result (λ here.
        with_parameters here (function_of function.entry) (values_seen values)) }
{
    let before = evaluation.enter_empty()?;
    let value = match evaluation.bind_parameters(function.params, values) {
        Ok(()) => evaluate(evaluation, function.value),
        Err(_) => Err(Stop::NoMemory),
    };
    evaluation.leave(before);
    value
}

/// The values of parameters, from the first on.
#[cycle(value)]
#[inline(never)]
#[tactic(auto, using(crate::proofs::lemmas::Kept::keeps_trans))]
pub(crate) fn parameters(
    evaluation: &mut Evaluation<'_, '_>,
    params: &Params,
    bound: Vec<Option<BoundedValue>>,
) -> Result<BoundedValues, Stop>
    requires { length bound.items ≡ length params.now.items.items }
    ensures { EvaluatesParameters evaluation.old evaluation.new result
        (expression_context_here evaluation.old) params.now bound.items }
{
    let mut open = bound;
    let mut values = BoundedValues::new(evaluation.alloc);
    'each: for (i, param) in params.items.iter().enumerate() {
        let given = mem::replace(&mut open[i], None);
        let next = parameter(evaluation, param, given);
        let longer = values.with_next(next);
        (open, values) = with(open, longer)?;
    }
    drop(open);
    Ok(values)
}

// A parameter's value: what it was given, its default, or undef.
#[cycle(value)]
#[inline(never)]
fn parameter(
    evaluation: &mut Evaluation<'_, '_>,
    param: &Param,
    given: Option<BoundedValue>,
) -> Result<BoundedValue, Stop>
    ensures { EvaluatesTo bounded_val evaluation.old evaluation.new result (λ here.
        parameter_value here (param_of param.now) (bound_argument_of given)) }
{
    match given {
        Some(value) => Ok(value),
        None => match param {
            Param::Plain(_, _) => Ok(BoundedValue {
                value: Value::Undef,
            }),
            Param::WithDefault(_, _, value) => evaluate(evaluation, value),
        },
    }
}

// The values of all arguments, from the first on.
#[cycle(value)]
#[inline(never)]
#[tactic(auto, using(crate::proofs::lemmas::Kept::keeps_trans))]
fn each_positional(evaluation: &mut Evaluation<'_, '_>, args: &Args) -> Result<BoundedValues, Stop>
    ensures { EvaluatesTo values_seen evaluation.old evaluation.new result (λ here.
        each_value here (all_values (args_from (args_of args.now)))) }
{
    let mut values = BoundedValues::new(evaluation.alloc);
    'each: for arg in &args.items {
        let next = evaluate(evaluation, argument_value(arg));
        values = values.with_next(next)?;
    }
    Ok(values)
}

// A value whose elements are counted as turns, where it is a list. TooManyTurns where they are
// too many.
fn count_elements(
    evaluation: &mut Evaluation<'_, '_>,
    value: BoundedValue,
    place: Place,
) -> Result<BoundedValue, Stop>
    ensures value { MeetsOutcome bounded_val result evaluation.new.turns
        (count_elements place (Gives evaluation.old.turns (bounded_val value))) }
    ensures kept { KeepsEvaluation evaluation.old evaluation.new }
{
    if let Value::List(_) = &value.value {
        let turns = evaluation.turns + value.value.parts();
        if turns > TURNS {
            return Err(FaultKind::TooManyTurns.at(place));
        }
        evaluation.turns = turns;
    }
    Ok(value)
}
