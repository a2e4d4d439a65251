//! Calls of built-in modules.

ghost use Rattle.std.specs.Prelude.{◌≡◌};
ghost use Rattle.scad_value.specs.View.{val_of};
ghost use Rattle.scad_modules.specs.Reading.{bound_argument, or_default};
ghost use Rattle.scad_modules.specs.ArgumentView.{bound_arguments_in, ReadsArgumentAs};
ghost use Rattle.scad_modules.specs.Calls.{chosen_in, assert_effect, children_effect, effect_of, hull_effect};
ghost use Rattle.scad_modules.specs.Effects.{all_children};
ghost use Rattle.scad_modules.specs.View.{fragments_of, chosen_of, MeetsEffect, GivesSafe};

use crate::effects::{Chosen, Effect};
use crate::matrix::multmatrix;
use crate::shapes::{circle, cube, cylinder, linear_extrude, polygon, polyhedron, square};
use crate::table::BuiltinModule;
use crate::transforms::{mirror, rotate, scale, translate};
use crate::{bound_argument, numbers, required_argument};
use csg_tree::Op;
use plane_predicate::Unit;
use scad_value::{BoundedValue, Value, ValueStop, truth};
use std::alloc::Global;
use text_place::FaultKind;

/// What a call of a built-in module does, or its first fault, of which each stands at the module's
/// name: BadArgument where an argument that has no default is missing, NotInProfile where one is
/// given that the profile leaves out, TypeMismatch, the module's own, WrongDimension, and TooLarge
/// where a move is past 2^53 - 1 grid steps. Faults of circles and cylinders have an order of their
/// own, as their calls say.
///
/// `inside` says whether the call stands inside an extrusion, `fragments` is the value of `$fn`,
/// and `bound` has a value or none for each of the module's parameters in order; a missing one is
/// none. Numbers of sizes, radii and heights, and those by which children are chosen, are at most
/// 2^53 - 1 in size.
pub fn effect(
    alloc: Global,
    unit: Unit,
    inside: bool,
    fragments: Option<&Value>,
    called: BuiltinModule,
    bound: &[Option<BoundedValue>],
) -> Result<Effect, ValueStop>
    ensures effect { MeetsEffect result (effect_of unit inside (fragments_of fragments.entry) called
        (bound_arguments_in bound.now)) }
    ensures safe { GivesSafe result }
{
    match called {
        BuiltinModule::Cube => cube(inside, bound),
        BuiltinModule::Polyhedron => polyhedron(alloc, inside, bound),
        BuiltinModule::Cylinder => cylinder(inside, fragments, bound),
        BuiltinModule::Square => square(inside, bound),
        BuiltinModule::Polygon => polygon(alloc, inside, bound),
        BuiltinModule::Circle => circle(inside, fragments, bound),
        BuiltinModule::LinearExtrude => linear_extrude(inside, bound),
        BuiltinModule::Translate => translate(alloc, unit, inside, bound),
        BuiltinModule::Rotate => rotate(alloc, inside, bound),
        BuiltinModule::Mirror => mirror(alloc, inside, bound),
        BuiltinModule::Scale => scale(alloc, inside, bound),
        BuiltinModule::Multmatrix => multmatrix(alloc, unit, inside, bound),
        BuiltinModule::Union | BuiltinModule::Color | BuiltinModule::Render => {
            Ok(Effect::Join(Op::Union))
        }
        BuiltinModule::Difference => Ok(Effect::Join(Op::Difference)),
        BuiltinModule::Intersection => Ok(Effect::Join(Op::Intersection)),
        BuiltinModule::Hull => hull(inside),
        BuiltinModule::Echo => Ok(Effect::Nothing),
        BuiltinModule::Assert => asserted(bound),
        BuiltinModule::Children => children(alloc, bound),
    }
}

// The effect of `hull`, or WrongDimension.
fn hull(inside: bool) -> Result<Effect, ValueStop>
    ensures effect { MeetsEffect result (hull_effect inside) }
    ensures safe { GivesSafe result }
{
    if inside {
        return Err(ValueStop::Kind(FaultKind::WrongDimension));
    }
    Ok(Effect::Hull)
}

// The effect of `assert`, or its first fault: BadArgument or AssertFailed.
fn asserted(bound: &[Option<BoundedValue>]) -> Result<Effect, ValueStop>
    ensures effect { MeetsEffect result (assert_effect (bound_arguments_in bound.now)) }
    ensures safe { GivesSafe result }
{
    if !truth(&required_argument(bound, 0)?.value) {
        return Err(ValueStop::Kind(FaultKind::AssertFailed));
    }
    Ok(Effect::Nothing)
}

// The effect of `children`, or TypeMismatch.
fn children(alloc: Global, bound: &[Option<BoundedValue>]) -> Result<Effect, ValueStop>
    ensures effect { MeetsEffect result (children_effect (bound_arguments_in bound.now)) }
    ensures safe { GivesSafe result }
{
    Ok(Effect::Children(chosen(alloc, bound)?))
}

// Which children are wanted: all, where no index is given.
fn chosen(alloc: Global, bound: &[Option<BoundedValue>]) -> Result<Chosen, ValueStop>
    ensures { ReadsArgumentAs chosen_of result
        (or_default all_children chosen_in (bound_argument (bound_arguments_in bound.now) 0)) }
{
    match bound_argument(bound, 0) {
        Some(value) => chosen_by(alloc, &value.value),
        None => Ok(Chosen::All),
    }
}

// Children by one number, by a range, or by a list of numbers.
fn chosen_by(alloc: Global, value: &Value) -> Result<Chosen, ValueStop>
    ensures { ReadsArgumentAs chosen_of result (chosen_in (val_of value.now)) }
{
    match value {
        Value::Number(n) => Ok(Chosen::Numbered(vec![in alloc; *n]?)),
        Value::Range { from, by, upto } => Ok(Chosen::Range {
            from: *from,
            by: *by,
            upto: *upto,
        }),
        Value::List(_) => Ok(Chosen::Numbered(numbers(alloc, value)?)),
        _ => Err(ValueStop::Kind(FaultKind::TypeMismatch)),
    }
}
