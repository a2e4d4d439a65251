//! Calls of transforms.

ghost use Rattle.std.specs.Prelude.{◌≡◌, ◌<◌, ◌≤◌, ◌&&◌, true, false, nat_eq, unsigned_abs, Ok, [], ◌∷◌, IfOk, IfSome, MatchResult};
ghost use Rattle.text_place.specs.declared.fault.FaultKind.TheVariants.{TooLarge};
ghost use Rattle.plane_predicate.specs.Space.{point_at};
ghost use Rattle.int_transform.specs.Maps.{HasSafeCoordinates};
ghost use Rattle.scad_modules.specs.ArgumentView.{bound_arguments_in};
ghost use Rattle.scad_modules.specs.Effects.{a_move};
ghost use Rattle.scad_modules.specs.Transforms.{is_zero, is_past_safe_size, vector_on_grid, some_component, leaves_plane, tilts_plane, translate_effect, is_skew, quarters_of, quarter_rotation_about, quarter_rotations, rotate_effect, is_only_nonzero, axis_of, mirror_effect, factors_for, scale_effect};
ghost use Rattle.scad_modules.specs.View.{MeetsEffect, GivesSafe};
ghost use Rattle.primitives.specs.Sizes.{length_in_grid_steps};

use crate::effects::Effect;
use crate::{angles, coordinates, factors, is_given, required_argument};
use int_transform::Step;
use plane_predicate::Unit;
use scad_value::{BoundedValue, ValueStop, product_of_two};
use std::alloc::Global;
use text_place::FaultKind;

/// The effect of `translate`, or its first fault: BadArgument, TypeMismatch, WrongDimension or
/// TooLarge.
pub(crate) fn translate(
    alloc: Global,
    unit: Unit,
    inside: bool,
    bound: &[Option<BoundedValue>],
) -> Result<Effect, ValueStop>
    ensures effect { MeetsEffect result (translate_effect unit inside
        (bound_arguments_in bound.now)) }
    ensures safe { GivesSafe result }
{
    let by = coordinates(&required_argument(bound, 0)?.value, 0).ok_or(FaultKind::TypeMismatch)?;
    if leaves_plane(inside, by) {
        return Err(ValueStop::Kind(FaultKind::WrongDimension));
    }
    let by = vector_on_grid(unit, by)?;
    moved(alloc, Step::move_by(by))
}

/// The effect of `rotate`, or its first fault: BadArgument, NotInProfile, TypeMismatch, NotQuarter
/// or WrongDimension.
pub(crate) fn rotate(
    alloc: Global,
    inside: bool,
    bound: &[Option<BoundedValue>],
) -> Result<Effect, ValueStop>
    ensures effect { MeetsEffect result (rotate_effect inside (bound_arguments_in bound.now)) }
    ensures safe { GivesSafe result }
{
    let angle = required_argument(bound, 0)?;
    if is_given(bound, 1) {
        return Err(ValueStop::Kind(FaultKind::NotInProfile));
    }
    let by = angles(&angle.value).ok_or(FaultKind::TypeMismatch)?;
    if are_skew(by) {
        return Err(ValueStop::Kind(FaultKind::NotQuarter));
    }
    if tilts_plane(inside, by) {
        return Err(ValueStop::Kind(FaultKind::WrongDimension));
    }
    rotation(alloc, by)
}

/// The effect of `mirror`, or its first fault: BadArgument, TypeMismatch, NotInProfile or
/// WrongDimension.
pub(crate) fn mirror(
    alloc: Global,
    inside: bool,
    bound: &[Option<BoundedValue>],
) -> Result<Effect, ValueStop>
    ensures effect { MeetsEffect result (mirror_effect inside (bound_arguments_in bound.now)) }
    ensures safe { GivesSafe result }
{
    let by = coordinates(&required_argument(bound, 0)?.value, 0).ok_or(FaultKind::TypeMismatch)?;
    let axis = axis_of(by).ok_or(FaultKind::NotInProfile)?;
    if is_across_plane(inside, axis) {
        return Err(ValueStop::Kind(FaultKind::WrongDimension));
    }
    moved(alloc, Step::mirror(axis))
}

/// The effect of `scale`, or its first fault: BadArgument, TypeMismatch or Singular.
pub(crate) fn scale(
    alloc: Global,
    inside: bool,
    bound: &[Option<BoundedValue>],
) -> Result<Effect, ValueStop>
    ensures effect { MeetsEffect result (scale_effect inside (bound_arguments_in bound.now)) }
    ensures safe { GivesSafe result }
{
    let by = factors(&required_argument(bound, 0)?.value).ok_or(FaultKind::TypeMismatch)?;
    if has_zero(by) {
        return Err(ValueStop::Kind(FaultKind::Singular));
    }
    match Step::scale(factors_for(inside, by)) {
        Some(step) => moved(alloc, step),
        None => Err(ValueStop::Kind(FaultKind::Singular)),
    }
}

/// The move by one step.
pub(crate) fn moved(alloc: Global, step: Step) -> Result<Effect, ValueStop>
    ensures effect { MeetsEffect result (Ok (a_move (step ∷ []))) }
    ensures safe { GivesSafe result }
{
    Ok(Effect::Move(vec![in alloc; step]?))
}

/// A length in grid steps, or TooLarge where these are past 2^53 - 1 in size.
pub(crate) fn length_in_steps(unit: Unit, length: i64) -> Result<i64, FaultKind>
    ensures value { MatchResult result (λ steps. (steps ≡ length_in_grid_steps unit length)
        × (is_past_safe_size (length_in_grid_steps unit length) ≡ false))
        (λ kind. (kind ≡ TooLarge) × (is_past_safe_size (length_in_grid_steps unit length) ≡ true)) }
    ensures safe { IfOk result (λ steps. unsigned_abs steps ≤ 9007199254740991) }
{
    product_of_two(unit.per(), length)
}

// A vector in grid steps, or TooLarge where a number of it is past 2^53 - 1 in size.
fn vector_on_grid(unit: Unit, by: [i64; 3]) -> Result<[i64; 3], FaultKind>
    ensures value { MatchResult result (λ vector. (vector ≡ vector_on_grid unit by)
        × (some_component is_past_safe_size (vector_on_grid unit by) ≡ false))
        (λ kind. (kind ≡ TooLarge) × (some_component is_past_safe_size (vector_on_grid unit by) ≡ true)) }
    ensures safe { IfOk result (λ vector. HasSafeCoordinates (point_at vector)) }
{
    let x = length_in_steps(unit, by[0])?;
    let y = length_in_steps(unit, by[1])?;
    let z = length_in_steps(unit, by[2])?;
    Ok([x, y, z])
}

// Whether a vector leaves the plane inside an extrusion.
fn leaves_plane(inside: bool, by: [i64; 3]) -> bool
    ensures { result ≡ leaves_plane inside by }
{
    inside && by[2] != 0
}

// Whether angles rotate about x or y inside an extrusion.
fn tilts_plane(inside: bool, angles: [i64; 3]) -> bool
    ensures { result ≡ tilts_plane inside angles }
{
    inside && !(angles[0] == 0 && angles[1] == 0)
}

// Whether an angle is no number of quarter rotations.
fn is_skew(angle: i64) -> bool
    ensures { result ≡ is_skew angle }
{
    angle.unsigned_abs() % 90 != 0
}

// Whether one of three angles is no number of quarter rotations.
fn are_skew(angles: [i64; 3]) -> bool
    ensures { result ≡ some_component is_skew angles }
{
    is_skew(angles[0]) || is_skew(angles[1]) || is_skew(angles[2])
}

// How many quarter rotations an angle is, from 0 to 3.
fn quarters(angle: i64) -> u8
    ensures value { result ≡ quarters_of angle }
    ensures few { result < 4 }
{
    let quarters = (angle.unsigned_abs() / 90 % 4) as u8;
    if angle < 0 {
        (4 - quarters) % 4
    } else {
        quarters
    }
}

// The rotations about x, then y, then z.
fn rotation(alloc: Global, by: [i64; 3]) -> Result<Effect, ValueStop>
    ensures effect { MeetsEffect result (Ok (a_move (quarter_rotations by))) }
    ensures safe { GivesSafe result }
{
    let steps = vec![in alloc;
        quarter_turns_about(0, by[0]),
        quarter_turns_about(1, by[1]),
        quarter_turns_about(2, by[2]),
    ]?;
    Ok(Effect::Move(steps))
}

// The rotation about axis 0, 1 or 2 by the given number of quarter rotations as an angle is.
fn quarter_turns_about(axis: u8, angle: i64) -> Step
    requires { axis < 3 }
    ensures { result ≡ quarter_rotation_about axis angle }
{
    Step::quarter(axis, quarters(angle))
}

// The one axis along which a vector goes.
fn axis_of(by: [i64; 3]) -> Option<u8>
    ensures value { result ≡ axis_of by }
    ensures axis { IfSome result (λ axis. axis < 3) }
{
    let [x, y, z] = by;
    if is_alone(x, y, z) {
        Some(0)
    } else if is_alone(y, x, z) {
        Some(1)
    } else if is_alone(z, x, y) {
        Some(2)
    } else {
        None
    }
}

// Whether a number isn't 0 while two others are.
fn is_alone(n: i64, m: i64, k: i64) -> bool
    ensures { result ≡ is_only_nonzero n m k }
{
    n != 0 && m == 0 && k == 0
}

// Whether an axis leaves the plane inside an extrusion.
fn is_across_plane(inside: bool, axis: u8) -> bool
    ensures { result ≡ (inside && nat_eq axis 2) }
{
    inside && axis == 2
}

// Whether one of three factors is 0.
fn has_zero(by: [i64; 3]) -> bool
    ensures { result ≡ some_component is_zero by }
{
    by[0] == 0 || by[1] == 0 || by[2] == 0
}

// The factors of a scaling, which inside an extrusion has no effect along z.
fn factors_for(inside: bool, by: [i64; 3]) -> [i64; 3]
    ensures { result ≡ factors_for inside by }
{
    if inside { [by[0], by[1], 1] } else { by }
}
