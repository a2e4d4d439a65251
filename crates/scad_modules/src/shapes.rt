//! Calls of shapes and of extrusion.

ghost use Rattle.std.specs.Prelude.{◌≡◌, ◌&&◌, ◌||◌, [], ◌∷◌, pos, not, is_some, All, IfOk};
ghost use Rattle.std.specs.Ordering.{int_eq};
ghost use Rattle.primitives.specs.Sizes.{IsSafe};
ghost use Rattle.scad_modules.specs.Reading.{bound_argument, number_in_value, or_default, sides_in};
ghost use Rattle.scad_modules.specs.ArgumentView.{bound_arguments_in, ReadsArgument};
ghost use Rattle.scad_modules.specs.Shapes.{fragments_in, cube_effect, polyhedron_effect, square_effect, polygon_effect, circle_effect, cylinder_effect, extrude_effect};
ghost use Rattle.scad_modules.specs.View.{fragments_of, MeetsEffect, GivesSafe};

use crate::effects::{Effect, FlatShape, SolidShape};
use crate::{
    bound_argument, faces, flat_points, found_number, is_centered, is_given, number, points,
    required_argument, three_sides, two_sides,
};
use scad_value::{BoundedValue, Value, ValueStop};
use std::alloc::Global;
use text_place::FaultKind;

// Parameters by their numbers, in the order of their names: `size` of `cube` and `square`.
const SIZE: usize = 0;

// `center` of `cube` and `square`.
const CENTER: usize = 1;

// `points` of `polyhedron` and `polygon`.
const POINTS: usize = 0;

// `faces` of `polyhedron`.
const FACES: usize = 1;

// `paths` of `polygon`, which the profile leaves out.
const PATHS: usize = 1;

// `h` of `cylinder`.
const CYLINDER_HEIGHT: usize = 0;

// `r1` of `cylinder`.
const CYLINDER_LOW: usize = 1;

// `r2` of `cylinder`.
const CYLINDER_HIGH: usize = 2;

// `center` of `cylinder`.
const CYLINDER_CENTER: usize = 3;

// `r` of `cylinder`.
const CYLINDER_RADIUS: usize = 4;

// `d` of `cylinder`, which the profile leaves out.
const CYLINDER_DIAMETER: usize = 5;

// `d1` of `cylinder`, which the profile leaves out.
const CYLINDER_LOW_DIAMETER: usize = 6;

// `d2` of `cylinder`, which the profile leaves out.
const CYLINDER_HIGH_DIAMETER: usize = 7;

// `r` of `circle`.
const CIRCLE_RADIUS: usize = 0;

// `d` of `circle`, which the profile leaves out.
const CIRCLE_DIAMETER: usize = 1;

// `height` of `linear_extrude`.
const EXTRUSION_HEIGHT: usize = 0;

// `center` of `linear_extrude`.
const EXTRUSION_CENTER: usize = 1;

// `twist` of `linear_extrude`, which the profile leaves out.
const EXTRUSION_TWIST: usize = 3;

// `scale` of `linear_extrude`, which the profile leaves out.
const EXTRUSION_SCALE: usize = 4;

// `slices` of `linear_extrude`, which the profile leaves out.
const EXTRUSION_SLICES: usize = 5;

// How many fragments a circle must have.
const FRAGMENTS: i64 = 4;

/// The effect of `cube`, or its first fault: TypeMismatch or WrongDimension.
pub(crate) fn cube(inside: bool, bound: &[Option<BoundedValue>]) -> Result<Effect, ValueStop>
    ensures effect { MeetsEffect result (cube_effect inside (bound_arguments_in bound.now)) }
    ensures safe { GivesSafe result }
{
    let size = cube_size(bound)?;
    let center = is_centered(bound, CENTER)?;
    if inside {
        return Err(ValueStop::Kind(FaultKind::WrongDimension));
    }
    Ok(Effect::Solid(SolidShape::Cube { size, center }))
}

/// The effect of `polyhedron`, or its first fault: BadArgument, TypeMismatch or WrongDimension.
pub(crate) fn polyhedron(
    alloc: Global,
    inside: bool,
    bound: &[Option<BoundedValue>],
) -> Result<Effect, ValueStop>
    ensures effect { MeetsEffect result (polyhedron_effect inside (bound_arguments_in bound.now)) }
    ensures safe { GivesSafe result }
{
    let point_list = required_argument(bound, POINTS)?;
    let face_list = required_argument(bound, FACES)?;
    let points = points(alloc, &point_list.value)?;
    let faces = faces(alloc, &face_list.value)?;
    if inside {
        return Err(ValueStop::Kind(FaultKind::WrongDimension));
    }
    Ok(Effect::Solid(SolidShape::Polyhedron { points, faces }))
}

/// The effect of `cylinder`, or its first fault: NotInProfile of a diameter, BadArgument,
/// TypeMismatch, WrongDimension, TypeMismatch of `$fn` or NotInProfile of it.
pub(crate) fn cylinder(
    inside: bool,
    fragments: Option<&Value>,
    bound: &[Option<BoundedValue>],
) -> Result<Effect, ValueStop>
    ensures effect { MeetsEffect result (cylinder_effect inside (fragments_of fragments.entry)
        (bound_arguments_in bound.now)) }
    ensures safe { GivesSafe result }
{
    if is_given(bound, CYLINDER_DIAMETER)
        || is_given(bound, CYLINDER_LOW_DIAMETER)
        || is_given(bound, CYLINDER_HIGH_DIAMETER)
    {
        return Err(ValueStop::Kind(FaultKind::NotInProfile));
    }
    if has_two_radii(bound) {
        return Err(ValueStop::Kind(FaultKind::BadArgument));
    }
    let height = number_or(bound, CYLINDER_HEIGHT, 1)?;
    let radius = number_or(bound, CYLINDER_RADIUS, 1)?;
    let low = number_or(bound, CYLINDER_LOW, radius)?;
    let high = number_or(bound, CYLINDER_HIGH, radius)?;
    let center = is_centered(bound, CYLINDER_CENTER)?;
    if inside {
        return Err(ValueStop::Kind(FaultKind::WrongDimension));
    }
    if is_round(fragment_count(fragments)?) {
        return Err(ValueStop::Kind(FaultKind::NotInProfile));
    }
    Ok(Effect::Solid(SolidShape::Cylinder {
        height,
        low,
        high,
        center,
    }))
}

/// The effect of `square`, or its first fault: TypeMismatch or WrongDimension.
pub(crate) fn square(inside: bool, bound: &[Option<BoundedValue>]) -> Result<Effect, ValueStop>
    ensures effect { MeetsEffect result (square_effect inside (bound_arguments_in bound.now)) }
    ensures safe { GivesSafe result }
{
    let size = square_size(bound)?;
    let center = is_centered(bound, CENTER)?;
    if !inside {
        return Err(ValueStop::Kind(FaultKind::WrongDimension));
    }
    Ok(Effect::Flat(FlatShape::Square { size, center }))
}

/// The effect of `polygon`, or its first fault: BadArgument, NotInProfile, TypeMismatch or
/// WrongDimension.
pub(crate) fn polygon(
    alloc: Global,
    inside: bool,
    bound: &[Option<BoundedValue>],
) -> Result<Effect, ValueStop>
    ensures effect { MeetsEffect result (polygon_effect inside (bound_arguments_in bound.now)) }
    ensures safe { GivesSafe result }
{
    let point_list = required_argument(bound, POINTS)?;
    if is_given(bound, PATHS) {
        return Err(ValueStop::Kind(FaultKind::NotInProfile));
    }
    let points = flat_points(alloc, &point_list.value)?;
    if !inside {
        return Err(ValueStop::Kind(FaultKind::WrongDimension));
    }
    Ok(Effect::Flat(FlatShape::Polygon { points }))
}

/// The effect of `circle`, or its first fault: NotInProfile of a diameter, TypeMismatch,
/// WrongDimension, TypeMismatch of `$fn` or NotInProfile of it.
pub(crate) fn circle(
    inside: bool,
    fragments: Option<&Value>,
    bound: &[Option<BoundedValue>],
) -> Result<Effect, ValueStop>
    ensures effect { MeetsEffect result (circle_effect inside (fragments_of fragments.entry)
        (bound_arguments_in bound.now)) }
    ensures safe { GivesSafe result }
{
    if is_given(bound, CIRCLE_DIAMETER) {
        return Err(ValueStop::Kind(FaultKind::NotInProfile));
    }
    let radius = number_or(bound, CIRCLE_RADIUS, 1)?;
    if !inside {
        return Err(ValueStop::Kind(FaultKind::WrongDimension));
    }
    if is_round(fragment_count(fragments)?) {
        return Err(ValueStop::Kind(FaultKind::NotInProfile));
    }
    Ok(Effect::Flat(FlatShape::Circle { radius }))
}

/// The effect of `linear_extrude`, or its first fault: BadArgument, NotInProfile, TypeMismatch or
/// WrongDimension.
pub(crate) fn linear_extrude(
    inside: bool,
    bound: &[Option<BoundedValue>],
) -> Result<Effect, ValueStop>
    ensures effect { MeetsEffect result (extrude_effect inside (bound_arguments_in bound.now)) }
    ensures safe { GivesSafe result }
{
    let given_height = required_argument(bound, EXTRUSION_HEIGHT)?;
    if is_given(bound, EXTRUSION_TWIST)
        || is_given(bound, EXTRUSION_SCALE)
        || is_given(bound, EXTRUSION_SLICES)
    {
        return Err(ValueStop::Kind(FaultKind::NotInProfile));
    }
    let height = number(&given_height.value).ok_or(FaultKind::TypeMismatch)?;
    let center = is_centered(bound, EXTRUSION_CENTER)?;
    if inside {
        return Err(ValueStop::Kind(FaultKind::WrongDimension));
    }
    Ok(Effect::Extrusion { height, center })
}

// The sizes of a cube, or TypeMismatch.
fn cube_size(bound: &[Option<BoundedValue>]) -> Result<[i64; 3], FaultKind>
    ensures value { ReadsArgument result (or_default (pos 1 ∷ pos 1 ∷ pos 1 ∷ []) (sides_in 3)
        (bound_argument (bound_arguments_in bound.now) 0)) }
    ensures safe { IfOk result (All IsSafe) }
{
    found_cube_size(bound)
}

// The sizes of a cube: 1, where they are missing.
fn found_cube_size(bound: &[Option<BoundedValue>]) -> Result<[i64; 3], FaultKind>
    ensures { ReadsArgument result (or_default (pos 1 ∷ pos 1 ∷ pos 1 ∷ []) (sides_in 3)
        (bound_argument (bound_arguments_in bound.now) 0)) }
{
    match bound_argument(bound, SIZE) {
        Some(value) => three_sides(&value.value).ok_or(FaultKind::TypeMismatch),
        None => Ok([1, 1, 1]),
    }
}

// The sizes of a square, or TypeMismatch.
fn square_size(bound: &[Option<BoundedValue>]) -> Result<[i64; 2], FaultKind>
    ensures value { ReadsArgument result (or_default (pos 1 ∷ pos 1 ∷ []) (sides_in 2)
        (bound_argument (bound_arguments_in bound.now) 0)) }
    ensures safe { IfOk result (All IsSafe) }
{
    found_square_size(bound)
}

// The sizes of a square: 1, where they are missing.
fn found_square_size(bound: &[Option<BoundedValue>]) -> Result<[i64; 2], FaultKind>
    ensures { ReadsArgument result (or_default (pos 1 ∷ pos 1 ∷ []) (sides_in 2)
        (bound_argument (bound_arguments_in bound.now) 0)) }
{
    match bound_argument(bound, SIZE) {
        Some(value) => two_sides(&value.value).ok_or(FaultKind::TypeMismatch),
        None => Ok([1, 1]),
    }
}

// The number that a parameter has, or its default, or TypeMismatch.
fn number_or(
    bound: &[Option<BoundedValue>],
    parameter: usize,
    default: i64,
) -> Result<i64, FaultKind>
    requires { IsSafe default }
    ensures value { ReadsArgument result (or_default default number_in_value
        (bound_argument (bound_arguments_in bound.now) parameter)) }
    ensures safe { IfOk result IsSafe }
{
    found_number(bound, parameter, default)
}

// Whether a cylinder has a radius for both its ends and one for an end.
fn has_two_radii(bound: &[Option<BoundedValue>]) -> bool
    ensures { result ≡ (is_some (bound_argument (bound_arguments_in bound.now) 4)
        && (is_some (bound_argument (bound_arguments_in bound.now) 1)
        || is_some (bound_argument (bound_arguments_in bound.now) 2))) }
{
    is_given(bound, CYLINDER_RADIUS)
        && (is_given(bound, CYLINDER_LOW) || is_given(bound, CYLINDER_HIGH))
}

// The number of fragments, or TypeMismatch.
fn fragment_count(fragments: Option<&Value>) -> Result<i64, FaultKind>
    ensures { ReadsArgument result (fragments_in (fragments_of fragments.entry)) }
{
    match fragments {
        Some(value) => number(value).ok_or(FaultKind::TypeMismatch),
        None => Err(FaultKind::TypeMismatch),
    }
}

// Whether a circle has another number of fragments than 4.
fn is_round(count: i64) -> bool
    ensures { result ≡ not (int_eq count (pos 4)) }
{
    count != FRAGMENTS
}
