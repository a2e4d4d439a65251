//! Values as lists of any length.

ghost use Rattle.std.specs.Prelude.{◌≡◌};
ghost use Rattle.scad_value.specs.Values.{vals_from};
ghost use Rattle.scad_value.specs.View.{val_of, vals_in};
ghost use Rattle.scad_modules.specs.Reading.{number_in_value, corner_in, each_in, vector_in, numbers_in, points_in, face_in, faces_in};
ghost use Rattle.scad_modules.specs.ArgumentView.{ReadsArgumentAs};

use crate::vectors::{corner_number, number, pair, triple};
use primitives::Corners;
use scad_value::{Value, ValueStop};
use std::alloc::Global;
use text_place::FaultKind;

/// A list of numbers.
pub(crate) fn numbers(alloc: Global, value: &Value) -> Result<Vec<i64>, ValueStop>
    ensures { ReadsArgumentAs (λ v. v.items) result (numbers_in (val_of value.now)) }
{
    match value {
        Value::List(values) => each_number(alloc, values.items()),
        _ => Err(ValueStop::Kind(FaultKind::TypeMismatch)),
    }
}

/// A list of points of 2 numbers each.
pub(crate) fn flat_points(alloc: Global, value: &Value) -> Result<Vec<[i64; 2]>, ValueStop>
    ensures { ReadsArgumentAs (λ v. v.items) result (points_in 2 (val_of value.now)) }
{
    match value {
        Value::List(values) => each_pair(alloc, values.items()),
        _ => Err(ValueStop::Kind(FaultKind::TypeMismatch)),
    }
}

/// A list of points of 3 numbers each.
pub(crate) fn points(alloc: Global, value: &Value) -> Result<Vec<[i64; 3]>, ValueStop>
    ensures { ReadsArgumentAs (λ v. v.items) result (points_in 3 (val_of value.now)) }
{
    match value {
        Value::List(values) => each_triple(alloc, values.items()),
        _ => Err(ValueStop::Kind(FaultKind::TypeMismatch)),
    }
}

/// A list of faces, which are lists of corners.
pub(crate) fn faces(alloc: Global, value: &Value) -> Result<Vec<Corners>, ValueStop>
    ensures { ReadsArgumentAs (λ v. v.items) result (faces_in (val_of value.now)) }
{
    match value {
        Value::List(values) => each_face(alloc, values.items()),
        _ => Err(ValueStop::Kind(FaultKind::TypeMismatch)),
    }
}

// A list of corners.
fn face(alloc: Global, value: &Value) -> Result<Corners, ValueStop>
    ensures { ReadsArgumentAs (λ corners. corners) result (face_in (val_of value.now)) }
{
    match value {
        Value::List(values) => Ok(Corners::of(each_corner(alloc, values.items())?)),
        _ => Err(ValueStop::Kind(FaultKind::TypeMismatch)),
    }
}

// Each value as a number, or TypeMismatch.
fn each_number(alloc: Global, values: &[Value]) -> Result<Vec<i64>, ValueStop>
    ensures { ReadsArgumentAs (λ v. v.items) result
        (each_in number_in_value (vals_from (vals_in values.now))) }
{
    let mut numbers = Vec::new(alloc);
    for value in values {
        let Some(read) = number(value) else {
            return Err(ValueStop::Kind(FaultKind::TypeMismatch));
        };
        numbers.push(read)?;
    }
    Ok(numbers)
}

// Each value as the number of a corner, or TypeMismatch.
fn each_corner(alloc: Global, values: &[Value]) -> Result<Vec<u32>, ValueStop>
    ensures { ReadsArgumentAs (λ v. v.items) result
        (each_in corner_in (vals_from (vals_in values.now))) }
{
    let mut corners = Vec::new(alloc);
    for value in values {
        let Some(read) = number(value) else {
            return Err(ValueStop::Kind(FaultKind::TypeMismatch));
        };
        corners.push(corner_number(read))?;
    }
    Ok(corners)
}

// Each value as a point of two numbers, or TypeMismatch.
fn each_pair(alloc: Global, values: &[Value]) -> Result<Vec<[i64; 2]>, ValueStop>
    ensures { ReadsArgumentAs (λ v. v.items) result
        (each_in (vector_in 2) (vals_from (vals_in values.now))) }
{
    let mut points = Vec::new(alloc);
    for value in values {
        let Some(read) = pair(value) else {
            return Err(ValueStop::Kind(FaultKind::TypeMismatch));
        };
        points.push(read)?;
    }
    Ok(points)
}

// Each value as a point of three numbers, or TypeMismatch.
fn each_triple(alloc: Global, values: &[Value]) -> Result<Vec<[i64; 3]>, ValueStop>
    ensures { ReadsArgumentAs (λ v. v.items) result
        (each_in (vector_in 3) (vals_from (vals_in values.now))) }
{
    let mut points = Vec::new(alloc);
    for value in values {
        let Some(read) = triple(value) else {
            return Err(ValueStop::Kind(FaultKind::TypeMismatch));
        };
        points.push(read)?;
    }
    Ok(points)
}

// Each value as the corners of a face, or TypeMismatch.
fn each_face(alloc: Global, values: &[Value]) -> Result<Vec<Corners>, ValueStop>
    ensures { ReadsArgumentAs (λ v. v.items) result
        (each_in face_in (vals_from (vals_in values.now))) }
{
    let mut faces = Vec::new(alloc);
    for value in values {
        faces.push(face(alloc, value)?)?;
    }
    Ok(faces)
}
