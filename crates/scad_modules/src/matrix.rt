//! Calls of `multmatrix`.

ghost use Rattle.std.specs.Prelude.{◌≡◌, ◌≤◌, true, false, pos, unsigned_abs, [], ◌∷◌, IfOk, MatchResult};
ghost use Rattle.text_place.specs.declared.fault.FaultKind.TheVariants.{TooLarge};
ghost use Rattle.int_transform.specs.Maps.{affine_of, determinant_of};
ghost use Rattle.scad_value.specs.Values.{vals_from};
ghost use Rattle.scad_value.specs.View.{val_of, vals_in};
ghost use Rattle.scad_modules.specs.Reading.{each_in, vector_in};
ghost use Rattle.scad_modules.specs.ArgumentView.{bound_arguments_in};
ghost use Rattle.scad_modules.specs.Transforms.{component, row_numbered, is_zero, some_component, some_row, is_last_row, three_rows_from, matrix_rows, is_past_matrix, keeps_plane, leaves_plane_by, moves_past, row_on_grid, rows_on_grid, multmatrix_effect};
ghost use Rattle.scad_modules.specs.View.{MeetsEffect, GivesSafe};

use crate::effects::Effect;
use crate::transforms::{length_in_steps, moved};
use crate::{quadruple, required_argument};
use int_transform::Step;
use plane_predicate::Unit;
use scad_value::{BoundedValue, Value, ValueStop};
use std::alloc::Global;
use text_place::FaultKind;

// The largest size of an entry of the linear part.
const MOST_LINEAR: u64 = 65_535;

/// The effect of `multmatrix`, or its first fault: BadArgument, TypeMismatch, TooLarge of a linear
/// entry, Singular, WrongDimension or TooLarge of a move.
pub(crate) fn multmatrix(
    alloc: Global,
    unit: Unit,
    inside: bool,
    bound: &[Option<BoundedValue>],
) -> Result<Effect, ValueStop>
    ensures effect { MeetsEffect result (multmatrix_effect unit inside
        (bound_arguments_in bound.now)) }
    ensures safe { GivesSafe result }
{
    let rows = rows(&required_argument(bound, 0)?.value).ok_or(FaultKind::TypeMismatch)?;
    if is_steep(rows) {
        return Err(ValueStop::Kind(FaultKind::TooLarge));
    }
    if is_singular(rows) {
        return Err(ValueStop::Kind(FaultKind::Singular));
    }
    if leaves_plane(inside, rows) {
        return Err(ValueStop::Kind(FaultKind::WrongDimension));
    }
    match Step::matrix(rows_on_grid(unit, rows)?) {
        Some(step) => moved(alloc, step),
        None => Err(ValueStop::Kind(FaultKind::Singular)),
    }
}

// Three rows of four numbers, or four of which the last is 0 0 0 1.
fn rows(value: &Value) -> Option<[[i64; 4]; 3]>
    ensures { result ≡ matrix_rows (val_of value.now) }
{
    match value {
        Value::List(values) => rows_of(values.items()),
        _ => None,
    }
}

// Three of these values as rows, or four of which the last is 0 0 0 1.
fn rows_of(values: &[Value]) -> Option<[[i64; 4]; 3]>
    ensures { result ≡ three_rows_from (each_in (vector_in 4) (vals_from (vals_in values.now))) }
{
    match values {
        [x, y, z] => Some([quadruple(x)?, quadruple(y)?, quadruple(z)?]),
        [x, y, z, last] => {
            let rows = [quadruple(x)?, quadruple(y)?, quadruple(z)?];
            if is_last_row(quadruple(last)?) {
                Some(rows)
            } else {
                None
            }
        }
        _ => None,
    }
}

// Whether a row is 0 0 0 1.
fn is_last_row(row: [i64; 4]) -> bool
    ensures { result ≡ is_last_row row }
{
    row[0] == 0 && row[1] == 0 && row[2] == 0 && row[3] == 1
}

// Whether a linear entry is past 65535 in size.
fn is_steep(rows: [[i64; 4]; 3]) -> bool
    ensures { result ≡ some_row (some_component is_past_matrix) rows }
{
    is_steep_row(rows[0]) || is_steep_row(rows[1]) || is_steep_row(rows[2])
}

// Whether a linear entry of a row is past 65535 in size.
fn is_steep_row(row: [i64; 4]) -> bool
    ensures { result ≡ some_component is_past_matrix row }
{
    is_steep_entry(row[0]) || is_steep_entry(row[1]) || is_steep_entry(row[2])
}

// Whether a number is past 65535 in size.
fn is_steep_entry(entry: i64) -> bool
    ensures { result ≡ is_past_matrix entry }
{
    entry.unsigned_abs() > MOST_LINEAR
}

// Whether the linear part is singular, which no move changes.
fn is_singular(rows: [[i64; 4]; 3]) -> bool
    requires { some_row (some_component is_past_matrix) rows ≡ false }
    ensures { result ≡ is_zero (determinant_of (affine_of rows)) }
{
    let [x, y, z] = rows;
    Step::matrix([linear(x), linear(y), linear(z)]).is_none()
}

// The linear part of a row.
fn linear(row: [i64; 4]) -> [i64; 4]
    ensures { result ≡ component row 0 ∷ component row 1 ∷ component row 2 ∷ pos 0 ∷ [] }
{
    [row[0], row[1], row[2], 0]
}

// Whether a matrix changes z inside an extrusion.
fn leaves_plane(inside: bool, rows: [[i64; 4]; 3]) -> bool
    ensures { result ≡ leaves_plane_by inside rows }
{
    inside && !keeps_plane(rows)
}

// Whether the third row and the third column are those of the identity.
fn keeps_plane(rows: [[i64; 4]; 3]) -> bool
    ensures { result ≡ keeps_plane rows }
{
    let [x, y, z] = rows;
    x[2] == 0 && y[2] == 0 && z[0] == 0 && z[1] == 0 && z[2] == 1 && z[3] == 0
}

// The rows with their moves in grid steps, or TooLarge where one is past 2^53 - 1 in size.
fn rows_on_grid(unit: Unit, rows: [[i64; 4]; 3]) -> Result<[[i64; 4]; 3], FaultKind>
    ensures value { MatchResult result (λ moved. (moved ≡ rows_on_grid unit rows)
        × (some_row (moves_past unit) rows ≡ false))
        (λ kind. (kind ≡ TooLarge) × (some_row (moves_past unit) rows ≡ true)) }
    ensures safe { IfOk result (λ moved. (unsigned_abs (component (row_numbered moved 0) 3)
        ≤ 9007199254740991)
        × (unsigned_abs (component (row_numbered moved 1) 3) ≤ 9007199254740991)
        × (unsigned_abs (component (row_numbered moved 2) 3) ≤ 9007199254740991)) }
{
    let x = row_on_grid(unit, rows[0])?;
    let y = row_on_grid(unit, rows[1])?;
    let z = row_on_grid(unit, rows[2])?;
    Ok([x, y, z])
}

// A row with its move in grid steps, or TooLarge where that is past 2^53 - 1 in size.
fn row_on_grid(unit: Unit, row: [i64; 4]) -> Result<[i64; 4], FaultKind>
    ensures value { MatchResult result (λ moved. (moved ≡ row_on_grid unit row)
        × (moves_past unit row ≡ false))
        (λ kind. (kind ≡ TooLarge) × (moves_past unit row ≡ true)) }
    ensures safe { IfOk result (λ moved. unsigned_abs (component moved 3) ≤ 9007199254740991) }
{
    let by = length_in_steps(unit, row[3])?;
    Ok([row[0], row[1], row[2], by])
}
