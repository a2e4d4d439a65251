//! Cylinders with four fragments.

ghost use Rattle.std.specs.Prelude.{◌≡◌, ◌≤◌, pos, ◌≤ℤ◌, ◌++◌, map, unsigned_abs, IfOk, IfErr, OnOk};
ghost use Rattle.primitives.specs.Sizes.{IsSafe};
ghost use Rattle.round_four.specs.Cylinders.{cylinder_faces, cylinder_of, end_points, AreCylinderSizes, IsCylinderStop};

use crate::sizes::cylinder_fault;
use plane_predicate::Unit;
use primitives::{Corners, Ends, Shape, ShapeStop, ends_of, in_steps};
use std::alloc::{AllocError, Global};

/// The cylinder with this height and these radii of its low and its high end in units, with four
/// fragments, from the height 0 on or about it. An end whose radius is 0 is one point, and no face.
///
/// `BadSize` comes exactly where the height is below 1, a radius is below 0 or both are 0,
/// `NotOnGrid` exactly where else it is centred and its height has an odd number of grid steps, and
/// `OutOfRange` exactly where else a radius or the height of an end is past 65535 grid steps in size.
pub fn cylinder_shape(
    alloc: Global,
    height: i64,
    low_radius: i64,
    high_radius: i64,
    center: bool,
    unit: Unit,
) -> Result<Shape, ShapeStop>
    requires height_safe { IsSafe height }
    requires low_safe { IsSafe low_radius }
    requires high_safe { IsSafe high_radius }
    ensures shape { IfOk result (λ shape. shape
        ≡ cylinder_of unit center height low_radius high_radius) }
    ensures sizes { OnOk result (AreCylinderSizes unit center height low_radius high_radius) }
    ensures stops { IfErr result (IsCylinderStop unit center height low_radius high_radius) }
{
    if let Some(kind) = cylinder_fault(height, low_radius, high_radius, center, unit) {
        return Err(ShapeStop::Kind(kind));
    }
    let ends = ends_of(height, center, unit);
    let low = in_steps(low_radius, unit);
    let high = in_steps(high_radius, unit);
    let points = points_of(alloc, low, high, ends)?;
    let faces = faces_of(alloc, low, high)?;
    Ok(Shape::of(points, faces))
}

// The corners of the low end, and then those of the high end.
fn points_of(alloc: Global, low: i64, high: i64, ends: Ends) -> Result<Vec<[i64; 3]>, AllocError>
    requires low_size { unsigned_abs low ≤ 65535 }
    requires high_size { unsigned_abs high ≤ 65535 }
    ensures { IfOk result (λ v. v.items ≡ end_points low ends.low ++ end_points high ends.high) }
{
    let mut points = end_of(alloc, low, ends.low)?;
    points.extend_from_slice(&end_of(alloc, high, ends.high)?)?;
    Ok(points)
}

// The corners of one end: those of its circle, or one apex where the radius is 0.
fn end_of(alloc: Global, radius: i64, height: i64) -> Result<Vec<[i64; 3]>, AllocError>
    requires { unsigned_abs radius ≤ 65535 }
    ensures { IfOk result (λ v. v.items ≡ end_points radius height) }
{
    if radius == 0 {
        return Ok(Vec::from_array(alloc, [[0, 0, height]])?);
    }
    Ok(Vec::from_array(
        alloc,
        [
            [radius, 0, height],
            [0, radius, height],
            [-radius, 0, height],
            [0, -radius, height],
        ],
    )?)
}

// The faces of a cylinder whose ends have these radii.
fn faces_of(alloc: Global, low: i64, high: i64) -> Result<Vec<Corners>, AllocError>
    ensures { IfOk result (λ v. v.items ≡ cylinder_faces low high) }
{
    if low == 0 {
        return listed(
            alloc,
            &[
                &[0, 2, 1],
                &[0, 3, 2],
                &[0, 4, 3],
                &[0, 1, 4],
                &[1, 2, 3, 4],
            ],
        );
    }
    if high == 0 {
        return listed(
            alloc,
            &[
                &[0, 1, 4],
                &[1, 2, 4],
                &[2, 3, 4],
                &[3, 0, 4],
                &[0, 1, 2, 3],
            ],
        );
    }
    listed(
        alloc,
        &[
            &[0, 1, 5, 4],
            &[1, 2, 6, 5],
            &[2, 3, 7, 6],
            &[3, 0, 4, 7],
            &[0, 1, 2, 3],
            &[4, 5, 6, 7],
        ],
    )
}

// The faces with these corners.
fn listed(alloc: Global, table: &[&[u32]]) -> Result<Vec<Corners>, AllocError>
    ensures { IfOk result (λ v. v.items ≡ map (λ face. face.now) table.now) }
{
    let mut faces = Vec::new(alloc);
    for face in table {
        faces.push(face_of(alloc, face)?)?;
    }
    Ok(faces)
}

// The face with these corners.
fn face_of(alloc: Global, corners: &[u32]) -> Result<Corners, AllocError>
    ensures { IfOk result (λ face. face ≡ corners.now) }
{
    let mut items = Vec::new(alloc);
    items.extend_from_slice(corners)?;
    Ok(Corners::of(items))
}
