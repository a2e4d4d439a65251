//! Upright boxes.

ghost use Rattle.std.specs.Prelude.{◌≡◌, All, IfOk, IfErr, OnOk};
ghost use Rattle.primitives.specs.Boxes.{box_faces, box_points, cube_of};
ghost use Rattle.primitives.specs.Sizes.{AreSizes, IsSafe, IsSizeStop};

use crate::sizes::{Ends, ends_of, size_fault};
use crate::{Corners, Shape, ShapeStop};
use plane_predicate::Unit;
use std::alloc::{AllocError, Global};

// The faces of a box by the corners round them: low x, high x, low y, high y, low z, high z.
const FACES: [[u32; 4]; 6] = [
    [0, 2, 6, 4],
    [1, 3, 7, 5],
    [0, 4, 5, 1],
    [2, 6, 7, 3],
    [0, 1, 3, 2],
    [4, 5, 7, 6],
];

/// The box with these three sides in units, from the origin on or about it.
///
/// `BadSize` comes exactly where a side is below 1, `NotOnGrid` exactly where else it is centred and
/// a side has an odd number of grid steps, and `TooLarge` exactly where else a side has more than
/// 2^53 - 1 grid steps.
pub fn cube_shape(
    alloc: Global,
    size: [i64; 3],
    center: bool,
    unit: Unit,
) -> Result<Shape, ShapeStop>
    requires { All IsSafe size }
    ensures shape { IfOk result (λ shape. shape ≡ cube_of unit center size) }
    ensures sizes { OnOk result (AreSizes unit center size) }
    ensures stops { IfErr result (IsSizeStop unit center size) }
{
    if let Some(kind) = size_fault(&size, center, unit) {
        return Err(ShapeStop::Kind(kind));
    }
    let x = ends_of(size[0], center, unit);
    let y = ends_of(size[1], center, unit);
    let z = ends_of(size[2], center, unit);
    let points = corners_of(alloc, x, y, z)?;
    let faces = faces_of(alloc, &FACES)?;
    Ok(Shape::of(points, faces))
}

// The corners of a box: x changes first, then y, then z.
fn corners_of(alloc: Global, x: Ends, y: Ends, z: Ends) -> Result<Vec<[i64; 3]>, AllocError>
    ensures { IfOk result (λ v. v.items ≡ box_points x.low x.high y.low y.high z.low z.high) }
{
    Ok(Vec::from_array(
        alloc,
        [
            [x.low, y.low, z.low],
            [x.high, y.low, z.low],
            [x.low, y.high, z.low],
            [x.high, y.high, z.low],
            [x.low, y.low, z.high],
            [x.high, y.low, z.high],
            [x.low, y.high, z.high],
            [x.high, y.high, z.high],
        ],
    )?)
}

// The faces with these corners.
fn faces_of(alloc: Global, table: &[[u32; 4]]) -> Result<Vec<Corners>, AllocError>
    ensures { IfOk result (λ v. v.items ≡ table.now) }
{
    let mut faces = Vec::new(alloc);
    for face in table {
        faces.push(face_of(alloc, *face)?)?;
    }
    Ok(faces)
}

// The face with these corners.
fn face_of(alloc: Global, corners: [u32; 4]) -> Result<Corners, AllocError>
    ensures { IfOk result (λ face. face ≡ corners) }
{
    Ok(Corners::of(Vec::from_array(alloc, corners)?))
}
