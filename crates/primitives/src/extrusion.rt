//! Polygons moved along z.

ghost use Rattle.std.specs.Prelude.{◌≡◌, ◌+◌, ◌<◌, ◌≤◌, [], ◌∷◌, ◌++◌, IfOk, IfErr, OnOk, length, map};
ghost use Rattle.std.specs.List.{range_with_len};
ghost use Rattle.primitives.specs.Prisms.{at_height, extrusion_of, is_same_flat_point as is_same, prism_faces, prism_points, sides_over};
ghost use Rattle.primitives.specs.Sizes.{AreSizes, IsSafe, IsSizeStop};

use crate::convex::next_point;
use crate::flat::Flat;
use crate::sizes::{Ends, ends_of, size_fault};
use crate::{Corners, Shape, ShapeStop};
use plane_predicate::Unit;
use std::alloc::{AllocError, Global};

/// The polygon moved along z through a height in units, from 0 on or about it. Its faces are the
/// sides over the ways from a point to the next different one, in order, then the low and the high
/// end.
///
/// `BadSize` comes exactly where the height is below 1, `NotOnGrid` exactly where else it is centred
/// and has an odd number of grid steps, and `TooLarge` exactly where else it has more than 2^53 - 1
/// grid steps.
pub fn extrude(
    alloc: Global,
    flat: &Flat,
    height: i64,
    center: bool,
    unit: Unit,
) -> Result<Shape, ShapeStop>
    requires { IsSafe height }
    ensures shape { IfOk result (λ shape. shape ≡ extrusion_of unit center flat.now height) }
    ensures sizes { OnOk result (AreSizes unit center (height ∷ [])) }
    ensures stops { IfErr result (IsSizeStop unit center (height ∷ [])) }
{
    if let Some(kind) = size_fault(&[height], center, unit) {
        return Err(ShapeStop::Kind(kind));
    }
    let z = ends_of(height, center, unit);
    let points = corners_of(alloc, flat.points(), z)?;
    let faces = faces_of(alloc, flat.points())?;
    Ok(Shape::of(points, faces))
}

// The points at the low end, then those at the high end.
fn corners_of(alloc: Global, points: &[[i64; 2]], z: Ends) -> Result<Vec<[i64; 3]>, AllocError>
    ensures { IfOk result (λ v. v.items ≡ prism_points points.now z.low z.high) }
{
    let mut corners = Vec::new(alloc);
    push_end(&mut corners, points, z.low)?;
    push_end(&mut corners, points, z.high)?;
    Ok(corners)
}

// Appends the points at a height.
fn push_end(corners: &mut Vec<[i64; 3]>, points: &[[i64; 2]], z: i64) -> Result<(), AllocError>
    ensures { OnOk result (corners.new.items ≡ corners.old.items ++ map (at_height z) points.now) }
{
    for point in points {
        let [x, y] = *point;
        corners.push([x, y, z])?;
    }
    Ok(())
}

// The sides in order, then the low and the high end.
fn faces_of(alloc: Global, points: &[[i64; 2]]) -> Result<Vec<Corners>, AllocError>
    requires { length points.now ≤ 64 }
    ensures { IfOk result (λ v. v.items ≡ prism_faces points.now) }
{
    let count = points.len() as u32;
    let mut faces = sides_of(alloc, points)?;
    faces.push(end_of(alloc, 0, count)?)?;
    faces.push(end_of(alloc, count, count)?)?;
    Ok(faces)
}

// The sides over the ways from a point to the next, where the two differ.
fn sides_of(alloc: Global, points: &[[i64; 2]]) -> Result<Vec<Corners>, AllocError>
    requires { length points.now ≤ 64 }
    ensures { IfOk result (λ v. v.items ≡ sides_over points.now (length points.now)) }
{
    let mut sides = Vec::new(alloc);
    for i in 0..points.len() {
        let next = next_point(points.len(), i);
        if !is_same_point(points[i], points[next]) {
            sides.push(side_of(alloc, i, next, points.len())?)?;
        }
    }
    Ok(sides)
}

// Whether two points of the plane are the same.
fn is_same_point(p: [i64; 2], q: [i64; 2]) -> bool
    ensures { result ≡ is_same p q }
{
    p[0] == q[0] && p[1] == q[1]
}

// The side over the way from one point to another, of the given number of points.
fn side_of(alloc: Global, i: usize, next: usize, count: usize) -> Result<Corners, AllocError>
    requires i_there { i < count }
    requires next_there { next < count }
    requires most { count ≤ 64 }
    ensures { IfOk result (λ face. face ≡ i ∷ next ∷ (count + next) ∷ (count + i) ∷ []) }
{
    let corners = [
        i as u32,
        next as u32,
        (count + next) as u32,
        (count + i) as u32,
    ];
    Ok(Corners::of(Vec::from_array(alloc, corners)?))
}

// The given number of corners from a first one on.
fn end_of(alloc: Global, first: u32, count: u32) -> Result<Corners, AllocError>
    requires { first + count ≤ 128 }
    ensures { IfOk result (λ face. face ≡ range_with_len first count) }
{
    let mut corners = Vec::new(alloc);
    for i in 0..count {
        corners.push(first + i)?;
    }
    Ok(Corners::of(corners))
}
