//! Polygons from written points.

ghost use Rattle.std.specs.Prelude.{◌≡◌, All, Any, IfOk, IfErr, OnOk};
ghost use Rattle.std.specs.Bool.{OnTrue, OnFalse};
ghost use Rattle.primitives.specs.Polygons.{flat_grid_point_of as on_grid_of, polygon_of, IsFlatPointInRange, IsWrittenPolygon, IsPolygonStop};

use crate::ShapeStop;
use crate::convex::is_convex;
use crate::flat::Flat;
use crate::sizes::in_steps;
use plane_predicate::Unit;
use std::alloc::{AllocError, Global};
use text_place::FaultKind;

/// The polygon of written points in units.
///
/// `LongList` comes exactly where there are more than 64 points, `FewPoints` exactly where there are
/// fewer than 3, `OutOfRange` exactly where else a coordinate is past 65,535 in size, and `NotConvex`
/// exactly where else the polygon is not convex.
pub fn polygon_flat(alloc: Global, points: &[[i64; 2]], unit: Unit) -> Result<Flat, ShapeStop>
    ensures flat { IfOk result (λ flat. flat ≡ polygon_of unit points.now) }
    ensures checks { OnOk result (IsWrittenPolygon unit points.now) }
    ensures stops { IfErr result (IsPolygonStop unit points.now) }
{
    if points.len() > 64 {
        return Err(ShapeStop::Kind(FaultKind::LongList));
    }
    if points.len() < 3 {
        return Err(ShapeStop::Kind(FaultKind::FewPoints));
    }
    if !are_in_range(points) {
        return Err(ShapeStop::Kind(FaultKind::OutOfRange));
    }
    let grid = grid_points(alloc, points, unit)?;
    if !is_convex(&grid) {
        return Err(ShapeStop::Kind(FaultKind::NotConvex));
    }
    Ok(Flat::of(grid))
}

// Whether all coordinates are at most 65,535 in size.
fn are_in_range(points: &[[i64; 2]]) -> bool
    ensures all { OnTrue result (All IsFlatPointInRange points.now) }
    ensures past { OnFalse result (Any (λ p. IsFlatPointInRange p → ⊥) points.now) }
{
    for point in points {
        if !is_in_range(*point) {
            return false;
        }
    }
    true
}

// Whether the coordinates of a point are at most 65,535 in size.
fn is_in_range(point: [i64; 2]) -> bool
    ensures all { OnTrue result (IsFlatPointInRange point) }
    ensures past { OnFalse result (IsFlatPointInRange point → ⊥) }
{
    point[0].unsigned_abs() <= 65535 && point[1].unsigned_abs() <= 65535
}

// Written points in grid steps.
fn grid_points(alloc: Global, points: &[[i64; 2]], unit: Unit) -> Result<Vec<[i64; 2]>, AllocError>
    requires { All IsFlatPointInRange points.now }
    ensures { IfOk result (λ v. v.items ≡ polygon_of unit points.now) }
{
    let mut grid = Vec::new(alloc);
    for point in points {
        grid.push(on_grid(*point, unit))?;
    }
    Ok(grid)
}

// A written point in grid steps.
fn on_grid(point: [i64; 2], unit: Unit) -> [i64; 2]
    requires { IsFlatPointInRange point }
    ensures { result ≡ on_grid_of unit point }
{
    let [x, y] = point;
    [in_steps(x, unit), in_steps(y, unit)]
}
