//! Hulls of points.

ghost use Rattle.std.specs.Prelude.{◌≡◌, ◌↔◌, ◌<ℤ◌, pos, IfOk, IfErr, OnOk};
ghost use Rattle.plane_predicate.specs.Space.{Coordinates};
ghost use Rattle.primitives.specs.Shapes.{IsInside};
ghost use Rattle.scad_hull.specs.Combinations.{IsInnerCombination};
ghost use Rattle.scad_hull.specs.Hulls.{points_in_order, hull_of};
ghost use Rattle.scad_hull.specs.Refusals.{HaveHull, IsHullStop};

use crate::faces::{hull_faces, numbers};
use crate::plane::are_on_one_plane;
use crate::points::different_points;
use primitives::{Shape, ShapeStop, are_in_range};
use std::alloc::Global;
use text_place::FaultKind;

/// The hull of points in grid steps: the different ones in ascending order, and a face for each plane
/// through three of them on whose one side no point lies strictly. A point is strictly behind all of
/// its faces exactly where it is a combination of the points with weights above 0.
///
/// `OutOfRange` comes exactly where a coordinate is past 65,535 in size, `LongList` exactly where else
/// there are more than 128 different points, and `FewPoints` exactly where else all points lie on one
/// plane.
pub fn hull_shape(alloc: Global, points: &[[i64; 3]]) -> Result<Shape, ShapeStop>
    ensures hull { IfOk result (λ s. s ≡ hull_of points.now) }
    ensures inside { OnOk result ((q : Coordinates) → pos 0 <ℤ q.w → IsInside (hull_of points.now) q
        ↔ IsInnerCombination (points_in_order points.now) q) }
    ensures checks { OnOk result (HaveHull points.now) }
    ensures stops { IfErr result (IsHullStop points.now) }
{
    if !are_in_range(points) {
        return Err(ShapeStop::Kind(FaultKind::OutOfRange));
    }
    let found = different_points(alloc, points)?;
    let all = numbers(alloc, found.len())?;
    if are_on_one_plane(&found, &all) {
        return Err(ShapeStop::Kind(FaultKind::FewPoints));
    }
    let faces = hull_faces(alloc, &found, &all)?;
    Ok(Shape::of_faces(alloc, &found, &faces)?)
}
