//! Polyhedra.

ghost use Rattle.std.specs.Prelude.{◌≡◌, ◌<◌, All, IfOk, IfErr, OnOk, length};
ghost use Rattle.plane_predicate.specs.Space.{point_at};
ghost use Rattle.primitives.specs.Shapes.{HasBodyBehind};
ghost use Rattle.primitives.specs.GridSizes.{IsWithinGridLimits};
ghost use Rattle.primitives.specs.Checks.{grid_points_of, AreCornersThere};
ghost use Rattle.primitives.specs.Polyhedra.{polyhedron_of, AnswersFirstFault, IsFirstPolyhedronFault, IsPolyhedron, IsSurface, IsSurfaceFault, PassesWrittenChecks, IsWrittenFault};

use crate::closed::are_closed;
use crate::convex_faces::are_convex;
use crate::counts::{are_there, has_enough_corners, is_within_limits};
use crate::face_ranges::{copied, points_in_grid_steps};
use crate::flat_faces::are_flat;
use crate::{Corners, Shape, ShapeStop, are_in_range};
use plane_predicate::Unit;
use std::alloc::Global;
use text_place::FaultKind;

/// The polyhedron with these points, in units, and these faces, whose corners go round clockwise as
/// seen from outside. Its points are in grid steps, those that no face has as well.
pub fn polyhedron_shape(
    alloc: Global,
    points: &[[i64; 3]],
    faces: &[Corners],
    unit: Unit,
) -> Result<Shape, ShapeStop>
    ensures shape { IfOk result (λ s. s ≡ polyhedron_of unit points.now faces.now) }
    ensures polyhedron { OnOk result (IsPolyhedron unit points.now faces.now) }
    ensures first_fault { AnswersFirstFault unit points.now faces.now result }
    ensures fault { IfErr result (IsFirstPolyhedronFault unit points.now faces.now) }
{
    let placed = checked_points(alloc, points, faces, unit)?;
    Ok(Shape::of(placed, copied(alloc, faces)?))
}

// The points in grid steps, if all checks pass.
fn checked_points(
    alloc: Global,
    points: &[[i64; 3]],
    faces: &[Corners],
    unit: Unit,
) -> Result<Vec<[i64; 3]>, ShapeStop>
    ensures points { IfOk result (λ v. v.items ≡ grid_points_of unit points.now) }
    ensures polyhedron { OnOk result (IsPolyhedron unit points.now faces.now) }
    ensures body { OnOk result (All (HasBodyBehind (polyhedron_of unit points.now faces.now)) faces.now) }
    ensures fault { IfErr result (IsFirstPolyhedronFault unit points.now faces.now) }
{
    check_written(points, faces)?;
    let placed = points_in_grid_steps(alloc, points, unit)?;
    check_surface(alloc, &placed, faces)?;
    Ok(placed)
}

// The checks of the arguments as they are written.
fn check_written(points: &[[i64; 3]], faces: &[Corners]) -> Result<(), ShapeStop>
    ensures written { OnOk result (PassesWrittenChecks points.now faces.now) }
    ensures fault { IfErr result (IsWrittenFault points.now faces.now) }
{
    if !is_within_limits(points, faces) {
        return Err(ShapeStop::Kind(FaultKind::LongList));
    }
    if !has_enough_corners(faces) {
        return Err(ShapeStop::Kind(FaultKind::FewPoints));
    }
    if !are_there(points.len(), faces) {
        return Err(ShapeStop::Kind(FaultKind::BadPoint));
    }
    if !are_in_range(points) {
        return Err(ShapeStop::Kind(FaultKind::OutOfRange));
    }
    Ok(())
}

// The checks of the surface that the faces form.
fn check_surface(alloc: Global, points: &[[i64; 3]], faces: &[Corners]) -> Result<(), ShapeStop>
    requires grid { All (λ p. IsWithinGridLimits (point_at p)) points.now }
    requires there { AreCornersThere (length points.now) faces.now }
    requires some { 0 < length faces.now }
    requires corners { All (λ f. 0 < length f) faces.now }
    ensures surface { OnOk result (IsSurface (record { points = points.now; faces = faces.now })) }
    ensures body { OnOk result (All
        (HasBodyBehind (record { points = points.now; faces = faces.now })) faces.now) }
    ensures fault { IfErr result (IsSurfaceFault
        (record { points = points.now; faces = faces.now })) }
{
    if !are_flat(points, faces) {
        return Err(ShapeStop::Kind(FaultKind::NotFlat));
    }
    if !are_closed(alloc, points, faces)? {
        return Err(ShapeStop::Kind(FaultKind::NotClosed));
    }
    if !are_convex(alloc, points, faces)? {
        return Err(ShapeStop::Kind(FaultKind::NotConvex));
    }
    Ok(())
}
