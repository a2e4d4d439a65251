//! Circles with four fragments.

ghost use Rattle.std.specs.Prelude.{◌≡◌, ◌≤◌, unsigned_abs, IfOk, IfErr, OnOk};
ghost use Rattle.primitives.specs.Sizes.{IsSafe};
ghost use Rattle.round_four.specs.Circles.{circle_of, circle_points, IsCircleSize, IsCircleStop};

use crate::sizes::is_near;
use plane_predicate::Unit;
use primitives::{Flat, ShapeStop, in_steps};
use std::alloc::{AllocError, Global};
use text_place::FaultKind;

/// The circle with this radius in units about the origin, with four fragments: a square on its
/// corner, from the corner on the x axis on, counterclockwise.
///
/// `BadSize` comes exactly where the radius is below 1, and `OutOfRange` exactly where else it is
/// past 65535 grid steps.
pub fn circle_flat(alloc: Global, radius: i64, unit: Unit) -> Result<Flat, ShapeStop>
    requires { IsSafe radius }
    ensures flat { IfOk result (λ flat. flat ≡ circle_of unit radius) }
    ensures size { OnOk result (IsCircleSize unit radius) }
    ensures stops { IfErr result (IsCircleStop unit radius) }
{
    if radius < 1 {
        return Err(ShapeStop::Kind(FaultKind::BadSize));
    }
    let steps = in_steps(radius, unit);
    if !is_near(steps) {
        return Err(ShapeStop::Kind(FaultKind::OutOfRange));
    }
    let points = corners_of(alloc, steps)?;
    Ok(Flat::of(points))
}

// The corners of the circle with this radius in grid steps.
fn corners_of(alloc: Global, radius: i64) -> Result<Vec<[i64; 2]>, AllocError>
    requires { unsigned_abs radius ≤ 65535 }
    ensures { IfOk result (λ v. v.items ≡ circle_points radius) }
{
    Ok(Vec::from_array(
        alloc,
        [[radius, 0], [0, radius], [-radius, 0], [0, -radius]],
    )?)
}
