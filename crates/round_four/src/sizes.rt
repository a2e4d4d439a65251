//! Heights and radii of cylinders.

ghost use Rattle.std.specs.Prelude.{◌≡◌, ◌≤◌, ◌%◌, true, unsigned_abs, IfSome, IsNone};
ghost use Rattle.std.specs.Bool.{OnTrue, OnFalse};
ghost use Rattle.primitives.specs.Sizes.{length_in_grid_steps, IsEven, IsSafe};
ghost use Rattle.round_four.specs.Cylinders.{AreCylinderSizes, AreFourInRange, HasBody, IsCylinderFault, IsCylinderInRange, IsOnGrid};

use plane_predicate::Unit;
use primitives::{Ends, ends_of, in_steps};
use text_place::FaultKind;

/// The first fault of the sizes of a cylinder in units. `None` where nothing is wrong.
pub fn cylinder_fault(
    height: i64,
    low_radius: i64,
    high_radius: i64,
    center: bool,
    unit: Unit,
) -> Option<FaultKind>
    requires height_safe { IsSafe height }
    requires low_safe { IsSafe low_radius }
    requires high_safe { IsSafe high_radius }
    ensures some { IfSome result (IsCylinderFault unit center height low_radius high_radius) }
    ensures none { IsNone result → AreCylinderSizes unit center height low_radius high_radius }
{
    if !has_body(height, low_radius, high_radius) {
        return Some(FaultKind::BadSize);
    }
    if !is_on_grid(height, center, unit) {
        return Some(FaultKind::NotOnGrid);
    }
    if !is_in_range(height, low_radius, high_radius, center, unit) {
        return Some(FaultKind::OutOfRange);
    }
    None
}

// Whether a height and two radii make a body.
fn has_body(height: i64, low_radius: i64, high_radius: i64) -> bool
    ensures all { OnTrue result (HasBody height low_radius high_radius) }
    ensures none { OnFalse result (HasBody height low_radius high_radius → ⊥) }
{
    height >= 1 && low_radius >= 0 && high_radius >= 0 && (low_radius > 0 || high_radius > 0)
}

// Whether the ends of a height lie on grid points.
fn is_on_grid(height: i64, center: bool, unit: Unit) -> bool
    requires { IsSafe height }
    ensures all { OnTrue result (IsOnGrid unit center height) }
    ensures none { OnFalse result ((center ≡ true)
        × (unsigned_abs (length_in_grid_steps unit height) % 2 ≡ 1)) }
{
    !center || is_even(height, unit)
}

// Whether a height has an even number of grid steps.
fn is_even(height: i64, unit: Unit) -> bool
    requires { IsSafe height }
    ensures even { OnTrue result (IsEven unit height) }
    ensures odd { OnFalse result (unsigned_abs (length_in_grid_steps unit height) % 2 ≡ 1) }
{
    in_steps(height, unit).unsigned_abs() % 2 == 0
}

// Whether the radii and the heights of both ends are at most 65535 grid steps in size.
fn is_in_range(height: i64, low_radius: i64, high_radius: i64, center: bool, unit: Unit) -> bool
    requires height_safe { IsSafe height }
    requires low_safe { IsSafe low_radius }
    requires high_safe { IsSafe high_radius }
    ensures all { OnTrue result (IsCylinderInRange unit center height low_radius high_radius) }
    ensures none { OnFalse result (IsCylinderInRange unit center height low_radius
        high_radius → ⊥) }
{
    are_near(
        in_steps(low_radius, unit),
        in_steps(high_radius, unit),
        ends_of(height, center, unit),
    )
}

// Whether two radii and the heights of two ends are at most 65535 in size.
fn are_near(low_radius: i64, high_radius: i64, ends: Ends) -> bool
    ensures all { OnTrue result (AreFourInRange low_radius high_radius ends.low ends.high) }
    ensures none { OnFalse result (AreFourInRange low_radius high_radius ends.low ends.high → ⊥) }
{
    is_near(low_radius) && is_near(high_radius) && is_near(ends.low) && is_near(ends.high)
}

/// Whether a number is at most 65535 in size.
pub fn is_near(number: i64) -> bool
    ensures near { OnTrue result (unsigned_abs number ≤ 65535) }
    ensures far { OnFalse result (unsigned_abs number ≤ 65535 → ⊥) }
{
    number.unsigned_abs() <= 65535
}
