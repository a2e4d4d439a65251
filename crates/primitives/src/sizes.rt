//! Sides and heights.

ghost use Rattle.std.specs.Prelude.{◌≡◌, ◌≤◌, ℤ, pos, ◌%◌, ◌<ℤ◌, ◌≤ℤ◌, unsigned_abs, All, Any, IfSome, IsNone};
ghost use Rattle.std.specs.Bool.{OnTrue, OnFalse};
ghost use Rattle.plane_predicate.specs.Units.{grid_steps_per_unit};
ghost use Rattle.primitives.specs.Sizes.{length_in_grid_steps, high_end, low_at, low_end, AreSizes, IsEven, IsAtLeastOne, IsSafe, IsSizeFault};

use plane_predicate::Unit;
use text_place::FaultKind;

// The largest size of a number, 2^53 - 1.
const LARGEST: u64 = 9_007_199_254_740_991;

/// Where a side or height begins and ends, in grid steps.
#[derive(Clone, Copy, Debug, PartialEq, Eq)]
pub struct Ends {
    pub low: i64,
    pub high: i64,
}

/// The first fault of sides and heights in units. `None` where nothing is wrong.
pub fn size_fault(sides: &[i64], center: bool, unit: Unit) -> Option<FaultKind>
    requires { All IsSafe sides.now }
    ensures some { IfSome result (IsSizeFault unit center sides.now) }
    ensures none { IsNone result → AreSizes unit center sides.now }
{
    if !are_long(sides) {
        return Some(FaultKind::BadSize);
    }
    if center && !are_even(sides, unit) {
        return Some(FaultKind::NotOnGrid);
    }
    if !are_safe(sides, unit) {
        return Some(FaultKind::TooLarge);
    }
    None
}

// Whether all sides are at least 1.
fn are_long(sides: &[i64]) -> bool
    ensures all { OnTrue result (All IsAtLeastOne sides.now) }
    ensures some { OnFalse result (Any (λ s. s <ℤ pos 1) sides.now) }
{
    for side in sides {
        if *side < 1 {
            return false;
        }
    }
    true
}

// Whether all sides have an even number of grid steps.
fn are_even(sides: &[i64], unit: Unit) -> bool
    requires { All IsSafe sides.now }
    ensures all { OnTrue result (All (IsEven unit) sides.now) }
    ensures some { OnFalse result (Any (λ s. unsigned_abs (length_in_grid_steps unit s) % 2
        ≡ 1) sides.now) }
{
    for side in sides {
        if in_steps(*side, unit).unsigned_abs() % 2 == 1 {
            return false;
        }
    }
    true
}

// Whether all sides have at most 2^53 - 1 grid steps.
fn are_safe(sides: &[i64], unit: Unit) -> bool
    requires { All IsSafe sides.now }
    ensures all { OnTrue result (All (λ s. IsSafe (length_in_grid_steps unit s)) sides.now) }
    ensures some { OnFalse result (Any (λ s. IsSafe (length_in_grid_steps unit s) → ⊥) sides.now) }
{
    for side in sides {
        if !is_safe(in_steps(*side, unit)) {
            return false;
        }
    }
    true
}

// Whether a number is at most 2^53 - 1 in size.
fn is_safe(number: i64) -> bool
    ensures small { OnTrue result (IsSafe number) }
    ensures large { OnFalse result (IsSafe number → ⊥) }
{
    number.unsigned_abs() <= LARGEST
}

/// A length in grid steps.
pub fn in_steps(length: i64, unit: Unit) -> i64
    requires { IsSafe length }
    ensures { result ≡ length_in_grid_steps unit length }
{
    unit.per() * length
}

/// The ends of a side or height in grid steps.
pub fn ends_of(side: i64, center: bool, unit: Unit) -> Ends
    requires { IsSafe side }
    ensures low { result.low ≡ low_end unit center side }
    ensures high { result.high ≡ high_end unit center side }
{
    let steps = in_steps(side, unit);
    let low = low_of(steps, center);
    Ends {
        low,
        high: low + steps,
    }
}

// Where the given number of grid steps begin: at 0, or where centred at minus one half of them.
fn low_of(steps: i64, center: bool) -> i64
    // (twice 2^53 - 1)
    requires { unsigned_abs steps ≤ 18014398509481982 }
    ensures { result ≡ low_at center steps }
{
    if center {
        -((steps.unsigned_abs() / 2) as i64)
    } else {
        0
    }
}
