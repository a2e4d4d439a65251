//! Rectangles.

ghost use Rattle.std.specs.Prelude.{◌≡◌, All, IfOk, IfErr, OnOk};
ghost use Rattle.primitives.specs.Polygons.{rectangle_of, square_of};
ghost use Rattle.primitives.specs.Sizes.{AreSizes, IsSafe, IsSizeStop};

use crate::ShapeStop;
use crate::flat::Flat;
use crate::sizes::{Ends, ends_of, size_fault};
use plane_predicate::Unit;
use std::alloc::{AllocError, Global};

/// The rectangle with these two sides in units, from the origin on or about it.
///
/// `BadSize` comes exactly where a side is below 1, `NotOnGrid` exactly where else it is centred and
/// a side has an odd number of grid steps, and `TooLarge` exactly where else a side has more than
/// 2^53 - 1 grid steps.
pub fn square_flat(
    alloc: Global,
    size: [i64; 2],
    center: bool,
    unit: Unit,
) -> Result<Flat, ShapeStop>
    requires { All IsSafe size }
    ensures flat { IfOk result (λ flat. flat ≡ square_of unit center size) }
    ensures sizes { OnOk result (AreSizes unit center size) }
    ensures stops { IfErr result (IsSizeStop unit center size) }
{
    if let Some(kind) = size_fault(&size, center, unit) {
        return Err(ShapeStop::Kind(kind));
    }
    let x = ends_of(size[0], center, unit);
    let y = ends_of(size[1], center, unit);
    let points = corners_of(alloc, x, y)?;
    Ok(Flat::of(points))
}

// The corners of a rectangle, counterclockwise from the lowest one on.
fn corners_of(alloc: Global, x: Ends, y: Ends) -> Result<Vec<[i64; 2]>, AllocError>
    ensures { IfOk result (λ v. v.items ≡ rectangle_of x.low x.high y.low y.high) }
{
    Ok(Vec::from_array(
        alloc,
        [
            [x.low, y.low],
            [x.high, y.low],
            [x.high, y.high],
            [x.low, y.high],
        ],
    )?)
}
