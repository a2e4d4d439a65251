//! The different ones of some points, in ascending order.

ghost use Rattle.std.specs.Prelude.{◌≡◌, ◌≤◌, IfSome, IfOk, IfErr, OnOk, IsNone, insert, length};
ghost use Rattle.scad_hull.specs.Hulls.{points_in_order, point_put_among};
ghost use Rattle.scad_hull.specs.Refusals.{IsCountStop};

use primitives::ShapeStop;
use std::alloc::{AllocError, Global};
use std::cmp::Ordering;
use text_place::FaultKind;

// How many different points a hull has at most.
const POINTS: usize = 128;

/// The different points in ascending order of x, then y, then z. `LongList` comes exactly where
/// there are more than 128 of them.
pub fn different_points(alloc: Global, points: &[[i64; 3]]) -> Result<Vec<[i64; 3]>, ShapeStop>
    ensures all { IfOk result (λ v. v.items ≡ points_in_order points.now) }
    ensures few { OnOk result (length (points_in_order points.now) ≤ 128) }
    ensures stops { IfErr result (IsCountStop points.now) }
{
    let mut found = Vec::new(alloc);
    for point in points {
        put_point(&mut found, *point)?;
        if found.len() > POINTS {
            return Err(ShapeStop::Kind(FaultKind::LongList));
        }
    }
    Ok(found)
}

// Puts a point into its place among ascending points, unless it is among them.
fn put_point(points: &mut Vec<[i64; 3]>, point: [i64; 3]) -> Result<(), AllocError>
    ensures { OnOk result (points.new.items ≡ point_put_among point points.old.items) }
{
    if let Some(place) = place_of(points, point) {
        points.insert(place, point)?;
    }
    Ok(())
}

// The place of a point among ascending points. `None` where it is among them.
fn place_of(points: &[[i64; 3]], point: [i64; 3]) -> Option<usize>
    ensures within { IfSome result (λ i. i ≤ length points.now) }
    ensures some { IfSome result (λ i. point_put_among point points.now
        ≡ insert points.now i point) }
    ensures none { IsNone result → point_put_among point points.now ≡ points.now }
{
    for place in 0..points.len() {
        match points[place].cmp(&point) {
            Ordering::Less => {}
            Ordering::Equal => return None,
            Ordering::Greater => return Some(place),
        }
    }
    Some(points.len())
}
