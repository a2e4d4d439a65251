//! Lines that go through the inside of a hull: no face has such a line in its plane.

ghost use Rattle.std.specs.Prelude.{◌<◌, ◌≤◌, All, length};
ghost use Rattle.std.specs.Bool.{OnTrue};
ghost use Rattle.plane_predicate.specs.Space.{point_at};
ghost use Rattle.primitives.specs.GridSizes.{IsWithinGridLimits};
ghost use Rattle.scad_hull.specs.Steps.{AreThree, HasNoFace};

use crate::triples::{is_point_ahead, through};
use primitives::facing::{goes_through, has_direction, is_ahead, opposite};

/// Whether the line through two points goes through the inside of a triangle of points, as seen along it. `false` is no
/// promise. The triangle is a guess that is tried first, and made anew where it is wrong.
pub fn is_surrounded(
    points: &[[i64; 3]],
    first: usize,
    second: usize,
    around: &mut [u32; 3],
) -> bool
    requires grid { All (λ p. IsWithinGridLimits (point_at p)) points.now }
    requires few { length points.now ≤ 128 }
    requires first_in { first < length points.now }
    requires second_in { second < length points.now }
    requires around { AreThree (length points.now) around.old }
    ensures none { OnTrue result (HasNoFace points.now first second) }
    ensures around { AreThree (length points.now) around.new }
{
    if surround(points, first, second, *around) {
        return true;
    }
    *around = guess(points, first, second);
    surround(points, first, second, *around)
}

// Whether three points are round the line through two others: about the line, the way from each to the next turns left.
fn surround(points: &[[i64; 3]], first: usize, second: usize, around: [u32; 3]) -> bool
    requires grid { All (λ p. IsWithinGridLimits (point_at p)) points.now }
    requires few { length points.now ≤ 128 }
    requires first_in { first < length points.now }
    requires second_in { second < length points.now }
    requires around { AreThree (length points.now) around }
    ensures { OnTrue result (HasNoFace points.now first second) }
{
    let [p, q, r] = around;
    let plane = through(points, [first as u32, second as u32, p]);
    if !is_point_ahead(points, &plane, q) {
        return false;
    }
    if !is_point_ahead(points, &opposite(&plane), r) {
        return false;
    }
    let next = through(points, [first as u32, second as u32, q]);
    is_point_ahead(points, &next, r)
}

// Three points that may be round the line through two others.
fn guess(points: &[[i64; 3]], first: usize, second: usize) -> [u32; 3]
    requires grid { All (λ p. IsWithinGridLimits (point_at p)) points.now }
    requires few { length points.now ≤ 128 }
    requires first_in { first < length points.now }
    requires second_in { second < length points.now }
    ensures { AreThree (length points.now) result }
{
    for start in 0..points.len() {
        let plane = through(points, [first as u32, second as u32, start as u32]);
        if has_direction(&plane) {
            return guess_from(points, first, second, start);
        }
    }
    [first as u32, first as u32, first as u32]
}

// Three points that may be round the line through two others. From one point off the line on, those furthest to the right
// and to the left about it are kept, until a further one is to the right of the one and to the left of the other.
fn guess_from(points: &[[i64; 3]], first: usize, second: usize, start: usize) -> [u32; 3]
    requires grid { All (λ p. IsWithinGridLimits (point_at p)) points.now }
    requires few { length points.now ≤ 128 }
    requires first_in { first < length points.now }
    requires second_in { second < length points.now }
    requires start_in { start < length points.now }
    ensures { AreThree (length points.now) result }
{
    let mut right = start;
    let mut left = start;
    let mut by_right = through(points, [first as u32, second as u32, start as u32]);
    let mut by_left = by_right;
    for third in start + 1..points.len() {
        let at = points[third];
        if is_ahead(&by_left, at) {
            if is_ahead(&by_right, at) {
                left = third;
                by_left = through(points, [first as u32, second as u32, third as u32]);
            } else if !goes_through(&by_right, at) {
                return [right as u32, left as u32, third as u32];
            }
        } else if is_ahead(&opposite(&by_right), at) && !goes_through(&by_left, at) {
            right = third;
            by_right = through(points, [first as u32, second as u32, third as u32]);
        }
    }
    [right as u32, left as u32, left as u32]
}
