//! On which side of a plane the corners of a polygon lie.

ghost use Rattle.std.specs.Prelude.{◌≡◌, ◌-◌, ◌<◌, ◌<ℤ◌, pos, length, IfSome};
ghost use Rattle.plane_predicate.specs.Space.{value, meeting_by_cramers_rule};
ghost use Rattle.plane_predicate.specs.Sides.{side_of};
ghost use Rattle.plane_polygon.specs.Polygons.{corner, IsPolygon};
ghost use Rattle.plane_predicate.specs.Indices.{index_after};

use crate::parallels::parallel_side;
use plane_predicate::{Plane, Side, side};

/// The index that follows `i` round a list of `count` items.
pub fn next_index(i: usize, count: usize) -> usize
    requires { i < count }
    ensures { result ≡ index_after count i }
{
    if i + 1 == count { 0 } else { i + 1 }
}

/// The side of `m` on which a meeting with a positive determinant lies.
#[tactic(auto, using(crate::proofs::lemmas::CornerSides::positive_meeting, crate::proofs::lemmas::CornerSides::positive_apart))]
pub fn side_at(p: &Plane, q: &Plane, r: &Plane, m: &Plane) -> Side
    requires { pos 0 <ℤ (meeting_by_cramers_rule p.now q.now r.now).w }
    ensures { result ≡ side_of (value m.now (meeting_by_cramers_rule p.now q.now r.now)) }
{
    side(p, q, r, m)
}

// The same, where `m` is parallel to one of the planes that meet.
fn parallel_to_one(p: &Plane, q: &Plane, r: &Plane, m: &Plane) -> Option<Side>
    requires { pos 0 <ℤ (meeting_by_cramers_rule p.now q.now r.now).w }
    ensures { IfSome result (λ s. s ≡ side_of
        (value m.now (meeting_by_cramers_rule p.now q.now r.now))) }
{
    if let Some(found) = parallel_side(p, m) {
        return Some(found);
    }
    if let Some(found) = parallel_side(q, m) {
        return Some(found);
    }
    parallel_side(r, m)
}

/// The side of `m` on which corner `i` lies.
pub fn corner_side(plane: &Plane, edges: &[Plane], i: usize, m: &Plane) -> Side
    requires index { i < length edges.now }
    requires polygon { IsPolygon (record { plane = plane.now; edges = edges.now }) }
    ensures { result
        ≡ side_of (value m.now (corner (record { plane = plane.now; edges = edges.now }) i)) }
{
    let ends = &edges[i];
    let begins = &edges[next_index(i, edges.len())];
    match parallel_to_one(plane, ends, begins, m) {
        Some(found) => found,
        None => side_at(plane, ends, begins, m),
    }
}

/// The same, where the last corner's side is known.
pub fn next_side(plane: &Plane, edges: &[Plane], i: usize, m: &Plane, last: Side) -> Side
    requires index { i < length edges.now }
    requires polygon { IsPolygon (record { plane = plane.now; edges = edges.now }) }
    requires last { last
        ≡ side_of
        (value m.now
        (corner (record { plane = plane.now; edges = edges.now }) (length edges.now - 1))) }
    ensures { result
        ≡ side_of (value m.now (corner (record { plane = plane.now; edges = edges.now }) i)) }
{
    if i + 1 == edges.len() {
        last
    } else {
        corner_side(plane, edges, i, m)
    }
}
