//! The corners of a polygon.

ghost use Rattle.std.specs.Prelude.{◌≡◌, ◌<◌, ◌<ℤ◌, pos, length, IfOk};
ghost use Rattle.plane_predicate.specs.Space.{meeting_by_cramers_rule, IsPointTimes, HasNoCommonFactor};
ghost use Rattle.plane_polygon.specs.Polygons.{corner, AreReducedFrom, IsPolygon};
ghost use Rattle.plane_polygon.specs.Parts.{corners};

use crate::Polygon;
use crate::sides::next_index;
use plain_text::NoMemory;
use plane_predicate::{Plane, Point, meet, reduce};
use std::alloc::{AllocError, Global};

/// The corners, reduced, counterclockwise seen from ahead. Corner i is where edge i ends and edge
/// i + 1 begins.
pub fn corners(alloc: Global, polygon: &Polygon) -> Result<Vec<Point>, NoMemory>
    ensures corners { IfOk result (λ v. AreReducedFrom (corners polygon.now) v.items) }
    ensures polygon { IsPolygon polygon.now }
{
    Ok(corners_of(alloc, &polygon.plane, &polygon.edges)?)
}

// The same, of a plane and edges that meet what a polygon keeps.
fn corners_of(alloc: Global, plane: &Plane, edges: &[Plane]) -> Result<Vec<Point>, AllocError>
    requires { IsPolygon (record { plane = plane.now; edges = edges.now }) }
    ensures { IfOk result (λ v. AreReducedFrom
        (corners (record { plane = plane.now; edges = edges.now })) v.items) }
{
    let mut found = Vec::new(alloc);
    for i in 0..edges.len() {
        found.push(corner_point(plane, edges, i))?;
    }
    Ok(found)
}

// Corner `i`, reduced.
fn corner_point(plane: &Plane, edges: &[Plane], i: usize) -> Point
    requires index { i < length edges.now }
    requires polygon { IsPolygon (record { plane = plane.now; edges = edges.now }) }
    ensures times { IsPointTimes (corner (record { plane = plane.now; edges = edges.now }) i)
        result }
    ensures reduced { HasNoCommonFactor result }
{
    let found = meeting_of(plane, &edges[i], &edges[next_index(i, edges.len())]);
    reduce(&found)
}

/// The meeting of three planes whose determinant is positive.
#[tactic(auto, using(crate::proofs::lemmas::CornerSides::positive_meeting, crate::proofs::lemmas::CornerSides::positive_apart))]
pub fn meeting_of(p: &Plane, q: &Plane, r: &Plane) -> Point
    requires { pos 0 <ℤ (meeting_by_cramers_rule p.now q.now r.now).w }
    ensures { result ≡ meeting_by_cramers_rule p.now q.now r.now }
{
    meet(p, q, r).unwrap()
}
