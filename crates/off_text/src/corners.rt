//! The corners of polygons, in units and reduced.

ghost use Rattle.std.specs.Prelude.{◌≡◌, ◌<◌, ◌<ℤ◌, pos, [], length, OnOk};
ghost use Rattle.plane_predicate.specs.Space.{meeting_by_cramers_rule, IsPointTimes, HasNoCommonFactor};
ghost use Rattle.plane_predicate.specs.InUnits.{in_units};
ghost use Rattle.plane_polygon.specs.Polygons.{corner, AreReducedFrom, IsPolygon};
ghost use Rattle.off_text.specs.Texts.{corners_in_units};

use crate::lowest_terms;
use crate::vertex::Vertex;
use plain_text::NoMemory;
use plane_polygon::{Polygon, meeting_of, next_index, polygons_keep_their_form};
use plane_predicate::{Plane, Unit};
use std::alloc::AllocError;

/// Puts the corners of a polygon, in units and reduced, in the place of those that were there.
pub fn put_corners(corners: &mut Vec<Vertex>, polygon: &Polygon, unit: Unit) -> Result<(), NoMemory>
    ensures polygon { OnOk result (IsPolygon polygon.now) }
    ensures corners { OnOk result
        (AreReducedFrom (corners_in_units unit polygon.now) corners.new.items) }
{
    polygons_keep_their_form(polygon);
    corners.clear();
    push_meetings(corners, polygon.plane(), polygon.edges(), unit)?;
    Ok(())
}

// Adds to an empty list the corners of a plane and edges that meet what a polygon keeps.
fn push_meetings(
    corners: &mut Vec<Vertex>,
    plane: &Plane,
    edges: &[Plane],
    unit: Unit,
) -> Result<(), AllocError>
    requires none { corners.old.items ≡ [] }
    requires polygon { IsPolygon (record { plane = plane.now; edges = edges.now }) }
    ensures { OnOk result
        (AreReducedFrom
        (corners_in_units unit (record { plane = plane.now; edges = edges.now }))
        corners.new.items) }
{
    for i in 0..edges.len() {
        corners.push(corner_at(plane, edges, i, unit))?;
    }
    Ok(())
}

// Corner `i`, in units and reduced.
fn corner_at(plane: &Plane, edges: &[Plane], i: usize, unit: Unit) -> Vertex
    requires index { i < length edges.now }
    requires polygon { IsPolygon (record { plane = plane.now; edges = edges.now }) }
    ensures times { IsPointTimes
        (in_units unit (corner (record { plane = plane.now; edges = edges.now }) i)) result }
    ensures reduced { HasNoCommonFactor result }
{
    vertex_at(plane, &edges[i], &edges[next_index(i, edges.len())], unit)
}

// The vertex where three planes meet whose determinant is above 0.
fn vertex_at(p: &Plane, q: &Plane, r: &Plane, unit: Unit) -> Vertex
    requires { pos 0 <ℤ (meeting_by_cramers_rule p.now q.now r.now).w }
    ensures times { IsPointTimes (in_units unit
        (meeting_by_cramers_rule p.now q.now r.now)) result }
    ensures reduced { HasNoCommonFactor result }
{
    Vertex::of(&lowest_terms(&meeting_of(p, q, r)), unit)
}
