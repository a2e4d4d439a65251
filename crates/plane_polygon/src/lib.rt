//! Convex polygons in space, as planes with a cyclic list of edge planes (Bernstein and Fussell).
#![tactic(auto)]

ghost use Rattle.std.specs.Prelude.{◌≡◌, IfOk};
ghost use Rattle.plane_polygon.specs.Polygons.{IsPolygon};

mod boxes;
mod classes;
mod cutting;
mod laws;
mod listing;
mod parallels;
mod planes;
mod sides;
mod sorting;

pub use boxes::box_polygon;
pub use classes::Class;
pub use cutting::cut;
pub use laws::{
    box_polygons_are_polygons, corners_go_counterclockwise, parts_are_polygons,
    points_lie_in_the_fan, polygons_by_their_corners, polygons_keep_their_form, within_is_left,
};
pub use listing::{corners, meeting_of};
pub use parallels::{is_alike, side_alike};
use plain_text::NoMemory;
use plane_predicate::Plane;
pub use planes::world_planes;
pub use sides::{next_index, side_at};
pub use sorting::{class_from, sort_by};
use std::alloc::Global;
use std::marker::Model;

/// A convex polygon: a plane with a cyclic list of at least 3 edge planes, counterclockwise seen
/// from ahead. Its points are those on the plane and not ahead of any edge.
///
/// Corner i is the meeting of the plane with edges i and i + 1. A polygon keeps that each corner
/// exists, that the corners go counterclockwise, and that each is strictly behind every edge other
/// than its own two.
#[derive(Drop)]
pub struct Polygon {
    plane: Plane,
    edges: Vec<Plane>,
}

impl Model for Polygon {
    ghost use Rattle.plane_polygon.specs.Polygons.{Outline, IsPolygon};

    ghost Value = { Outline };

    ghost view = { λ s. record { plane = s.plane; edges = s.edges.items } };

    ghost invariant = { λ s. IsPolygon (record { plane = s.plane; edges = s.edges.items }) };
}

impl Polygon {
    /// The polygon of a plane and edges that meet what a polygon keeps.
    pub fn of(alloc: Global, plane: &Plane, edges: &[Plane]) -> Result<Polygon, NoMemory>
        requires { IsPolygon (record { plane = plane.now; edges = edges.now }) }
        ensures { IfOk result (λ s. s ≡ record { plane = plane.now; edges = edges.now }) }
    {
        let mut copied = Vec::new(alloc);
        copied.extend_from_slice(edges)?;
        Ok(Polygon {
            plane: *plane,
            edges: copied,
        })
    }

    /// The same of edges that are given away.
    pub fn of_edges(plane: &Plane, edges: Vec<Plane>) -> Polygon
        requires { IsPolygon (record { plane = plane.now; edges = edges.items }) }
        ensures { result ≡ record { plane = plane.now; edges = edges.items } }
    {
        Polygon {
            plane: *plane,
            edges,
        }
    }

    /// An equal polygon.
    pub fn copy(&self, alloc: Global) -> Result<Polygon, NoMemory>
        ensures { IfOk result (λ s. s ≡ self.now) }
    {
        Polygon::of(alloc, &self.plane, &self.edges)
    }

    /// The plane that it lies on.
    pub fn plane(&self) -> &Plane
        ensures { result.now ≡ self.now.plane }
    {
        &self.plane
    }

    /// Its edges in order.
    pub fn edges(&self) -> &[Plane]
        ensures { result.now ≡ self.now.edges }
    {
        &self.edges
    }

    /// Its edge planes in order, given away.
    pub fn into_edges(self) -> Vec<Plane>
        ensures { result.items ≡ self.edges }
    {
        self.edges
    }
}
