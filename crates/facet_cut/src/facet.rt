//! Facets.

ghost use Rattle.std.specs.Prelude.{◌≡◌};
ghost use Rattle.plane_polygon.specs.Polygons.{IsPolygon};
ghost use Rattle.facet_cut.specs.Facets.{reversed_outline};

use plane_polygon::{Polygon, polygons_keep_their_form};
use plane_predicate::{Plane, opposite};
use std::marker::Model;

/// A part of the boundary of a solid: a polygon that has the solid just behind it alone.
///
/// A facet keeps that its plane, the one that it faces, is its polygon's.
#[derive(Drop)]
pub struct Facet {
    /// The plane that it faces: the solid is behind it.
    pub plane: Plane,
    /// Its outline, counterclockwise seen from ahead of the plane.
    pub polygon: Polygon,
}

impl Model for Facet {
    ghost use Rattle.std.specs.Prelude.{◌≡◌};
    ghost use Rattle.plane_polygon.specs.Polygons.{Outline};

    ghost Value = { Outline };

    ghost view = { λ f. f.polygon };

    ghost invariant = { λ f. f.plane ≡ f.polygon.plane };
}

/// The facet on a polygon that faces the polygon's plane.
pub fn facing_ahead(polygon: Polygon) -> Facet
    ensures { result ≡ polygon }
{
    Facet {
        plane: *polygon.plane(),
        polygon,
    }
}

/// The facet on a polygon that faces the opposite of the polygon's plane.
pub fn facing_back(polygon: Polygon) -> Facet
    ensures { result ≡ reversed_outline polygon }
{
    polygons_keep_their_form(&polygon);
    let plane = opposite(polygon.plane());
    let mut edges = polygon.into_edges();
    edges.reverse();
    facing_ahead(Polygon::of_edges(&plane, edges))
}
