//! How a polygon lies against a plane.

ghost use Rattle.std.specs.Prelude.{◌≡◌, ◌||◌};
ghost use Rattle.plane_polygon.specs.Polygons.{IsPolygon};
ghost use Rattle.plane_polygon.specs.Parts.{class_by_sides, class_of};

use crate::sides::corner_side;
use crate::{Class, Polygon};
use plane_predicate::Plane;

/// How a polygon lies against a plane: On where all its corners are on the plane, Across where
/// some lie strictly on each side, else the side of those that are off it.
pub fn sort_by(polygon: &Polygon, plane: &Plane) -> Class
    ensures { result ≡ class_of polygon.now plane.now }
{
    class_among(&polygon.plane, &polygon.edges, plane)
}

// The same, of a plane and edges that meet what a polygon keeps.
fn class_among(plane: &Plane, edges: &[Plane], m: &Plane) -> Class
    requires { IsPolygon (record { plane = plane.now; edges = edges.now }) }
    ensures { result ≡ class_of (record { plane = plane.now; edges = edges.now }) m.now }
{
    let mut some_behind = false;
    let mut some_ahead = false;
    for i in 0..edges.len() {
        let side = corner_side(plane, edges, i, m);
        some_behind = either(some_behind, side.is_behind());
        some_ahead = either(some_ahead, side.is_ahead());
    }
    class_from(some_behind, some_ahead)
}

// Whether one of two holds.
fn either(a: bool, b: bool) -> bool
    ensures { result ≡ (a || b) }
{
    a || b
}

/// The class by whether some corners are strictly behind, and whether some are strictly ahead.
pub fn class_from(some_behind: bool, some_ahead: bool) -> Class
    ensures { result ≡ class_by_sides some_behind some_ahead }
{
    match (some_behind, some_ahead) {
        (true, true) => Class::Across,
        (true, false) => Class::Behind,
        (false, true) => Class::Ahead,
        (false, false) => Class::On,
    }
}
