//! The polygon that a plane has in the world box.

ghost use Rattle.std.specs.Prelude.{◌≡◌, ◌≢◌, ◌↔◌, pos, IfOk};
ghost use Rattle.plane_predicate.specs.Space.{Coordinates, value, IsInClosedWorld, ComesInReach};
ghost use Rattle.plane_polygon.specs.Polygons.{Covers, IsPolygon};
ghost use Rattle.plane_polygon.specs.Boxes.{box_outline, box_over_x, box_over_y, box_over_z, trimmed_outline, counterclockwise_edges};

use crate::planes::{high_x, high_y, high_z, low_x, low_y, low_z};
use crate::{Class, Polygon, cut, sort_by};
use plain_text::NoMemory;
use plane_predicate::Plane;
use std::alloc::Global;

/// The polygon of a plane's points in the closed world box, where the coordinates are at most 4096
/// in size. The plane has a point with coordinates at most 4095 in size.
pub fn box_polygon(alloc: Global, plane: &Plane) -> Result<Polygon, NoMemory>
    requires { ComesInReach plane.now }
    ensures outline { IfOk result (λ s. s ≡ box_outline plane.now) }
    ensures points { IfOk result (λ s. (p : Coordinates) →
        Covers s p ↔ ((value plane.now p ≡ pos 0) × IsInClosedWorld p)) }
{
    if plane.c != 0 {
        over_z(alloc, plane)
    } else if plane.b != 0 {
        over_y(alloc, plane)
    } else {
        over_x(alloc, plane)
    }
}

// The box polygon over z.
#[tactic(auto, using(crate::proofs::lemmas::BoxPoints::start_z))]
fn over_z(alloc: Global, plane: &Plane) -> Result<Polygon, NoMemory>
    requires { plane.now.c ≢ pos 0 }
    ensures { IfOk result (λ s. s ≡ box_over_z plane.now) }
{
    let part = plane.c;
    let whole = four_edges(alloc, plane, part, &low_x(), &low_y(), &high_x(), &high_y())?;
    let below = trim(alloc, whole, &high_z())?;
    trim(alloc, below, &low_z())
}

// The box polygon over y.
#[tactic(auto, using(crate::proofs::lemmas::BoxPoints::start_y))]
fn over_y(alloc: Global, plane: &Plane) -> Result<Polygon, NoMemory>
    requires { plane.now.b ≢ pos 0 }
    ensures { IfOk result (λ s. s ≡ box_over_y plane.now) }
{
    let part = plane.b;
    let whole = four_edges(alloc, plane, part, &low_x(), &high_z(), &high_x(), &low_z())?;
    let below = trim(alloc, whole, &high_y())?;
    trim(alloc, below, &low_y())
}

// The box polygon over x.
#[tactic(auto, using(crate::proofs::lemmas::BoxPoints::start_x))]
fn over_x(alloc: Global, plane: &Plane) -> Result<Polygon, NoMemory>
    requires { plane.now.a ≢ pos 0 }
    ensures { IfOk result (λ s. s ≡ box_over_x plane.now) }
{
    let part = plane.a;
    let whole = four_edges(alloc, plane, part, &low_y(), &low_z(), &high_y(), &high_z())?;
    let below = trim(alloc, whole, &high_x())?;
    trim(alloc, below, &low_x())
}

// The polygon of four edges, whose order is reversed where `part` is below 0.
fn four_edges(
    alloc: Global,
    plane: &Plane,
    part: i64,
    first: &Plane,
    second: &Plane,
    third: &Plane,
    fourth: &Plane,
) -> Result<Polygon, NoMemory>
    requires { IsPolygon
        (record {
          plane = plane.now;
          edges = counterclockwise_edges part first.now second.now third.now fourth.now;
        }) }
    ensures { IfOk result (λ s. s
        ≡ record {
          plane = plane.now;
          edges = counterclockwise_edges part first.now second.now third.now fourth.now;
        }) }
{
    if part < 0 {
        Polygon::of(alloc, plane, &[*first, *fourth, *third, *second])
    } else {
        Polygon::of(alloc, plane, &[*first, *second, *third, *fourth])
    }
}

// The part behind a plane where the polygon is across it, else the polygon.
fn trim(alloc: Global, polygon: Polygon, plane: &Plane) -> Result<Polygon, NoMemory>
    ensures { IfOk result (λ s. s ≡ trimmed_outline polygon plane.now) }
{
    match sort_by(&polygon, plane) {
        Class::Across => {
            let (behind, _ahead) = cut(alloc, &polygon, plane)?;
            Ok(behind)
        }
        Class::Behind | Class::Ahead | Class::On => Ok(polygon),
    }
}
