//! The parts into which a plane cuts a polygon.

ghost use Rattle.std.specs.Prelude.{◌≡◌, ◌++◌, ◌↔◌, ◌≤ℤ◌, pos, IfOk, OnOk};
ghost use Rattle.plane_predicate.specs.Space.{Coordinates, value};
ghost use Rattle.plane_polygon.specs.Polygons.{Covers, IsPolygon};
ghost use Rattle.plane_polygon.specs.Parts.{class_of, edges_kept_by, part_ahead, part_behind};
ghost use Rattle.plane_polygon.specs.declared.classes.Class.TheVariants.{Across};

use crate::Polygon;
use crate::sides::{corner_side, next_side};
use plain_text::NoMemory;
use plane_predicate::{Plane, opposite};
use std::alloc::{AllocError, Global};

/// The parts behind and ahead of a plane that the polygon is across. They have exactly the
/// polygon's points that are not ahead of the plane, and those that are not behind it.
pub fn cut(alloc: Global, polygon: &Polygon, plane: &Plane) -> Result<(Polygon, Polygon), NoMemory>
    requires { class_of polygon.now plane.now ≡ Across }
    ensures parts { IfOk result (λ r. (r.0 ≡ part_behind polygon.now plane.now)
        × (r.1 ≡ part_ahead polygon.now plane.now)) }
    ensures behind { IfOk result (λ r. (p : Coordinates) → Covers r.0 p
        ↔ (Covers polygon.now p × (value plane.now p ≤ℤ pos 0))) }
    ensures ahead { IfOk result (λ r. (p : Coordinates) → Covers r.1 p
        ↔ (Covers polygon.now p × (pos 0 ≤ℤ value plane.now p))) }
{
    let parts = part_edges(alloc, &polygon.plane, &polygon.edges, plane)?;
    Ok((
        Polygon {
            plane: polygon.plane,
            edges: parts.behind,
        },
        Polygon {
            plane: polygon.plane,
            edges: parts.ahead,
        },
    ))
}

// The edges of the two parts.
#[derive(Drop)]
struct PartEdges {
    behind: Vec<Plane>,
    ahead: Vec<Plane>,
}

// The edges of both parts, in one pass in which each corner's side is tested once.
fn part_edges(
    alloc: Global,
    plane: &Plane,
    edges: &[Plane],
    m: &Plane,
) -> Result<PartEdges, AllocError>
    requires { IsPolygon (record { plane = plane.now; edges = edges.now }) }
    ensures behind { IfOk result (λ r. r.behind.items
        ≡ (part_behind (record { plane = plane.now; edges = edges.now }) m.now).edges) }
    ensures ahead { IfOk result (λ r. r.ahead.items
        ≡ (part_ahead (record { plane = plane.now; edges = edges.now }) m.now).edges) }
{
    let turned = opposite(m);
    let mut behind = Vec::new(alloc);
    let mut ahead = Vec::new(alloc);
    let last = corner_side(plane, edges, edges.len() - 1, m);
    let mut from = last;
    for i in 0..edges.len() {
        let to = next_side(plane, edges, i, m, last);
        push_kept(&mut behind, from.is_behind(), to.is_behind(), &edges[i], m)?;
        push_kept(
            &mut ahead,
            from.is_ahead(),
            to.is_ahead(),
            &edges[i],
            &turned,
        )?;
        from = to;
    }
    Ok(PartEdges { behind, ahead })
}

// Adds what an edge gives to the part behind `m`, by whether its ends are strictly behind it.
fn push_kept(
    found: &mut Vec<Plane>,
    from: bool,
    to: bool,
    edge: &Plane,
    m: &Plane,
) -> Result<(), AllocError>
    ensures { OnOk result (found.new.items
        ≡ found.old.items ++ edges_kept_by from to edge.now m.now) }
{
    if from || to {
        found.push(*edge)?;
    }
    if from && !to {
        found.push(*m)?;
    }
    Ok(())
}
