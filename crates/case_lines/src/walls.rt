//! Planes that come in reach of the world box, and their lists.

ghost use Rattle.std.specs.Prelude.{All, IfSome};
ghost use Rattle.plane_predicate.specs.Space.{point_at, IsInReach, ComesInReach};

use crate::stop::CaseStop;
use plain_text::NoMemory;
use plane_predicate::{Plane, plane_through};
use std::alloc::Global;
use std::marker::Model;

// The plane through three points whose coordinates are at most 4095 in size.
fn laid(p: [i64; 3], q: [i64; 3], r: [i64; 3]) -> Option<Plane>
    requires p_reach { IsInReach (point_at p) }
    requires q_reach { IsInReach (point_at q) }
    requires r_reach { IsInReach (point_at r) }
    ensures { IfSome result ComesInReach }
{
    match plane_through(p, q, r) {
        Some(plane) => Some(plane),
        None => None,
    }
}

// A point whose coordinates are at most 4095 in size, or nothing.
fn near(p: [i64; 3]) -> Option<[i64; 3]>
    ensures { IfSome result (λ p. IsInReach (point_at p)) }
{
    let [x, y, z] = p;
    if x.unsigned_abs() <= 4095 && y.unsigned_abs() <= 4095 && z.unsigned_abs() <= 4095 {
        Some([x, y, z])
    } else {
        None
    }
}

/// The same, or nothing where the points are far or on one line.
pub fn through(p: [i64; 3], q: [i64; 3], r: [i64; 3]) -> Option<Plane>
    ensures { IfSome result ComesInReach }
{
    laid(near(p)?, near(q)?, near(r)?)
}

/// The plane square to an axis at a coordinate, seen from where it is greater.
pub fn high(axis: i64, at: i64) -> Option<Plane>
    ensures { IfSome result ComesInReach }
{
    match axis {
        0 => through([at, 0, 0], [at, 1, 0], [at, 0, 1]),
        1 => through([0, at, 0], [0, at, 1], [1, at, 0]),
        _ => through([0, 0, at], [1, 0, at], [0, 1, at]),
    }
}

/// The same, seen from where it is smaller.
pub fn low(axis: i64, at: i64) -> Option<Plane>
    ensures { IfSome result ComesInReach }
{
    match axis {
        0 => through([at, 0, 0], [at, 0, 1], [at, 1, 0]),
        1 => through([0, at, 0], [1, at, 0], [0, at, 1]),
        _ => through([0, 0, at], [0, 1, at], [1, 0, at]),
    }
}

/// A list of planes that come in reach, which contracts see as the list of planes. The last one stands there once more.
#[derive(Drop)]
pub struct Walls {
    planes: Vec<Plane>,
    last: Option<Plane>,
}

impl Model for Walls {
    ghost use Rattle.std.specs.Prelude.{List, All, IfSome};
    ghost use Rattle.plane_predicate.specs.Space.{Coefficients, ComesInReach};

    ghost Value = { List Coefficients };

    ghost view = { λ w. w.planes.items };

    ghost invariant = { λ w. (All ComesInReach w.planes.items) × (IfSome w.last ComesInReach) };
}

impl Walls {
    pub fn new(alloc: Global) -> Walls {
        Walls {
            planes: Vec::new(alloc),
            last: None,
        }
    }

    pub fn planes(&self) -> &[Plane]
        ensures { All ComesInReach result.now }
    {
        &self.planes
    }

    pub fn last(&self) -> Option<Plane>
        ensures { IfSome result ComesInReach }
    {
        self.last
    }

    pub fn push(&mut self, plane: Plane) -> Result<(), NoMemory>
        requires { ComesInReach plane }
    {
        self.planes.push(plane)?;
        self.last = Some(plane);
        Ok(())
    }

    pub fn clear(&mut self) {
        self.planes.clear();
        self.last = None;
    }

    /// Adds a plane where there is one.
    pub fn put(&mut self, plane: Option<Plane>) -> Result<(), CaseStop>
        requires { IfSome plane ComesInReach }
    {
        match plane {
            Some(plane) => {
                self.push(plane)?;
                Ok(())
            }
            None => Err(CaseStop::Unread),
        }
    }
}

/// The planes of the box between two corners: low x, high x, low y, high y, low z, high z.
pub fn box_walls(alloc: Global, numbers: &[i64]) -> Result<Walls, CaseStop> {
    let [a, b, c, d, e, f] = numbers else {
        return Err(CaseStop::Unread);
    };
    let mut walls = Walls::new(alloc);
    for (axis, below, above) in [(0, *a, *d), (1, *b, *e), (2, *c, *f)] {
        walls.put(low(axis, below))?;
        walls.put(high(axis, above))?;
    }
    Ok(walls)
}

/// The planes of what lies between two walls of an axis, one step apart.
pub fn slab_walls(alloc: Global, axis: i64, from: i64) -> Result<Walls, CaseStop> {
    let upto = from.checked_add(1).ok_or(CaseStop::Unread)?;
    let mut walls = Walls::new(alloc);
    walls.put(low(axis, from))?;
    walls.put(high(axis, upto))?;
    Ok(walls)
}
