//! The parts into which a plane cuts a face.

ghost use Rattle.std.specs.Prelude.{◌≡◌, ◌<◌, ◌++◌, flat_map, length, IfOk, OnOk};
ghost use Rattle.plane_predicate.specs.Indices.{indices_below};
ghost use Rattle.plane_table.specs.Tables.{plane_named};
ghost use Rattle.plane_table.specs.Faces.{outline_of, IsFaceOver};
ghost use Rattle.plane_table.specs.Cuts.{is_strictly_in_half, numbers_kept_at, kept_numbers, part_in, side_number, IsCrossing};

use crate::{CornerSide, CornerSides, Edges, Face, PlaneTable, opposite_number};
use plain_text::NoMemory;
use plane_polygon::parts_are_polygons;
use std::alloc::Global;

/// One of the two half spaces of a plane.
#[derive(Clone, Copy)]
pub enum Half {
    /// What lies behind it.
    Behind,
    /// What lies ahead of it.
    Ahead,
}

/// A face that is across the plane of a number, with the sides of its corners.
#[derive(Clone, Copy)]
pub struct Crossing<'a> {
    /// The face.
    pub face: &'a Face,
    /// The number of the plane.
    pub number: u32,
    /// On which sides of the plane the face's corners lie.
    pub sides: &'a CornerSides,
}

/// The part of a face in one half space of the plane that it is across.
pub fn cut(
    alloc: Global,
    table: &PlaneTable,
    crossing: Crossing<'_>,
    half: Half,
) -> Result<Face, NoMemory>
    requires { IsCrossing table.now crossing }
    ensures outline { IfOk result
        (λ r. outline_of table.now r
        ≡ part_in half (outline_of table.now crossing.entry.face.now)
        (plane_named table.now crossing.entry.number)) }
    ensures face { IfOk result (IsFaceOver table.now) }
{
    // Called for its law; does nothing when it runs: the two parts of a polygon are polygons.
    parts_are_polygons();
    let Crossing {
        face,
        number,
        sides,
    } = crossing;
    let edges = part_edges(
        alloc,
        face.edges.items(),
        number,
        sides.corners.as_slice(),
        half,
    )?;
    Ok(Face {
        plane: face.plane,
        edges,
    })
}

// The edges of the part, by the sides of the corners.
fn part_edges(
    alloc: Global,
    edges: &[u32],
    number: u32,
    corners: &[CornerSide],
    half: Half,
) -> Result<Edges, NoMemory>
    requires some { 0 < length edges.now }
    requires same { length corners.now ≡ length edges.now }
    ensures { IfOk result
        (λ r. r ≡ flat_map (numbers_kept_at half edges.now number corners.now)
        (indices_below (length edges.now))) }
{
    let number = side_number(number, half);
    let mut kept = Edges::new(alloc);
    let mut from = is_strictly_in_half(corners[edges.len() - 1], half);
    for i in 0..edges.len() {
        let to = is_strictly_in_half(corners[i], half);
        push_kept(&mut kept, from, to, edges[i], number)?;
        from = to;
    }
    Ok(kept)
}

// Whether a corner lies strictly in a half space.
fn is_strictly_in_half(side: CornerSide, half: Half) -> bool
    ensures { result ≡ is_strictly_in_half half side }
{
    match half {
        Half::Behind => side.is_behind,
        Half::Ahead => side.is_ahead,
    }
}

// The number of the plane that has a half space of another one behind it.
fn side_number(number: u32, half: Half) -> u32
    ensures { result ≡ side_number half number }
{
    match half {
        Half::Behind => number,
        Half::Ahead => opposite_number(number),
    }
}

// Adds what an edge gives to the part in a half space, by whether its ends are strictly within, and by
// the number of the plane that has the half space behind it.
fn push_kept(
    found: &mut Edges,
    from: bool,
    to: bool,
    edge: u32,
    number: u32,
) -> Result<(), NoMemory>
    ensures { OnOk result (found.new ≡ found.old ++ kept_numbers from to edge number) }
{
    if from || to {
        found.push(edge)?;
    }
    if from && !to {
        found.push(number)?;
    }
    Ok(())
}
