//! On which sides of a plane the corners of a face lie.

ghost use Rattle.std.specs.Prelude.{◌≡◌, ◌<◌, ◌⊎◌, ◌||◌, length, IfOk, IfSome};
ghost use Rattle.plane_predicate.specs.Sides.{is_side_ahead, is_side_behind};
ghost use Rattle.plane_polygon.specs.Polygons.{corner};
ghost use Rattle.plane_polygon.specs.Parts.{class_by_sides};
ghost use Rattle.plane_polygon.specs.Parallels.{HasAllOn};
ghost use Rattle.plane_table.specs.Tables.{plane_named, NamesPlaneIn};
ghost use Rattle.plane_table.specs.Faces.{corner_on, outline_of, side_against, AreFourSides, AreSidesOf, AreSidesWhereAcross, IsFaceOver, IsSideAt};

use crate::lining::sides_by_line;
use crate::{Face, PlaneTable, opposite_number};
use plain_text::NoMemory;
use plane_polygon::{Class, class_from, next_index, side_alike, side_at};
use plane_predicate::Side;
use smallvec::{SmallVec, smallvec};
use std::alloc::Global;

// How many sides stand in the value itself.
const FEW: usize = 8;

/// On which side of a plane a corner lies; on the plane where it is on neither.
#[derive(Clone, Copy, Default, PartialEq, Eq)]
pub struct CornerSide {
    /// Strictly behind the plane.
    pub is_behind: bool,
    /// Strictly ahead of the plane.
    pub is_ahead: bool,
}

/// The sides of corners in order. Up to eight stand in the value itself, more on the heap.
pub type CornerList = SmallVec<CornerSide, FEW>;

/// How a face lies against a plane, with the sides of its corners: of all of them by `sides`, and by
/// `sides_where_across` where the face is across.
#[derive(Drop)]
pub struct CornerSides {
    /// How the face lies against the plane.
    pub class: Class,
    /// The sides of the corners, in order.
    pub corners: CornerList,
}

/// How a face lies against the plane of a number, with the side of each corner: On where all its corners
/// are on the plane, Across where some lie strictly on each side, else the side of those that are off it.
/// It is for callers that read the corners of any face; those that cut faces take `sides_where_across`.
pub fn sides(
    alloc: Global,
    table: &PlaneTable,
    face: &Face,
    number: u32,
) -> Result<CornerSides, NoMemory>
    requires face { IsFaceOver table.now face.now }
    requires number { NamesPlaneIn table.now number }
    ensures { IfOk result
        (λ r. AreSidesOf (outline_of table.now face.now) (plane_named table.now number) r) }
{
    let edges = face.edges.items();
    let mut corners = SmallVec::new(alloc);
    let mut some_behind = false;
    let mut some_ahead = false;
    let mut ends = side_of_all(table, edges[0], number);
    for i in 0..edges.len() {
        let next = edges[next_index(i, edges.len())];
        let begins = side_of_all(table, next, number);
        let known = first_known(ends, begins);
        let side = corner_side(table, face, i, number, known);
        some_behind = is_either(some_behind, side.is_behind);
        some_ahead = is_either(some_ahead, side.is_ahead);
        corners.push(side)?;
        ends = begins;
    }
    Ok(CornerSides {
        class: class_from(some_behind, some_ahead),
        corners,
    })
}

/// How a face lies against the plane of a number, as `sides` tells it, with the sides of its corners where
/// it is across, which is what `cut` asks for; elsewhere the list is no promise. It is for callers that cut
/// faces: most faces lie on one side of a plane, and no corner of theirs is listed. For speed alone, no
/// corner is looked at where the table knows the planes as parallel, two edges tell those of a rectangle,
/// and the line of the two planes tells them where all planes are small; `sides` tells the rest.
pub fn sides_where_across(
    alloc: Global,
    table: &PlaneTable,
    face: &Face,
    number: u32,
) -> Result<CornerSides, NoMemory>
    requires face { IsFaceOver table.now face.now }
    requires number { NamesPlaneIn table.now number }
    ensures { IfOk result
        (λ r. AreSidesWhereAcross (outline_of table.now face.now)
        (plane_named table.now number) r) }
{
    if let Some(side) = side_of_all(table, face.plane, number) {
        return Ok(CornerSides {
            class: class_on(side),
            corners: SmallVec::new(alloc),
        });
    }
    if face.edges.len() == 4 {
        let edges = face.edges.items();
        if is_parallel(table, edges[0], number) {
            if let Some((first, third)) = both_known(table, edges[0], edges[2], number) {
                return four_sides(alloc, first, third, third, first);
            }
        }
        if is_parallel(table, edges[1], number) {
            if let Some((second, fourth)) = both_known(table, edges[1], edges[3], number) {
                return four_sides(alloc, second, second, fourth, fourth);
            }
        }
    }
    if let Some(found) = sides_by_line(alloc, table, face, number)? {
        return Ok(found);
    }
    sides(alloc, table, face, number)
}

// Whether the table has one direction for two planes, or for one and the opposite of the other. For speed,
// and no promise.
fn is_parallel(table: &PlaneTable, m: u32, n: u32) -> bool
    requires m { NamesPlaneIn table.now m }
    requires n { NamesPlaneIn table.now n }
{
    table.direction(m) / 2 == table.direction(n) / 2
}

// The sides of the plane of a number on which all points of two other planes lie, where both are known.
fn both_known(table: &PlaneTable, one: u32, other: u32, number: u32) -> Option<(Side, Side)>
    requires one { NamesPlaneIn table.now one }
    requires other { NamesPlaneIn table.now other }
    requires number { NamesPlaneIn table.now number }
    ensures { IfSome result
        (λ r. HasAllOn (plane_named table.now one) (plane_named table.now number) r.0 ×
        HasAllOn (plane_named table.now other) (plane_named table.now number) r.1) }
{
    let first = side_of_all(table, one, number)?;
    let second = side_of_all(table, other, number)?;
    Some((first, second))
}

// How a face of four corners lies, by their sides in order.
fn four_sides(
    alloc: Global,
    first: Side,
    second: Side,
    third: Side,
    fourth: Side,
) -> Result<CornerSides, NoMemory>
    ensures { IfOk result (AreFourSides first second third fourth) }
{
    let some_behind = some_of_four(
        first.is_behind(),
        second.is_behind(),
        third.is_behind(),
        fourth.is_behind(),
    );
    let some_ahead = some_of_four(
        first.is_ahead(),
        second.is_ahead(),
        third.is_ahead(),
        fourth.is_ahead(),
    );
    let class = class_from(some_behind, some_ahead);
    let corners = match class {
        Class::Across => smallvec![in alloc;
            corner_on(first),
            corner_on(second),
            corner_on(third),
            corner_on(fourth)
        ]?,
        Class::Behind | Class::Ahead | Class::On => SmallVec::new(alloc),
    };
    Ok(CornerSides { class, corners })
}

// Whether one of four holds.
fn some_of_four(a: bool, b: bool, c: bool, d: bool) -> bool
    ensures { result ≡ (a || (b || (c || d))) }
{
    is_either(a, is_either(b, is_either(c, d)))
}

/// A corner on a side.
pub fn corner_on(side: Side) -> CornerSide
    ensures { result ≡ corner_on side }
{
    CornerSide {
        is_behind: side.is_behind(),
        is_ahead: side.is_ahead(),
    }
}

// How a face lies that has all its corners on one side.
fn class_on(side: Side) -> Class
    ensures { result ≡ class_by_sides (is_side_behind side) (is_side_ahead side) }
{
    match side {
        Side::Behind => Class::Behind,
        Side::On => Class::On,
        Side::Ahead => Class::Ahead,
    }
}

// The side of the plane of a number on which corner `i` lies: the known one, else by the meeting of the
// planes there.
fn corner_side(
    table: &PlaneTable,
    face: &Face,
    i: usize,
    number: u32,
    known: Option<Side>,
) -> CornerSide
    requires index { i < length face.now.edges }
    requires face { IsFaceOver table.now face.now }
    requires number { NamesPlaneIn table.now number }
    requires known { IfSome known (IsSideAt table.now face.now (plane_named table.now number) i) }
    ensures { result ≡ side_against (plane_named table.now number)
        (corner (outline_of table.now face.now) i) }
{
    let side = match known {
        Some(side) => side,
        None => meeting_side(table, face, i, number),
    };
    corner_on(side)
}

// The side of the plane of a number on which corner `i` lies.
fn meeting_side(table: &PlaneTable, face: &Face, i: usize, number: u32) -> Side
    requires index { i < length face.now.edges }
    requires face { IsFaceOver table.now face.now }
    requires number { NamesPlaneIn table.now number }
    ensures { IsSideAt table.now face.now (plane_named table.now number) i result }
{
    let edges = face.edges.items();
    let ends = table.plane(edges[i]);
    let begins = table.plane(edges[next_index(i, edges.len())]);
    side_at(table.plane(face.plane), ends, begins, table.plane(number))
}

// The first of two sides that is known.
fn first_known(ends: Option<Side>, begins: Option<Side>) -> Option<Side>
    ensures { (result ≡ ends) ⊎ (result ≡ begins) }
{
    match ends {
        Some(_) => ends,
        None => begins,
    }
}

// The side of the plane of a number on which all points of another plane lie, where the table has one
// direction for them or their opposites.
fn side_of_all(table: &PlaneTable, of: u32, number: u32) -> Option<Side>
    requires of { NamesPlaneIn table.now of }
    requires number { NamesPlaneIn table.now number }
    ensures { IfSome result
        (λ s. HasAllOn (plane_named table.now of) (plane_named table.now number) s) }
{
    let direction = table.direction(of);
    let other = table.direction(number);
    if direction == other {
        Some(side_alike(table.plane(of), table.plane(number)))
    } else if direction == opposite_number(other) {
        Some(side_alike(table.plane(opposite_number(of)), table.plane(number)))
    } else {
        None
    }
}

/// Whether one of two holds.
pub fn is_either(a: bool, b: bool) -> bool
    ensures { result ≡ (a || b) }
{
    a || b
}
