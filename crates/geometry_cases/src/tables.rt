//! What is asked of a face over a table: that of the second last plane, over the planes that it and the last one's face name.

ghost use Rattle.std.specs.Prelude.{All, IfOk};
ghost use Rattle.plane_predicate.specs.Space.{ComesInReach};
ghost use Rattle.plane_table.specs.Tables.{NamesPlaneIn};
ghost use Rattle.plane_table.specs.Faces.{IsFaceOver};
ghost use Rattle.plane_table.specs.Cuts.{IsCrossing};
ghost use Rattle.plane_table.specs.Joins.{AreNumbersOf};

use crate::faces::put_numbers_of;
use crate::put::{put_class, put_corners};
use case_lines::{CaseStop, found, put, put_numbers, put_planes};
use plain_text::NoMemory;
use plane_polygon::Class;
use plane_predicate::Plane;
use plane_table::{
    CornerSide, Crossing, Face, Half, NumberedPlanes, PlaneTable, cut, faces_are_found, half_face,
    join, keep_used, mark_used, polygon_of, renumber, sides, sides_where_across,
};
use std::alloc::Global;

#[derive(Clone, Copy)]
pub enum Tabling {
    Table,
    Alike,
    Lies,
    Sides,
    Used,
}

const TABLINGS: [(&[u8], Tabling); 5] = [
    (b"table", Tabling::Table),
    (b"alike", Tabling::Alike),
    (b"lies", Tabling::Lies),
    (b"sides", Tabling::Sides),
    (b"used", Tabling::Used),
];

pub fn tabling_of(word: &[u8]) -> Option<Tabling> {
    found(&TABLINGS, word)
}

// A face over a list in which the planes of its own list have these numbers.
fn moved(
    alloc: Global,
    face: &Face,
    from: &[Plane],
    planes: &[Plane],
    numbers: &[u32],
) -> Result<Face, NoMemory>
    requires over { IsFaceOver from.now face.now }
    requires numbers { AreNumbersOf planes.now numbers.now from.now }
    ensures { IfOk result (IsFaceOver planes.now) }
{
    // Called for its law; does nothing when it runs: where all planes of a list have numbers, so have those of a face.
    faces_are_found();
    renumber(alloc, face, numbers)
}

// The table of the planes of two lists, and a face of the first list over it.
fn tabled_by(
    alloc: Global,
    face: &Face,
    from: &[Plane],
    others: &[Plane],
) -> Result<(PlaneTable, Face), NoMemory>
    requires over { IsFaceOver from.now face.now }
    ensures { IfOk result (λ r. IsFaceOver r.0 r.1) }
{
    let joined = join(alloc, from, others)?;
    let face = moved(alloc, face, from, &joined.planes, &joined.left)?;
    let table = PlaneTable::of(alloc, joined.planes)?;
    Ok((table, face))
}

// The table of the planes that the faces of two planes name, and the first of these faces over it.
fn tabled(alloc: Global, first: &Plane, second: &Plane) -> Result<(PlaneTable, Face), NoMemory>
    requires first { ComesInReach first.now }
    requires second { ComesInReach second.now }
    ensures { IfOk result (λ r. IsFaceOver r.0 r.1) }
{
    let own = half_face(alloc, first)?;
    let other = half_face(alloc, second)?;
    tabled_by(alloc, &own.face, &own.planes, &other.planes)
}

// A number that names a plane of a table.
fn number_in(table: &PlaneTable, number: i64) -> Result<u32, CaseStop>
    ensures { IfOk result (NamesPlaneIn table.now) }
{
    match u32::try_from(number) {
        Ok(number) if ((number / 2) as usize) < table.planes().len() => Ok(number),
        _ => Err(CaseStop::Unread),
    }
}

// The planes of the table, the face's numbers, and its corners.
fn put_table(
    alloc: Global,
    out: &mut Vec<u8>,
    table: &PlaneTable,
    face: &Face,
) -> Result<(), NoMemory>
    requires { IsFaceOver table.now face.now }
{
    put_planes(alloc, out, table.planes())?;
    put_numbers_of(alloc, out, face)?;
    put(out, b" corners ")?;
    let polygon = polygon_of(alloc, table, face)?;
    put_corners(alloc, out, &polygon)
}

// Whether two numbers name the same plane, opposite planes or others, and whether these have one direction.
fn put_alike(out: &mut Vec<u8>, table: &PlaneTable, first: u32, second: u32) -> Result<(), NoMemory>
    requires first { NamesPlaneIn table.now first }
    requires second { NamesPlaneIn table.now second }
{
    if table.is_same(first, second) {
        put(out, b"same")?;
    } else if table.is_opposite(first, second) {
        put(out, b"opposite")?;
    } else {
        put(out, b"apart")?;
    }
    if table.direction(first) == table.direction(second) {
        put(out, b" one direction")
    } else {
        put(out, b" two directions")
    }
}

// The parts of a face behind a plane and ahead of it.
fn put_parts(
    alloc: Global,
    out: &mut Vec<u8>,
    table: &PlaneTable,
    crossing: Crossing<'_>,
) -> Result<(), NoMemory>
    requires { IsCrossing table.now crossing }
{
    let behind = cut(alloc, table, crossing, Half::Behind)?;
    put_numbers_of(alloc, out, &behind)?;
    put(out, b" and")?;
    let ahead = cut(alloc, table, crossing, Half::Ahead)?;
    put_numbers_of(alloc, out, &ahead)
}

// How the face lies against the plane of a number; where that is across, the parts behind and ahead.
fn put_lying(
    alloc: Global,
    out: &mut Vec<u8>,
    table: &PlaneTable,
    face: &Face,
    number: u32,
) -> Result<(), NoMemory>
    requires face { IsFaceOver table.now face.now }
    requires number { NamesPlaneIn table.now number }
{
    let found = sides_where_across(alloc, table, face, number)?;
    put_class(out, found.class)?;
    if let Class::Across = found.class {
        let sides = &found;
        put_parts(
            alloc,
            out,
            table,
            Crossing {
                face,
                number,
                sides,
            },
        )?;
    }
    Ok(())
}

// On which side of a plane a corner lies.
fn put_corner_side(out: &mut Vec<u8>, side: CornerSide) -> Result<(), NoMemory> {
    if side.is_behind {
        put(out, b" behind")
    } else if side.is_ahead {
        put(out, b" ahead")
    } else {
        put(out, b" on")
    }
}

// How the face lies against the plane of a number, and on which side each of its corners lies.
fn put_corner_sides(
    alloc: Global,
    out: &mut Vec<u8>,
    table: &PlaneTable,
    face: &Face,
    number: u32,
) -> Result<(), NoMemory>
    requires face { IsFaceOver table.now face.now }
    requires number { NamesPlaneIn table.now number }
{
    let found = sides(alloc, table, face, number)?;
    put_class(out, found.class)?;
    put(out, b" corners")?;
    for side in found.corners.as_slice() {
        put_corner_side(out, *side)?;
    }
    Ok(())
}

// Planes that are kept, and the numbers that others have among them.
fn put_kept(alloc: Global, out: &mut Vec<u8>, kept: &NumberedPlanes) -> Result<(), NoMemory> {
    put_planes(alloc, out, &kept.planes)?;
    put(out, b" numbers ")?;
    put_numbers(alloc, out, &kept.numbers)
}

// The planes of the table without those that the face does not name, and the numbers that they have in that list.
fn put_used(
    alloc: Global,
    out: &mut Vec<u8>,
    table: &PlaneTable,
    face: &Face,
) -> Result<(), NoMemory>
    requires { IsFaceOver table.now face.now }
{
    let mut used = vec![in alloc; false; table.planes().len()]?;
    mark_used(face, &mut used);
    let kept = keep_used(alloc, table.planes(), &used)?;
    put_kept(alloc, out, &kept)
}

// What a phrase asks of a face over a table.
fn put_asked(
    alloc: Global,
    out: &mut Vec<u8>,
    tabling: Tabling,
    numbers: &[i64],
    table: &PlaneTable,
    face: &Face,
) -> Result<(), CaseStop>
    requires { IsFaceOver table.now face.now }
{
    match (tabling, numbers) {
        (Tabling::Table, []) => Ok(put_table(alloc, out, table, face)?),
        (Tabling::Alike, [one, other]) => {
            let (one, other) = (number_in(table, *one)?, number_in(table, *other)?);
            Ok(put_alike(out, table, one, other)?)
        }
        (Tabling::Lies, [number]) => {
            let number = number_in(table, *number)?;
            Ok(put_lying(alloc, out, table, face, number)?)
        }
        (Tabling::Sides, [number]) => {
            let number = number_in(table, *number)?;
            Ok(put_corner_sides(alloc, out, table, face, number)?)
        }
        (Tabling::Used, []) => Ok(put_used(alloc, out, table, face)?),
        _ => Err(CaseStop::Unread),
    }
}

/// The same of the face of the second last plane over the table that it has with the last one.
pub fn put_tabled(
    alloc: Global,
    out: &mut Vec<u8>,
    tabling: Tabling,
    numbers: &[i64],
    planes: &[Plane],
) -> Result<(), CaseStop>
    requires { All ComesInReach planes.now }
{
    let [.., first, second] = planes else {
        return Err(CaseStop::Unread);
    };
    let (table, face) = tabled(alloc, first, second)?;
    put_asked(alloc, out, tabling, numbers, &table, &face)
}
