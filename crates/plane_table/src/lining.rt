//! The sides of a face's corners by the line in which its plane meets another one.

ghost use Rattle.std.specs.Prelude.{◌≡◌, map, IfOk, IfSome};
ghost use Rattle.plane_predicate.specs.Space.{Coefficients};
ghost use Rattle.plane_predicate.specs.Lines.{IsAxisOf};
ghost use Rattle.plane_polygon.specs.Parts.{class_of, corners};
ghost use Rattle.plane_table.specs.Tables.{plane_named, AreNumbersSmall, NamesPlaneIn};
ghost use Rattle.plane_table.specs.Faces.{outline_of, side_against, AreSidesWhereAcross, IsFaceOver};

use crate::sorting::{CornerList, corner_on, is_either};
use crate::{CornerSides, Face, PlaneTable};
use plain_text::NoMemory;
use plane_polygon::{Class, class_from};
use plane_predicate::{Line, line_of, place_on, side_between};
use smallvec::SmallVec;
use std::alloc::Global;

/// How a face lies against the plane of a number, by the places at which its edges meet the line of the
/// two planes. `None` is no promise: it is where the table isn't small, and where the planes are parallel.
/// Most faces lie on one side, so that the sides are listed only once the face is known to be across.
pub fn sides_by_line(
    alloc: Global,
    table: &PlaneTable,
    face: &Face,
    number: u32,
) -> Result<Option<CornerSides>, NoMemory>
    requires face { IsFaceOver table.now face.now }
    requires number { NamesPlaneIn table.now number }
    ensures { IfOk result
        (λ r. IfSome r
        (AreSidesWhereAcross (outline_of table.now face.now) (plane_named table.now number))) }
{
    if !table.is_small() {
        return Ok(None);
    }
    let Some(line) = line_of(table.plane(face.plane), table.plane(number)) else {
        return Ok(None);
    };
    let class = class_along(table, face, &line);
    let corners = match class {
        Class::Across => corners_along(alloc, table, face, &line)?,
        Class::Behind | Class::Ahead | Class::On => SmallVec::new(alloc),
    };
    Ok(Some(CornerSides { class, corners }))
}

// How a face lies against a plane that meets its own in a line.
fn class_along(table: &PlaneTable, face: &Face, line: &Line) -> Class
    requires small { AreNumbersSmall table.now }
    requires face { IsFaceOver table.now face.now }
    ensures { (m : Coefficients) → IsAxisOf (plane_named table.now face.now.plane) m line.now →
        result ≡ class_of (outline_of table.now face.now) m }
{
    let edges = face.edges.items();
    let mut some_behind = false;
    let mut some_ahead = false;
    let first = place_on(line, table.plane(edges[0]));
    let mut ends = first;
    for i in 0..edges.len() - 1 {
        let begins = place_on(line, table.plane(edges[i + 1]));
        let side = side_between(ends, begins);
        some_behind = is_either(some_behind, side.is_behind());
        some_ahead = is_either(some_ahead, side.is_ahead());
        ends = begins;
    }
    let last = side_between(ends, first);
    class_from(
        is_either(some_behind, last.is_behind()),
        is_either(some_ahead, last.is_ahead()),
    )
}

// The sides of the corners of a face against a plane that meets its own in a line.
fn corners_along(
    alloc: Global,
    table: &PlaneTable,
    face: &Face,
    line: &Line,
) -> Result<CornerList, NoMemory>
    requires small { AreNumbersSmall table.now }
    requires face { IsFaceOver table.now face.now }
    ensures { IfOk result
        (λ r. (m : Coefficients) → IsAxisOf (plane_named table.now face.now.plane) m line.now →
        r.items ≡ map (side_against m) (corners (outline_of table.now face.now))) }
{
    let edges = face.edges.items();
    let mut found = SmallVec::with_capacity(alloc, edges.len())?;
    let first = place_on(line, table.plane(edges[0]));
    let mut ends = first;
    for i in 0..edges.len() - 1 {
        let begins = place_on(line, table.plane(edges[i + 1]));
        found.push_reserved(corner_on(side_between(ends, begins)));
        ends = begins;
    }
    found.push_reserved(corner_on(side_between(ends, first)));
    Ok(found)
}
