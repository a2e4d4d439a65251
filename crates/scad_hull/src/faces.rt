//! The faces of a hull: triples of points in ascending order.

ghost use Rattle.std.specs.Prelude.{◌≡◌, ◌<◌, ◌≤◌, true, IfOk, OnOk, length};
ghost use Rattle.std.specs.Bool.{OnTrue};
ghost use Rattle.std.specs.List.{list_any};
ghost use Rattle.scad_hull.specs.Hulls.{faces_of_hull, numbers_between, shares_plane, triples_by, triples_from};
ghost use Rattle.scad_hull.specs.Steps.{with_triple, with_triples, AreFoundFaces, AreListed, AreNumberedPoints, AreThree};

use crate::around::is_surrounded;
use crate::face_list::{FaceList, Row};
use crate::plane_points::{common_row, row_of};
use crate::triples::{is_listed, supports};
use std::alloc::{AllocError, Global};

/// The numbers of the given number of points; the first is 0.
pub fn numbers(alloc: Global, count: usize) -> Result<Vec<u32>, AllocError>
    requires { count ≤ 128 }
    ensures { IfOk result (λ v. v.items ≡ numbers_between 0 count) }
{
    let mut all = Vec::new(alloc);
    for number in 0..count {
        all.push(number as u32)?;
    }
    Ok(all)
}

/// The supporting triples in ascending order, of equal planes the first alone. Three points on the plane of a face are
/// passed over by one look-up, and two points whose line goes through the inside of the hull by a few tests.
pub fn hull_faces(
    alloc: Global,
    points: &[[i64; 3]],
    all: &[u32],
) -> Result<Vec<[u32; 3]>, AllocError>
    requires { AreNumberedPoints points.now all.now }
    ensures { IfOk result (λ v. v.items ≡ faces_of_hull points.now) }
{
    let mut found = FaceList::new(alloc);
    for first in 0..points.len() {
        push_from(&mut found, points, all, first)?;
    }
    Ok(found.faces)
}

// Adds the faces that begin with one point.
fn push_from(
    found: &mut FaceList,
    points: &[[i64; 3]],
    all: &[u32],
    first: usize,
) -> Result<(), AllocError>
    requires numbered { AreNumberedPoints points.now all.now }
    requires first_in { first < length points.now }
    requires found { AreFoundFaces points.now found.old }
    ensures faces { OnOk result (found.new.faces.items
        ≡ with_triples points.now found.old.faces.items (triples_from (length points.now) first)) }
    ensures found { OnOk result (AreFoundFaces points.now found.new) }
{
    let mut around = [first as u32, first as u32, first as u32];
    for second in first + 1..points.len() {
        push_by(found, points, all, &mut around, first, second)?;
    }
    Ok(())
}

// Adds the faces that begin with two points.
fn push_by(
    found: &mut FaceList,
    points: &[[i64; 3]],
    all: &[u32],
    around: &mut [u32; 3],
    first: usize,
    second: usize,
) -> Result<(), AllocError>
    requires numbered { AreNumberedPoints points.now all.now }
    requires ascending { (first < second) × (second < length points.now) }
    requires found { AreFoundFaces points.now found.old }
    requires around { AreThree (length points.now) around.old }
    ensures faces { OnOk result (found.new.faces.items
        ≡ with_triples points.now found.old.faces.items
        (triples_by (length points.now) first second)) }
    ensures found { OnOk result (AreFoundFaces points.now found.new) }
    ensures around { AreThree (length points.now) around.new }
{
    match common_row(&found.rows, first, second) {
        Some(row) => push_past(found, points, all, first, second, &row),
        None => {
            if is_surrounded(points, first, second, around) {
                return Ok(());
            }
            push_past(found, points, all, first, second, &[false; 128])
        }
    }
}

// Adds the faces that begin with two points, where the triples of these two and a point of a row are on planes of faces.
fn push_past(
    found: &mut FaceList,
    points: &[[i64; 3]],
    all: &[u32],
    first: usize,
    second: usize,
    row: &Row,
) -> Result<(), AllocError>
    requires numbered { AreNumberedPoints points.now all.now }
    requires ascending { (first < second) × (second < length points.now) }
    requires found { AreFoundFaces points.now found.old }
    requires listed { AreListed points.now found.old.faces.items first second row.now }
    ensures faces { OnOk result (found.new.faces.items
        ≡ with_triples points.now found.old.faces.items
        (triples_by (length points.now) first second)) }
    ensures found { OnOk result (AreFoundFaces points.now found.new) }
{
    for third in second + 1..points.len() {
        push_triple(
            found,
            points,
            all,
            row[third],
            [first as u32, second as u32, third as u32],
        )?;
    }
    Ok(())
}

// Adds a triple, if it is supporting and its plane is that of no face so far, which may be known already.
fn push_triple(
    found: &mut FaceList,
    points: &[[i64; 3]],
    all: &[u32],
    is_known: bool,
    triple: [u32; 3],
) -> Result<(), AllocError>
    requires numbered { AreNumberedPoints points.now all.now }
    requires three { AreThree (length points.now) triple }
    requires found { AreFoundFaces points.now found.old }
    requires known { OnTrue is_known (list_any (λ s. shares_plane points.now s triple)
        found.old.faces.items ≡ true) }
    ensures faces { OnOk result (found.new.faces.items
        ≡ with_triple points.now found.old.faces.items triple) }
    ensures found { OnOk result (AreFoundFaces points.now found.new) }
{
    if is_known {
        return Ok(());
    }
    if !supports(points, all, triple) {
        return Ok(());
    }
    if is_listed(points, &found.faces, triple) {
        return Ok(());
    }
    found.faces.push(triple)?;
    found.rows.push(row_of(points, triple))?;
    Ok(())
}
