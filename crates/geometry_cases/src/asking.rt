//! Phrases that ask what a solid or a list of facets is.

use crate::numbers::point;
use crate::put::put_corners;
use bsp_tree::{Link, Solid, holds};
use case_lines::{CaseStop, found, put, put_number, put_plane, put_stroked, unit_of};
use facet_cut::{CutStop, Facet, facets};
use off_text::{OffStop, off_bytes};
use plain_text::NoMemory;
use plane_predicate::Unit;
use std::alloc::Global;

#[derive(Clone, Copy)]
pub enum Asking {
    Size,
    Nodes,
    Holds,
    Facets,
}

const ASKINGS: [(&[u8], Asking); 4] = [
    (b"size", Asking::Size),
    (b"nodes", Asking::Nodes),
    (b"holds", Asking::Holds),
    (b"facets", Asking::Facets),
];

pub fn asking_of(word: &[u8]) -> Option<Asking> {
    found(&ASKINGS, word)
}

// How many planes and nodes a solid has, and where its walks begin.
fn put_nodes(alloc: Global, out: &mut Vec<u8>, solid: &Solid) -> Result<(), CaseStop> {
    let (planes, forest, root) = solid.parts();
    put_number(alloc, out, planes.len() as i128)?;
    put(out, b" planes ")?;
    put_number(alloc, out, forest.len() as i128)?;
    put(out, b" nodes ")?;
    match root {
        Link::To(_) => put(out, b"first a node")?,
        Link::End(true) => put(out, b"inside")?,
        Link::End(false) => put(out, b"outside")?,
    }
    Ok(())
}

// The facets of a solid, within the given number, and how many there are.
fn put_count(
    alloc: Global,
    out: &mut Vec<u8>,
    solid: &Solid,
    most: i64,
    into: &mut Vec<Facet>,
) -> Result<(), CaseStop> {
    match facets(alloc, solid, u32::try_from(most).unwrap_or(0)) {
        Ok(all) => {
            put_number(alloc, out, all.len() as i128)?;
            *into = all;
        }
        Err(CutStop::TooMany) => put(out, b"too many")?,
        Err(CutStop::NoMemory) => return Err(CaseStop::NoMemory),
    }
    Ok(())
}

/// What a phrase writes of a solid; where it asks for the facets, they are kept.
pub fn ask(
    alloc: Global,
    out: &mut Vec<u8>,
    asking: Asking,
    numbers: &[i64],
    solid: &Solid,
    kept: &mut Vec<Facet>,
) -> Result<(), CaseStop> {
    match (asking, numbers) {
        (Asking::Size, []) => put_number(alloc, out, i128::from(solid.count()))?,
        (Asking::Nodes, []) => put_nodes(alloc, out, solid)?,
        (Asking::Holds, [x, y, z, w]) => {
            let is_inside = holds(solid, &point(*x, *y, *z, *w)?);
            put(out, if is_inside { b"inside" } else { b"outside" })?;
        }
        (Asking::Facets, [most]) => put_count(alloc, out, solid, *most, kept)?,
        _ => return Err(CaseStop::Unread),
    }
    Ok(())
}

#[derive(Clone, Copy)]
pub enum Printing {
    Planes,
    Around,
    Text,
}

const PRINTINGS: [(&[u8], Printing); 3] = [
    (b"planes", Printing::Planes),
    (b"around", Printing::Around),
    (b"text", Printing::Text),
];

pub fn printing_of(word: &[u8]) -> Option<Printing> {
    found(&PRINTINGS, word)
}

// The first bytes of the text of facets.
fn put_text(
    alloc: Global,
    out: &mut Vec<u8>,
    facets: &[Facet],
    unit: Unit,
    most: usize,
) -> Result<(), CaseStop> {
    match off_bytes(alloc, facets, unit) {
        Ok(text) => Ok(put_stroked(out, &text, most)?),
        Err(OffStop::TooManyCorners) => Ok(put(out, b"too many corners")?),
        Err(OffStop::TooManyVertices) => Ok(put(out, b"too many vertices")?),
        Err(OffStop::NoMemory) => Err(CaseStop::NoMemory),
    }
}

// The planes of facets.
fn put_facets(alloc: Global, out: &mut Vec<u8>, facets: &[Facet]) -> Result<(), NoMemory> {
    for facet in facets {
        put(out, b"(")?;
        put_plane(alloc, out, &facet.plane)?;
        put(out, b")")?;
    }
    Ok(())
}

/// What a phrase writes of facets.
pub fn print(
    alloc: Global,
    out: &mut Vec<u8>,
    printing: Printing,
    numbers: &[i64],
    facets: &[Facet],
) -> Result<(), CaseStop> {
    match (printing, numbers) {
        (Printing::Planes, []) => put_facets(alloc, out, facets)?,
        (Printing::Around, [at]) => {
            let at = usize::try_from(*at).unwrap_or(usize::MAX);
            let facet = facets.get(at).ok_or(CaseStop::Unread)?;
            put_corners(alloc, out, &facet.polygon)?;
        }
        (Printing::Text, []) => put_text(alloc, out, facets, Unit::Whole, usize::MAX)?,
        (Printing::Text, [unit]) => put_text(alloc, out, facets, unit_of(*unit)?, usize::MAX)?,
        (Printing::Text, [unit, most]) => {
            let most = usize::try_from(*most).unwrap_or(0);
            put_text(alloc, out, facets, unit_of(*unit)?, most)?;
        }
        _ => return Err(CaseStop::Unread),
    }
    Ok(())
}
