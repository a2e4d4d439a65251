//! Planes in words, and texts and their units.

use crate::stop::CaseStop;
use crate::text::{put_numbers, put_tuple};
use plain_text::NoMemory;
use plane_predicate::{Plane, Unit};
use std::alloc::Global;

pub fn put_plane(alloc: Global, out: &mut Vec<u8>, plane: &Plane) -> Result<(), NoMemory> {
    put_numbers(alloc, out, &[plane.a, plane.b, plane.c, plane.d])
}

/// Planes, each in parentheses.
pub fn put_planes(alloc: Global, out: &mut Vec<u8>, planes: &[Plane]) -> Result<(), NoMemory> {
    for plane in planes {
        put_tuple(alloc, out, &[plane.a, plane.b, plane.c, plane.d])?;
    }
    Ok(())
}

/// The first bytes of a text in one line: a stroke stands for each newline.
pub fn put_stroked(out: &mut Vec<u8>, text: &[u8], most: usize) -> Result<(), NoMemory> {
    for byte in text.iter().take(most) {
        out.push(if *byte == b'\n' { b'|' } else { *byte })?;
    }
    Ok(())
}

/// Whole units by 1, and half ones by 2.
pub fn unit_of(number: i64) -> Result<Unit, CaseStop> {
    match number {
        1 => Ok(Unit::Whole),
        2 => Ok(Unit::Half),
        _ => Err(CaseStop::Unread),
    }
}
