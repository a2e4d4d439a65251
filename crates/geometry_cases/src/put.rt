//! Points, sides and polygons in words.

use case_lines::{put, put_numbers};
use plain_text::NoMemory;
use plane_polygon::{Class, Polygon, corners};
use plane_predicate::{Point, Side};
use std::alloc::Global;

pub fn put_point(alloc: Global, out: &mut Vec<u8>, point: &Point) -> Result<(), NoMemory> {
    put_numbers(alloc, out, &[point.x, point.y, point.z, point.w])
}

/// The corners of a polygon, each in parentheses.
pub fn put_corners(alloc: Global, out: &mut Vec<u8>, polygon: &Polygon) -> Result<(), NoMemory> {
    for corner in &corners(alloc, polygon)? {
        put(out, b"(")?;
        put_point(alloc, out, corner)?;
        put(out, b")")?;
    }
    Ok(())
}

pub fn put_side(out: &mut Vec<u8>, side: Side) -> Result<(), NoMemory> {
    match side {
        Side::Behind => put(out, b"behind"),
        Side::On => put(out, b"on"),
        Side::Ahead => put(out, b"ahead"),
    }
}

pub fn put_class(out: &mut Vec<u8>, class: Class) -> Result<(), NoMemory> {
    match class {
        Class::Behind => put(out, b"behind"),
        Class::On => put(out, b"on"),
        Class::Ahead => put(out, b"ahead"),
        Class::Across => put(out, b"across"),
    }
}
