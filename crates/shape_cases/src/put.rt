//! Points and faces in words.

use case_lines::{put, put_number, put_tuple};
use primitives::{Corners, Shape};
use std::alloc::Global;
use text_place::NoMemory;

/// Points, each in parentheses.
pub fn put_points(alloc: Global, out: &mut Vec<u8>, points: &[[i64; 3]]) -> Result<(), NoMemory> {
    for point in points {
        put_tuple(alloc, out, point)?;
    }
    Ok(())
}

/// Points of the plane, each in parentheses.
pub fn put_corners(alloc: Global, out: &mut Vec<u8>, points: &[[i64; 2]]) -> Result<(), NoMemory> {
    for point in points {
        put_tuple(alloc, out, point)?;
    }
    Ok(())
}

/// Faces, each in parentheses.
pub fn put_faces(alloc: Global, out: &mut Vec<u8>, faces: &[Corners]) -> Result<(), NoMemory> {
    for face in faces {
        put_tuple(alloc, out, face.items())?;
    }
    Ok(())
}

/// How many points and faces a shape has.
pub fn put_counts(alloc: Global, out: &mut Vec<u8>, shape: &Shape) -> Result<(), NoMemory> {
    put_number(alloc, out, shape.points().len() as i128)?;
    put(out, b" points ")?;
    put_number(alloc, out, shape.faces().len() as i128)?;
    put(out, b" faces")
}
