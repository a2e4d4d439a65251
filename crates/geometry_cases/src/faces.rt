//! Faces of half spaces, and joined lists of planes.

ghost use Rattle.plane_predicate.specs.Space.{ComesInReach};

use crate::numbers::planes_of;
use case_lines::{CaseStop, put, put_number, put_numbers, put_planes};
use plain_text::NoMemory;
use plane_predicate::Plane;
use plane_table::{Edges, Face, JoinedPlanes, OwnFace, half_face, join};
use std::alloc::Global;

/// The planes that the face of a half space names, the number of its own, those of its edges, and its size.
pub fn put_face(alloc: Global, out: &mut Vec<u8>, plane: &Plane) -> Result<(), CaseStop>
    requires { ComesInReach plane.now }
{
    let found = half_face(alloc, plane)?;
    Ok(put_own(alloc, out, &found)?)
}

// The same of a face over the planes that it names.
fn put_own(alloc: Global, out: &mut Vec<u8>, own: &OwnFace) -> Result<(), NoMemory> {
    put_planes(alloc, out, &own.planes)?;
    put_numbers_of(alloc, out, &own.face)?;
    put(out, b" size ")?;
    put_number(alloc, out, i128::from(own.face.size()))
}

/// The number of a face's plane, and those of its edges.
pub fn put_numbers_of(alloc: Global, out: &mut Vec<u8>, face: &Face) -> Result<(), NoMemory> {
    put(out, b" plane ")?;
    put_number(alloc, out, i128::from(face.plane))?;
    put(out, b" edges ")?;
    put_numbers(alloc, out, face.edges.items())
}

// A list of edges with these numbers.
fn edges_of(alloc: Global, numbers: &[i64]) -> Result<Edges, CaseStop> {
    let mut edges = Edges::new(alloc);
    for number in numbers {
        edges.push(u32::try_from(*number).ok().ok_or(CaseStop::Unread)?)?;
    }
    Ok(edges)
}

// How many edges a list has, and their numbers.
fn put_counted(alloc: Global, out: &mut Vec<u8>, edges: &Edges) -> Result<(), NoMemory> {
    put_number(alloc, out, edges.len() as i128)?;
    put(out, b" edges ")?;
    put_numbers(alloc, out, edges.items())?;
    put(out, b" copy ")
}

/// A list of edges with these numbers, how many there are, and a copy.
pub fn put_edges(alloc: Global, out: &mut Vec<u8>, numbers: &[i64]) -> Result<(), CaseStop> {
    let edges = edges_of(alloc, numbers)?;
    put_counted(alloc, out, &edges)?;
    let copied = edges.copy(alloc)?;
    Ok(put_numbers(alloc, out, copied.items())?)
}

// A list in which two lists were joined, and the numbers that each of them has there.
fn put_join(alloc: Global, out: &mut Vec<u8>, joined: &JoinedPlanes) -> Result<(), NoMemory> {
    put_planes(alloc, out, &joined.planes)?;
    put(out, b" left ")?;
    put_numbers(alloc, out, &joined.left)?;
    put(out, b" right ")?;
    put_numbers(alloc, out, &joined.right)
}

/// The list in which two lists of planes are joined, and the numbers that each of them has there.
pub fn put_joined(alloc: Global, out: &mut Vec<u8>, numbers: &[i64]) -> Result<(), CaseStop> {
    let [count, rest @ ..] = numbers else {
        return Err(CaseStop::Unread);
    };
    let count = usize::try_from(*count).unwrap_or(usize::MAX);
    let planes = planes_of(alloc, rest)?;
    if count > planes.len() {
        return Err(CaseStop::Unread);
    }
    let joined = join(alloc, &planes[..count], &planes[count..])?;
    Ok(put_join(alloc, out, &joined)?)
}
