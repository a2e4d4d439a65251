//! The lines of a 4OFF text.

ghost use Rattle.std.specs.Prelude.{◌≡◌, ◌++◌, ◌∷◌, codes, flat_map, length, OnOk, IfOk};
ghost use Rattle.plain_text.specs.Decimals.{numeral};
ghost use Rattle.off_text.specs.Reading.{vertex_line, face_line};
ghost use Rattle.off_text.specs.FaceNumbers.{lines_of};

use crate::numbering::FaceNumbers;
use crate::vertex::Vertex;
use plain_text::{NoMemory, push_decimal};
use std::alloc::Global;

// Appends the decimal digits of a count or an index.
fn push_count(alloc: Global, out: &mut Vec<u8>, count: usize) -> Result<(), NoMemory>
    ensures { OnOk result (out.new.items ≡ out.old.items ++ numeral count) }
{
    push_decimal(alloc, out, i128::from(count as u64))
}

// Appends a vertex's line.
fn push_vertex(alloc: Global, out: &mut Vec<u8>, vertex: &Vertex) -> Result<(), NoMemory>
    ensures { OnOk result (out.new.items ≡ out.old.items ++ vertex_line vertex.now) }
{
    push_decimal(alloc, out, vertex.x)?;
    out.push(b' ')?;
    push_decimal(alloc, out, vertex.y)?;
    out.push(b' ')?;
    push_decimal(alloc, out, vertex.z)?;
    out.push(b' ')?;
    push_decimal(alloc, out, vertex.w)?;
    out.push(b'\n')?;
    Ok(())
}

// Appends the lines of vertices.
fn push_vertices(alloc: Global, out: &mut Vec<u8>, vertices: &[Vertex]) -> Result<(), NoMemory>
    ensures { OnOk result (out.new.items ≡ out.old.items ++ flat_map vertex_line vertices.now) }
{
    for vertex in vertices {
        push_vertex(alloc, out, vertex)?;
    }
    Ok(())
}

// Appends the line of a face with these numbers.
fn push_line(alloc: Global, out: &mut Vec<u8>, face: &[u32]) -> Result<(), NoMemory>
    ensures { OnOk result (out.new.items ≡ out.old.items ++ face_line face.now) }
{
    push_count(alloc, out, face.len())?;
    for number in face {
        out.push(b' ')?;
        push_count(alloc, out, *number as usize)?;
    }
    out.push(b'\n')?;
    Ok(())
}

// Appends the lines of faces.
fn push_lines(alloc: Global, out: &mut Vec<u8>, faces: &FaceNumbers) -> Result<(), NoMemory>
    ensures { OnOk result (out.new.items ≡ out.old.items ++ lines_of faces.now) }
{
    let mut left = faces.numbers.as_slice();
    for count in &faces.sides {
        let (face, rest) = left.split_at((*count as usize).min(left.len()));
        push_line(alloc, out, face)?;
        left = rest;
    }
    Ok(())
}

// The first two lines: the counts, with a 0 for the edges.
fn first_lines(alloc: Global, vertices: usize, faces: usize) -> Result<Vec<u8>, NoMemory>
    ensures { IfOk result
        (λ text. text.items ≡ codes "4OFF\n" ++ numeral vertices ++ 32 ∷ numeral faces
        ++ codes " 0\n") }
{
    let mut text = Vec::from_slice(alloc, b"4OFF\n")?;
    push_count(alloc, &mut text, vertices)?;
    text.push(b' ')?;
    push_count(alloc, &mut text, faces)?;
    text.extend_from_slice(b" 0\n")?;
    Ok(text)
}

/// The text of these vertices and of these faces, of which the number is given.
pub fn write_text(
    alloc: Global,
    vertices: &[Vertex],
    count: usize,
    faces: &FaceNumbers,
) -> Result<Vec<u8>, NoMemory>
    ensures { IfOk result
        (λ text. text.items ≡ codes "4OFF\n" ++ numeral (length vertices.now) ++ 32 ∷ numeral count
        ++ codes " 0\n" ++ flat_map vertex_line vertices.now ++ lines_of faces.now) }
{
    let mut text = first_lines(alloc, vertices.len(), count)?;
    push_vertices(alloc, &mut text, vertices)?;
    push_lines(alloc, &mut text, faces)?;
    Ok(text)
}
