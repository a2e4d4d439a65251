//! The numbers of vertices, by first appearance, and faces by the numbers of their vertices.

ghost use Rattle.std.specs.Prelude.{◌≡◌, ◌≤◌, ◌++◌, ◌∷◌, [], length, drop, take, OnOk};
ghost use Rattle.off_text.specs.Numbering.{with_points};
ghost use Rattle.off_text.specs.FaceNumbers.{vertex_numbers};

use crate::vertex::Vertex;
use indexmap::IndexSet;
use plain_text::NoMemory;

/// Faces by the numbers of their vertices, in four bytes for each corner and four for each face.
#[derive(Drop)]
pub struct FaceNumbers {
    /// How many corners each face has.
    pub sides: Vec<u32>,
    /// The numbers of all corners' vertices, one face after another.
    pub numbers: Vec<u32>,
}

// Appends a number. One above 32 bits counts as running out of memory; none comes, since the corners of a text are counted
// before.
fn push_number(numbers: &mut Vec<u32>, number: usize) -> Result<(), NoMemory>
    ensures { OnOk result (numbers.new.items ≡ numbers.old.items ++ number ∷ []) }
{
    match u32::try_from(number) {
        Ok(number) => Ok(numbers.push(number)?),
        Err(_) => Err(NoMemory),
    }
}

/// Appends the numbers of corners, of which those that are new become vertices.
pub fn push_numbers(
    vertices: &mut IndexSet<Vertex>,
    numbers: &mut Vec<u32>,
    corners: &[Vertex],
) -> Result<(), NoMemory>
    ensures vertices { OnOk result (vertices.new.keys ≡ with_points vertices.old.keys corners.now) }
    ensures numbers { OnOk result
        (numbers.new.items ≡ numbers.old.items ++ vertex_numbers vertices.new.keys corners.now) }
{
    for corner in corners {
        let (index, _is_new) = vertices.insert_full(*corner)?;
        push_number(numbers, index)?;
    }
    Ok(())
}

/// Appends a face, from this one of its corners on.
pub fn push_face(
    vertices: &mut IndexSet<Vertex>,
    faces: &mut FaceNumbers,
    corners: &[Vertex],
    start: usize,
) -> Result<(), NoMemory>
    requires { start ≤ length corners.now }
    ensures vertices { OnOk result
        (vertices.new.keys
        ≡ with_points vertices.old.keys (drop start corners.now ++ take start corners.now)) }
    ensures sides { OnOk result
        (faces.new.sides.items ≡ faces.old.sides.items ++ length corners.now ∷ []) }
    ensures numbers { OnOk result
        (faces.new.numbers.items ≡ faces.old.numbers.items
        ++ vertex_numbers vertices.new.keys (drop start corners.now ++ take start corners.now)) }
{
    let (front, back) = corners.split_at(start);
    push_number(&mut faces.sides, corners.len())?;
    push_numbers(vertices, &mut faces.numbers, back)?;
    push_numbers(vertices, &mut faces.numbers, front)?;
    Ok(())
}
