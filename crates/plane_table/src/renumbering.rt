//! Faces over other lists of planes.

ghost use Rattle.std.specs.Prelude.{◌≡◌, ◌<◌, ◌*◌, ℕ, List, true, false, length, get_or, All, IfOk};
ghost use Rattle.plane_predicate.specs.Space.{Coefficients};
ghost use Rattle.plane_table.specs.Tables.{HasNoTwoAlike};
ghost use Rattle.plane_table.specs.Faces.{outline_of, IsFaceOver};
ghost use Rattle.plane_table.specs.Joins.{number_among, AreNumbersOfUsed, AreNumbersFound, IsPlaneKept, AreMarkedUsed};

use crate::numbering::{NumberedPlanes, add};
use crate::{Edges, Face, opposite_number};
use plain_text::NoMemory;
use plane_predicate::Plane;
use smallvec::SmallVec;
use std::alloc::Global;

/// A face over another list of planes, by the numbers that the planes of its own list have there. Its
/// outline stays.
pub fn renumber(alloc: Global, face: &Face, numbers: &[u32]) -> Result<Face, NoMemory>
    requires plane { face.now.plane < 2 * length numbers.now }
    requires edges { All (λ n. n < 2 * length numbers.now) face.now.edges }
    ensures outline { IfOk result
        (λ f. (from planes : List Coefficients) → AreNumbersFound planes numbers.now from face.now →
        outline_of planes f ≡ outline_of from face.now) }
    ensures face { IfOk result
        (λ f. (from planes : List Coefficients) → AreNumbersFound planes numbers.now from face.now →
        IsFaceOver from face.now → IsFaceOver planes f) }
{
    let edges = face.edges.items();
    let mut found = SmallVec::with_capacity(alloc, edges.len())?;
    for edge in edges {
        found.push_reserved(number_among(numbers, *edge));
    }
    Ok(Face {
        plane: number_among(numbers, face.plane),
        edges: Edges::of_numbers(found),
    })
}

// The number that the plane of a number has over another list, by the numbers that the planes have
// there.
#[tactic(auto, unfolding(crate::specs::Joins::number_among))]
fn number_among(numbers: &[u32], number: u32) -> u32
    requires { number < 2 * length numbers.now }
    ensures { result ≡ number_among numbers.now number }
{
    let found = numbers[(number / 2) as usize];
    if number % 2 == 0 {
        found
    } else {
        opposite_number(found)
    }
}

/// Marks the planes that a face names as used.
pub fn mark_used(face: &Face, used: &mut [bool])
    requires plane { face.now.plane < 2 * length used.old }
    requires edges { All (λ n. n < 2 * length used.old) face.now.edges }
    ensures marked { AreMarkedUsed used.new face.now }
    ensures others { (k : ℕ) → get_or used.old k false ≡ true → get_or used.new k false ≡ true }
{
    used[(face.plane / 2) as usize] = true;
    for edge in face.edges.items() {
        used[(*edge / 2) as usize] = true;
    }
}

/// The planes of a list that are used, in order, and for each of them its number there.
pub fn keep_used(alloc: Global, planes: &[Plane], used: &[bool]) -> Result<NumberedPlanes, NoMemory>
    requires apart { HasNoTwoAlike planes.now }
    requires same { length used.now ≡ length planes.now }
    ensures apart { IfOk result (λ r. HasNoTwoAlike r.planes.items) }
    ensures numbers { IfOk result
        (λ r. AreNumbersOfUsed r.planes.items r.numbers.items planes.now used.now) }
{
    let mut kept = Vec::with_capacity(alloc, planes.len())?;
    let mut numbers = Vec::with_capacity(alloc, planes.len())?;
    for i in 0..planes.len() {
        numbers.push(keep(&planes[i], used[i], &mut kept)?)?;
    }
    Ok(NumberedPlanes {
        planes: kept,
        numbers,
    })
}

// The number of a plane that is added to a list where it is used, else 0.
fn keep(plane: &Plane, is_used: bool, kept: &mut Vec<Plane>) -> Result<u32, NoMemory>
    ensures { IfOk result (λ n. IsPlaneKept is_used plane.now kept.old.items kept.new.items n) }
{
    if is_used { add(plane, kept) } else { Ok(0) }
}
