//! Two lists of planes in one, and faces over it.

ghost use Rattle.std.specs.Prelude.{◌≡◌, ◌<◌, ◌≤◌, ◌+◌, ◌⊎◌, length, IfOk, OnOk, IsTrue, IsFalse};
ghost use Rattle.plane_table.specs.Tables.{HasNoTwoAlike};
ghost use Rattle.plane_table.specs.Joins.{AreFirstNumbersOf, AreNumbersOf, KeepsNumbers};

use crate::numbering::{MOST_PLANES, add, number_at, numbers_of};
use crate::ordering::{compare, in_order, is_ascending};
use plain_text::NoMemory;
use plane_predicate::Plane;
use std::alloc::Global;

/// Two lists of planes in one, no two planes of which are equal or opposite.
#[derive(Drop)]
pub struct JoinedPlanes {
    /// The list of planes.
    pub planes: Vec<Plane>,
    /// For each plane of the left list its number over the joined one.
    pub left: Vec<u32>,
    /// For each plane of the right list its number over the joined one.
    pub right: Vec<u32>,
}

/// Joins two lists of planes. Where both are in ascending order, both are walked once, and the joined
/// one is ascending too. Lists in another order are searched, and then ordered.
pub fn join(alloc: Global, left: &[Plane], right: &[Plane]) -> Result<JoinedPlanes, NoMemory>
    ensures apart { IfOk result (λ r. HasNoTwoAlike r.planes.items) }
    ensures left { IfOk result (λ r. AreNumbersOf r.planes.items r.left.items left.now) }
    ensures right { IfOk result (λ r. AreNumbersOf r.planes.items r.right.items right.now) }
{
    let joined = join_by_walking(alloc, left, right)?;
    if is_ascending(&joined.planes) {
        Ok(joined)
    } else {
        join_by_searching(alloc, left, right)
    }
}

// Joins two lists in one walk of both. Where both are ascending, so is the joined one.
fn join_by_walking(alloc: Global, left: &[Plane], right: &[Plane]) -> Result<JoinedPlanes, NoMemory>
    ensures left { IfOk result (λ r. AreNumbersOf r.planes.items r.left.items left.now) }
    ensures right { IfOk result (λ r. AreNumbersOf r.planes.items r.right.items right.now) }
{
    let mut planes = Vec::with_capacity(alloc, left.len().saturating_add(right.len()))?;
    let mut of_left = Vec::with_capacity(alloc, left.len())?;
    let mut of_right = Vec::with_capacity(alloc, right.len())?;
    while of_left.len() < left.len() || of_right.len() < right.len() {
        put_next(left, right, &mut planes, &mut of_left, &mut of_right)?;
    }
    Ok(JoinedPlanes {
        planes,
        left: of_left,
        right: of_right,
    })
}

// Adds the next plane of both lists to the joined one.
#[tactic(auto, using(crate::proofs::Joins::first_on))]
fn put_next(
    left: &[Plane],
    right: &[Plane],
    planes: &mut Vec<Plane>,
    of_left: &mut Vec<u32>,
    of_right: &mut Vec<u32>,
) -> Result<(), NoMemory>
    requires some { (length of_left.old.items < length left.now) ⊎
        (length of_right.old.items < length right.now) }
    requires left { AreFirstNumbersOf planes.old.items of_left.old.items left.now }
    requires right { AreFirstNumbersOf planes.old.items of_right.old.items right.now }
    ensures left { OnOk result (AreFirstNumbersOf planes.new.items of_left.new.items left.now) }
    ensures right { OnOk result (AreFirstNumbersOf planes.new.items of_right.new.items right.now) }
    ensures more { OnOk result
        (length of_left.old.items + length of_right.old.items
        < length of_left.new.items + length of_right.new.items) }
{
    if is_left_next(left, of_left.len(), right, of_right.len()) {
        put(left, planes, of_left)?;
        put_alike(right, planes, of_right)?;
        return Ok(());
    }
    put(right, planes, of_right)?;
    Ok(())
}

// Whether the next plane of the left list comes before the next one of the right list, or is equal or
// opposite to it; one of the lists has a next plane.
fn is_left_next(left: &[Plane], i: usize, right: &[Plane], j: usize) -> bool
    ensures left { IsTrue result → i < length left.now }
    ensures right { IsFalse result → (i < length left.now) ⊎ (j < length right.now) →
        j < length right.now }
{
    if i < left.len() && j < right.len() {
        return !compare(&right[j], &left[i]).is_lt();
    }
    i < left.len()
}

// Adds the next plane of a list to the joined one.
fn put(from: &[Plane], planes: &mut Vec<Plane>, numbers: &mut Vec<u32>) -> Result<(), NoMemory>
    requires next { length numbers.old.items < length from.now }
    requires first { AreFirstNumbersOf planes.old.items numbers.old.items from.now }
    ensures first { OnOk result (AreFirstNumbersOf planes.new.items numbers.new.items from.now) }
    ensures keeps { OnOk result (KeepsNumbers planes.old.items planes.new.items) }
    ensures more { OnOk result (length numbers.new.items ≡ length numbers.old.items + 1) }
{
    let number = add(&from[numbers.len()], planes)?;
    numbers.push(number)?;
    Ok(())
}

// Gives the next plane of a list its number, if it is equal or opposite to the last one of the
// joined list.
fn put_alike(from: &[Plane], planes: &[Plane], numbers: &mut Vec<u32>) -> Result<(), NoMemory>
    requires { AreFirstNumbersOf planes.now numbers.old.items from.now }
    ensures first { OnOk result (AreFirstNumbersOf planes.now numbers.new.items from.now) }
    ensures more { OnOk result (length numbers.old.items ≤ length numbers.new.items) }
{
    if numbers.len() == from.len() || planes.is_empty() {
        return Ok(());
    }
    if planes.len() > MOST_PLANES {
        return Ok(());
    }
    let last = planes.len() - 1;
    if let Some(number) = number_at(&from[numbers.len()], &planes[last], last) {
        numbers.push(number)?;
    }
    Ok(())
}

// Joins two lists in any order by a search for each plane.
#[tactic(auto, using(crate::proofs::Joins::numbers_on))]
fn join_by_searching(
    alloc: Global,
    left: &[Plane],
    right: &[Plane],
) -> Result<JoinedPlanes, NoMemory>
    ensures apart { IfOk result (λ r. HasNoTwoAlike r.planes.items) }
    ensures left { IfOk result (λ r. AreNumbersOf r.planes.items r.left.items left.now) }
    ensures right { IfOk result (λ r. AreNumbersOf r.planes.items r.right.items right.now) }
{
    let some = numbers_of(alloc, Vec::new(alloc), left)?;
    let all = numbers_of(alloc, some.planes, right)?;
    let of_left = numbers_of(alloc, in_order(alloc, all.planes)?, left)?;
    let of_right = numbers_of(alloc, of_left.planes, right)?;
    Ok(JoinedPlanes {
        planes: of_right.planes,
        left: of_left.numbers,
        right: of_right.numbers,
    })
}
