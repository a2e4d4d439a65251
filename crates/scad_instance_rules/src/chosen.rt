//! Which children of a call are chosen.

ghost use Rattle.std.specs.Prelude.{◌≡◌, IfOk, IsTrue};
ghost use Rattle.std.specs.Option.{option_to_list};
ghost use Rattle.scad_value.specs.Values.{is_small};
ghost use Rattle.scad_modules.specs.Bounds.{IsSafeChoice};
ghost use Rattle.scad_modules.specs.View.{chosen_of};
ghost use Rattle.scad_meaning.specs.Loops.{chosen_among, item_numbered, items_numbered, numbers_of_range};
ghost use Rattle.scad_instance_rules.specs.Choosing.{distance_before};

use crate::ranges::{count_of_range, number_at};
use scad_modules::Chosen;
use std::alloc::Global;
use text_place::NoMemory;

/// The chosen ones of some children, in the order in which they are chosen. A number that none has
/// chooses nothing.
pub(crate) fn chosen_among<T: Copy>(
    alloc: Global,
    children: &[T],
    chosen: &Chosen,
) -> Result<Vec<T>, NoMemory>
    requires { IsSafeChoice (chosen_of chosen.now) }
    ensures { IfOk result (λ found. found.items ≡ chosen_among children.now
        (chosen_of chosen.now)) }
{
    match chosen {
        Chosen::All => Ok(Vec::from_slice(alloc, children)?),
        Chosen::Numbered(numbers) => by_numbers(alloc, children, numbers),
        Chosen::Range { from, by, upto } => by_range(alloc, children, *from, *by, *upto),
    }
}

// Children by numbers, in order.
fn by_numbers<T: Copy>(alloc: Global, children: &[T], numbers: &[i64]) -> Result<Vec<T>, NoMemory>
    ensures { IfOk result (λ found. found.items ≡ items_numbered children.now numbers.now) }
{
    let mut found = Vec::new(alloc);
    for number in numbers {
        match child_at(children, *number as i128) {
            Some(child) => found.push(child)?,
            None => {}
        }
    }
    Ok(found)
}

// Children by the numbers of a range. The time is that of the children, however long the range is.
fn by_range<T: Copy>(
    alloc: Global,
    children: &[T],
    from: i64,
    by: i64,
    upto: i64,
) -> Result<Vec<T>, NoMemory>
    requires from { IsTrue (is_small from) }
    requires upto { IsTrue (is_small upto) }
    ensures { IfOk result (λ found. found.items ≡ items_numbered children.now
        (numbers_of_range from by upto)) }
{
    let mut found = Vec::new(alloc);
    if by == 0 {
        return Ok(found);
    }
    let count = count_of_range(from, by, upto);
    let before = distance_before(from, by, children.len()).div_ceil(by.unsigned_abs());
    for k in before.min(count)..count {
        match child_at(children, number_at(from, by, k)) {
            Some(child) => found.push(child)?,
            None => return Ok(found),
        }
    }
    Ok(found)
}

// How far the first number of a range lies before a list of a length, seen along its step.
fn distance_before(from: i64, by: i64, len: usize) -> u64
    ensures { result ≡ distance_before from by len }
{
    match (from < 0, by < 0) {
        (true, true) | (false, false) => 0,
        (true, false) => from.unsigned_abs(),
        (false, true) => (from as u64 + 1).saturating_sub(len as u64),
    }
}

// The child of a number, where there is one.
fn child_at<T: Copy>(children: &[T], number: i128) -> Option<T>
    ensures { option_to_list result ≡ item_numbered children.now number }
{
    if number < 0 || number >= children.len() as i128 {
        return None;
    }
    Some(children[number as usize])
}
