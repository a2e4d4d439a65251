//! The order in which lists of planes stand.

ghost use Rattle.std.specs.Prelude.{◌≡◌, ◌↔◌, IfOk, IsTrue};
ghost use Rattle.plane_table.specs.Tables.{HasNoTwoAlike};
ghost use Rattle.plane_table.specs.Orders.{by_numbers, plane_order, is_low, normal_form, ComesNext, IsAscending};

use plain_text::NoMemory;
use plane_predicate::{Plane, opposite};
use std::alloc::Global;
use std::cmp::Ordering;

/// The planes of a list in ascending order: of planes that are equal or opposite one.
pub fn in_order(alloc: Global, planes: Vec<Plane>) -> Result<Vec<Plane>, NoMemory>
    ensures ascending { IfOk result (λ v. IsAscending v.items) }
    ensures apart { IfOk result (λ v. HasNoTwoAlike v.items) }
{
    let mut sorted = planes;
    sorted.sort_by(compare)?;
    rising(alloc, &sorted)
}

// Those planes of a list that come after all that are taken before them.
fn rising(alloc: Global, planes: &[Plane]) -> Result<Vec<Plane>, NoMemory>
    ensures { IfOk result (λ v. IsAscending v.items) }
{
    let mut taken = Vec::with_capacity(alloc, planes.len())?;
    for plane in planes {
        if comes_next(&taken, plane) {
            taken.push(*plane)?;
        }
    }
    Ok(taken)
}

// Whether a plane comes after the last one of a list, or the list has none.
fn comes_next(taken: &[Plane], plane: &Plane) -> bool
    ensures { IsTrue result → ComesNext taken.now plane.now }
{
    if taken.is_empty() {
        return true;
    }
    compare(&taken[taken.len() - 1], plane).is_lt()
}

/// Whether each plane comes before the next. Then no two of them are equal or opposite.
pub fn is_ascending(planes: &[Plane]) -> bool
    ensures ascending { IsTrue result ↔ IsAscending planes.now }
    ensures apart { IsTrue result → HasNoTwoAlike planes.now }
{
    for i in 1..planes.len() {
        if !compare(&planes[i - 1], &planes[i]).is_lt() {
            return false;
        }
    }
    true
}

/// How two planes are ordered: by their numbers, each plane turned so that its first number that isn't
/// 0 is above 0.
pub fn compare(m: &Plane, n: &Plane) -> Ordering
    ensures { result ≡ plane_order m.now n.now }
{
    by_numbers(&normal_form(m), &normal_form(n))
}

// The order of four numbers, by their first difference.
fn by_numbers(m: &Plane, n: &Plane) -> Ordering
    ensures { result ≡ by_numbers m.now n.now }
{
    let last = m.c.cmp(&n.c).then(m.d.cmp(&n.d));
    m.a.cmp(&n.a).then(m.b.cmp(&n.b).then(last))
}

// A plane or its opposite, so that the first number that isn't 0 is above 0.
#[tactic(auto, unfolding(crate::specs::Orders::normal_form))]
fn normal_form(m: &Plane) -> Plane
    ensures { result ≡ normal_form m.now }
{
    if is_low(m) { opposite(m) } else { *m }
}

// Whether the first number that isn't 0 is below 0.
fn is_low(m: &Plane) -> bool
    ensures { result ≡ is_low m.now }
{
    m.a < 0 || (m.a == 0 && (m.b < 0 || (m.b == 0 && (m.c < 0 || (m.c == 0 && m.d < 0)))))
}
