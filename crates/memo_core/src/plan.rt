//! Which entries a new one pushes out, decided before anything changes.

ghost use Rattle.std.specs.Prelude.{◌≡◌, ℕ, ◌+◌, ◌<◌, ◌≤◌, not, IfOk, OnOk, true, false, if◌then◌else◌, nat_eq, [], None, MatchOption};
ghost use Rattle.std.specs.Option.{option_map_or};
ghost use Rattle.std.specs.Map.{remove_entry};
ghost use Rattle.memo_core.specs.Memo.{same_name, first_with, has_name, is_free, others_left_beside, entries_after_push};
ghost use Rattle.memo_core.specs.Fields.{weight_at};
ghost use Rattle.memo_core.specs.Plans.{slot_header, IsShelf, IsPlan, IsWithout, MakesRoom, IsPlanFor, frees_by};

use crate::fit::Name;
use crate::owners::{OwnerWeight, add_to, copy_of, take_from, weight_in};
use crate::slots::{ENTRIES_MAX, Shelf, Slot, Slots};
use plain_text::NoMemory;
use std::alloc::Global;

/// What a memo keeps to: what all entries weigh at most, and what each owner's entries weigh together
/// and are safe from other callers.
#[derive(Clone, Copy)]
pub struct Limits {
    pub budget: u64,
    pub share: u64,
}

/// Which slots a new one pushes out, and what is left beside it.
#[derive(Drop)]
pub struct Plan {
    /// The names that go, in this order.
    pub names: Vec<Name>,
    /// What is left weighs so much, with the new slot.
    pub total: u128,
    /// The given number of entries are left, with the new slot.
    pub count: usize,
    /// What each owner's slots weigh of what is left, without the new one.
    pub owners: Vec<OwnerWeight>,
}

/// What has to go for a new slot, if it can be kept. Nothing has gone yet.
pub fn plan_for<K: Drop, V: Drop>(
    alloc: Global,
    shelf: &Shelf<K, V>,
    name: &Name,
    slot: &Slot<K, V>,
    limits: Limits,
) -> Result<Option<Plan>, NoMemory>
    requires shelf { IsShelf limits.budget shelf.now }
    requires light { slot.now.weight ≤ limits.budget }
    ensures { IfOk result (λ r. MatchOption r
        (entries_after_push slot_header limits.budget limits.share (name.now, slot.now)
        shelf.now.cache.entries ≡ None)
        (IsPlanFor limits.budget limits.share name.now slot.now shelf.now.cache.entries)) }
{
    let mut plan = first_plan(alloc, shelf, slot)?;
    let may_push = makes_way(&shelf.cache, name, slot, limits.share, &mut plan);
    if !may_push || !makes_room(&shelf.cache, name, slot, limits, &mut plan)? {
        return Ok(None);
    }
    add_to(&mut plan.owners, slot.owner, slot.weight)?;
    Ok(Some(plan))
}

// The plan in which nothing goes.
fn first_plan<K: Drop, V: Drop>(
    alloc: Global,
    shelf: &Shelf<K, V>,
    slot: &Slot<K, V>,
) -> Result<Plan, NoMemory>
    requires { (budget : ℕ) × IsShelf budget shelf.now }
    ensures plan { IfOk result (IsPlan slot.now.weight shelf.now.cache.entries) }
    ensures names { IfOk result (λ p. p.names.items ≡ []) }
{
    Ok(Plan {
        names: Vec::new(alloc),
        total: u128::from(shelf.weight) + u128::from(slot.weight),
        count: shelf.cache.len() + 1,
        owners: copy_of(alloc, shelf.owners.as_slice())?,
    })
}

// Whether what is left of an owner's slots is free to a caller.
fn frees(plan: &Plan, owner: u32, caller: u32, share: u64) -> bool
    ensures { result ≡ frees_by caller share owner plan.now }
{
    owner == caller || share == 0 || weight_in(plan.owners.as_slice(), owner) > share
}

// A slot of this owner and weight goes.
fn leave_out(plan: &mut Plan, owner: u32, weight: u64)
    requires total { weight ≤ plan.old.total }
    requires count { 0 < plan.old.count }
    requires owned { weight ≤ weight_at owner plan.old.owners.items }
    ensures total { plan.new.total + weight ≡ plan.old.total }
    ensures count { plan.new.count + 1 ≡ plan.old.count }
    ensures owned { (other : ℕ) → weight_at other plan.new.owners.items
        + (if nat_eq owner other then weight else 0) ≡ weight_at other plan.old.owners.items }
    ensures names { plan.new.names ≡ plan.old.names }
{
    plan.total -= u128::from(weight);
    plan.count -= 1;
    take_from(&mut plan.owners, owner, weight);
}

// Leaves out the slot of the new one's name, if it is free. Answers whether there is none that isn't.
fn makes_way<K: Drop, V: Drop>(
    cache: &Slots<K, V>,
    name: &Name,
    slot: &Slot<K, V>,
    share: u64,
    plan: &mut Plan,
) -> bool
    requires { IsPlan slot.now.weight cache.now.entries plan.old }
    ensures way { result ≡ not (option_map_or
        (λ e. not (is_free slot_header share slot.now.owner cache.now.entries e))
        (first_with (has_name slot_header name.now) cache.now.entries) false) }
    ensures plan { result ≡ true →
        IsPlan slot.now.weight (remove_entry (same_name name.now) cache.now.entries) plan.new }
    ensures names { plan.new.names ≡ plan.old.names }
{
    let Some(old) = cache.peek(name) else {
        return true;
    };
    if !frees(plan, old.owner, slot.owner, share) {
        return false;
    }
    leave_out(plan, old.owner, old.weight);
    true
}

// Leaves out free slots from the end on until the rest fits beside the new one. Answers whether it does.
fn makes_room<K: Drop, V: Drop>(
    cache: &Slots<K, V>,
    name: &Name,
    slot: &Slot<K, V>,
    limits: Limits,
    plan: &mut Plan,
) -> Result<bool, NoMemory>
    requires plan { IsPlan slot.now.weight
        (remove_entry (same_name name.now) cache.now.entries) plan.old }
    requires names { plan.old.names.items ≡ [] }
    ensures yes { IfOk result (λ r. r ≡ true →
        MakesRoom limits.budget limits.share name.now slot.now cache.now.entries plan.new) }
    ensures no { IfOk result (λ r. r ≡ false → others_left_beside slot_header limits.budget limits.share
        (name.now, slot.now) (remove_entry (same_name name.now) cache.now.entries) ≡ None) }
{
    // The cache says that its names are distinct where it is asked for its length.
    let _len = cache.len();
    let mut rest = cache.iter();
    while plan.total > u128::from(limits.budget) || plan.count > ENTRIES_MAX {
        let Some((last, behind)) = rest.next_back() else {
            return Ok(false);
        };
        pass(plan, *name, *last, behind, slot.owner, limits.share)?;
    }
    Ok(true)
}

// Comes by a slot, and leaves it out if it is free. That of the new one's name has gone before.
fn pass<K: Drop, V: Drop>(
    plan: &mut Plan,
    name: Name,
    last: Name,
    slot: &Slot<K, V>,
    caller: u32,
    share: u64,
) -> Result<(), NoMemory>
    requires { same_name name last ≡ false → (slot.now.weight ≤ plan.old.total)
        × (0 < plan.old.count)
        × (slot.now.weight ≤ weight_at slot.now.owner plan.old.owners.items) }
    ensures goes { OnOk result ((same_name name last ≡ false) →
        frees_by caller share slot.now.owner plan.old ≡ true →
        IsWithout last slot.now.owner slot.now.weight plan.old plan.new) }
    ensures stays { OnOk result ((same_name name last ≡ false) →
        frees_by caller share slot.now.owner plan.old ≡ false → plan.new ≡ plan.old) }
    ensures skips { OnOk result (same_name name last ≡ true → plan.new ≡ plan.old) }
{
    if name == last {
        return Ok(());
    }
    if frees(plan, slot.owner, caller, share) {
        plan.names.push(last)?;
        leave_out(plan, slot.owner, slot.weight);
    }
    Ok(())
}
