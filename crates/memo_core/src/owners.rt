//! What the entries of each owner weigh together.

ghost use Rattle.std.specs.Prelude.{◌≡◌, ℕ, ◌+◌, ◌<◌, ◌≤◌, ◌^◌, IfOk, OnOk, IfSome, length, if◌then◌else◌, nat_eq};
ghost use Rattle.memo_core.specs.Fields.{weight_at, place_at};

use plain_text::NoMemory;
use std::alloc::Global;

/// What an owner's entries weigh together.
#[derive(Clone, Copy)]
pub struct OwnerWeight {
    pub owner: u32,
    pub weight: u64,
}

/// What an owner's entries weigh.
pub fn weight_in(rows: &[OwnerWeight], owner: u32) -> u64
    ensures { result ≡ weight_at owner rows.now }
{
    for row in rows {
        if row.owner == owner {
            return row.weight;
        }
    }
    0
}

// The place of an owner's row.
fn place_in(rows: &[OwnerWeight], owner: u32) -> Option<usize>
    ensures is { result ≡ place_at owner rows.now }
    ensures within { IfSome result (λ place. place < length rows.now) }
{
    for (place, row) in rows.iter().enumerate() {
        if row.owner == owner {
            return Some(place);
        }
    }
    None
}

/// The same rows once more.
pub fn copy_of(alloc: Global, rows: &[OwnerWeight]) -> Result<Vec<OwnerWeight>, NoMemory>
    ensures { IfOk result (λ v. v.items ≡ rows.now) }
{
    let mut copy = Vec::new(alloc);
    copy.extend_from_slice(rows)?;
    Ok(copy)
}

/// An owner loses an entry of this weight.
pub fn take_from(rows: &mut Vec<OwnerWeight>, owner: u32, weight: u64)
    requires { weight ≤ weight_at owner rows.old.items }
    ensures { (other : ℕ) →
        weight_at other rows.new.items + (if nat_eq owner other then weight else 0)
        ≡ weight_at other rows.old.items }
{
    if let Some(place) = place_in(rows.as_slice(), owner) {
        let rest = rows[place].weight - weight;
        rows[place] = OwnerWeight {
            owner,
            weight: rest,
        };
    }
}

/// An owner gets an entry of this weight.
pub fn add_to(rows: &mut Vec<OwnerWeight>, owner: u32, weight: u64) -> Result<(), NoMemory>
    requires { weight_at owner rows.old.items + weight < 2 ^ 64 }
    ensures { OnOk result ((other : ℕ) → weight_at other rows.new.items
        ≡ weight_at other rows.old.items + (if nat_eq owner other then weight else 0)) }
{
    match place_in(rows.as_slice(), owner) {
        Some(place) => {
            let sum = rows[place].weight + weight;
            rows[place] = OwnerWeight { owner, weight: sum };
        }
        None => rows.push(OwnerWeight { owner, weight })?,
    }
    Ok(())
}
