//! The cache behind the memo: slots by name, the most recently used first.

ghost use Rattle.std.specs.Prelude.{◌≡◌, true, false, ◌+◌, ◌≤◌, ◌<◌, option_map, length, ◌∷◌, ◌++◌};
ghost use Rattle.std.specs.Prelude.{IfOk, OnOk, OnErr, if◌then◌else◌, is_some, vec_len, vec_capacity};
ghost use Rattle.std.specs.Arc.{arc_value};
ghost use Rattle.std.specs.Map.{lookup, keys_of, remove_entry};
ghost use Rattle.std.specs.List.{IsDistinct};
ghost use Rattle.lru.specs.LruCache.{promoted};
ghost use Rattle.memo_core.specs.Memo.{same_name, entries_after_push, entries_after_offer_where};
ghost use Rattle.memo_core.specs.Memo.{DropsFrom};
ghost use Rattle.memo_core.specs.Fields.{value_with_key, has_at};
ghost use Rattle.memo_core.specs.Plans.{pairs_without, pair_if_there, slot_header, IsShelf};
ghost use Rattle.memo_core.specs.Plans.{HasPlace, IsOfferTaken};

use crate::fit::{Fit, Name};
use crate::owners::OwnerWeight;
use crate::plan::{Limits, plan_for};
use lru::LruCache;
use plain_text::NoMemory;
use std::alloc::Global;
use std::sync::Arc;

/// What the cache has at a name.
#[derive(Drop)]
pub struct Slot<K, V> {
    pub key: Arc<K>,
    pub value: Arc<V>,
    pub weight: u64,
    pub owner: u32,
}

/// Slots that were dropped, with their names.
pub type GoneSlots<K, V> = Vec<(Name, Slot<K, V>)>;

/// A cache of slots by name, the most recently used first.
pub type Slots<K, V> = LruCache<Name, Slot<K, V>>;

/// A cache of slots, and beside it what they weigh, all together and by their owners.
#[derive(Drop)]
pub struct Shelf<K, V> {
    pub cache: Slots<K, V>,
    pub weight: u64,
    pub owners: Vec<OwnerWeight>,
}

/// How many entries there may be.
pub const ENTRIES_MAX: usize = 4096;

// Whether the slot of this name has this key.
fn has_slot<F: Fit>(fit: &F, cache: &Slots<F::Key, F::Value>, name: &Name, key: &F::Key) -> bool
    ensures held { result ≡ has_at F.same_key name.now key.now cache.now.entries }
    ensures distinct { IsDistinct same_name (keys_of cache.now.entries) }
{
    // The cache says that its names are distinct where it is asked for its length.
    let _len = cache.len();
    let Some(slot) = cache.peek(name) else {
        return false;
    };
    fit.same(&*slot.key, key)
}

/// Offers a slot to a shelf: one above the budget is not kept, one whose key is held brings that one to
/// the front, and else it is pushed. Answers how many slots were dropped, or none where it is not kept.
/// What was dropped is among those that are gone.
pub fn offer<F: Fit>(
    alloc: Global,
    fit: &F,
    shelf: &mut Shelf<F::Key, F::Value>,
    gone: &mut GoneSlots<F::Key, F::Value>,
    name: Name,
    slot: Slot<F::Key, F::Value>,
    limits: Limits,
) -> Result<Option<u32>, NoMemory>
    requires { IsShelf limits.budget shelf.old }
    ensures taken { IfOk result (λ r. IsOfferTaken
        (has_at F.same_key name (arc_value slot.key) shelf.old.cache.entries)
        (entries_after_offer_where slot_header limits.budget limits.share
        (has_at F.same_key name (arc_value slot.key) shelf.old.cache.entries)
        (promoted (same_name name) shelf.old.cache.entries) (name, slot) shelf.old.cache.entries)
        (name, slot) shelf.old gone.old.items r shelf.new gone.new.items) }
    ensures shelf { IsShelf limits.budget shelf.new }
    ensures named { IsDistinct same_name (keys_of shelf.old.cache.entries) }
    ensures err { OnErr result (shelf.new ≡ shelf.old) }
    ensures err_gone { OnErr result (gone.new.items ≡ gone.old.items) }
{
    let is_held = has_slot(fit, &shelf.cache, &name, &*slot.key);
    if slot.weight > limits.budget {
        return Ok(None);
    }
    if is_held {
        shelf.cache.promote(&name);
        // The cache says that its names are distinct where it is asked for its length.
        let _len = shelf.cache.len();
        return Ok(Some(0));
    }
    push(alloc, shelf, gone, name, slot, limits)
}

// Puts a slot in front, where it is kept, and drops what has to go for it.
fn push<K: Drop, V: Drop>(
    alloc: Global,
    shelf: &mut Shelf<K, V>,
    gone: &mut GoneSlots<K, V>,
    name: Name,
    slot: Slot<K, V>,
    limits: Limits,
) -> Result<Option<u32>, NoMemory>
    requires shelf { IsShelf limits.budget shelf.old }
    requires light { slot.weight ≤ limits.budget }
    ensures taken { IfOk result (λ r. IsOfferTaken false
        (entries_after_push slot_header limits.budget limits.share (name, slot)
        shelf.old.cache.entries)
        (name, slot) shelf.old gone.old.items r shelf.new gone.new.items) }
    ensures shelf { IsShelf limits.budget shelf.new }
    ensures err { OnErr result (shelf.new ≡ shelf.old) }
    ensures err_gone { OnErr result (gone.new.items ≡ gone.old.items) }
{
    let plan = plan_for(alloc, shelf, &name, &slot, limits)?;
    let before = shelf.cache.len();
    let Some(plan) = plan else {
        return Ok(None);
    };
    let going = plan.names.len();
    gone.reserve(going + 1)?;
    stack(&mut shelf.cache, gone, name, slot)?;
    drop_named(&mut shelf.cache, gone, plan.names.as_slice());
    shelf.weight = plan.total as u64;
    shelf.owners = plan.owners;
    let evicted = before + 1 - shelf.cache.len();
    Ok(Some(evicted as u32))
}

// Drops the slots of these names, which are gone then.
fn drop_named<K: Drop, V: Drop>(cache: &mut Slots<K, V>, gone: &mut GoneSlots<K, V>, names: &[Name])
    requires { vec_len gone.old + length names.now ≤ vec_capacity gone.old }
    ensures entries { cache.new.entries ≡ pairs_without names.now cache.old.entries }
    ensures cap { cache.new.cap ≡ cache.old.cap }
    ensures dropped { DropsFrom cache.old.entries gone.old.items gone.new.items cache.new.entries }
{
    for name in names {
        hand_out(gone, *name, cache.pop(name));
    }
}

/// Brings the slot of this name to the front, if a value was found there.
pub fn touch<K: Drop, V: Drop>(cache: &mut Slots<K, V>, name: &Name, found: &Option<Arc<V>>)
    ensures entries { cache.new.entries ≡
        if is_some found.now then promoted (same_name name.now) cache.old.entries
        else cache.old.entries }
    ensures cap { cache.new.cap ≡ cache.old.cap }
    ensures distinct { IsDistinct same_name (keys_of cache.new.entries) }
{
    if found.is_some() {
        cache.promote(name);
    }
    // The cache says that its names are distinct where it is asked for its length.
    let _len = cache.len();
}

/// The value of the slot of this name, where its key is this one.
pub fn value_of<F: Fit>(
    fit: &F,
    cache: &Slots<F::Key, F::Value>,
    name: &Name,
    key: &F::Key,
) -> Result<Option<Arc<F::Value>>, NoMemory>
    ensures value { IfOk result (λ r. option_map arc_value r ≡
        value_with_key F.same_key key.now (lookup (same_name name.now) cache.now.entries)) }
    ensures distinct { IsDistinct same_name (keys_of cache.now.entries) }
{
    // The cache says that its names are distinct where it is asked for its length.
    let _len = cache.len();
    let Some(slot) = cache.peek(name) else {
        return Ok(None);
    };
    if fit.same(&*slot.key, key) {
        Ok(Some(Arc::try_clone(&slot.value)?))
    } else {
        Ok(None)
    }
}

// Puts the slot of this name, if there was one, among those that are gone.
fn hand_out<K: Drop, V: Drop>(gone: &mut GoneSlots<K, V>, name: Name, slot: Option<Slot<K, V>>)
    requires { vec_len gone.old < vec_capacity gone.old }
    ensures items { gone.new.items ≡ gone.old.items ++ pair_if_there name slot }
    ensures len { vec_len gone.new ≤ vec_len gone.old + 1 }
    ensures capacity { vec_capacity gone.new ≡ vec_capacity gone.old }
{
    if let Some(slot) = slot {
        gone.push_reserved((name, slot));
    }
}

// Puts a slot in front, in place of the one of its name, which is gone then.
fn stack<K: Drop, V: Drop>(
    cache: &mut Slots<K, V>,
    gone: &mut GoneSlots<K, V>,
    name: Name,
    slot: Slot<K, V>,
) -> Result<(), NoMemory>
    requires { HasPlace cache.old.cap cache.old.entries (vec_len gone.old) (vec_capacity gone.old) }
    ensures entries { OnOk result (cache.new.entries ≡
        (name, slot) ∷ remove_entry (same_name name) cache.old.entries) }
    ensures dropped { OnOk result (DropsFrom ((name, slot) ∷ cache.old.entries)
        gone.old.items gone.new.items cache.new.entries) }
    ensures len { vec_len gone.new ≤ vec_len gone.old + 1 }
    ensures capacity { vec_capacity gone.new ≡ vec_capacity gone.old }
    ensures cap { cache.new.cap ≡ cache.old.cap }
    ensures err { OnErr result (cache.new ≡ cache.old) }
    ensures err_gone { OnErr result (gone.new.items ≡ gone.old.items) }
{
    match cache.put(name, slot) {
        Ok(old) => {
            hand_out(gone, name, old);
            Ok(())
        }
        Err(_) => Err(NoMemory),
    }
}
