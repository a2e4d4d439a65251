//! The sequential memo: probe and fill within a budget, the least recently used entries going first.

ghost use Rattle.std.specs.Prelude.{◌≡◌, true, false, option_map, is_some, if◌then◌else◌};
ghost use Rattle.std.specs.Arc.{arc_value};
ghost use Rattle.memo_core.specs.Fields.{value_in, is_hit};

use crate::dropped::DroppedEntries;
use crate::fit::{Fit, Namer};
use crate::journal::{JournalItem, fill_item, probe_item};
use crate::owners::weight_in;
use crate::plan::Limits;
use crate::slots::{GoneSlots, Shelf, Slot, offer, touch, value_of};
use lru::LruCache;
use plain_text::NoMemory;
use std::alloc::Global;
use std::marker::Model;
use std::mem;
use std::sync::Arc;

/// What a probe found.
#[derive(Drop)]
pub enum Probe<V> {
    /// The value that is held for this very key.
    Hit(Arc<V>),
    /// No entry has this key.
    Miss,
}

/// What became of a fill.
#[derive(Clone, Copy)]
pub enum Fill {
    /// The key is held, by a new entry or by the one that was there.
    Kept,
    /// The weight is above the budget, or what would have to go is not free to the caller. No entry
    /// changed.
    TooHeavy,
    /// Memory ran out, and nothing changed.
    NoMemory,
}

/// A memo: a list of entries, most recent first, whose weights sum to at most a budget and of which
/// there are at most 4,096, and the journal of its calls. Each entry has an owner, the caller who
/// brought it. With a share above 0, entries of one owner that weigh at most the share together are
/// dropped by no fill of another caller.
#[derive(Drop)]
pub struct MemoCore<F: Fit, N: Namer<F::Key>> {
    fit: F,
    namer: N,
    limits: Limits,
    shelf: Shelf<F::Key, F::Value>,
    gone: GoneSlots<F::Key, F::Value>,
    evicted: u64,
    journal: Vec<JournalItem<F::Key>>,
}

impl<F: Fit, N: Namer<F::Key>> Model for MemoCore<F, N> {
    ghost use Rattle.std.specs.Prelude.{◌-◌, vec_len, vec_capacity};
    ghost use Rattle.memo_core.specs.Views.{MemoView};

    ghost Value = { MemoView F.Key F.Value };

    ghost use Rattle.memo_core.specs.Fields.{entries_of, records_of};
    ghost use Rattle.memo_core.specs.Plans.{ShelfMatchesJournal};

    ghost view = { λ m. record {
      entries = entries_of m.shelf.cache.entries;
      dropped = entries_of m.gone.items;
      budget = m.limits.budget;
      share = m.limits.share;
      journal = records_of m.journal.items;
      spare = vec_capacity m.journal - vec_len m.journal;
    } };

    ghost invariant = { λ m. ShelfMatchesJournal F.same_key N.name_of F.fits F.weighs m.shelf
        m.evicted (record {
          entries = entries_of m.shelf.cache.entries;
          dropped = entries_of m.gone.items;
          budget = m.limits.budget;
          share = m.limits.share;
          journal = records_of m.journal.items;
          spare = vec_capacity m.journal - vec_len m.journal;
        }) };
}

impl<F: Fit, N: Namer<F::Key>> MemoCore<F, N> {
    ghost use Rattle.std.specs.Prelude.{◌≡◌, ◌≢◌, ℕ, ◌≤◌, ◌<◌, [], ◌∷◌, ◌++◌, IfOk, OnOk, OnErr};
    ghost use Rattle.std.specs.Prelude.{option_map, IfSome, IfNone, sum_by, true};
    ghost use Rattle.std.specs.Arc.{arc_value};
    ghost use Rattle.memo_core.specs.Views.{IsSound, after_probe, header_in};
    ghost use Rattle.memo_core.specs.Fills.{IsFilled, TellsIfKept, FillsBy};
    ghost use Rattle.memo_core.specs.Memo.{first_with, has_key, journal_record, owner_weight, KeepsShares};
    ghost use Rattle.memo_core.specs.Memo.{StandIn, ProbeAnswer, evicted_count};
    ghost use Rattle.memo_core.specs.Fields.{records_of};

    /// A memo without entries, whose journal is empty.
    pub fn new(alloc: Global, fit: F, namer: N, budget: u64, share: u64) -> Result<Self, NoMemory>
        ensures { IfOk result (λ m. (m.entries ≡ []) × (m.dropped ≡ []) × (m.journal ≡ [])
            × (m.budget ≡ budget) × (m.share ≡ share)) }
    {
        let shelf = Shelf {
            cache: LruCache::unbounded(alloc)?,
            weight: 0,
            owners: Vec::new(alloc),
        };
        Ok(MemoCore {
            fit,
            namer,
            limits: Limits { budget, share },
            shelf,
            gone: Vec::new(alloc),
            evicted: 0,
            journal: Vec::new(alloc),
        })
    }

    /// Makes room in the journal for one record more. The memory is the journal's own.
    pub fn room(&mut self, _alloc: Global) -> Result<(), NoMemory>
        ensures room { OnOk result (0 < self.new.spare) }
        ensures entries { self.new.entries ≡ self.old.entries }
        ensures dropped { self.new.dropped ≡ self.old.dropped }
        ensures budget { self.new.budget ≡ self.old.budget }
        ensures share { self.new.share ≡ self.old.share }
        ensures journal { self.new.journal ≡ self.old.journal }
        ensures err { OnErr result (self.new ≡ self.old) }
    {
        self.journal.reserve(1)?;
        Ok(())
    }

    /// The sum of the weights of the entries, which is at most the budget.
    pub fn weight(&self) -> u64
        ensures is { result ≡ sum_by (λ e. e.header.weight) self.now.entries }
        ensures within { result ≤ self.now.budget }
        ensures sound { IsSound F.same_key N.name_of F.fits F.weighs self.now }
    {
        self.shelf.weight
    }

    /// The sum of the weights of this owner's entries.
    pub fn weight_of(&self, owner: u32) -> u64
        ensures { result ≡ owner_weight header_in owner self.now.entries }
    {
        weight_in(self.shelf.owners.as_slice(), owner)
    }

    /// How many entries were dropped so far.
    pub fn evicted(&self) -> u64
        ensures is { result ≡ evicted_count self.now.journal }
    {
        self.evicted
    }

    /// The calls so far, each with what it said. With a share above 0, at each of them the entries of
    /// another caller that weigh at most the share together all stand after it.
    pub fn journal(&self) -> &[JournalItem<F::Key>]
        ensures is { records_of result.now ≡ self.now.journal }
        ensures sound { IsSound F.same_key N.name_of F.fits F.weighs self.now }
        ensures shares { 0 < self.now.share →
            KeepsShares F.same_key N.name_of self.now.budget self.now.share [] self.now.journal }
    {
        self.journal.as_slice()
    }

    /// Looks for this very key. A hit brings its entry to the front. `NoMemory` comes where the key or
    /// the value can't be shared once more.
    pub fn probe(&mut self, caller: u32, key: &Arc<F::Key>) -> Result<Probe<F::Value>, NoMemory>
        requires { 0 < self.old.spare }
        ensures found { IfOk result (λ p. value_in p ≡
            option_map (λ e. e.value)
            (first_with (has_key F.same_key header_in (arc_value key.now)) self.old.entries)) }
        ensures fits { IfOk result (λ p. IfSome (value_in p) (F.fits (arc_value key.now))) }
        ensures journal { IfOk result (λ p. self.new.journal ≡
            self.old.journal ++ journal_record caller (arc_value key.now)
            (ProbeAnswer (is_hit p)) ∷ []) }
        ensures core { OnOk result (self.new ≡
            after_probe F.same_key caller (arc_value key.now) self.old) }
        ensures stand { (owner : ℕ) → StandIn header_in owner self.old.entries self.new.entries }
        ensures err { OnErr result (self.new ≡ self.old) }
    {
        let name = self.namer.name(&**key);
        let found = value_of(&self.fit, &self.shelf.cache, &name, &**key)?;
        let key = Arc::try_clone(key)?;
        let hit = found.is_some();
        touch(&mut self.shelf.cache, &name, &found);
        let item = probe_item(caller, key, hit);
        self.journal.push_reserved(item);
        Ok(answer(found))
    }

    /// The value that is held for this very key, as a probe that is a hit. Where no entry has the key, nothing
    /// is asked and nothing changes. `NoMemory` comes as at `probe`.
    pub fn hit(&mut self, caller: u32, key: &Arc<F::Key>) -> Result<Option<Arc<F::Value>>, NoMemory>
        requires { 0 < self.old.spare }
        ensures found { IfOk result (λ r. option_map arc_value r ≡
            option_map (λ e. e.value)
            (first_with (has_key F.same_key header_in (arc_value key.now)) self.old.entries)) }
        ensures fits { IfOk result (λ r. IfSome r (λ value.
            F.fits (arc_value key.now) (arc_value value))) }
        ensures journal { IfOk result (λ r. IfSome r (λ value. self.new.journal ≡
            self.old.journal ++ journal_record caller (arc_value key.now) (ProbeAnswer true)
            ∷ [])) }
        ensures core { IfOk result (λ r. IfSome r (λ value. self.new ≡
            after_probe F.same_key caller (arc_value key.now) self.old)) }
        ensures none { IfOk result (λ r. IfNone r (self.new ≡ self.old)) }
        ensures err { OnErr result (self.new ≡ self.old) }
    {
        let name = self.namer.name(&**key);
        let held = value_of(&self.fit, &self.shelf.cache, &name, &**key)?;
        let is_held = held.is_some();
        if !is_held {
            return Ok(None);
        }
        let noted = Arc::try_clone(key)?;
        touch(&mut self.shelf.cache, &name, &held);
        self.journal
            .push_reserved(probe_item(caller, noted, is_held));
        Ok(held)
    }

    /// Offers a value for a key. A key that is held keeps its value and its owner. Else an entry of the
    /// same name and another key goes, and then, while the rest does not fit, the last entry that is
    /// free to the caller: its own one, any one without a share, and else one whose owner's entries
    /// weigh more than the share together. Where such an entry of the same name is not free, or the new
    /// one itself would have to go, the fill is not kept. `take_dropped` hands out what went.
    pub fn fill(
        &mut self,
        alloc: Global,
        caller: u32,
        key: &Arc<F::Key>,
        value: Arc<F::Value>,
        weight: u64,
    ) -> Fill
        requires room { 0 < self.old.spare }
        requires fits { F.fits (arc_value key.now) (arc_value value) }
        requires weight { weight ≡ F.weighs (arc_value value) }
        ensures answer { TellsIfKept F.same_key N.name_of caller
            (arc_value key.now) (arc_value value) weight result self.old self.new }
        ensures journal { IsFilled caller (arc_value key.now) weight result
            self.old.journal self.new.journal }
        ensures core { FillsBy F.same_key N.name_of caller
            (arc_value key.now) (arc_value value) weight result self.old self.new }
        ensures reserved { 0 < self.old.share → (owner : ℕ) → owner ≢ caller →
            owner_weight header_in owner self.old.entries ≤ self.old.share →
            StandIn header_in owner self.old.entries self.new.entries }
    {
        let Ok(noted) = Arc::try_clone(key) else {
            return Fill::NoMemory;
        };
        let Ok(held) = Arc::try_clone(key) else {
            return Fill::NoMemory;
        };
        let name = self.namer.name(&**key);
        let slot = Slot {
            key: held,
            value,
            weight,
            owner: caller,
        };
        let Ok(offered) = offer(
            alloc,
            &self.fit,
            &mut self.shelf,
            &mut self.gone,
            name,
            slot,
            self.limits,
        ) else {
            return Fill::NoMemory;
        };
        self.journal
            .push_reserved(fill_item(caller, noted, weight, offered));
        self.evicted += u64::from(offered.unwrap_or(0));
        kept_or_not(offered)
    }

    /// Hands out what the fills dropped since it was last taken, so that the caller frees it where no
    /// lock is held.
    pub fn take_dropped(&mut self, alloc: Global) -> DroppedEntries<F::Key, F::Value>
        ensures gives { result ≡ self.old.dropped }
        ensures rest { self.new ≡ record self.old { dropped = [] } }
    {
        DroppedEntries::new(mem::replace(&mut self.gone, Vec::new(alloc)))
    }
}

// The answer of a fill that found memory.
fn kept_or_not(offered: Option<u32>) -> Fill
    ensures is { result ≡ (if is_some offered then Fill.Kept else Fill.TooHeavy) }
    ensures kept { result ≡ Fill.Kept → is_some offered ≡ true }
    ensures heavy { result ≡ Fill.TooHeavy → is_some offered ≡ false }
{
    match offered {
        Some(_) => Fill::Kept,
        None => Fill::TooHeavy,
    }
}

// The answer of a probe that found this.
fn answer<V>(found: Option<Arc<V>>) -> Probe<V>
    ensures value { value_in result ≡ option_map arc_value found }
    ensures hit { is_hit result ≡ is_some found }
{
    match found {
        Some(value) => Probe::Hit(value),
        None => Probe::Miss,
    }
}
