//! Claims and their log, as plain calls on a value that is lent.

ghost use Rattle.std.specs.Prelude.{◌≡◌, ◌+◌, ◌≤◌, ◌<◌, [], ◌∷◌, ◌++◌, length, filter};
ghost use Rattle.std.specs.Prelude.{vec_capacity, IfOk, OnOk, IfSome, IfNone};
ghost use Rattle.std.specs.Arc.{arc_value};
ghost use Rattle.std.specs.List.{list_any};
ghost use Rattle.flight_memo.specs.Claims.{Begun, Ended, IsFree, IsSingle, IsLegalLog};
ghost use Rattle.flight_memo.specs.Claims.{live_claims, begin_count, end_count, number_to_end};
ghost use Rattle.flight_memo.specs.Fields.{claims_of, events_of, is_item, is_other_item};

use memo_core::Fit;
use plain_text::NoMemory;
use std::alloc::Global;
use std::marker::Model;
use std::sync::{Arc, Condvar};

/// A claim that is live: its number, whose it is, of which key, and by what its end is told to those who wait for it.
#[derive(Drop)]
pub struct LiveClaim<K> {
    pub number: u64,
    pub caller: u32,
    pub key: Arc<K>,
    pub ended: Arc<Condvar>,
}

/// What the log says: a claim began, or one ended, and whether by `finish`, which fills its key where the memo keeps the value.
#[derive(Drop)]
pub enum LogItem<K> {
    Begun {
        number: u64,
        caller: u32,
        key: Arc<K>,
    },
    Ended {
        number: u64,
        filled: bool,
    },
}

/// What its claims give for a live claim: its number and its key. It is not dropped, and only `Claims::end` takes it.
pub struct Ticket<K> {
    number: u64,
    key: Arc<K>,
}

impl<K> Ticket<K> {
    /// The key of the claim.
    pub(crate) fn key(&self) -> &Arc<K>
        ensures { arc_value result.now ≡ arc_value self.now.key }
    {
        &self.key
    }
}

/// Three references to one key, for the log, the live claims and the claim itself.
#[derive(Drop)]
pub struct Copies<K> {
    pub noted: Arc<K>,
    pub held: Arc<K>,
    pub own: Arc<K>,
    pub ghost one: { (arc_value held ≡ arc_value noted) × (arc_value own ≡ arc_value noted) },
}

impl<K: Drop> Copies<K> {
    pub fn of(key: &Arc<K>) -> Result<Copies<K>, NoMemory>
        ensures { IfOk result (λ c. arc_value c.noted ≡ arc_value key.now) }
    {
        let noted = Arc::try_clone(key)?;
        let held = Arc::try_clone(key)?;
        let own = Arc::try_clone(key)?;
        Ok(Copies { noted, held, own })
    }
}

/// The claims of a memo's keys. Contracts see them as the live ones, and the log of how claims began and ended: numbers are
/// given from 0 in order, each end is of a claim that was live, and no two live claims have one key.
#[derive(Drop)]
pub struct Claims<F: Fit> {
    fit: F,
    begun: u64,
    live: Vec<LiveClaim<F::Key>>,
    log: Vec<LogItem<F::Key>>,
}

impl<F: Fit> Model for Claims<F> {
    ghost use Rattle.std.specs.Prelude.{◌-◌, vec_capacity, vec_len};
    ghost use Rattle.flight_memo.specs.Claims.{ClaimsView};
    ghost use Rattle.flight_memo.specs.Fields.{claims_of, events_of, ClaimsMatchLog};

    ghost Value = { ClaimsView F.Key };

    ghost view = { λ c. record {
      live = claims_of c.live.items;
      log = events_of c.log.items;
      places = vec_capacity c.live - vec_len c.live;
      spare = vec_capacity c.log - vec_len c.log;
    } };

    ghost invariant = { λ c. ClaimsMatchLog c.begun (record {
      live = claims_of c.live.items;
      log = events_of c.log.items;
      places = vec_capacity c.live - vec_len c.live;
      spare = vec_capacity c.log - vec_len c.log;
    }) };
}

impl<F: Fit> Claims<F> {
    /// No claims, and an empty log.
    pub(crate) fn new(alloc: Global, fit: F) -> Claims<F>
        ensures { (result.live ≡ []) × (result.log ≡ []) }
    {
        Claims {
            fit,
            begun: 0,
            live: Vec::new(alloc),
            log: Vec::new(alloc),
        }
    }

    /// How claims began and ended so far: at no moment of it had a key two live claims.
    pub fn log(&self) -> &[LogItem<F::Key>]
        ensures is { events_of result.now ≡ self.now.log }
        ensures legal { IsLegalLog self.now.log }
        ensures live { self.now.live ≡ live_claims self.now.log }
        ensures single { IsSingle self.now.log }
        ensures all { length self.now.live + end_count self.now.log ≡ begin_count self.now.log }
    {
        self.log.as_slice()
    }

    /// By what the end of the live claim of a key is told, or none just where no live claim has the key. `NoMemory` is a signal
    /// that cannot be shared once more.
    pub(crate) fn end_of(&self, key: &F::Key) -> Result<Option<Arc<Condvar>>, NoMemory>
        ensures held { IfOk result (λ r. IfSome r (λ ended. IsFree key.now self.now.live → ⊥)) }
        ensures free { IfOk result (λ r. IfNone r (IsFree key.now self.now.live)) }
    {
        for claim in &self.live {
            if self.fit.same(&*claim.key, key) {
                return Ok(Some(Arc::try_clone(&claim.ended)?));
            }
        }
        Ok(None)
    }

    /// Makes room for one claim more, and for its end.
    pub(crate) fn room(&mut self) -> Result<(), NoMemory>
        ensures room { OnOk result ((0 < self.new.places)
            × (length self.new.live + 2 ≤ self.new.spare)) }
        ensures live { self.new.live ≡ self.old.live }
        ensures log { self.new.log ≡ self.old.log }
    {
        self.live.reserve(1)?;
        self.log.reserve(self.live.len() + 2)?;
        Ok(())
    }

    /// Begins a claim of a key that no live claim has, for which there is room. Its end is told by `ended`.
    pub(crate) fn begin(
        &mut self,
        caller: u32,
        copies: Copies<F::Key>,
        ended: Arc<Condvar>,
    ) -> Ticket<F::Key>
        requires free { IsFree (arc_value copies.noted) self.old.live }
        requires room { (0 < self.old.places) × (length self.old.live + 2 ≤ self.old.spare) }
        ensures log { self.new.log ≡ self.old.log ++ Begun (record {
          number = begin_count self.old.log;
          caller = caller;
          key = arc_value copies.noted;
        }) ∷ [] }
        ensures live { length self.new.live ≡ length self.old.live + 1 }
        ensures claim { (result.number ≡ begin_count self.old.log)
            × (arc_value result.key ≡ arc_value copies.noted) }
    {
        let Copies { noted, held, own } = copies;
        let number = self.begun;
        self.log.push_reserved(LogItem::Begun {
            number,
            caller,
            key: noted,
        });
        self.live.push_reserved(LiveClaim {
            number,
            caller,
            key: held,
            ended,
        });
        self.begun += 1;
        Ticket { number, key: own }
    }

    /// Ends a live claim, of which there is one: that of the ticket, where it is live, as each one is. No proof knows this, so the
    /// first live claim stands in for one that isn't.
    pub(crate) fn end(&mut self, claim: Ticket<F::Key>, filled: bool)
        requires some { 0 < length self.old.live }
        ensures log { self.new.log
            ≡ self.old.log ++ Ended (number_to_end claim.number self.old.live) filled ∷ [] }
        ensures live { length self.new.live + 1 ≡ length self.old.live }
    {
        let Ticket { number, key } = claim;
        drop(key);
        let number = ending_number(&self.live, number);
        self.log.push_reserved(LogItem::Ended { number, filled });
        take_out(&mut self.live, number);
    }
}

// Whether one of some claims has a number.
fn has_number<K>(live: &[LiveClaim<K>], number: u64) -> bool
    ensures { result ≡ list_any (is_item number) live.now }
{
    live.iter().any(|claim| number == claim.number)
}

// The number of the live claim that ends: the one given, where it is live, and else the first one's.
fn ending_number<K>(live: &[LiveClaim<K>], number: u64) -> u64
    requires { 0 < length live.now }
    ensures { result ≡ number_to_end number (claims_of live.now) }
{
    if has_number(live, number) {
        number
    } else {
        live[0].number
    }
}

// Takes out the claims of a number.
fn take_out<K: Drop>(live: &mut Vec<LiveClaim<K>>, number: u64)
    ensures items { live.new.items ≡ filter (is_other_item number) live.old.items }
    ensures capacity { vec_capacity live.new ≡ vec_capacity live.old }
{
    live.retain(|claim| number != claim.number)
}
