//! What one caller has booked on a memo.

ghost use Rattle.std.specs.Prelude.{◌≡◌, ◌+◌, ◌-◌, ◌*◌, ◌≤◌, ◌<◌, min, sum_by, [], IfOk, IfSome, IfNone};
ghost use Rattle.subtree_memo.specs.Shares.{fresh_share, joined_share, opened_shares, parts_each, dropped_max};

use crate::ledgers::{Books, PARTS_EACH};
use plain_text::NoMemory;
use std::alloc::Global;
use std::marker::Model;
use std::mem;
use std::sync::ledger::{Ledger, Share as Part};

/// One caller's share of the books of a memo, with what was booked on it: hits, misses, fills that were
/// kept and fills that were too heavy, and a number of its own for fills that were dropped where memory
/// ran out, which stops at 2^48. Contracts see it as these numbers.
#[derive(Drop)]
pub struct Share<B: Books> {
    pub(crate) caller: u32,
    pub(crate) dropped: u64,
    pub(crate) hits: Part<B::Hits>,
    pub(crate) misses: Part<B::Misses>,
    pub(crate) kept: Part<B::Kept>,
    pub(crate) heavy: Part<B::Heavy>,
}

impl<B: Books> Model for Share<B> {
    ghost use Rattle.std.specs.Prelude.{◌≡◌, ◌<◌, ◌≤◌};
    ghost use Rattle.subtree_memo.specs.Shares.{ShareView, dropped_max};

    ghost Value = { ShareView };

    ghost view = { λ s. record {
      caller = s.caller;
      parts = s.hits.parts;
      hits = s.hits.amount;
      misses = s.misses.amount;
      kept = s.kept.amount;
      heavy = s.heavy.amount;
      dropped = s.dropped;
    } };

    ghost invariant = { λ s. (s.caller < B.Hits.callers) × (s.misses.parts ≡ s.hits.parts)
        × (s.kept.parts ≡ s.hits.parts) × (s.heavy.parts ≡ s.hits.parts)
        × (s.dropped ≤ dropped_max) };
}

// Where the number of dropped fills stops.
const DROPPED_MAX: u64 = 1 << 48;

/// The given numbers of dropped fills together.
pub fn dropped_sum(some: u64, more: u64) -> u64
    requires { (some ≤ dropped_max) × (more ≤ dropped_max) }
    ensures { result ≡ min (some + more) dropped_max }
{
    (some + more).min(DROPPED_MAX)
}

impl<B: Books> Share<B> {
    /// The caller's number.
    pub fn caller(&self) -> u32
        ensures { result ≡ self.now.caller }
    {
        self.caller
    }

    /// A share of the same caller with one of the parts, and nothing booked.
    pub fn split(&mut self) -> Share<B>
        requires { 2 ≤ self.old.parts }
        ensures new { result ≡ fresh_share self.old.caller 1 }
        ensures rest { self.new ≡ record self.old { parts = self.old.parts - 1 } }
    {
        Share {
            caller: self.caller,
            dropped: 0,
            hits: self.hits.split_off(1, 0),
            misses: self.misses.split_off(1, 0),
            kept: self.kept.split_off(1, 0),
            heavy: self.heavy.split_off(1, 0),
        }
    }

    /// The whole of the share. What is left is the same caller's without a part, and nothing is booked on it.
    pub fn take(&mut self) -> Share<B>
        ensures whole { result ≡ self.old }
        ensures rest { self.new ≡ fresh_share self.old.caller 0 }
    {
        let rest = Share {
            caller: self.caller,
            dropped: 0,
            hits: self.hits.empty(),
            misses: self.misses.empty(),
            kept: self.kept.empty(),
            heavy: self.heavy.empty(),
        };
        mem::replace(self, rest)
    }

    /// Adds the parts and numbers of a share of the same caller.
    pub fn absorb(&mut self, other: Share<B>)
        requires { other.caller ≡ self.old.caller }
        ensures { self.new ≡ joined_share self.old other }
    {
        self.put_together(other)
    }

    /// Adds the parts and numbers of a share, also of another caller, to be closed with. The caller's number stays.
    pub fn put_together(&mut self, other: Share<B>)
        ensures { self.new ≡ joined_share self.old other }
    {
        let Share {
            caller: _,
            dropped,
            hits,
            misses,
            kept,
            heavy,
        } = other;
        self.dropped = dropped_sum(self.dropped, dropped);
        self.hits.merge(hits);
        self.misses.merge(misses);
        self.kept.merge(kept);
        self.heavy.merge(heavy);
    }
}

/// All shares put together, or none where there are none.
pub fn all_of<B: Books>(mut shares: Vec<Share<B>>) -> Option<Share<B>>
    ensures parts { IfSome result (λ s. s.parts ≡ sum_by (λ x. x.parts) shares.items) }
    ensures hits { IfSome result (λ s. s.hits ≡ sum_by (λ x. x.hits) shares.items) }
    ensures misses { IfSome result (λ s. s.misses ≡ sum_by (λ x. x.misses) shares.items) }
    ensures kept { IfSome result (λ s. s.kept ≡ sum_by (λ x. x.kept) shares.items) }
    ensures heavy { IfSome result (λ s. s.heavy ≡ sum_by (λ x. x.heavy) shares.items) }
    ensures dropped { IfSome result (λ s. s.dropped ≡
        min (sum_by (λ x. x.dropped) shares.items) dropped_max) }
    ensures none { IfNone result (shares.items ≡ []) }
{
    let mut all = shares.pop()?;
    while let Some(share) = shares.pop() {
        all.put_together(share);
    }
    // Its type says that it is at most where the number stops.
    let _dropped = all.dropped;
    Some(all)
}

/// The first parts of each book.
#[derive(Drop)]
pub struct Parts<B: Books> {
    pub hits: Part<B::Hits>,
    pub misses: Part<B::Misses>,
    pub kept: Part<B::Kept>,
    pub heavy: Part<B::Heavy>,
}

// The share of a caller, with these parts of the books.
fn share_of<B: Books>(caller: u32, parts: Parts<B>) -> Share<B>
    requires caller { caller < B.Hits.callers }
    requires hits { (parts.hits.parts ≡ parts_each) × (parts.hits.amount ≡ 0) }
    requires misses { (parts.misses.parts ≡ parts_each) × (parts.misses.amount ≡ 0) }
    requires kept { (parts.kept.parts ≡ parts_each) × (parts.kept.amount ≡ 0) }
    requires heavy { (parts.heavy.parts ≡ parts_each) × (parts.heavy.amount ≡ 0) }
    ensures { result ≡ fresh_share caller parts_each }
{
    let Parts {
        hits,
        misses,
        kept,
        heavy,
    } = parts;
    Share {
        caller,
        dropped: 0,
        hits,
        misses,
        kept,
        heavy,
    }
}

/// The shares of the given number of callers, with all parts of the books.
#[tactic(auto, using(crate::proofs::Opened::opened_more))]
pub fn shares_of<B: Books>(
    alloc: Global,
    callers: u32,
    mut all: Parts<B>,
) -> Result<Vec<Share<B>>, NoMemory>
    requires callers { callers ≡ B.Hits.callers }
    requires hits { (all.hits.parts ≡ parts_each * callers) × (all.hits.amount ≡ 0) }
    requires misses { (all.misses.parts ≡ parts_each * callers) × (all.misses.amount ≡ 0) }
    requires kept { (all.kept.parts ≡ parts_each * callers) × (all.kept.amount ≡ 0) }
    requires heavy { (all.heavy.parts ≡ parts_each * callers) × (all.heavy.amount ≡ 0) }
    ensures { IfOk result (λ v. v.items ≡ opened_shares callers) }
{
    let mut shares = Vec::new(alloc);
    for caller in 0..callers {
        let parts = Parts {
            hits: all.hits.split_off(PARTS_EACH, 0),
            misses: all.misses.split_off(PARTS_EACH, 0),
            kept: all.kept.split_off(PARTS_EACH, 0),
            heavy: all.heavy.split_off(PARTS_EACH, 0),
        };
        shares.push(share_of(caller, parts))?;
    }
    Ok(shares)
}
