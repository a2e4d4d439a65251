//! The memo that threads share, behind a lock.

ghost use Rattle.std.specs.Prelude.{◌≡◌, ◌<◌, All, sum_by, [], ◌∷◌, IfOk, OnErr, IfSome, IfNone};
ghost use Rattle.std.specs.Prelude.{true};
ghost use Rattle.std.specs.Arc.{arc_value};
ghost use Rattle.memo_core.specs.Views.{IsSound};
ghost use Rattle.memo_core.specs.Fields.{value_in, is_hit};
ghost use Rattle.subtree_memo.specs.Shares.{share_after_probe, share_after_fill, opened_shares, IsBlankLedger};
ghost use Rattle.subtree_memo.specs.Tallies.{tally_of, AreSums};
ghost use Rattle.subtree_memo.specs.Allowed.{AreAllowed};

use crate::booked::{BookedMemo, EmptyBooks, first_booked_memo};
use crate::ledgers::{AskPolicy, Blanks, Books};
use crate::share::{Parts, Share, all_of, shares_of};
use crate::tally::{Tally, counts_of};
use memo_core::{Fill, Fit, MemoCore, Namer, Probe};
use plain_text::NoMemory;
use std::alloc::Global;
use std::sync::ledger::Ledger;
use std::sync::{Arc, Mutex, Wait};

/// A memo that threads share. Whenever its lock is free, the journal behind it is one of the sequential
/// memo, and the books are the journal's counts.
#[derive(Drop)]
pub struct Memo<F: Fit, N: Namer<F::Key>, B: Books + AskPolicy<F::Key>> {
    lock: Mutex<BookedMemo<F, N, B>>,
}

impl<F: Fit, N: Namer<F::Key>, B: Books + AskPolicy<F::Key>> Memo<F, N, B> {
    /// Puts a memo whose journal is empty behind a lock. Each caller of the ledgers, numbered from 0, gets a
    /// share with 128 parts of the books.
    pub fn open(
        alloc: Global,
        core: MemoCore<F, N>,
        blanks: Blanks,
    ) -> Result<(Memo<F, N, B>, Vec<Share<B>>), NoMemory>
        requires empty { core.journal ≡ [] }
        requires limits { (core.budget ≡ B.Hits.budget) × (core.share ≡ B.Hits.share)
            × (blanks.callers ≡ B.Hits.callers) }
        requires ledgers { IsBlankLedger B.Hits.name B.Hits.parts blanks.hits
            × IsBlankLedger B.Misses.name B.Misses.parts blanks.misses
            × IsBlankLedger B.Kept.name B.Kept.parts blanks.kept
            × IsBlankLedger B.Heavy.name B.Heavy.parts blanks.heavy }
        ensures { IfOk result (λ r. r.1.items ≡ opened_shares blanks.callers) }
    {
        let callers = blanks.callers;
        let (hits, hit_parts) = blanks.hits.open::<B::Hits>();
        let (misses, missed_parts) = blanks.misses.open::<B::Misses>();
        let (kept, kept_parts) = blanks.kept.open::<B::Kept>();
        let (heavy, heavy_parts) = blanks.heavy.open::<B::Heavy>();
        let parts = Parts {
            hits: hit_parts,
            misses: missed_parts,
            kept: kept_parts,
            heavy: heavy_parts,
        };
        let shares = shares_of(alloc, callers, parts)?;
        let books = EmptyBooks {
            hits,
            misses,
            kept,
            heavy,
        };
        let lock = Mutex::new(first_booked_memo(core, books));
        Ok((Memo { lock }, shares))
    }

    /// Looks for this very key. A hit is booked as one and a miss as one, and so each as one probe.
    /// NoMemory books nothing.
    pub fn probe<R: Wait>(
        &self,
        rt: &R,
        alloc: Global,
        share: &mut Share<B>,
        key: &Arc<F::Key>,
    ) -> Result<Probe<F::Value>, NoMemory>
        requires parts { 0 < share.old.parts }
        requires allowed { B.may_ask share.old.caller (arc_value key.now) }
        ensures fits { IfOk result (λ p. IfSome (value_in p) (F.fits (arc_value key.now))) }
        ensures booked { IfOk result (λ p. share.new ≡ share_after_probe (is_hit p) share.old) }
        ensures err { OnErr result (share.new ≡ share.old) }
    {
        self.lock.lock(rt).probe(alloc, share, key)
    }

    /// The value that the memo holds for this very key, which is booked as a probe that is a hit. Where it holds
    /// none, nothing is booked: who asks for a claim then probes. NoMemory books nothing.
    pub fn hit<R: Wait>(
        &self,
        rt: &R,
        alloc: Global,
        share: &mut Share<B>,
        key: &Arc<F::Key>,
    ) -> Result<Option<Arc<F::Value>>, NoMemory>
        requires parts { 0 < share.old.parts }
        requires allowed { B.may_ask share.old.caller (arc_value key.now) }
        ensures fits { IfOk result (λ r. IfSome r (λ value.
            F.fits (arc_value key.now) (arc_value value))) }
        ensures booked { IfOk result (λ r. IfSome r (λ value.
            share.new ≡ share_after_probe true share.old)) }
        ensures none { IfOk result (λ r. IfNone r (share.new ≡ share.old)) }
        ensures err { OnErr result (share.new ≡ share.old) }
    {
        self.lock.lock(rt).hit(alloc, share, key)
    }

    /// Offers a value for a key. Each answer is booked as what it is, one where memory ran out as dropped,
    /// and so each as one that was offered. What the fill drops is freed once the lock is free.
    pub fn fill<R: Wait>(
        &self,
        rt: &R,
        alloc: Global,
        share: &mut Share<B>,
        key: &Arc<F::Key>,
        value: Arc<F::Value>,
        weight: u64,
    ) -> Fill
        requires parts { 0 < share.old.parts }
        requires allowed { B.may_ask share.old.caller (arc_value key.now) }
        requires fits { F.fits (arc_value key.now) (arc_value value) }
        requires weight { weight ≡ F.weighs (arc_value value) }
        ensures { share.new ≡ share_after_fill result share.old }
    {
        let mut booked = self.lock.lock(rt);
        let answer = booked.fill(alloc, share, key, value, weight);
        let _dropped = booked.take_dropped(alloc);
        drop(booked);
        answer
    }

    /// The memo and its tally, once all shares are back: the tally is that of the memo's journal, and
    /// what was booked on the shares. The memo keeps to the budget and the share that it was opened with, and
    /// its journal has no other callers than those, each of which might ask for the key of its item.
    pub fn close(self, shares: Vec<Share<B>>) -> (Tally, MemoCore<F, N>)
        requires whole { (0 < B.Hits.parts) × (sum_by (λ s. s.parts) shares.items ≡ B.Hits.parts) }
        requires ledgers { (B.Misses.parts ≡ B.Hits.parts) × (B.Kept.parts ≡ B.Hits.parts)
            × (B.Heavy.parts ≡ B.Hits.parts) }
        ensures tally { result.0 ≡ tally_of result.1.journal result.0.dropped }
        ensures booked { AreSums shares.items result.0 }
        ensures sound { IsSound F.same_key N.name_of F.fits F.weighs result.1 }
        ensures limits { (result.1.budget ≡ B.Hits.budget) × (result.1.share ≡ B.Hits.share) }
        ensures callers { All (λ i. i.caller < B.Hits.callers) result.1.journal }
        ensures allowed { ∥ AreAllowed B.may_ask result.1.journal ∥₁ }
    {
        let Some(all) = all_of(shares) else {
            unreachable!()
        };
        self.close_whole(all)
    }

    /// As `close`, for all shares put together.
    pub fn close_whole(self, all: Share<B>) -> (Tally, MemoCore<F, N>)
        requires whole { all.parts ≡ B.Hits.parts }
        requires ledgers { (B.Misses.parts ≡ B.Hits.parts) × (B.Kept.parts ≡ B.Hits.parts)
            × (B.Heavy.parts ≡ B.Hits.parts) }
        ensures tally { result.0 ≡ tally_of result.1.journal result.0.dropped }
        ensures booked { AreSums (all ∷ []) result.0 }
        ensures sound { IsSound F.same_key N.name_of F.fits F.weighs result.1 }
        ensures limits { (result.1.budget ≡ B.Hits.budget) × (result.1.share ≡ B.Hits.share) }
        ensures callers { All (λ i. i.caller < B.Hits.callers) result.1.journal }
        ensures allowed { ∥ AreAllowed B.may_ask result.1.journal ∥₁ }
    {
        let Memo { lock } = self;
        let BookedMemo {
            core,
            mut hits,
            mut misses,
            mut kept,
            mut heavy,
        } = lock.into_inner();
        let mut all = all;
        hits.audit(&mut all.hits);
        misses.audit(&mut all.misses);
        kept.audit(&mut all.kept);
        heavy.audit(&mut all.heavy);
        let tally = counts_of(core.journal()).tally(core.evicted(), all.dropped);
        (tally, core)
    }
}
