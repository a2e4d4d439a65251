//! The sequential memo together with the books that count its journal.

ghost use Rattle.std.specs.Prelude.{◌≡◌, ◌<◌, [], ◌∷◌, ◌++◌, All, IfOk, OnErr, IfSome, IfNone};
ghost use Rattle.std.specs.Prelude.{true};
ghost use Rattle.std.specs.Arc.{arc_value};
ghost use Rattle.memo_core.specs.Fields.{value_in, is_hit};
ghost use Rattle.memo_core.specs.Memo.{journal_record, ProbeAnswer, count_in};
ghost use Rattle.memo_core.specs.Memo.{hit_count_of, miss_count_of, kept_count_of, not_kept_count_of};
ghost use Rattle.memo_core.specs.Fills.{IsFilled};
ghost use Rattle.subtree_memo.specs.Shares.{share_after_probe, share_after_fill};
ghost use Rattle.subtree_memo.specs.Allowed.{AreAllowed};

use crate::ledgers::{AskPolicy, Books};
use crate::share::{Share, dropped_sum};
use memo_core::{DroppedEntries, Fill, Fit, MemoCore, Namer, Probe};
use plain_text::NoMemory;
use std::alloc::Global;
use std::sync::Arc;
use std::sync::ledger::{Book, Ledger};

/// A memo, and beside it the books of its journal's counts.
#[derive(Drop)]
pub struct BookedMemo<F: Fit, N: Namer<F::Key>, B: Books + AskPolicy<F::Key>> {
    pub core: MemoCore<F, N>,
    pub hits: Book<B::Hits>,
    pub misses: Book<B::Misses>,
    pub kept: Book<B::Kept>,
    pub heavy: Book<B::Heavy>,
    pub ghost hits_are: { hits.total ≡ count_in hit_count_of core.journal },
    pub ghost misses_are: { misses.total ≡ count_in miss_count_of core.journal },
    pub ghost kept_are: { kept.total ≡ count_in kept_count_of core.journal },
    pub ghost heavy_are: { heavy.total ≡ count_in not_kept_count_of core.journal },
    pub ghost budget_is: { core.budget ≡ B.Hits.budget },
    pub ghost share_is: { core.share ≡ B.Hits.share },
    pub ghost callers_are: { All (λ i. i.caller < B.Hits.callers) core.journal },
    pub ghost allowed: { ∥ AreAllowed B.may_ask core.journal ∥₁ },
}

/// The books of a memo, on which nothing is booked.
#[derive(Drop)]
pub struct EmptyBooks<B: Books> {
    pub hits: Book<B::Hits>,
    pub misses: Book<B::Misses>,
    pub kept: Book<B::Kept>,
    pub heavy: Book<B::Heavy>,
    pub ghost no_hits: { hits.total ≡ 0 },
    pub ghost no_misses: { misses.total ≡ 0 },
    pub ghost none_kept: { kept.total ≡ 0 },
    pub ghost none_heavy: { heavy.total ≡ 0 },
}

/// A memo whose journal is empty, with its books.
#[tactic(auto, using(crate::proofs::Counts::none_allowed))]
pub fn first_booked_memo<F: Fit, N: Namer<F::Key>, B: Books + AskPolicy<F::Key>>(
    core: MemoCore<F, N>,
    books: EmptyBooks<B>,
) -> BookedMemo<F, N, B>
    requires empty { core.journal ≡ [] }
    requires limits { (core.budget ≡ B.Hits.budget) × (core.share ≡ B.Hits.share) }
{
    let EmptyBooks {
        hits,
        misses,
        kept,
        heavy,
    } = books;
    BookedMemo {
        core,
        hits,
        misses,
        kept,
        heavy,
    }
}

impl<F: Fit, N: Namer<F::Key>, B: Books + AskPolicy<F::Key>> BookedMemo<F, N, B> {
    /// A probe that is booked, and stands in the journal as the caller's of the share. NoMemory books
    /// nothing.
    #[tactic(auto, using(crate::proofs::Counts::hits_more, crate::proofs::Counts::misses_more, crate::proofs::Counts::kept_more, crate::proofs::Counts::heavy_more, crate::proofs::Counts::callers_more, crate::proofs::Counts::allowed_more))]
    pub fn probe(
        &mut self,
        alloc: Global,
        share: &mut Share<B>,
        key: &Arc<F::Key>,
    ) -> Result<Probe<F::Value>, NoMemory>
        requires parts { 0 < share.old.parts }
        requires allowed { B.may_ask share.old.caller (arc_value key.now) }
        ensures fits { IfOk result (λ p. IfSome (value_in p) (F.fits (arc_value key.now))) }
        ensures booked { IfOk result (λ p. share.new ≡ share_after_probe (is_hit p) share.old) }
        ensures journal { IfOk result (λ p. self.new.core.journal ≡ self.old.core.journal
            ++ journal_record share.old.caller (arc_value key.now) (ProbeAnswer (is_hit p)) ∷ []) }
        ensures err { OnErr result ((share.new ≡ share.old)
            × (self.new.core.journal ≡ self.old.core.journal)) }
    {
        let BookedMemo {
            core,
            hits,
            misses,
            kept: _,
            heavy: _,
        } = self;
        core.room(alloc)?;
        let found = core.probe(share.caller, key)?;
        match &found {
            Probe::Hit(_) => hits.add(&mut share.hits, 1),
            Probe::Miss => misses.add(&mut share.misses, 1),
        }
        Ok(found)
    }

    /// A hit that is booked, where the memo holds the key, and stands in the journal as the caller's of the share. Where
    /// it does not, nothing is asked and nothing is booked. NoMemory books nothing.
    #[tactic(auto, using(crate::proofs::Counts::hits_more, crate::proofs::Counts::misses_more, crate::proofs::Counts::kept_more, crate::proofs::Counts::heavy_more, crate::proofs::Counts::callers_more, crate::proofs::Counts::allowed_more))]
    pub fn hit(
        &mut self,
        alloc: Global,
        share: &mut Share<B>,
        key: &Arc<F::Key>,
    ) -> Result<Option<Arc<F::Value>>, NoMemory>
        requires parts { 0 < share.old.parts }
        requires allowed { B.may_ask share.old.caller (arc_value key.now) }
        ensures fits { IfOk result (λ r. IfSome r (λ value.
            F.fits (arc_value key.now) (arc_value value))) }
        ensures booked { IfOk result (λ r. IfSome r (λ value.
            share.new ≡ share_after_probe true share.old)) }
        ensures journal { IfOk result (λ r. IfSome r (λ value. self.new.core.journal ≡
            self.old.core.journal
            ++ journal_record share.old.caller (arc_value key.now) (ProbeAnswer true) ∷ [])) }
        ensures none { IfOk result (λ r. IfNone r ((share.new ≡ share.old)
            × (self.new.core.journal ≡ self.old.core.journal))) }
        ensures err { OnErr result ((share.new ≡ share.old)
            × (self.new.core.journal ≡ self.old.core.journal)) }
    {
        let BookedMemo {
            core,
            hits,
            misses: _,
            kept: _,
            heavy: _,
        } = self;
        core.room(alloc)?;
        match core.hit(share.caller, key)? {
            Some(value) => {
                hits.add(&mut share.hits, 1);
                Ok(Some(value))
            }
            None => Ok(None),
        }
    }

    /// A fill that is booked, also where memory runs out. Where it does not, the fill stands in the journal
    /// as the caller's of the share.
    #[tactic(auto, using(crate::proofs::Counts::hits_more, crate::proofs::Counts::misses_more, crate::proofs::Counts::kept_more, crate::proofs::Counts::heavy_more, crate::proofs::Counts::callers_more, crate::proofs::Counts::allowed_more))]
    pub fn fill(
        &mut self,
        alloc: Global,
        share: &mut Share<B>,
        key: &Arc<F::Key>,
        value: Arc<F::Value>,
        weight: u64,
    ) -> Fill
        requires parts { 0 < share.old.parts }
        requires allowed { B.may_ask share.old.caller (arc_value key.now) }
        requires fits { F.fits (arc_value key.now) (arc_value value) }
        requires weight { weight ≡ F.weighs (arc_value value) }
        ensures booked { share.new ≡ share_after_fill result share.old }
        ensures journal { IsFilled share.old.caller (arc_value key.now) weight result
            self.old.core.journal self.new.core.journal }
    {
        let BookedMemo {
            core,
            hits: _,
            misses: _,
            kept,
            heavy,
        } = self;
        let answer = match core.room(alloc) {
            Ok(()) => core.fill(alloc, share.caller, key, value, weight),
            Err(_) => Fill::NoMemory,
        };
        match answer {
            Fill::Kept => kept.add(&mut share.kept, 1),
            Fill::TooHeavy => heavy.add(&mut share.heavy, 1),
            Fill::NoMemory => share.dropped = dropped_sum(share.dropped, 1),
        }
        answer
    }

    /// What fills dropped, to be freed where the lock is not held.
    pub fn take_dropped(&mut self, alloc: Global) -> DroppedEntries<F::Key, F::Value> {
        self.core.take_dropped(alloc)
    }
}
