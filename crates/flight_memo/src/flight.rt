//! Single flight: a missing key is built by the one caller that claims it, while the others wait for that claim.

ghost use Rattle.std.specs.Prelude.{◌≡◌, ◌<◌, All, map, sum_by, IfOk, OnErr};
ghost use Rattle.std.specs.Arc.{arc_value};
ghost use Rattle.memo_core.specs.Views.{IsSound};
ghost use Rattle.subtree_memo.specs.Shares.{IsBlankLedger, opened_shares, joined_share, share_after_fill};
ghost use Rattle.subtree_memo.specs.Tallies.{tally_of, AreSums};
ghost use Rattle.subtree_memo.specs.Allowed.{AreAllowed};
ghost use Rattle.flight_memo.specs.Claims.{AreClosedClaims};
ghost use Rattle.flight_memo.specs.Shares.{opened_flights};
ghost use Rattle.flight_memo.specs.Answers.{IsClaimed};

use crate::claim::Claim;
use crate::claims::Claims;
use crate::desk::{Asking, Desk};
use crate::flight_share::{FlightShare, all_flights, flights_of};
use crate::ledgers::{FlightBlanks, FlightBooks};
use memo_core::{Fill, Fit, MemoCore, Namer};
use plain_text::NoMemory;
use std::alloc::Global;
use std::sync::{Arc, Mutex, Wait};
use subtree_memo::{AskPolicy, Memo, Share, Tally};

/// The answer to a claim: the value, which the memo held, or a claim of one's own.
pub enum Claimed<K, V, B: FlightBooks> {
    Value(Arc<V>),
    Mine(Claim<K, B>),
}

/// A memo whose missing keys are claimed. Whenever its lock is free, the log of the claims is legal: so no key has two live
/// claims.
#[derive(Drop)]
pub struct Flight<F: Fit, N: Namer<F::Key>, B: FlightBooks + AskPolicy<F::Key>> {
    memo: Memo<F, N, B>,
    desk: Mutex<Desk<F, B>>,
}

impl<F: Fit, N: Namer<F::Key>, B: FlightBooks + AskPolicy<F::Key>> Flight<F, N, B> {
    /// A memo with no claims yet, and its shares in their order, each with a share of the books of claims beside it. The shares
    /// given are all of this memo's, and nothing is booked on any of them; the blanks are for as many callers as the memo has.
    pub fn open(
        alloc: Global,
        fit: F,
        memo: Memo<F, N, B>,
        shares: Vec<Share<B>>,
        blanks: FlightBlanks,
    ) -> Result<(Flight<F, N, B>, Vec<FlightShare<B>>), NoMemory>
        requires shares { shares.items ≡ opened_shares blanks.callers }
        requires callers { blanks.callers ≡ B.Hits.callers }
        requires ledgers { IsBlankLedger B.Begun.name B.Begun.parts blanks.begun
            × IsBlankLedger B.Held.name B.Held.parts blanks.held }
        ensures { IfOk result (λ r. r.1.items ≡ opened_flights shares.items) }
    {
        let (begun, begun_parts) = blanks.begun.open::<B::Begun>();
        let (held, held_parts) = blanks.held.open::<B::Held>();
        let flights = flights_of(alloc, shares, begun_parts, held_parts)?;
        let desk = Desk {
            claims: Claims::new(alloc, fit),
            begun,
            held,
        };
        let flight = Flight {
            memo,
            desk: Mutex::new(desk),
        };
        Ok((flight, flights))
    }

    /// Asks for a key by one probe. What the memo holds is a hit, for which the claims' lock is not taken. Else the probe comes
    /// once no live claim has the key, while none has and the claims' lock is held: the value where it was a hit, and where it
    /// was a miss a claim of the key, which is one beginning in the log. It may wait, for the end of a claim of this very key.
    /// NoMemory books and claims nothing.
    pub fn claim<R: Wait>(
        &self,
        rt: &R,
        alloc: Global,
        share: &mut FlightShare<B>,
        key: &Arc<F::Key>,
    ) -> Result<Claimed<F::Key, F::Value, B>, NoMemory>
        requires parts { 0 < share.old.share.parts }
        requires allowed { B.may_ask share.old.share.caller (arc_value key.now) }
        ensures claimed { IfOk result (IsClaimed F.fits (arc_value key.now) share.old share.new) }
        ensures err { OnErr result (share.new ≡ share.old) }
    {
        for _ in rt.forever() {
            if let Some(value) = self.memo.hit(rt, alloc, &mut share.share, key)? {
                return Ok(Claimed::Value(value));
            }
            let mut desk = self.desk.lock(rt);
            match desk.try_claim(rt, alloc, &self.memo, share, key)? {
                Asking::Answer(claimed) => return Ok(claimed),
                Asking::Wait(ended) => drop(ended.wait(rt, desk)),
            }
        }
        unreachable!()
    }

    /// Fills the key of a claim, as `Memo::fill`, and then ends the claim. The caller has its share back then, on which the
    /// fill and the end are booked. Wakes who waits for this key.
    pub fn finish<R: Wait>(
        &self,
        rt: &R,
        alloc: Global,
        share: &mut FlightShare<B>,
        mut claim: Claim<F::Key, B>,
        value: Arc<F::Value>,
        weight: u64,
    ) -> Fill
        requires caller { claim.share.caller ≡ share.old.share.caller }
        requires allowed { B.may_ask claim.share.caller claim.key }
        requires fits { F.fits claim.key (arc_value value) }
        requires weight { weight ≡ F.weighs (arc_value value) }
        ensures { share.new.share ≡ joined_share share.old.share
            (share_after_fill result claim.share) }
    {
        let key = claim.ticket.key();
        let answer = self
            .memo
            .fill(rt, alloc, &mut claim.share, key, value, weight);
        let (own, ended) = self.desk.lock(rt).end(claim, true);
        ended.notify_all();
        share.absorb(own);
        answer
    }

    /// Ends a claim without a fill. The caller has its share back then, on which the end is booked. Wakes who waits for this
    /// key. Takes no memory: the log has had room for this end since the claim began. That waiters are woken is shown by cases
    /// alone.
    pub fn give_back<R: Wait>(&self, rt: &R, share: &mut FlightShare<B>, claim: Claim<F::Key, B>)
        requires { claim.share.caller ≡ share.old.share.caller }
        ensures { share.new.share ≡ joined_share share.old.share claim.share }
    {
        let (own, ended) = self.desk.lock(rt).end(claim, false);
        ended.notify_all();
        share.absorb(own);
    }

    /// The memo, its tally and the claims, once all shares are back. The tally is that of the memo's journal, and what was
    /// booked on the shares. The log of the claims is legal, so that no key ever had two live claims; it has as many beginnings
    /// as there were misses, and as many ends, so that no claim is live. Each caller of the journal might ask for the key of
    /// its item.
    pub fn close(self, shares: Vec<FlightShare<B>>) -> (Tally, MemoCore<F, N>, Claims<F>)
        requires whole { (0 < B.Hits.parts)
            × (sum_by (λ s. s.share.parts) shares.items ≡ B.Hits.parts) }
        requires ledgers { (B.Misses.parts ≡ B.Hits.parts) × (B.Kept.parts ≡ B.Hits.parts)
            × (B.Heavy.parts ≡ B.Hits.parts)
            × (B.Begun.parts ≡ B.Hits.parts) × (B.Held.parts ≡ B.Hits.parts) }
        ensures tally { result.0 ≡ tally_of result.1.journal result.0.dropped }
        ensures booked { AreSums (map (λ s. s.share) shares.items) result.0 }
        ensures claims { AreClosedClaims result.0.misses result.2 }
        ensures sound { IsSound F.same_key N.name_of F.fits F.weighs result.1 }
        ensures limits { (result.1.budget ≡ B.Hits.budget) × (result.1.share ≡ B.Hits.share) }
        ensures callers { All (λ i. i.caller < B.Hits.callers) result.1.journal
            × ∥ AreAllowed B.may_ask result.1.journal ∥₁ }
    {
        let Flight { memo, desk } = self;
        let Desk {
            claims,
            mut begun,
            mut held,
        } = desk.into_inner();
        let Some(all) = all_flights(shares) else {
            unreachable!()
        };
        let FlightShare {
            share,
            begun: mut begun_parts,
            held: mut held_parts,
        } = all;
        begun.audit(&mut begun_parts);
        held.audit(&mut held_parts);
        // Its type says what a log of claims keeps, and which of them are live.
        let _log = claims.log();
        let (tally, core) = memo.close_whole(share);
        (tally, core, claims)
    }
}
