//! The desk behind the memo's lock of claims: whether a key gets a new claim or waits for a live one.

ghost use Rattle.std.specs.Prelude.{◌≡◌, ◌<◌, ◌++◌, ◌∷◌, [], length, IfOk, OnErr};
ghost use Rattle.std.specs.Arc.{arc_value};
ghost use Rattle.flight_memo.specs.Claims.{Ended, begin_count, number_to_end};
ghost use Rattle.flight_memo.specs.Asking.{IsAsked};

use crate::claim::Claim;
use crate::claims::{Claims, Copies};
use crate::flight::Claimed;
use crate::flight_share::FlightShare;
use crate::ledgers::FlightBooks;
use memo_core::{Fit, Namer, Probe};
use plain_text::NoMemory;
use std::alloc::Global;
use std::mem;
use std::sync::ledger::{Book, Ledger, Share as Part};
use std::sync::{Arc, Condvar, Wait};
use subtree_memo::{AskPolicy, Memo};

/// What comes of asking for a key once.
pub enum Asking<K, V, B: FlightBooks> {
    Answer(Claimed<K, V, B>),
    /// A live claim has the key, and this tells its end.
    Wait(Arc<Condvar>),
}

/// The claims of a memo, and beside them books of how many began, and of how many are live: just as many are held.
#[derive(Drop)]
pub struct Desk<F: Fit, B: FlightBooks> {
    pub claims: Claims<F>,
    pub begun: Book<B::Begun>,
    pub held: Book<B::Held>,
    pub ghost begun_are: { begun.total ≡ begin_count claims.log },
    pub ghost held_are: { held.total ≡ length claims.live },
}

impl<F: Fit, B: FlightBooks + AskPolicy<F::Key>> Desk<F, B> {
    /// Asks the memo for a key that no live claim has, and claims it where it is missed. Where a live claim has the key, its
    /// end is to be waited for. NoMemory books and claims nothing.
    pub fn try_claim<N: Namer<F::Key>, R: Wait>(
        &mut self,
        rt: &R,
        alloc: Global,
        memo: &Memo<F, N, B>,
        share: &mut FlightShare<B>,
        key: &Arc<F::Key>,
    ) -> Result<Asking<F::Key, F::Value, B>, NoMemory>
        requires parts { 0 < share.old.share.parts }
        requires allowed { B.may_ask share.old.share.caller (arc_value key.now) }
        ensures asked { IfOk result (IsAsked F.fits (arc_value key.now) share.old share.new
            self.old.claims self.new.claims) }
        ensures err { OnErr result ((share.new ≡ share.old)
            × (self.new.claims.log ≡ self.old.claims.log)) }
    {
        if let Some(ended) = self.claims.end_of(&**key)? {
            return Ok(Asking::Wait(ended));
        }
        self.claims.room()?;
        let copies = Copies::of(key)?;
        let signal = Arc::new(alloc, Condvar::new())?;
        let told = Arc::try_clone(&signal)?;
        match memo.probe(rt, alloc, &mut share.share, key)? {
            Probe::Hit(value) => Ok(Asking::Answer(Claimed::Value(value))),
            Probe::Miss => {
                let ticket = self.claims.begin(share.share.caller(), copies, told);
                self.begun.add(&mut share.begun, 1);
                self.held.add(&mut share.held, 1);
                Ok(Asking::Answer(Claimed::Mine(Claim {
                    ticket,
                    share: share.share.take(),
                    begun: taken(&mut share.begun),
                    held: taken(&mut share.held),
                    signal,
                })))
            }
        }
    }

    /// Ends a claim: one end is in the log then, of this claim where it is live. Gives the share back that the claim took along, and
    /// by what the end is to be told.
    pub fn end(&mut self, claim: Claim<F::Key, B>, filled: bool) -> (FlightShare<B>, Arc<Condvar>)
        ensures log { self.new.claims.log ≡ self.old.claims.log
            ++ Ended (number_to_end claim.number self.old.claims.live) filled ∷ [] }
        ensures share { result.0.share ≡ claim.share }
    {
        let Claim {
            ticket,
            share,
            begun,
            mut held,
            signal,
        } = claim;
        // As many claims are live as are held, so one is.
        self.held.audit(&mut held);
        self.claims.end(ticket, filled);
        self.held.sub(&mut held, 1);
        let own = FlightShare { share, begun, held };
        (own, signal)
    }
}

// The whole of a part of a ledger. What is left is empty.
fn taken<L: Ledger>(part: &mut Part<L>) -> Part<L>
    ensures whole { (result.parts ≡ part.old.parts) × (result.amount ≡ part.old.amount) }
    ensures rest { (part.new.parts ≡ 0) × (part.new.amount ≡ 0) }
{
    let empty = part.empty();
    mem::replace(part, empty)
}
