//! What one caller has booked: probes, fills, and claims that began and ended.

ghost use Rattle.std.specs.Prelude.{◌≡◌, ◌-◌, ◌*◌, ◌≤◌, [], length, IfOk, IfSome, IfNone};
ghost use Rattle.subtree_memo.specs.Shares.{opened_shares, parts_each};
ghost use Rattle.flight_memo.specs.Shares.{fresh_flight, joined_flights, opened_flights, IsAllOf};

use crate::ledgers::{FlightBooks, PARTS_EACH};
use plain_text::NoMemory;
use std::alloc::Global;
use std::marker::Model;
use std::sync::ledger::Share as Part;
use subtree_memo::Share;

/// One caller's share of the books of a memo and of its claims: as many claims began on it as there were misses, and none is
/// held on it.
#[derive(Drop)]
pub struct FlightShare<B: FlightBooks> {
    pub(crate) share: Share<B>,
    pub(crate) begun: Part<B::Begun>,
    pub(crate) held: Part<B::Held>,
}

impl<B: FlightBooks> Model for FlightShare<B> {
    ghost use Rattle.std.specs.Prelude.{◌≡◌};
    ghost use Rattle.flight_memo.specs.Shares.{FlightView};

    ghost Value = { FlightView };

    ghost view = { λ s. record { share = s.share } };

    ghost invariant = { λ s. (s.begun.parts ≡ s.share.parts) × (s.held.parts ≡ s.share.parts)
        × (s.begun.amount ≡ s.share.misses) × (s.held.amount ≡ 0) };
}

impl<B: FlightBooks> FlightShare<B> {
    /// The caller's number.
    pub fn caller(&self) -> u32
        ensures { result ≡ self.now.share.caller }
    {
        self.share.caller()
    }

    /// A share of the same caller with one of the parts, and nothing booked.
    pub fn split(&mut self) -> FlightShare<B>
        requires { 2 ≤ self.old.share.parts }
        ensures new { result ≡ fresh_flight self.old.share.caller 1 }
        ensures rest { self.new ≡ record {
          share = record self.old.share { parts = self.old.share.parts - 1 };
        } }
    {
        FlightShare {
            share: self.share.split(),
            begun: self.begun.split_off(1, 0),
            held: self.held.split_off(1, 0),
        }
    }

    /// Adds the parts and numbers of a share of the same caller.
    pub fn absorb(&mut self, other: FlightShare<B>)
        requires { other.share.caller ≡ self.old.share.caller }
        ensures { self.new ≡ joined_flights self.old other }
    {
        self.put_together(other)
    }

    // Adds the parts and numbers of a share, also of another caller.
    fn put_together(&mut self, other: FlightShare<B>)
        ensures { self.new ≡ joined_flights self.old other }
    {
        let FlightShare { share, begun, held } = other;
        self.share.put_together(share);
        self.begun.merge(begun);
        self.held.merge(held);
    }
}

/// Shares of a memo with those of its claims, for each caller as many parts of either. Nothing is booked on any.
pub fn flights_of<B: FlightBooks>(
    alloc: Global,
    shares: Vec<Share<B>>,
    mut begun: Part<B::Begun>,
    mut held: Part<B::Held>,
) -> Result<Vec<FlightShare<B>>, NoMemory>
    requires shares { shares.items ≡ opened_shares (length shares.items) }
    requires begun { (begun.parts ≡ parts_each * length shares.items) × (begun.amount ≡ 0) }
    requires held { (held.parts ≡ parts_each * length shares.items) × (held.amount ≡ 0) }
    ensures { IfOk result (λ v. v.items ≡ opened_flights shares.items) }
{
    let mut flights = Vec::with_capacity(alloc, shares.len())?;
    for share in shares {
        flights.push_reserved(FlightShare {
            share,
            begun: begun.split_off(PARTS_EACH, 0),
            held: held.split_off(PARTS_EACH, 0),
        });
    }
    Ok(flights)
}

/// All shares put together, or none where there are none.
pub fn all_flights<B: FlightBooks>(mut flights: Vec<FlightShare<B>>) -> Option<FlightShare<B>>
    ensures all { IfSome result (λ s. IsAllOf flights.items s) }
    ensures none { IfNone result (flights.items ≡ []) }
{
    let mut all = flights.pop()?;
    while let Some(flight) = flights.pop() {
        all.put_together(flight);
    }
    Some(all)
}
