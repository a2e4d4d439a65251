//! Claims that their callers hold.

ghost use Rattle.std.specs.Prelude.{◌≡◌};
ghost use Rattle.std.specs.Arc.{arc_value};

use crate::claims::Ticket;
use crate::ledgers::FlightBooks;
use std::marker::Model;
use std::sync::ledger::Share as Part;
use std::sync::{Arc, Condvar};
use subtree_memo::Share;

/// A claim of one's own, which is to be spent: it is not dropped, and only `finish` and `give_back` take it. It takes along its
/// caller's share of the books, so that the caller can claim no second key, and its books have it as one that is held.
pub struct Claim<K, B: FlightBooks> {
    pub(crate) ticket: Ticket<K>,
    pub(crate) share: Share<B>,
    pub(crate) begun: Part<B::Begun>,
    pub(crate) held: Part<B::Held>,
    /// Tells the claim's end to those who wait for it.
    pub(crate) signal: Arc<Condvar>,
}

impl<K, B: FlightBooks> Model for Claim<K, B> {
    ghost use Rattle.std.specs.Prelude.{◌≡◌, ◌<◌};
    ghost use Rattle.std.specs.Arc.{arc_value};
    ghost use Rattle.flight_memo.specs.Claims.{ClaimView};

    ghost Value = { ClaimView K };

    ghost view = { λ c. record {
      number = c.ticket.number;
      key = arc_value c.ticket.key;
      share = c.share;
    } };

    ghost invariant = { λ c. (0 < c.share.parts) × (c.begun.parts ≡ c.share.parts)
        × (c.held.parts ≡ c.share.parts)
        × (c.begun.amount ≡ c.share.misses) × (c.held.amount ≡ 1) };
}
