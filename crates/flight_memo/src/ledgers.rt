//! The ledgers on which claims are booked beside the memo's own, packed into one type.

ghost use Rattle.std.specs.Prelude.{◌≡◌, ◌*◌, ◌≤◌};
ghost use Rattle.subtree_memo.specs.Shares.{parts_each};

use std::marker::PhantomData;
use std::sync::ledger::{Blank, Ledger};
use subtree_memo::{AskPolicy, Blanks, Books, MemoLedger};

/// Into how many parts the books are cut for each caller.
pub const PARTS_EACH: u64 = 128;

/// The ledgers of a memo's books and of its claims, one type for all of them.
pub trait FlightBooks: Books {
    /// Of claims that began.
    type Begun: Ledger;

    /// Of claims that are held.
    type Held: Ledger;
}

/// Books whose ledgers threads may share.
pub trait ThreadBooks: Books<
    Hits: Send + Sync,
    Misses: Send + Sync,
    Kept: Send + Sync,
    Heavy: Send + Sync,
>
    + FlightBooks<Begun: Send + Sync, Held: Send + Sync>
    + Send
    + Sync {}

/// The books of these six ledgers, the last two of claims. Only who opens a memo knows the ledgers one by one.
pub struct FlightLedgers<H, M, K, E, Begins, Holds> {
    of: PhantomData<(H, M, K, E, Begins, Holds)>,
}

impl<H: MemoLedger, M: Ledger, K: Ledger, E: Ledger, Begins: Ledger, Holds: Ledger> Books
    for FlightLedgers<H, M, K, E, Begins, Holds> {
    type Hits = H;

    type Misses = M;

    type Kept = K;

    type Heavy = E;
}

impl<H: MemoLedger, M: Ledger, K: Ledger, E: Ledger, Begins: Ledger, Holds: Ledger> FlightBooks
    for FlightLedgers<H, M, K, E, Begins, Holds> {
    type Begun = Begins;

    type Held = Holds;
}

impl<
    H: MemoLedger + Send + Sync,
    M: Ledger + Send + Sync,
    K: Ledger + Send + Sync,
    E: Ledger + Send + Sync,
    Begins: Ledger + Send + Sync,
    Holds: Ledger + Send + Sync,
> ThreadBooks for FlightLedgers<H, M, K, E, Begins, Holds> {}

impl<
    Key,
    H: MemoLedger + AskPolicy<Key>,
    M: Ledger,
    K: Ledger,
    E: Ledger,
    Begins: Ledger,
    Holds: Ledger,
> AskPolicy<Key> for FlightLedgers<H, M, K, E, Begins, Holds> {
    ghost may_ask = { H.may_ask };
}

/// A fresh pair of the ledgers of claims, which no type stands for yet: each has 128 parts for each of 1 to 64 callers.
#[derive(Drop)]
pub struct FlightBlanks {
    pub callers: u32,
    pub begun: Blank,
    pub held: Blank,
    pub ghost some: { (1 ≤ callers) × (callers ≤ 64) },
    pub ghost cut: { (begun.parts ≡ parts_each * callers) × (held.parts ≡ parts_each * callers) },
}

impl FlightBlanks {
    /// Ledgers of claims for as many callers as those of a memo are for.
    pub fn beside(blanks: &Blanks) -> FlightBlanks
        ensures { result.callers ≡ blanks.now.callers }
    {
        let callers = blanks.callers;
        let parts = PARTS_EACH * u64::from(callers);
        FlightBlanks {
            callers,
            begun: Blank::new(parts),
            held: Blank::new(parts),
        }
    }
}
