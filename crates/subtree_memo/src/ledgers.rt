//! The ledgers on which a memo's hits, misses and fills are booked, packed into one type.

ghost use Rattle.std.specs.Prelude.{◌≡◌, ◌*◌, ◌≤◌, ℕ};
ghost use Rattle.subtree_memo.specs.Shares.{parts_each};

use std::marker::{Brand, PhantomData};
use std::sync::ledger::{Blank, Ledger};

/// Into how many parts the books are cut for each caller.
pub const PARTS_EACH: u64 = 128;

/// The ledger of a memo's hits, which also says what the memo keeps to. Each call of a program that
/// opens a memo picks it, so that its budget and its callers are known of the memo behind the lock.
pub trait MemoLedger: Ledger {
    ghost budget: { ℕ };

    ghost share: { ℕ };

    /// How many callers the memo has, which are numbered from 0.
    ghost callers: { ℕ };
}

impl MemoLedger for Brand {
    ghost budget = { 0 };

    ghost share = { 0 };

    ghost callers = { 0 };
}

/// Who may ask a memo for which keys. Each call of a program that opens a memo picks it: each item of the journal behind the
/// lock is then of a caller who may ask for its key.
pub trait AskPolicy<K> {
    ghost may_ask: { ℕ → K → Type 0 };
}

impl<K> AskPolicy<K> for Brand {
    ghost may_ask = { λ caller key. Unit {0} };
}

/// The ledgers of a memo's books, one type for all of them.
pub trait Books {
    /// Of probes that were hits.
    type Hits: MemoLedger;

    /// Of probes that were misses.
    type Misses: Ledger;

    /// Of fills that were kept.
    type Kept: Ledger;

    /// Of fills that were too heavy.
    type Heavy: Ledger;
}

/// The books of these four ledgers. Only who opens a memo knows the ledgers one by one.
pub struct Ledgers<H, M, K, E> {
    of: PhantomData<(H, M, K, E)>,
}

impl<H: MemoLedger, M: Ledger, K: Ledger, E: Ledger> Books for Ledgers<H, M, K, E> {
    type Hits = H;

    type Misses = M;

    type Kept = K;

    type Heavy = E;
}

impl<Key, H: MemoLedger + AskPolicy<Key>, M: Ledger, K: Ledger, E: Ledger> AskPolicy<Key>
    for Ledgers<H, M, K, E> {
    ghost may_ask = { H.may_ask };
}

/// A fresh set of a memo's ledgers, which no type stands for yet: each has 128 parts for each of 1 to 64
/// callers.
#[derive(Drop)]
pub struct Blanks {
    pub callers: u32,
    pub hits: Blank,
    pub misses: Blank,
    pub kept: Blank,
    pub heavy: Blank,
    pub ghost some: { (1 ≤ callers) × (callers ≤ 64) },
    pub ghost cut: { (hits.parts ≡ parts_each * callers) × (misses.parts ≡ parts_each * callers)
        × (kept.parts ≡ parts_each * callers) × (heavy.parts ≡ parts_each * callers) },
}

impl Blanks {
    /// The ledgers for the given number of callers.
    pub fn new(callers: u32) -> Blanks
        requires { (1 ≤ callers) × (callers ≤ 64) }
        ensures { result.callers ≡ callers }
    {
        let parts = PARTS_EACH * u64::from(callers);
        Blanks {
            callers,
            hits: Blank::new(parts),
            misses: Blank::new(parts),
            kept: Blank::new(parts),
            heavy: Blank::new(parts),
        }
    }
}
