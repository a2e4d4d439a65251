//! The journal of a memo: one item for each call, with who called, the key and what came of it.

ghost use Rattle.std.specs.Prelude.{◌≡◌, ℕ, ◌+◌, List, [], ◌∷◌, ◌++◌, is_some};
ghost use Rattle.std.specs.Option.{unwrap_or};
ghost use Rattle.std.specs.Arc.{arc_value};
ghost use Rattle.memo_core.specs.Memo.{JournalRecord, Answer, journal_record, ProbeAnswer, FillAnswer, count_in};
ghost use Rattle.memo_core.specs.Fields.{record_of_item};

use std::sync::Arc;

/// What one call of a memo did.
#[derive(Clone, Copy, PartialEq, Eq)]
pub enum Did {
    /// A probe: whether it was a hit.
    Probed {
        hit: bool,
    },
    /// A fill: the weight that was offered, whether it was kept, and how many entries were dropped.
    Filled {
        weight: u64,
        kept: bool,
        evicted: u32,
    },
}

/// One call of a memo: whose it was, of which key, and what it did.
#[derive(Drop)]
pub struct JournalItem<K> {
    pub caller: u32,
    pub key: Arc<K>,
    pub did: Did,
}

/// The journal's record of a probe.
pub fn probe_item<K>(caller: u32, key: Arc<K>, hit: bool) -> JournalItem<K>
    ensures { record_of_item result ≡ journal_record caller (arc_value key) (ProbeAnswer hit) }
{
    let did = Did::Probed { hit };
    JournalItem { caller, key, did }
}

/// The journal's record of a fill that was kept and dropped the given number of entries, or was not kept.
pub fn fill_item<K>(caller: u32, key: Arc<K>, weight: u64, offered: Option<u32>) -> JournalItem<K>
    ensures { record_of_item result ≡ journal_record caller (arc_value key)
        (FillAnswer weight (is_some offered) (unwrap_or offered 0)) }
{
    let did = Did::Filled {
        weight,
        kept: offered.is_some(),
        evicted: offered.unwrap_or(0),
    };
    JournalItem { caller, key, did }
}

/// Every count over a journal, whatever it counts by, grows with one record more by what that
/// record counts.
#[tactic(auto, using(crate::proofs::Journals::count_more))]
pub fn counts_one_more<K: Drop>()
    ensures { (by : Answer → ℕ) → (items : List (JournalRecord K)) → (more : JournalRecord K) →
        count_in by (items ++ more ∷ []) ≡ count_in by items + by more.answer }
{}
