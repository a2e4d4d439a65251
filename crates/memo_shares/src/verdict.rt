//! The judge of journals: whether a sequential memo could have written one.

ghost use Rattle.std.specs.Prelude.{◌≡◌, ◌<◌, ◌^◌, [], length, IfOk};
ghost use Rattle.memo_core.specs.Memo.{owner_weight, KeepsShares};
ghost use Rattle.memo_core.specs.Views.{header_in};
ghost use Rattle.memo_core.specs.Fields.{records_of};
ghost use Rattle.memo_shares.specs.Verdicts.{AreWeights, IsVerdict};

use crate::again::repeats;
use crate::by_weight::{ByName, ByWeight};
use memo_core::{Fit, JournalItem, MemoCore, Namer};
use plain_text::NoMemory;
use std::alloc::Global;

/// Whether a journal is one of the sequential memo.
#[derive(Clone, Copy, PartialEq, Eq)]
pub enum JournalVerdict {
    /// Each item says what the sequential memo says there.
    Legal,
    /// The number, from 0, of the first item that says something else.
    Differs(u32),
}

/// The sum of the weights of a caller's entries.
pub fn owned<F: Fit, N: Namer<F::Key>>(core: &MemoCore<F, N>, caller: u32) -> u64
    ensures { result ≡ owner_weight header_in caller core.now.entries }
{
    core.weight_of(caller)
}

/// Does the calls of a journal once more, on a memo of this budget and share that is empty at first, and
/// compares what they say. With a share above 0, at each item of a legal journal the entries of
/// another caller that weigh at most the share together all stand after it.
pub fn check_journal<F: Fit, N: Namer<F::Key>>(
    alloc: Global,
    fit: &F,
    namer: &N,
    budget: u64,
    share: u64,
    items: &[JournalItem<F::Key>],
) -> Result<JournalVerdict, NoMemory>
    requires { length items.now < 2 ^ 32 }
    ensures verdict { IfOk result (IsVerdict F.same_key N.name_of budget share
        (records_of items.now)) }
    ensures shares { IfOk result (λ v. v ≡ JournalVerdict.Legal → 0 < share →
        KeepsShares F.same_key N.name_of budget share [] (records_of items.now)) }
{
    let core = MemoCore::new(alloc, ByWeight { fit }, ByName { namer }, budget, share)?;
    compare(alloc, core, items)
}

// Does the calls of a journal once more, on a memo that is empty at first.
fn compare<F: Fit<Value = u64>, N: Namer<F::Key>>(
    alloc: Global,
    core: MemoCore<F, N>,
    items: &[JournalItem<F::Key>],
) -> Result<JournalVerdict, NoMemory>
    requires few { length items.now < 2 ^ 32 }
    requires weights { AreWeights F.fits F.weighs }
    requires begun { core.journal ≡ [] }
    ensures verdict { IfOk result (IsVerdict F.same_key N.name_of core.budget core.share
        (records_of items.now)) }
    ensures shares { IfOk result (λ v. v ≡ JournalVerdict.Legal → 0 < core.share →
        KeepsShares F.same_key N.name_of core.budget core.share [] (records_of items.now)) }
{
    let mut core = core;
    for (number, noted) in items.iter().enumerate() {
        let _before = core.journal();
        if !repeats(alloc, &mut core, noted)? {
            return Ok(JournalVerdict::Differs(number as u32));
        }
    }
    let _journal = core.journal();
    Ok(JournalVerdict::Legal)
}
