//! Repeats one call of a journal on a memo, and tells whether it has the same outcome.

ghost use Rattle.std.specs.Prelude.{◌≡◌, ◌≢◌, [], ◌∷◌, ◌++◌, true, false, IfOk, OnOk};
ghost use Rattle.std.specs.Arc.{arc_value};
ghost use Rattle.memo_core.specs.Memo.{Answer, journal_record, memo_answer, replay};
ghost use Rattle.memo_core.specs.Fields.{answer_of, record_of_item};
ghost use Rattle.memo_shares.specs.Verdicts.{AreWeights, IsSameCall};

use memo_core::{Did, Fill, Fit, JournalItem, MemoCore, Namer};
use plain_text::NoMemory;
use std::alloc::Global;
use std::sync::Arc;

/// Does the call of an item once more. Answers whether it says what the item says.
pub fn repeats<F: Fit<Value = u64>, N: Namer<F::Key>>(
    alloc: Global,
    core: &mut MemoCore<F, N>,
    noted: &JournalItem<F::Key>,
) -> Result<bool, NoMemory>
    requires { AreWeights F.fits F.weighs }
    ensures same { IfOk result (λ b. b ≡ true → core.new.journal ≡
        core.old.journal ++ record_of_item noted.now ∷ []) }
    ensures other { IfOk result (λ b. b ≡ false → answer_of noted.now.did ≢
        memo_answer F.same_key N.name_of core.old.budget core.old.share noted.now.caller
        (arc_value noted.now.key) (answer_of noted.now.did)
        (replay F.same_key N.name_of core.old.budget core.old.share [] core.old.journal)) }
    ensures budget { OnOk result (core.new.budget ≡ core.old.budget) }
    ensures share { OnOk result (core.new.share ≡ core.old.share) }
{
    call(alloc, core, noted)?;
    let Some(last) = core.journal().last() else {
        return Ok(false);
    };
    Ok(says_same(last.did, noted.did))
}

// Does the call of an item once more.
fn call<F: Fit<Value = u64>, N: Namer<F::Key>>(
    alloc: Global,
    core: &mut MemoCore<F, N>,
    noted: &JournalItem<F::Key>,
) -> Result<(), NoMemory>
    requires { AreWeights F.fits F.weighs }
    ensures journal { OnOk result ((said : Answer) × (core.new.journal ≡
        core.old.journal ++ journal_record noted.now.caller (arc_value noted.now.key) said ∷ [])
        × IsSameCall said (answer_of noted.now.did)) }
    ensures budget { OnOk result (core.new.budget ≡ core.old.budget) }
    ensures share { OnOk result (core.new.share ≡ core.old.share) }
{
    core.room(alloc)?;
    match noted.did {
        Did::Probed { hit: _ } => {
            core.probe(noted.caller, &noted.key)?;
            Ok(())
        }
        Did::Filled {
            weight,
            kept: _,
            evicted: _,
        } => {
            let value = Arc::new(alloc, weight)?;
            let answer = core.fill(alloc, noted.caller, &noted.key, value, weight);
            let _dropped = core.take_dropped(alloc);
            match answer {
                Fill::NoMemory => Err(NoMemory),
                Fill::Kept | Fill::TooHeavy => Ok(()),
            }
        }
    }
}

// Whether two calls said the same.
fn says_same(a: Did, b: Did) -> bool
    ensures same { result ≡ true → answer_of a ≡ answer_of b }
    ensures other { result ≡ false → answer_of a ≢ answer_of b }
{
    a == b
}
