//! Work on two slices, index by index, for which threads may be started: each index is worked on once.
#![tactic(auto)]

ghost use Rattle.std.specs.Prelude.{◌<◌, length};
ghost use Rattle.std.specs.Thread.{IsSend, IsSync};
ghost use Rattle.parallel_zip.specs.Pairs.{EachReady, EachWorked};

use std::thread::{Threads, join_mut};

/// What is done at one place of two slices.
pub trait PairWork<A, B> {
    /// What the work needs of both elements.
    ghost ready: { Self → A → B → Type 0 };

    /// What it does to both elements, by what they were and what they are then.
    ghost worked: { Self → A → B → A → B → Type 0 };

    fn work(&self, first: &mut A, second: &mut B)
        requires { ready self.now first.old second.old }
        ensures { worked self.now first.old second.old first.new second.new };
}

/// Does the work at each place of two slices that are equally long. The halves are worked on at the same
/// time where a thread can be made, and else one after another.
#[cycle(halves)]
pub fn work_each<R: Threads + Sync, W: PairWork<A, B> + Sync, A: Send, B: Send>(
    rt: &R,
    how: &W,
    first: &mut [A],
    second: &mut [B],
)
    requires { EachReady (W.ready how.now) first.old second.old }
    ensures { EachWorked (W.worked how.now) first.old second.old first.new second.new }
{
    let count = first.len();
    if count == 0 {
        return;
    }
    if count == 1 {
        how.work(&mut first[0], &mut second[0]);
        return;
    }
    let (low, high) = first.split_at_mut(count / 2);
    let (left, right) = second.split_at_mut(count / 2);
    both_halves(rt, how, low, left, high, right);
}

// Does the work at each place of both halves.
#[cycle(halves)]
fn both_halves<R: Threads + Sync, W: PairWork<A, B> + Sync, A: Send, B: Send>(
    rt: &R,
    how: &W,
    low: &mut [A],
    left: &mut [B],
    high: &mut [A],
    right: &mut [B],
)
    requires some { (0 < length low.old) × (0 < length high.old) }
    requires front { EachReady (W.ready how.now) low.old left.old }
    requires back { EachReady (W.ready how.now) high.old right.old }
    ensures front { EachWorked (W.worked how.now) low.old left.old low.new left.new }
    ensures back { EachWorked (W.worked how.now) high.old right.old high.new right.new }
{
    let mut front = ||
        requires { IsSync R.row × IsSync W.row × IsSend A.row × IsSend B.row
            × EachReady (W.ready how.now) low.now left.now }
        ensures { EachWorked (W.worked how.entry.now) low.entry.now left.entry.now
            low.exit.now left.exit.now }
    { work_each(rt, how, low, left) };
    let mut back = ||
        requires { IsSync R.row × IsSync W.row × IsSend A.row × IsSend B.row
            × EachReady (W.ready how.now) high.now right.now }
        ensures { EachWorked (W.worked how.entry.now) high.entry.now right.entry.now
            high.exit.now right.exit.now }
    { work_each(rt, how, high, right) };
    join_mut(rt, &mut front, &mut back);
}
