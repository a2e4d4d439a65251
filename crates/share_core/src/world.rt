//! The state of clients that share one memo, changed one event at a time.

ghost use Rattle.std.specs.Prelude.{◌≡◌, ◌≢◌, ℕ, ◌<◌, List, [], map, length};
ghost use Rattle.std.specs.Prelude.{IfOk, OnErr, slice_get};
ghost use Rattle.memo_core.specs.Memo.{IsLegal, replay};
ghost use Rattle.memo_core.specs.Views.{headers_in};
ghost use Rattle.share_core.specs.Fields.{AreSoundParts, part_of, machine_of};
ghost use Rattle.share_core.specs.Steps.{TellsIfTaken, StepsMachine, is_possible, first_machine};
ghost use Rattle.share_core.specs.Runs.{Runs, RunLeaves, AgreeOn, SameReplies};

use crate::acts::act;
use crate::event::{Event, Stepped};
use crate::parts::{ClientPart, nobodies};
use crate::work::Work;
use memo_core::{Fit, JournalItem, MemoCore, Namer};
use plain_text::NoMemory;
use std::alloc::Global;
use std::marker::Model;

/// A work's clients and their one memo, at some point of some interleaving.
#[derive(Drop)]
pub struct World<F: Fit, N: Namer<F::Key>, W: Work<F>> {
    memo: MemoCore<F, N>,
    work: W,
    parts: Vec<ClientPart<F::Value, W::Reply>>,
}

impl<F: Fit, N: Namer<F::Key>, W: Work<F>> Model for World<F, N, W> {
    ghost use Rattle.std.specs.Prelude.{map};
    ghost use Rattle.share_core.specs.Views.{Machine};

    ghost Value = { W × Machine F.Key F.Value W.Reply };

    ghost use Rattle.share_core.specs.Fields.{machine_of, part_of, AreSoundParts};

    ghost view = { λ w. (w.work, machine_of w.memo w.parts.items) };

    ghost invariant = { λ w. AreSoundParts F.fits F.weighs (W.tasks w.work) 0
        (map part_of w.parts.items) };
}

impl<F: Fit, N: Namer<F::Key>, W: Work<F>> World<F, N, W> {
    ghost use Rattle.std.specs.Prelude.{◌≡◌, ◌≢◌, ℕ, ◌<◌, ◌≤◌, [], length, IfOk, OnErr};
    ghost use Rattle.std.specs.Prelude.{slice_get, option_map, Some};
    ghost use Rattle.memo_core.specs.Fields.{records_of};
    ghost use Rattle.memo_core.specs.Memo.{IsLegal, replay};
    ghost use Rattle.memo_core.specs.Views.{headers_in};
    ghost use Rattle.share_core.specs.Fields.{AreRepliesFrom};
    ghost use Rattle.share_core.specs.Steps.{TellsIfTaken, StepsMachine, is_possible, first_machine};

    /// A world in which nothing has happened: every client is between commands, its first command
    /// is the next one, and it has no replies; the memo is empty.
    pub fn new(
        alloc: Global,
        fit: F,
        namer: N,
        work: W,
        clients: u32,
        budget: u64,
        share: u64,
    ) -> Result<World<F, N, W>, NoMemory>
        ensures work { IfOk result (λ w. w.0 ≡ work) }
        ensures first { IfOk result (λ w. w.1 ≡ first_machine clients budget share) }
    {
        let memo = MemoCore::new(alloc, fit, namer, budget, share)?;
        let parts = nobodies(alloc, clients)?;
        Ok(World { memo, work, parts })
    }

    /// Takes an event, exactly where it is possible in this state.
    pub fn step(&mut self, alloc: Global, event: Event) -> Result<Stepped, NoMemory>
        ensures work { self.new.0 ≡ self.old.0 }
        ensures steps { IfOk result (TellsIfTaken
            (is_possible (W.tasks self.old.0) self.old.1 event)
            (StepsMachine F.same_key N.name_of F.fits F.weighs (W.tasks self.old.0) self.old.1 event
            self.new.1)
            (self.new.1 ≡ self.old.1)) }
        ensures others { (client : ℕ) → client ≢ event.client →
            slice_get self.new.1.parts client ≡ slice_get self.old.1.parts client }
        ensures clients { length self.new.1.parts ≡ length self.old.1.parts }
        ensures err { OnErr result (self.new.1 ≡ self.old.1) }
    {
        step_parts(alloc, &mut self.memo, &self.work, &mut self.parts, event)
    }

    /// The replies of a client so far: those of its first commands.
    pub fn replies(&self, client: u32) -> &[W::Reply]
        requires { client < length self.now.1.parts }
        ensures is { option_map (λ p. p.replies) (slice_get self.now.1.parts client) ≡
            Some result.now }
        ensures answered { AreRepliesFrom ((W.tasks self.now.0).reply client) 0 result.now }
        ensures within { length result.now ≤ (W.tasks self.now.0).commands client }
    {
        self.parts[client as usize].replies.as_slice()
    }

    /// The journal of the memo.
    pub fn journal(&self) -> &[JournalItem<F::Key>]
        ensures is { records_of result.now ≡ self.now.1.memo.journal }
        ensures legal { IsLegal F.same_key N.name_of self.now.1.memo.budget
            self.now.1.memo.share [] self.now.1.memo.journal }
        ensures replayed { headers_in self.now.1.memo.entries ≡
            replay F.same_key N.name_of self.now.1.memo.budget self.now.1.memo.share []
            self.now.1.memo.journal }
    {
        self.memo.journal()
    }
}

// One event, on the fields of a world.
fn step_parts<F: Fit, N: Namer<F::Key>, W: Work<F>>(
    alloc: Global,
    memo: &mut MemoCore<F, N>,
    work: &W,
    parts: &mut Vec<ClientPart<F::Value, W::Reply>>,
    event: Event,
) -> Result<Stepped, NoMemory>
    requires { AreSoundParts F.fits F.weighs (W.tasks work.now) 0 (map part_of parts.old.items) }
    ensures steps { IfOk result (TellsIfTaken
        (is_possible (W.tasks work.now) (machine_of memo.old parts.old.items) event)
        (StepsMachine F.same_key N.name_of F.fits F.weighs (W.tasks work.now)
        (machine_of memo.old parts.old.items) event (machine_of memo.new parts.new.items))
        (machine_of memo.new parts.new.items ≡ machine_of memo.old parts.old.items)) }
    ensures sound { AreSoundParts F.fits F.weighs (W.tasks work.now) 0
        (map part_of parts.new.items) }
    ensures others { (client : ℕ) → client ≢ event.client →
        slice_get (map part_of parts.new.items) client ≡
        slice_get (map part_of parts.old.items) client }
    ensures clients { length parts.new.items ≡ length parts.old.items }
    ensures err { OnErr result
        (machine_of memo.new parts.new.items ≡ machine_of memo.old parts.old.items) }
{
    let client = event.client as usize;
    if client >= parts.len() {
        return Ok(Stepped::NotReady);
    }
    act(
        alloc,
        memo,
        work,
        &mut parts[client],
        event.client,
        event.act,
    )
}

/// Takes a list of events in order, from the first state on. An event that is not possible changes
/// nothing, and the next one follows. The journal that is left is legal and replays to the memo.
pub fn run<F: Fit, N: Namer<F::Key>, W: Work<F>>(
    alloc: Global,
    fit: F,
    namer: N,
    work: W,
    clients: u32,
    budget: u64,
    share: u64,
    events: &[Event],
) -> Result<World<F, N, W>, NoMemory>
    ensures work { IfOk result (λ w. w.0 ≡ work) }
    ensures clients { IfOk result (λ w. length w.1.parts ≡ clients) }
    ensures runs { IfOk result (λ w. (taken : List Event)
        × Runs F.same_key N.name_of F.fits F.weighs (W.tasks work)
        (first_machine clients budget share) events.now taken w.1
        × RunLeaves (W.tasks work) taken w.1) }
    ensures legal { IfOk result (λ w. IsLegal F.same_key N.name_of budget share []
        w.1.memo.journal) }
    ensures replayed { IfOk result (λ w. headers_in w.1.memo.entries ≡
        replay F.same_key N.name_of budget share [] w.1.memo.journal) }
{
    let mut world = World::new(alloc, fit, namer, work, clients, budget, share)?;
    for event in events {
        world.step(alloc, *event)?;
    }
    let _journal = world.journal();
    Ok(world)
}

/// Isolation: two works that agree on a client's commands give that client equal replies, for as
/// many commands as both answered, whatever the other clients, the names, the budgets, the
/// shares and the events are.
pub fn clients_are_isolated<
    F: Fit,
    N: Namer<F::Key>,
    M: Namer<F::Key>,
    W: Work<F>,
    U: Work<F, Reply = W::Reply>,
>(first: &World<F, N, W>, second: &World<F, M, U>, client: u32)
    requires first { client < length first.now.1.parts }
    requires second { client < length second.now.1.parts }
    requires agree { AgreeOn (W.tasks first.now.0) (U.tasks second.now.0) client }
    ensures { SameReplies first.now.1 second.now.1 client }
{
    let _first = first.replies(client);
    let _second = second.replies(client);
}
