//! The solid of a store, in runs of nodes that are divided among builders.

ghost use Rattle.std.specs.Prelude.{◌≡◌, ◌+◌, ◌-◌, ◌^◌, ◌<◌, ◌≤◌, [], length, sum_by, map, IfOk, IfErr, IsOk, OnOk, OnErr};
ghost use Rattle.std.specs.Arc.{arc_value};
ghost use Rattle.csg_tree.specs.Numberings.{tree_numbered};
ghost use Rattle.bsp_tree.specs.Shapes.{tree_of};
ghost use Rattle.bsp_boolean.specs.Solids as solids;
ghost use Rattle.bsp_boolean.specs.TreeSolids.{join_count, AreWithinSizeLimits, IsTreeStop};
ghost use Rattle.parallel_eval.specs.Known.{shared_solids};
ghost use Rattle.parallel_eval.specs.Joins.{AreAsked, MayAskJoins};
ghost use Rattle.parallel_eval.specs.Runs.{joins_to, AreAtMost, AreReady, IsGrowing, IsRunWork, AreFreshLanes, AreEven, AreLanes, AreComplete, AreOfCaller, with_lanes};

use crate::growth::Growth;
use crate::lane::Lane;
use crate::lanes::RunWork;
use crate::node_runs::run_nodes;
use crate::{Builds, Gate, KnownStore};
use bsp_boolean::{Builder, TreeStop as EvalStop, one_tree_more};
use bsp_tree::Solid;
use csg_tree::TreeKey;
use flight_memo::{FlightBooks, FlightShare, ThreadBooks};
use memo_core::Namer;
use parallel_zip::work_each;
use plain_text::NoMemory;
use std::alloc::Global;
use std::sync::{Arc, Wait};
use std::thread::Threads;
use subtree_memo::AskPolicy;

// Divides the nodes behind the first `before` ones, up to the number `last`, evenly among at most the given
// number of lanes. Each lane has a node at least. Where memory runs out, the share is as it was.
fn deal<B: FlightBooks>(
    alloc: Global,
    share: &mut FlightShare<B>,
    before: u32,
    last: u32,
    builders: usize,
) -> Result<Vec<Lane<B>>, NoMemory>
    requires range { before < last }
    requires builders { (1 ≤ builders) × (builders ≤ 64) }
    requires parts { builders < share.old.share.parts }
    ensures lanes { IfOk result (λ v. AreFreshLanes share.old.share.caller before last v.items) }
    ensures even { IfOk result (λ v. AreEven v.items) }
    ensures many { IfOk result (λ v. length v.items ≤ builders) }
    ensures rest { IfOk result (λ v. share.new ≡ record share.old {
      share = record share.old.share { parts = share.old.share.parts - length v.items };
    }) }
    ensures err { OnErr result (share.new ≡ share.old) }
{
    let nodes = last - before;
    let count = nodes.min(builders as u32);
    let mut lanes = Vec::new(alloc);
    lanes.reserve(count as usize)?;
    let least = nodes / count;
    let longer = nodes % count;
    let mut next = before;
    for index in 0..count {
        let to = next + least + one_more(index, longer);
        lanes.push_reserved(fresh_lane(alloc, share.split(), next, to));
        next = to;
    }
    Ok(lanes)
}

// The node more that each of the first lanes has.
fn one_more(index: u32, longer: u32) -> u32
    ensures one { result ≤ 1 }
    ensures left { result + (longer - (index + 1)) ≡ longer - index }
{
    if index < longer { 1 } else { 0 }
}

// A lane of which nothing is done.
fn fresh_lane<B: FlightBooks>(
    alloc: Global,
    share: FlightShare<B>,
    before: u32,
    last: u32,
) -> Lane<B>
    requires { before ≤ last }
    ensures share { result.share ≡ share }
    ensures range { (result.before ≡ before) × (result.last ≡ last) }
    ensures empty { result.made.items ≡ [] }
{
    Lane {
        share,
        before,
        last,
        made: Vec::new(alloc),
    }
}

// Puts the shares of the lanes back.
fn take_back<B: FlightBooks>(share: &mut FlightShare<B>, mut lanes: Vec<Lane<B>>)
    requires { AreOfCaller share.old.share.caller lanes.items }
    ensures { share.new.share ≡ with_lanes share.old.share lanes.items }
{
    while let Some(lane) = lanes.pop() {
        let Lane { share: part, .. } = lane;
        share.absorb(part);
    }
}

// Divides a run, and does it. Where memory runs out before, nothing is done.
fn work_lanes<
    N: Namer<TreeKey> + Send + Sync,
    B: ThreadBooks + AskPolicy<TreeKey>,
    D: Builder + Send,
    G: Gate + Sync,
    R: Threads + Wait + Sync,
>(
    work: &RunWork<'_, '_, N, B, G, R>,
    share: &mut FlightShare<B>,
    builders: &mut [D],
) -> Result<Vec<Lane<B>>, NoMemory>
    requires run { IsRunWork work.now.store.now work.now.start work.now.solids.now
        work.now.nodes.now }
    requires ready { AreReady D.builds (joins_to work.now.store.now work.now.start) share.old.share
        builders.old × MayAskJoins (B.may_ask share.old.share.caller) work.now.store.now }
    ensures lanes { IfOk result (λ v. AreLanes work.now.store.now work.now.start
        (work.now.start + length work.now.nodes.now) v.items) }
    ensures caller { IfOk result (λ v. AreOfCaller share.new.share.caller v.items) }
    ensures asked { IfOk result (λ v. AreAsked (AreComplete v.items)
        (joins_to work.now.store.now work.now.start)
        (joins_to work.now.store.now (work.now.start + length work.now.nodes.now))
        share.old.share (with_lanes share.new.share v.items) (sum_by D.builds builders.old)
        (sum_by D.builds builders.new)) }
    ensures counts { OnOk result (AreAtMost D.builds
        (2 ^ 46 + joins_to work.now.store.now (work.now.start + length work.now.nodes.now))
        builders.new) }
    ensures many { length builders.new ≡ length builders.old }
    ensures err { OnErr result ((share.new ≡ share.old) × (builders.new ≡ builders.old)) }
{
    // Called for its law; does nothing when it runs: what one tree more adds to the first ones of a list.
    one_tree_more();
    let last = work.start + work.nodes.len() as u32;
    let mut lanes = deal(work.builds.alloc, share, work.start, last, builders.len())?;
    let (busy, _idle) = builders.split_at_mut(lanes.len());
    work_each(work.builds.rt, work, busy, &mut lanes);
    Ok(lanes)
}

// The run behind the first nodes: it is divided, what came of its nodes is taken in order, and the shares
// are put back whatever that was. Answers the number of its last node.
fn run<
    N: Namer<TreeKey> + Send + Sync,
    B: ThreadBooks + AskPolicy<TreeKey>,
    D: Builder + Send,
    G: Gate + Sync,
    R: Threads + Wait + Sync,
>(
    builds: &Builds<'_, N, B, G, R>,
    store: &KnownStore,
    before: u32,
    growth: &mut Growth<'_>,
    share: &mut FlightShare<B>,
    builders: &mut [D],
) -> Result<u32, EvalStop>
    requires growing { IsGrowing store.now before growth.old × (before < length store.now) }
    requires ready { AreReady D.builds (joins_to store.now before) share.old.share builders.old
        × MayAskJoins (B.may_ask share.old.share.caller) store.now }
    ensures growing { IfOk result (λ last. IsGrowing store.now last growth.new × (before < last)) }
    ensures ready { IfOk result (λ last. AreReady D.builds (joins_to store.now last) share.new.share
        builders.new) }
    ensures asked { IfOk result (λ last. AreAsked (IsOk result) (joins_to store.now before)
        (joins_to store.now last)
        share.old.share share.new.share (sum_by D.builds builders.old)
        (sum_by D.builds builders.new)) }
    ensures stopped { OnErr result (AreAsked (IsOk result) (joins_to store.now before)
        (join_count store.now)
        share.old.share share.new.share (sum_by D.builds builders.old)
        (sum_by D.builds builders.new)) }
    ensures stop { IfErr result (IsTreeStop store.now) }
{
    let nodes = run_nodes(builds.alloc, store.store(), before)?;
    let last = before + nodes.len() as u32;
    let work = RunWork {
        builds: Builds {
            rt: builds.rt,
            alloc: builds.alloc,
            flight: builds.flight,
            gate: builds.gate,
        },
        store,
        start: before,
        solids: &growth.solids,
        nodes: &nodes,
    };
    let lanes = work_lanes(&work, share, builders)?;
    let taken = growth.take_lanes(before, last, &lanes);
    take_back(share, lanes);
    taken?;
    Ok(last)
}

// The solids of all nodes of a store, in order of number.
fn solids_of<
    N: Namer<TreeKey> + Send + Sync,
    B: ThreadBooks + AskPolicy<TreeKey>,
    D: Builder + Send,
    G: Gate + Sync,
    R: Threads + Wait + Sync,
>(
    builds: &Builds<'_, N, B, G, R>,
    store: &KnownStore,
    share: &mut FlightShare<B>,
    builders: &mut [D],
) -> Result<Vec<Arc<Solid>>, EvalStop>
    requires some { 0 < length store.now }
    requires ready { AreReady D.builds 0 share.old.share builders.old
        × MayAskJoins (B.may_ask share.old.share.caller) store.now }
    ensures solids { IfOk result (λ v. shared_solids v.items ≡ map solids.solid_of store.now) }
    ensures within { OnOk result (AreWithinSizeLimits store.now) }
    ensures stop { IfErr result (IsTreeStop store.now) }
    ensures asked { AreAsked (IsOk result) 0 (join_count store.now)
        share.old.share share.new.share (sum_by D.builds builders.old)
        (sum_by D.builds builders.new) }
    ensures few { join_count store.now < 2 ^ 32 }
{
    // Called for its law; does nothing when it runs: what one tree more adds to the first ones of a list.
    one_tree_more();
    let nodes = store.store();
    let mut growth = Growth {
        store: nodes,
        solids: Vec::new(builds.alloc),
        sum: 0,
    };
    let mut done = 0;
    while done < nodes.len() {
        done = run(builds, store, done, &mut growth, share, builders)?;
    }
    Ok(growth.solids)
}

/// The solid of the last node of a store, for 1 to 64 builders. Nodes are done in order of number, in runs
/// of at most 64 of which none is over another; the nodes of a run are divided evenly among the builders,
/// which may work at the same time: no contract says that they do. Each join is claimed; where it was missed, it is built and
/// offered. A leaf whose solid the store does not know is made without the memo; afterwards the store knows
/// the solids of its leaves, as far as 2 MiB go. `TooBig` and `SumTooBig` come exactly at the first node that
/// passes a limit.
pub fn solid_of<
    N: Namer<TreeKey> + Send + Sync,
    B: ThreadBooks + AskPolicy<TreeKey>,
    D: Builder + Send,
    G: Gate + Sync,
    R: Threads + Wait + Sync,
>(
    builds: &Builds<'_, N, B, G, R>,
    store: &mut KnownStore,
    share: &mut FlightShare<B>,
    builders: &mut [D],
) -> Result<Arc<Solid>, EvalStop>
    requires some { 0 < length store.old }
    requires ready { AreReady D.builds 0 share.old.share builders.old
        × MayAskJoins (B.may_ask share.old.share.caller) store.old }
    ensures solid { IfOk result (λ s. tree_of (arc_value s) ≡
        solids.solid_of (tree_numbered store.old (length store.old))) }
    ensures within { OnOk result (AreWithinSizeLimits store.old) }
    ensures stop { IfErr result (IsTreeStop store.old) }
    ensures asked { AreAsked (IsOk result) 0 (join_count store.old)
        share.old.share share.new.share (sum_by D.builds builders.old)
        (sum_by D.builds builders.new) }
    ensures few { join_count store.old < 2 ^ 32 }
    ensures store { store.new ≡ store.old }
{
    let mut solids = solids_of(builds, store, share, builders)?;
    store.keep(builds.alloc, &solids);
    Ok(solids.pop().unwrap())
}
