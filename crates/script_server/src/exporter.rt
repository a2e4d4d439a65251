//! Exports of sources by what they mean, with solids that a memo may hold.

ghost use Rattle.std.specs.Prelude.{◌≡◌, ◌+◌, ◌^◌, ◌<◌, ◌≤◌, ℕ, List, All, length, IfOk, IfErr, IsOk, OnOk};
ghost use Rattle.std.specs.Arc.{arc_value};
ghost use Rattle.csg_tree.specs.HalfSpaceTrees.{Tree};
ghost use Rattle.csg_tree.specs.ProperTrees.{IsProper};
ghost use Rattle.csg_tree.specs.Numberings.{nodes_of, tree_numbered};
ghost use Rattle.csg_tree.specs.Trees.{plain_tree_of};
ghost use Rattle.bsp_tree.specs.Shapes as shapes;
ghost use Rattle.bsp_boolean.specs.Solids as solids;
ghost use Rattle.bsp_boolean.specs.TreeSolids.{join_count, AreWithinSizeLimits, IsTreeStop};
ghost use Rattle.subtree_memo.specs.Shares.{parts_each, offers_of};
ghost use Rattle.tree_export.specs.Exports.{IsExported, IsBoundaryText};
ghost use Rattle.plane_predicate.specs.declared.unit.Unit.{Unit as LengthUnit};
ghost use Rattle.script_server.specs.Meaning.Sources.{RefusesSource};
ghost use Rattle.script_server.specs.Meaning.Exports.{export_reply};
ghost use Rattle.parallel_eval.specs.Joins.{MayAskJoins};
ghost use Rattle.script_server.specs.Clients.{ClientBooks, AreProbed, MayAskFor, IsSolved, ExportsFor};

use crate::export::{reply, tree_of};
use crate::kept_export::{KeptExport, export_kept};
use crate::meaning::{some_meaning, texts_of_sources_are_watertight};
use crate::under_way::{UnderWay, Workers};
use bsp_boolean::PlainBuilder;
use bsp_tree::Solid;
use csg_tree::{CsgStore, CsgTree, TreeKey};
use flight_memo::{FlightBooks, FlightShare, ThreadBooks};
use memo_core::Namer;
use parallel_eval::{Builds, EvalStop, Gate, KnownStore, solid_of};
use plane_predicate::Unit;
use reply_text::{Exporting, Reply};
use script_run::Exporter;
use std::alloc::Global;
use std::marker::Model;
use std::sync::{Arc, Wait};
use std::thread::Threads;
use subtree_memo::AskPolicy;
use text_place::{NoMemory, Stop};
use tree_export::{TreeExport, export_made, last_nodes_are_trees, nodes_of_tree, solid_of_nothing};

/// What one client has of its own: its share of the books of the memo and its claims, how many workers it may have, how often a
/// solid was asked for, the store for which it was asked last, and the text that was made of it.
#[derive(Drop)]
pub struct Client<B: FlightBooks> {
    share: FlightShare<B>,
    workers: Workers,
    asked: u32,
    last: Option<KnownStore>,
    kept: Option<KeptExport>,
}

impl<B: FlightBooks> Model for Client<B> {
    ghost use Rattle.std.specs.Prelude.{◌≡◌, ◌*◌, ◌^◌, ◌≤◌};
    ghost use Rattle.subtree_memo.specs.Shares.{parts_each, offers_of};
    ghost use Rattle.script_server.specs.Clients.{ClientBooks};

    ghost Value = { ClientBooks };

    ghost view = { λ c. record { asked = c.asked; share = c.share.share } };

    ghost invariant = { λ c.
        (c.share.share.parts ≡ parts_each) × (c.share.share.dropped ≤ c.asked * 2 ^ 32)
        × (offers_of c.share.share ≤ c.share.share.misses) };
}

/// What counts how often a solid was asked for, and has a share of a memo's books.
pub trait Booking {
    ghost books: { Self → ClientBooks };

    // Which keys a caller of the memo may ask for.
    ghost may_ask: { ℕ → Tree → Type 0 };
}

impl<B: FlightBooks + AskPolicy<TreeKey>> Booking for Client<B> {
    ghost books = { λ client. client };

    ghost may_ask = { B.may_ask };
}

// The given number of builders, which have built nothing.
fn builders(alloc: Global, count: u64) -> Result<Vec<PlainBuilder>, NoMemory>
    ensures many { IfOk result (λ v. length v.items ≡ count) }
    ensures few { IfOk result (λ v. All (λ b. b ≤ 2 ^ 46) v.items) }
{
    let mut builders = Vec::new(alloc);
    for _index in 0..count {
        builders.push(PlainBuilder::new())?;
    }
    Ok(builders)
}

impl<B: FlightBooks> Client<B> {
    /// A client for which no solid was asked yet, with the given number of workers and a share on which no fill is booked.
    pub fn new(share: FlightShare<B>, workers: Workers) -> Self
        requires share { (share.share.parts ≡ parts_each) × (offers_of share.share ≡ 0) }
        ensures { result ≡ record { asked = 0; share = share.share } }
    {
        Client {
            share,
            workers,
            asked: 0,
            last: None,
            kept: None,
        }
    }

    // Keeps a store for the next export.
    fn keep(&mut self, store: KnownStore)
        ensures { self.new ≡ self.old }
    {
        self.last = Some(store);
    }

    /// The client's share of the books.
    pub fn into_share(self) -> FlightShare<B>
        ensures share { result.share ≡ self.share }
        ensures whole { result.share.parts ≡ parts_each }
        ensures offered { offers_of result.share ≤ result.share.misses }
    {
        let Client { share, .. } = self;
        share
    }
}

// A store with what the last one knows of it, or else with the names that are made of it.
fn known(
    alloc: Global,
    last: &Option<KnownStore>,
    store: Arc<CsgStore>,
) -> Result<KnownStore, NoMemory>
    ensures { IfOk result (λ known. known ≡ arc_value store) }
{
    match last {
        Some(last) => KnownStore::over(alloc, store, last),
        None => KnownStore::new(alloc, store),
    }
}

// The key of the tree of which a store has the nodes. `NoMemory` is a store that cannot be shared once more.
fn key_of(store: &KnownStore) -> Result<TreeKey, NoMemory>
    requires { 0 < length store.now }
    ensures { (tree : Tree) → store.now ≡ nodes_of tree → IfOk result (λ key. key ≡ tree) }
{
    // Called for its law; does nothing when it runs: a tree's last node is the tree.
    last_nodes_are_trees();
    store.key(store.store().len())
}

// The solid of a store for a client by the given number of builders. The client keeps the store for its next one.
#[tactic(auto, using(crate::proofs::Probed::asked_of_memo, crate::proofs::Probed::unasked))]
fn solid_for<
    'a,
    N: Namer<TreeKey> + Send + Sync,
    B: ThreadBooks + AskPolicy<TreeKey>,
    G: Gate + Sync,
    R: Threads + Wait + Sync,
>(
    builds: &Builds<'a, N, B, G, R>,
    client: &mut Client<B>,
    workers: Workers,
    mut store: KnownStore,
) -> Result<Arc<Solid>, EvalStop>
    requires some { 0 < length store }
    requires few { client.old.asked < 8192 }
    requires allowed { MayAskJoins (B.may_ask client.old.share.caller) store }
    ensures solid { IfOk result (λ s.
        shapes.tree_of (arc_value s) ≡ solids.solid_of (tree_numbered store (length store))) }
    ensures within { OnOk result (AreWithinSizeLimits store) }
    ensures stop { IfErr result (IsTreeStop store) }
    ensures probed { AreProbed (IsOk result) (join_count store) client.old.share client.new.share }
    ensures asked { client.new.asked ≤ client.old.asked + 1 }
{
    let mut builders = builders(builds.alloc, workers.count)?;
    client.asked += 1;
    let made = solid_of(builds, &mut store, &mut client.share, &mut builders);
    client.keep(store);
    made
}

// The export of a tree for a client, whose solid is built by the given number of builders.
#[tactic(auto, using(crate::proofs::Probed::export_probed, crate::proofs::Probed::unasked, crate::proofs::Probed::none_asked))]
fn exported<
    'a,
    N: Namer<TreeKey> + Send + Sync,
    B: ThreadBooks + AskPolicy<TreeKey>,
    G: Gate + Sync,
    R: Threads + Wait + Sync,
>(
    builds: &Builds<'a, N, B, G, R>,
    client: &mut Client<B>,
    workers: Workers,
    unit: Unit,
    tree: &CsgTree,
) -> Result<TreeExport, NoMemory>
    requires proper { IsProper (plain_tree_of tree.now) }
    requires few { client.old.asked < 8192 }
    requires allowed { MayAskJoins (B.may_ask client.old.share.caller)
        (nodes_of (plain_tree_of tree.now)) }
    ensures exported { IfOk result (IsExported unit (plain_tree_of tree.now)) }
    ensures boundary { IfOk result (IsBoundaryText unit (plain_tree_of tree.now)) }
    ensures probed { AreProbed (IsSolved result) (join_count (nodes_of (plain_tree_of tree.now)))
        client.old.share client.new.share }
    ensures asked { client.new.asked ≤ client.old.asked + 1 }
{
    // Called for its law; does nothing when it runs: a tree's last node is the tree, and a tree without nodes has the
    // empty solid.
    last_nodes_are_trees();
    let store = nodes_of_tree(builds.alloc, tree)?;
    if store.len() == 0 {
        let solid = solid_of_nothing(builds.alloc)?;
        return export_made(builds.alloc, Ok(solid), unit);
    }
    let store = known(builds.alloc, &client.last, store)?;
    let key = key_of(&store)?;
    let made = solid_for(builds, client, workers, store);
    export_kept(builds.alloc, &mut client.kept, unit, key, made)
}

// The reply to the export of a source that has no tree: no solid is asked for.
#[tactic(auto, using(crate::proofs::Refused::fault_answered))]
fn refused(stop: Stop) -> Result<Reply, NoMemory>
    ensures { (unit : LengthUnit) (source : List ℕ) (books : ClientBooks)
        → RefusesSource unit source stop → ExportsFor unit source result books books }
{
    // Called for its law; does nothing when it runs: each source has a number of joins, also where there was no memory
    // for its tree.
    some_meaning();
    match stop {
        Stop::Fault(fault) => Ok(Reply::Faulted(fault)),
        Stop::NoMemory => Err(NoMemory),
    }
}

// The reply to the export of a client's source, whose solid is built by the given number of builders.
fn answer<
    'a,
    N: Namer<TreeKey> + Send + Sync,
    B: ThreadBooks + AskPolicy<TreeKey>,
    G: Gate + Sync,
    R: Threads + Wait + Sync,
>(
    builds: &Builds<'a, N, B, G, R>,
    client: &mut Client<B>,
    workers: Workers,
    unit: Unit,
    source: &[u8],
) -> Result<Reply, NoMemory>
    requires short { length source.now ≤ 4198400 }
    requires few { client.old.asked < 8192 }
    requires allowed { MayAskFor unit (B.may_ask client.old.share.caller) source.now }
    ensures { ExportsFor unit source.now result client.old client.new }
{
    // Called for its law; does nothing when it runs: the text that bounds the tree of a source is watertight.
    texts_of_sources_are_watertight();
    match tree_of(builds.alloc, unit, source) {
        Ok(tree) => Ok(reply(exported(builds, client, workers, unit, &tree)?)),
        Err(stop) => refused(stop),
    }
}

/// The reply to the export of a client's source, whose solid is built by the client's part of the builders under way.
pub fn export_source<
    'a,
    N: Namer<TreeKey> + Send + Sync,
    B: ThreadBooks + AskPolicy<TreeKey>,
    G: Gate + Sync,
    R: Threads + Wait + Sync,
>(
    builds: &Builds<'a, N, B, G, R>,
    under_way: &UnderWay,
    client: &mut Client<B>,
    unit: Unit,
    source: &[u8],
) -> Result<Reply, NoMemory>
    requires short { length source.now ≤ 4198400 }
    requires few { client.old.asked < 8192 }
    requires allowed { MayAskFor unit (B.may_ask client.old.share.caller) source.now }
    ensures { ExportsFor unit source.now result client.old client.new }
{
    let workers = under_way.begin(client.workers);
    let given = answer(builds, client, workers, unit, source);
    under_way.end();
    given
}

/// A client with what exports its sources. That is a closure, since no method of a trait can start threads where it runs in
/// one.
#[derive(Drop)]
pub struct ClientExporter<C, F> {
    pub client: C,
    pub export: F,
}

impl<C, F> Exporting for ClientExporter<C, F> {
    ghost use Rattle.script_server.specs.Meaning.Exports.{AnswersExport};

    ghost exports = { AnswersExport };
}

impl<C: Booking, F: Fn(&mut C, Unit, &[u8]) -> Result<Reply, NoMemory>> Exporter
    for ClientExporter<C, F> {
    ghost use Rattle.std.specs.Prelude.{◌<◌, ◌≤◌, length};
    ghost use Rattle.script_server.specs.Clients.{Probes, MayAskFor, ExportsFor};

    ghost asked = { λ e. (C.books e.client).asked };

    ghost moves = { λ unit source reply old new.
        Probes unit source reply (C.books old.client) (C.books new.client) };

    ghost can_export = { λ unit source e.
        ((client : _) (unit : _) (source : _) → (C.books client.now).asked < 8192
        → length source.now ≤ 4198400
        → MayAskFor unit (C.may_ask (C.books client.now).share.caller) source.now
        → F.pre e.export client unit source)
        × ((client : _) (unit : _) (source : _) (r : _) (after : _)
        → F.post e.export client unit source r after
        → ExportsFor unit source.now r (C.books client.now) (C.books after.now))
        × MayAskFor unit (C.may_ask (C.books e.client).share.caller) source };

    fn export(&mut self, _alloc: Global, unit: Unit, source: &[u8]) -> Result<Reply, NoMemory> {
        (self.export)(&mut self.client, unit, source)
    }
}
