//! What one builder does for a run of nodes.

ghost use Rattle.std.specs.Prelude.{◌≡◌, ◌+◌, ◌-◌, ◌<◌, ◌≤◌, IfOk, IsOk, length, All};
ghost use Rattle.std.specs.Arc.{arc_value};
ghost use Rattle.plane_predicate.specs.Space.{ComesInReach};
ghost use Rattle.csg_tree.specs.HalfSpaceTrees.{leaf};
ghost use Rattle.csg_tree.specs.Numberings.{tree_numbered, IsNumberIn};
ghost use Rattle.bsp_tree.specs.Shapes.{tree_of};
ghost use Rattle.bsp_boolean.specs.LeafSolids.{solid_of_leaf};
ghost use Rattle.bsp_boolean.specs.Solids.{solid_of};
ghost use Rattle.parallel_eval.specs.Joins.{GivesSolid, MayTakeJoin, AreAsked, MayAskJoins};
ghost use Rattle.parallel_eval.specs.Runs.{joins_to, IsRunWork, IsRunNode, IsNodeOutcome, HasMade, IsLaneReady, IsLaneDone};

use crate::growth::NodeOutcome;
use crate::lane::Lane;
use crate::{Builds, Gate, JoinNode, KnownStore, SolidFit};
use bsp_boolean::{BuildStop, Builder, MOST_OF_ONE, leaf_solid, one_tree_more};
use bsp_tree::Solid;
use csg_tree::{CsgNode, TreeKey};
use flight_memo::{FlightBooks, FlightShare};
use memo_core::Namer;
use parallel_zip::PairWork;
use plain_text::NoMemory;
use plane_predicate::Plane;
use std::sync::{Arc, Wait};
use subtree_memo::AskPolicy;

/// A run of nodes of a store, behind the first `start` ones, and over the solids of these.
#[derive(Drop)]
pub struct RunWork<
    'a,
    'b,
    N: Namer<TreeKey>,
    B: FlightBooks + AskPolicy<TreeKey>,
    G: Gate,
    R: Wait,
> {
    pub builds: Builds<'a, N, B, G, R>,
    pub store: &'a KnownStore,
    pub start: u32,
    pub solids: &'a [Arc<Solid>],
    pub nodes: &'a [CsgNode<'b>],
}

impl<
    'a,
    'b,
    N: Namer<TreeKey>,
    B: FlightBooks + AskPolicy<TreeKey>,
    G: Gate,
    R: Wait,
    D: Builder,
> PairWork<D, Lane<B>> for RunWork<'a, 'b, N, B, G, R> {
    ghost ready = { λ w b lane. IsRunWork w.store.now w.start w.solids.now w.nodes.now
        × IsLaneReady w.start (length w.nodes.now) (D.builds b) lane
        × MayAskJoins (B.may_ask lane.share.share.caller) w.store.now };

    ghost worked = { λ w b lane c lane'. IsLaneDone w.store.now lane lane' (D.builds b)
        (D.builds c) };

    fn work(&self, builder: &mut D, lane: &mut Lane<B>) {
        self.do_lane(builder, lane)
    }
}

impl<'a, 'b, N: Namer<TreeKey>, B: FlightBooks + AskPolicy<TreeKey>, G: Gate, R: Wait> RunWork<
    'a,
    'b,
    N,
    B,
    G,
    R,
> {
    // Does the nodes of a lane, one after another. It goes on behind one that is too big, since a lower
    // number may be so in another lane, and ends where memory runs out.
    fn do_lane<D: Builder>(&self, builder: &mut D, lane: &mut Lane<B>)
        requires run { IsRunWork self.now.store.now self.now.start self.now.solids.now
            self.now.nodes.now }
        requires lane { IsLaneReady self.now.start (length self.now.nodes.now)
            (D.builds builder.old) lane.old }
        requires allowed { MayAskJoins (B.may_ask lane.old.share.share.caller) self.now.store.now }
        ensures { IsLaneDone self.now.store.now lane.old lane.new (D.builds builder.old)
            (D.builds builder.new) }
    {
        // Called for its law; does nothing when it runs: what one tree more adds to the first ones of a list.
        one_tree_more();
        for before in lane.before..lane.last {
            let Ok(outcome) = self.outcome(before + 1, &mut lane.share, builder) else {
                return;
            };
            if lane.made.push(outcome).is_err() {
                return;
            }
        }
    }

    // What comes of one node.
    fn outcome<D: Builder>(
        &self,
        number: u32,
        share: &mut FlightShare<B>,
        builder: &mut D,
    ) -> Result<NodeOutcome, NoMemory>
        requires run { IsRunWork self.now.store.now self.now.start self.now.solids.now
            self.now.nodes.now }
        requires number { (self.now.start < number)
            × (number ≤ self.now.start + length self.now.nodes.now) }
        requires room { MayTakeJoin share.old.share (D.builds builder.old) }
        requires allowed { MayAskJoins (B.may_ask share.old.share.caller) self.now.store.now }
        ensures outcome { IfOk result (IsNodeOutcome self.now.store.now number) }
        ensures asked { AreAsked (HasMade result) (joins_to self.now.store.now (number - 1))
            (joins_to self.now.store.now number)
            share.old.share share.new.share (D.builds builder.old) (D.builds builder.new) }
    {
        match self.node_solid(number, share, builder) {
            Ok(solid) => Ok(NodeOutcome::Made(solid)),
            Err(BuildStop::TooBig) => Ok(NodeOutcome::TooBig),
            Err(BuildStop::NoMemory) => Err(NoMemory),
        }
    }

    // The solid of one node: a leaf's by itself, and a join's by the memo or a build.
    fn node_solid<D: Builder>(
        &self,
        number: u32,
        share: &mut FlightShare<B>,
        builder: &mut D,
    ) -> Result<Arc<Solid>, BuildStop>
        requires run { IsRunWork self.now.store.now self.now.start self.now.solids.now
            self.now.nodes.now }
        requires number { (self.now.start < number)
            × (number ≤ self.now.start + length self.now.nodes.now) }
        requires room { MayTakeJoin share.old.share (D.builds builder.old) }
        requires allowed { MayAskJoins (B.may_ask share.old.share.caller) self.now.store.now }
        ensures solid { GivesSolid (solid_of (tree_numbered self.now.store.now number)) result }
        ensures asked { AreAsked (IsOk result) (joins_to self.now.store.now (number - 1))
            (joins_to self.now.store.now number)
            share.old.share share.new.share (D.builds builder.old) (D.builds builder.new) }
    {
        // Called for its law; does nothing when it runs: what one tree more adds to the first ones of a list.
        one_tree_more();
        match self.node(number) {
            CsgNode::Leaf(planes) => self.leaf(number, planes),
            CsgNode::Join(op, left, right) => {
                let key = self.key(number)?;
                let first = self.solid(left);
                let second = self.solid(right);
                let node = JoinNode {
                    number,
                    key: &key,
                    op,
                    left: first,
                    right: second,
                };
                self.builds.join_solid(node, share, builder)
            }
        }
    }

    // A node of the run.
    fn node(&self, number: u32) -> CsgNode<'b>
        requires run { IsRunWork self.now.store.now self.now.start self.now.solids.now
            self.now.nodes.now }
        requires number { (self.now.start < number)
            × (number ≤ self.now.start + length self.now.nodes.now) }
        ensures { IsRunNode self.now.store.now self.now.start number result }
    {
        self.nodes[(number - 1 - self.start) as usize]
    }

    // The solid of a node before the run.
    fn solid(&self, number: u32) -> &Solid
        requires run { IsRunWork self.now.store.now self.now.start self.now.solids.now
            self.now.nodes.now }
        requires number { (1 ≤ number) × (number ≤ self.now.start) }
        ensures { tree_of result.now ≡ solid_of (tree_numbered self.now.store.now number) }
    {
        // Called for its law; does nothing when it runs: what one tree more adds to the first ones of a list.
        one_tree_more();
        &self.solids[number as usize - 1]
    }

    // The key of the tree of a node.
    fn key(&self, number: u32) -> Result<Arc<TreeKey>, NoMemory>
        requires { IsNumberIn self.now.store.now number }
        ensures { IfOk result (λ key. arc_value key ≡ tree_numbered self.now.store.now number) }
    {
        let key = self.store.key(number)?;
        Ok(Arc::new(self.builds.alloc, key)?)
    }

    // The solid of a leaf, which may be known.
    fn leaf(&self, number: u32, planes: &[Plane]) -> Result<Arc<Solid>, BuildStop>
        requires number { IsNumberIn self.now.store.now number }
        requires leaf { tree_numbered self.now.store.now number ≡ leaf planes.now }
        requires some { 0 < length planes.now }
        requires reach { All ComesInReach planes.now }
        ensures { GivesSolid (solid_of_leaf planes.now) result }
    {
        if let Some(known) = self.store.leaf(number)? {
            return Ok(known);
        }
        let solid = leaf_solid(self.builds.alloc, planes, MOST_OF_ONE)?;
        Ok(self.to_share(solid)?)
    }

    // A solid that can be shared.
    fn to_share(&self, solid: Solid) -> Result<Arc<Solid>, NoMemory>
        ensures { IfOk result (λ s. arc_value s ≡ solid) }
    {
        Ok(Arc::new(self.builds.alloc, solid)?)
    }
}
