//! The solids of joins, by a memo whose missing keys are claimed.

ghost use Rattle.std.specs.Prelude.{◌≡◌, ◌+◌, ◌^◌, ◌<◌, ◌≤◌, IfOk, IsOk, OnOk};
ghost use Rattle.std.specs.Arc.{arc_value};
ghost use Rattle.bsp_tree.specs.Shapes.{tree_of};
ghost use Rattle.bsp_boolean.specs.Merges.{merge_of};
ghost use Rattle.bsp_boolean.specs.LeafSolids.{IsBuilt};
ghost use Rattle.bsp_boolean.specs.Solids.{solid_of};
ghost use Rattle.bsp_boolean.specs.TreeSolids.{most_solid_size};
ghost use Rattle.parallel_eval.specs.Joins.{IsJoinOf, GivesSolid, AreBuilt, MayTakeJoin, AreAsked};

use crate::gate::Gate;
use crate::solid_fit::SolidFit;
use bsp_boolean::{BuildStop, Builder, MOST_OF_ONE};
use bsp_tree::Solid;
use csg_tree::{Op, TreeKey};
use flight_memo::{Claimed, Flight, FlightBooks, FlightShare};
use memo_core::Namer;
use plain_text::NoMemory;
use std::alloc::Global;
use std::sync::{Arc, Wait};
use subtree_memo::AskPolicy;

/// What the builders of a tree's solids have in common: the memo whose joins they claim, and the gate that each
/// build enters.
#[derive(Drop)]
pub struct Builds<'a, N: Namer<TreeKey>, B: FlightBooks + AskPolicy<TreeKey>, G: Gate, R: Wait> {
    pub rt: &'a R,
    pub alloc: Global,
    pub flight: &'a Flight<SolidFit, N, B>,
    pub gate: &'a G,
}

/// A join with its number, the key of its tree, and the solids of its two trees.
#[derive(Clone, Copy)]
pub struct JoinNode<'a> {
    pub number: u32,
    pub key: &'a Arc<TreeKey>,
    pub op: Op,
    pub left: &'a Solid,
    pub right: &'a Solid,
}

impl<'a, N: Namer<TreeKey>, B: FlightBooks + AskPolicy<TreeKey>, G: Gate, R: Wait> Builds<
    'a,
    N,
    B,
    G,
    R,
> {
    /// The solid of a join. It is claimed; where it was missed, it is built and offered, and the claim is finished, or given
    /// back where there is no solid. `TooBig` comes only where its size is above 50,000, and a solid only where it is not.
    pub fn join_solid<D: Builder>(
        &self,
        node: JoinNode<'_>,
        share: &mut FlightShare<B>,
        builder: &mut D,
    ) -> Result<Arc<Solid>, BuildStop>
        requires join { IsJoinOf node.op (tree_of node.left.now) (tree_of node.right.now)
            (arc_value node.key.now) }
        requires room { MayTakeJoin share.old.share (D.builds builder.old) }
        requires allowed { B.may_ask share.old.share.caller (arc_value node.key.now) }
        ensures solid { GivesSolid (solid_of (arc_value node.entry.key.now)) result }
        ensures asked { AreAsked (IsOk result) 0 1 share.old.share share.new.share
            (D.builds builder.old) (D.builds builder.new) }
    {
        let claim = match self.flight.claim(self.rt, self.alloc, share, node.key)? {
            Claimed::Value(solid) => return within(solid),
            Claimed::Mine(claim) => claim,
        };
        let (kept, given) = match self.built_and_shared(node, share.caller(), builder) {
            Ok(made) => made,
            Err(stop) => {
                self.flight.give_back(self.rt, share, claim);
                return Err(stop);
            }
        };
        let weight = kept.count();
        self.flight
            .finish(self.rt, self.alloc, share, claim, given, weight);
        Ok(kept)
    }

    // Builds a join that was missed, once the gate lets it through, and shares it.
    fn built_and_shared<D: Builder>(
        &self,
        node: JoinNode<'_>,
        client: u32,
        builder: &mut D,
    ) -> Result<(Arc<Solid>, Arc<Solid>), BuildStop>
        requires { D.builds builder.old < 2 ^ 48 }
        ensures built { AreBuilt (merge_of node.entry.op (tree_of node.entry.left.now)
            (tree_of node.entry.right.now)) result }
        ensures counted { OnOk result (D.builds builder.new ≡ D.builds builder.old + 1) }
        ensures bounded { D.builds builder.new ≤ D.builds builder.old + 1 }
    {
        let solid = self.built(node, client, builder)?;
        Ok(shared(self.alloc, solid)?)
    }

    // Builds a join that was missed, once the gate lets it through.
    fn built<D: Builder>(
        &self,
        node: JoinNode<'_>,
        client: u32,
        builder: &mut D,
    ) -> Result<Solid, BuildStop>
        requires { D.builds builder.old < 2 ^ 48 }
        ensures built { IsBuilt (merge_of node.entry.op (tree_of node.entry.left.now)
            (tree_of node.entry.right.now))
            most_solid_size result }
        ensures counted { OnOk result (D.builds builder.new ≡ D.builds builder.old + 1) }
        ensures bounded { D.builds builder.new ≤ D.builds builder.old + 1 }
    {
        self.gate.enter(self.rt, client, node.number)?;
        builder.build(self.alloc, node.op, node.left, node.right, MOST_OF_ONE)
    }
}

// A solid twice, by reference.
fn shared(alloc: Global, solid: Solid) -> Result<(Arc<Solid>, Arc<Solid>), NoMemory>
    ensures { IfOk result (λ r. (arc_value r.0 ≡ solid) × (arc_value r.1 ≡ solid)) }
{
    let kept = Arc::new(alloc, solid)?;
    let given = Arc::try_clone(&kept)?;
    Ok((kept, given))
}

// A solid that was held, where it is not too big.
fn within(solid: Arc<Solid>) -> Result<Arc<Solid>, BuildStop>
    ensures { GivesSolid (tree_of (arc_value solid)) result }
{
    if solid.count() > MOST_OF_ONE {
        return Err(BuildStop::TooBig);
    }
    Ok(solid)
}
