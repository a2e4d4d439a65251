//! The solid of a tree, node by node.

ghost use Rattle.std.specs.Prelude.{◌≡◌, ◌+◌, ◌-◌, ◌^◌, ◌≤◌, ◌<◌, List, map, take, length, All, IfOk, IfErr, OnOk};
ghost use Rattle.csg_tree.specs.HalfSpaceTrees.{Tree};
ghost use Rattle.csg_tree.specs.ProperTrees.{IsProper};
ghost use Rattle.csg_tree.specs.Numberings.{tree_numbered, IsNumberIn};
ghost use Rattle.csg_tree.specs.Nodes.{IsNodeOf};
ghost use Rattle.bsp_tree.specs.Shapes.{tree_of};
ghost use Rattle.bsp_boolean.specs.LeafSolids.{IsBuilt};
ghost use Rattle.bsp_boolean.specs.Solids.{solid_of};
ghost use Rattle.bsp_boolean.specs.TreeSolids.{most_solid_size, join_count, merges_of, solid_over, AreWithinSizeLimits, HasFirstSolids, IsOverSolids, IsTreeStop};

use crate::building::Builder;
use crate::{BuildStop, leaf_solid};
use bsp_tree::Solid;
use csg_tree::{CsgNode, CsgStore};
use plain_text::NoMemory;
use std::alloc::Global;

/// The most that the size of one node's solid may be.
pub const MOST_OF_ONE: u64 = 50_000;

/// The most that the sizes of all nodes' solids may be together.
pub const MOST_OF_ALL: u64 = 500_000;

/// Why a tree has no solid.
#[derive(Clone, Copy, Debug)]
pub enum TreeStop {
    /// The solid of the node of this number is above 50,000 in size.
    TooBig(u32),
    /// The sizes up to the node of this number are above 500,000 together.
    SumTooBig(u32),
    /// Memory ran out.
    NoMemory,
}

impl From<NoMemory> for TreeStop {
    ghost use Rattle.bsp_boolean.specs.declared.tree_solids.TreeStop.TheVariants.{NoMemory};

    ghost from_gives = { λ _ stop. stop ≡ NoMemory };

    fn from(_refused: NoMemory) -> TreeStop {
        TreeStop::NoMemory
    }
}

/// The solids of the first nodes in order of number, and what they are in size together.
#[derive(Drop)]
pub struct FirstSolids {
    solids: Vec<Solid>,
    sum: u64,
}

/// The solid of the last node of a store, made node by node in order of number: a leaf's by itself, and a
/// join's by one `build`. `TooBig` and `SumTooBig` come exactly at the first node that passes a limit.
pub fn tree_solid<B: Builder>(
    alloc: Global,
    store: &CsgStore,
    builder: &mut B,
) -> Result<Solid, TreeStop>
    requires some { 0 < length store.now }
    requires counts { B.builds builder.old ≤ 2 ^ 46 }
    ensures solid { IfOk result
        (λ s. tree_of s ≡ solid_of (tree_numbered store.now (length store.now))) }
    ensures within { OnOk result (AreWithinSizeLimits store.now) }
    ensures stop { IfErr result (IsTreeStop store.now) }
    ensures counted { OnOk result (B.builds builder.new ≡ B.builds builder.old + join_count store.now) }
    ensures bounded { B.builds builder.new ≤ B.builds builder.old + join_count store.now }
{
    let mut growth = FirstSolids {
        solids: Vec::new(alloc),
        sum: 0,
    };
    for index in 0..store.len() {
        grow(alloc, store, index + 1, &mut growth, builder)?;
    }
    Ok(growth.solids.pop().unwrap())
}

// Appends the solid of the node of this number, those before it being there.
fn grow<B: Builder>(
    alloc: Global,
    store: &CsgStore,
    number: u32,
    growth: &mut FirstSolids,
    builder: &mut B,
) -> Result<(), TreeStop>
    requires number { IsNumberIn store.now number }
    requires grown { HasFirstSolids store.now (number - 1) growth.old }
    requires counts { B.builds builder.old < 2 ^ 48 }
    ensures grown { OnOk result (HasFirstSolids store.now number growth.new) }
    ensures stop { IfErr result (IsTreeStop store.now) }
    ensures counted { B.builds builder.new + join_count (take (number - 1) store.now)
        ≡ B.builds builder.old + join_count (take number store.now) }
{
    let solid = match node_solid(alloc, store.node(number), &growth.solids, builder) {
        Ok(solid) => solid,
        Err(BuildStop::TooBig) => return Err(TreeStop::TooBig(number)),
        Err(BuildStop::NoMemory) => return Err(TreeStop::NoMemory),
    };
    let size = solid.count();
    if size > MOST_OF_ALL - growth.sum {
        return Err(TreeStop::SumTooBig(number));
    }
    growth.sum += size;
    if growth.solids.push(solid).is_err() {
        return Err(TreeStop::NoMemory);
    }
    Ok(())
}

// The solid of one node, over those of the nodes before it.
fn node_solid<B: Builder>(
    alloc: Global,
    node: CsgNode<'_>,
    solids: &[Solid],
    builder: &mut B,
) -> Result<Solid, BuildStop>
    requires over { IsOverSolids solids.now node }
    requires counts { B.builds builder.old < 2 ^ 48 }
    ensures built { IsBuilt (solid_over (map tree_of solids.now) node.entry) most_solid_size result }
    ensures counted { B.builds builder.new ≡ B.builds builder.old + merges_of node.entry }
{
    match node {
        CsgNode::Leaf(planes) => leaf_solid(alloc, planes, MOST_OF_ONE),
        CsgNode::Join(op, left, right) => {
            let left = &solids[left as usize - 1];
            let right = &solids[right as usize - 1];
            builder.build(alloc, op, left, right, MOST_OF_ONE)
        }
    }
}
