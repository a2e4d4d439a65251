//! The nodes of a store that an earlier one has as well.

ghost use Rattle.std.specs.Prelude.{List, length, IfOk};
ghost use Rattle.csg_tree.specs.HalfSpaceTrees.{Tree};
ghost use Rattle.csg_tree.specs.Numberings.{AreNumberedTrees};
ghost use Rattle.csg_tree.specs.Nodes.{node_of, tree_of_node, IsOver};
ghost use Rattle.csg_tree.specs.Earlier.{AreFoundByKey, IsNumberOf, IsNodeAmong, AreNumbersIn, AreAllNumbersIn};

use crate::interner::{NodeKey, key_of_node, look_up, put};
use crate::node::CsgNode;
use crate::store::CsgStore;
use plain_text::NoMemory;
use std::alloc::Global;
use std::collections::BTreeMap;

impl CsgStore {
    /// The numbers that the trees of the nodes have in an earlier store, in order of number, where they are
    /// trees of that store.
    pub fn numbers_in(
        &self,
        alloc: Global,
        earlier: &CsgStore,
    ) -> Result<Vec<Option<u32>>, NoMemory>
        ensures { IfOk result (λ v. AreAllNumbersIn earlier.now self.now v.items) }
    {
        let found = numbers_by_key(alloc, earlier)?;
        let mut numbers = Vec::with_capacity(alloc, self.len() as usize)?;
        for before in 0..self.len() {
            let number = number_in(alloc, self.node(before + 1), &numbers, &found)?;
            numbers.push(number)?;
        }
        Ok(numbers)
    }
}

// The numbers of the nodes of a store by their keys.
fn numbers_by_key(alloc: Global, store: &CsgStore) -> Result<BTreeMap<NodeKey, u32>, NoMemory>
    ensures { IfOk result (AreFoundByKey store.now (length store.now)) }
{
    let mut found = BTreeMap::new(alloc);
    for before in 0..store.len() {
        let key = key_of_node(alloc, store.node(before + 1))?;
        put(&mut found, key, before + 1)?;
    }
    Ok(found)
}

// The number of a node's tree among those that are found, where the numbers of its two trees are known.
fn number_in(
    alloc: Global,
    node: CsgNode<'_>,
    numbers: &[Option<u32>],
    found: &BTreeMap<NodeKey, u32>,
) -> Result<Option<u32>, NoMemory>
    requires { IsOver numbers.now (node_of node) }
    ensures { (earlier trees : List Tree) → AreFoundByKey earlier (length earlier) found.now →
        AreNumbersIn earlier trees numbers.now →
        IfOk result (IsNumberOf earlier (tree_of_node trees (node_of node.entry))) }
{
    match among(node, numbers) {
        Some(other) => {
            let key = key_of_node(alloc, other)?;
            Ok(look_up(found, &key))
        }
        None => Ok(None),
    }
}

// A node with the numbers of its two trees in an earlier store, where they have one.
fn among<'a>(node: CsgNode<'a>, numbers: &[Option<u32>]) -> Option<CsgNode<'a>>
    requires { IsOver numbers.now (node_of node) }
    ensures { (earlier trees : List Tree) → AreNumberedTrees earlier →
        AreNumbersIn earlier trees numbers.now →
        IsNodeAmong earlier (tree_of_node trees (node_of node.entry)) result }
{
    match node {
        CsgNode::Leaf(planes) => Some(CsgNode::Leaf(planes)),
        CsgNode::Join(op, left, right) => {
            let left = numbers[left as usize - 1]?;
            let right = numbers[right as usize - 1]?;
            Some(CsgNode::Join(op, left, right))
        }
    }
}
