//! Distinct nodes, each found by what it is.

ghost use Rattle.std.specs.Prelude.{◌≡◌, ℕ, List, ◌+◌, ◌^◌, ◌<◌, ◌≤◌, ◌∷◌, ◌++◌, [], cond, Some, IfOk, OnOk, length, map};
ghost use Rattle.std.specs.BTreeMap.{get, is_at};
ghost use Rattle.csg_tree.specs.declared.interner.NodeKey.{NodeKey};
ghost use Rattle.csg_tree.specs.Numberings.{HasNumber};
ghost use Rattle.csg_tree.specs.Nodes.{node_of, trees_of_nodes, tree_of_node, IsOver};
ghost use Rattle.csg_tree.specs.Interned.{key_cmp, node_of_key, plane_of_numbers, AreInterned, GrowBy, TreesStay};

use crate::node::{CsgNode, StoredNode};
use crate::op::Op;
use plain_text::NoMemory;
use plane_predicate::Plane;
use std::alloc::Global;
use std::collections::BTreeMap;

/// The four numbers of a plane, in an order.
#[derive(Clone, Copy, PartialEq, Eq, PartialOrd, Ord)]
pub struct PlaneNumbers {
    pub a: i64,
    pub b: i64,
    pub c: i64,
    pub d: i64,
}

/// What a node is found by: its planes, or its operation and the numbers of its two trees.
#[derive(PartialEq, Eq, PartialOrd, Ord, Drop)]
pub enum NodeKey {
    Leaf(Vec<PlaneNumbers>),
    Join(Op, u32, u32),
}

/// Distinct nodes in order of number, with the number of each by its key.
#[derive(Drop)]
pub struct Interner {
    pub nodes: Vec<StoredNode>,
    pub found: BTreeMap<NodeKey, u32>,
}

impl Interner {
    /// No nodes.
    pub fn new(alloc: Global) -> Interner
        ensures interned { AreInterned result.found result.nodes.items }
        ensures none { result.nodes.items ≡ [] }
    {
        Interner {
            nodes: Vec::new(alloc),
            found: BTreeMap::new(alloc),
        }
    }

    /// The number of a node, which becomes the last one where it is not among the nodes.
    pub fn number_of(&mut self, alloc: Global, node: CsgNode<'_>) -> Result<u32, NoMemory>
        requires interned { AreInterned self.old.found self.old.nodes.items }
        requires over { IsOver (trees_of_nodes self.old.nodes.items) (node_of node) }
        requires few { length self.old.nodes.items + 1 < 2 ^ 32 }
        ensures interned { OnOk result (AreInterned self.new.found self.new.nodes.items) }
        ensures number { IfOk result (λ number. HasNumber (trees_of_nodes self.new.nodes.items)
            (tree_of_node (trees_of_nodes self.old.nodes.items) (node_of node.entry)) number) }
        ensures stay { OnOk result (TreesStay (trees_of_nodes self.old.nodes.items)
            (trees_of_nodes self.new.nodes.items)) }
        ensures grown { OnOk result (GrowBy self.old.nodes.items self.new.nodes.items
            (tree_of_node (trees_of_nodes self.old.nodes.items) (node_of node.entry) ∷ [])) }
    {
        let key = key_of_node(alloc, node)?;
        match look_up(&self.found, &key) {
            Some(number) => Ok(number),
            None => {
                let number = self.add(alloc, key, node)?;
                Ok(number)
            }
        }
    }

    // Adds a node with a key that is not found, and answers its number.
    fn add(&mut self, alloc: Global, key: NodeKey, node: CsgNode<'_>) -> Result<u32, NoMemory>
        requires few { length self.old.nodes.items + 1 < 2 ^ 32 }
        ensures nodes { OnOk result (self.new.nodes.items
            ≡ self.old.nodes.items ++ node_of node.entry ∷ []) }
        ensures number { IfOk result (λ number. number ≡ length self.old.nodes.items + 1) }
        ensures found { OnOk result ((other : NodeKey) → get key_cmp self.new.found other
            ≡ cond (is_at (key_cmp key) other) (Some (length self.old.nodes.items + 1))
            (get key_cmp self.old.found other)) }
    {
        let stored = StoredNode::of(alloc, node)?;
        self.nodes.push(stored)?;
        let number = self.nodes.len() as u32;
        put(&mut self.found, key, number)?;
        Ok(number)
    }
}

/// The number that is found by a key.
pub fn look_up(found: &BTreeMap<NodeKey, u32>, key: &NodeKey) -> Option<u32>
    ensures { result ≡ get key_cmp found.now key.now }
{
    found.get(key).copied()
}

/// Lets a number be found by a key.
pub fn put(found: &mut BTreeMap<NodeKey, u32>, key: NodeKey, number: u32) -> Result<(), NoMemory>
    ensures { OnOk result ((other : NodeKey) → get key_cmp found.new other
        ≡ cond (is_at (key_cmp key) other) (Some number) (get key_cmp found.old other)) }
{
    found.insert(key, number)?;
    Ok(())
}

/// The key of a node.
pub fn key_of_node(alloc: Global, node: CsgNode<'_>) -> Result<NodeKey, NoMemory>
    ensures { IfOk result (λ key. node_of_key key ≡ node_of node.entry) }
{
    match node {
        CsgNode::Leaf(planes) => Ok(NodeKey::Leaf(plane_numbers(alloc, planes)?)),
        CsgNode::Join(op, left, right) => Ok(NodeKey::Join(op, left, right)),
    }
}

// The numbers of planes.
fn plane_numbers(alloc: Global, planes: &[Plane]) -> Result<Vec<PlaneNumbers>, NoMemory>
    ensures { IfOk result (λ numbers. map plane_of_numbers numbers.items ≡ planes.now) }
{
    let mut numbers = Vec::with_capacity(alloc, planes.len())?;
    for plane in planes {
        numbers.push(numbers_of(plane))?;
    }
    Ok(numbers)
}

// The four numbers of a plane.
fn numbers_of(plane: &Plane) -> PlaneNumbers
    ensures { plane_of_numbers result ≡ plane.now }
{
    PlaneNumbers {
        a: plane.a,
        b: plane.b,
        c: plane.c,
        d: plane.d,
    }
}
