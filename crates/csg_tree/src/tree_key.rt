//! Trees as keys.

ghost use Rattle.std.specs.Prelude.{◌≡◌, IfOk};
ghost use Rattle.std.specs.Arc.{arc_value};
ghost use Rattle.csg_tree.specs.Numberings.{is_same_tree, tree_numbered, IsNumberIn};
ghost use Rattle.csg_tree.specs.TreeKeys.{name_of, IsNamedTree};

use crate::naming::name_of_node;
use crate::node::CsgNode;
use crate::store::CsgStore;
use plain_text::NoMemory;
use std::marker::Model;
use std::sync::Arc;

/// A tree as a key: a shared store with the number of a node, which contracts see as the node's
/// tree. A key keeps the SHA-256 of the tree's bytes.
#[derive(Drop)]
pub struct TreeKey {
    store: Arc<CsgStore>,
    number: u32,
    name: [u8; 32],
}

impl Model for TreeKey {
    ghost use Rattle.std.specs.Arc.{arc_value};
    ghost use Rattle.csg_tree.specs.HalfSpaceTrees.{Tree};
    ghost use Rattle.csg_tree.specs.Codes.{coded_tree};

    ghost Value = { Tree };

    ghost coded = { coded_tree };

    ghost use Rattle.csg_tree.specs.Numberings.{tree_numbered};
    ghost use Rattle.csg_tree.specs.TreeKeys.{IsNamedTree};

    ghost view = { λ k. tree_numbered (arc_value k.store) k.number };

    ghost invariant = { λ k. IsNamedTree (arc_value k.store) k.number k.name };
}

impl TreeKey {
    /// The key of a node of a store, whose name is made with it. `NoMemory` is a store that cannot be shared
    /// once more.
    pub fn of(store: &Arc<CsgStore>, number: u32) -> Result<TreeKey, NoMemory>
        requires { IsNumberIn (arc_value store.now) number }
        ensures { IfOk result (λ key. key ≡ tree_numbered (arc_value store.now) number) }
    {
        let name = name_of_node(store, number);
        TreeKey::with_name(store, number, name)
    }

    /// The key of a node of a store with this name. `NoMemory` is a store that cannot be shared once more.
    pub fn with_name(
        store: &Arc<CsgStore>,
        number: u32,
        name: [u8; 32],
    ) -> Result<TreeKey, NoMemory>
        requires { IsNamedTree (arc_value store.now) number name }
        ensures { IfOk result (λ key. key ≡ tree_numbered (arc_value store.now) number) }
    {
        Ok(TreeKey {
            store: Arc::try_clone(store)?,
            number,
            name,
        })
    }

    /// The store and the number of the node, whose tree is the key's.
    pub fn at(&self) -> (&CsgStore, u32)
        ensures within { IsNumberIn result.0.now result.1 }
        ensures tree { tree_numbered result.0.now result.1 ≡ self.now }
    {
        (&self.store, self.number)
    }

    /// The SHA-256 of the tree's bytes.
    pub fn name(&self) -> [u8; 32]
        ensures { result ≡ name_of self.now }
    {
        self.name
    }

    /// Whether two keys are the same tree. Trees with different names differ, and others are
    /// compared.
    pub fn is_same(&self, other: &TreeKey) -> bool
        ensures { result ≡ is_same_tree self.now other.now }
    {
        self.name == other.name && are_same(&self.store, self.number, &other.store, other.number)
    }
}

// Whether two nodes are the same tree.
fn are_same(store: &CsgStore, number: u32, other: &CsgStore, second: u32) -> bool
    requires first { IsNumberIn store.now number }
    requires second { IsNumberIn other.now second }
    ensures { result
        ≡ is_same_tree (tree_numbered store.now number) (tree_numbered other.now second) }
{
    match (store.node(number), other.node(second)) {
        (CsgNode::Leaf(planes), CsgNode::Leaf(more)) => planes == more,
        (CsgNode::Join(op, left, right), CsgNode::Join(by, first, last)) => {
            op == by && are_same(store, left, other, first) && are_same(store, right, other, last)
        }
        (CsgNode::Leaf(_), CsgNode::Join(..)) | (CsgNode::Join(..), CsgNode::Leaf(_)) => false,
    }
}
