//! The parts of a tree: a node for each occurrence of a subtree.

ghost use Rattle.std.specs.Prelude.{◌≡◌, ◌+◌, ◌^◌, ◌<◌, ◌≤◌, ◌∷◌, ◌++◌, [], IfOk, OnOk, length};
ghost use Rattle.csg_tree.specs.Trees.{plain_tree_of};
ghost use Rattle.csg_tree.specs.ProperTrees.{HasFullJoins, IsSomething, subtree_count};
ghost use Rattle.csg_tree.specs.Numberings.{occurrences};
ghost use Rattle.csg_tree.specs.Nodes.{node_of, tree_of_node, trees_of_lent_nodes, AreLentOverEarlier, IsOver};

use crate::node::CsgNode;
use crate::tree::CsgTree;
use plain_text::NoMemory;
use std::alloc::Global;

/// A node for each occurrence of a subtree other than Nothing, from left to right, a join behind its
/// two trees. Nodes are numbered from 1.
pub fn parts_of(alloc: Global, tree: &CsgTree) -> Result<Vec<CsgNode<'_>>, NoMemory>
    requires joins { HasFullJoins (plain_tree_of tree.now) }
    requires few { subtree_count (plain_tree_of tree.now) < 2 ^ 32 }
    ensures trees { IfOk result (λ parts. trees_of_lent_nodes parts.items
        ≡ occurrences (plain_tree_of tree.now)) }
    ensures linked { IfOk result (λ parts. AreLentOverEarlier parts.items) }
    ensures few { IfOk result (λ parts. length parts.items < 2 ^ 32) }
{
    let mut parts = Vec::with_capacity(alloc, count_of(tree) as usize)?;
    match tree {
        CsgTree::Nothing => {}
        CsgTree::Leaf(_) | CsgTree::Join(_, _, _) => {
            push_parts(tree, &mut parts)?;
        }
    }
    Ok(parts)
}

// How many subtrees a tree has, with itself.
fn count_of(tree: &CsgTree) -> u32
    requires { subtree_count (plain_tree_of tree.now) < 2 ^ 32 }
    ensures { result ≡ subtree_count (plain_tree_of tree.now) }
{
    match tree {
        CsgTree::Nothing | CsgTree::Leaf(_) => 1,
        CsgTree::Join(_, left, right) => 1 + count_of(left) + count_of(right),
    }
}

// Appends the parts of a tree, and answers the number of the last of them.
fn push_parts<'a>(tree: &'a CsgTree, parts: &mut Vec<CsgNode<'a>>) -> Result<u32, NoMemory>
    requires something { IsSomething (plain_tree_of tree.now) }
    requires joins { HasFullJoins (plain_tree_of tree.now) }
    requires linked { AreLentOverEarlier parts.old.items }
    requires few { length parts.old.items + subtree_count (plain_tree_of tree.now) < 2 ^ 32 }
    ensures trees { OnOk result (trees_of_lent_nodes parts.new.items
        ≡ trees_of_lent_nodes parts.old.items
        ++ occurrences (plain_tree_of tree.now)) }
    ensures linked { OnOk result (AreLentOverEarlier parts.new.items) }
    ensures more { OnOk result (length parts.new.items ≡ length parts.old.items
        + subtree_count (plain_tree_of tree.now)) }
    ensures last { IfOk result (λ number. number ≡ length parts.new.items) }
{
    match tree {
        CsgTree::Nothing => unreachable!(),
        CsgTree::Leaf(planes) => push_node(CsgNode::Leaf(planes.items()), parts),
        CsgTree::Join(op, left, right) => {
            let left = push_parts(left, parts)?;
            let right = push_parts(right, parts)?;
            push_node(CsgNode::Join(*op, left, right), parts)
        }
    }
}

// Appends a node over the nodes before it, and answers its number.
fn push_node<'a>(node: CsgNode<'a>, parts: &mut Vec<CsgNode<'a>>) -> Result<u32, NoMemory>
    requires over { IsOver (trees_of_lent_nodes parts.old.items) (node_of node) }
    requires linked { AreLentOverEarlier parts.old.items }
    requires few { length parts.old.items + 1 < 2 ^ 32 }
    ensures trees { OnOk result (trees_of_lent_nodes parts.new.items
        ≡ trees_of_lent_nodes parts.old.items
        ++ tree_of_node (trees_of_lent_nodes parts.old.items) (node_of node.entry) ∷ []) }
    ensures linked { OnOk result (AreLentOverEarlier parts.new.items) }
    ensures more { OnOk result (length parts.new.items ≡ length parts.old.items + 1) }
    ensures last { IfOk result (λ number. number ≡ length parts.new.items) }
{
    parts.push(node)?;
    Ok(parts.len() as u32)
}
