//! Trees by number.

ghost use Rattle.std.specs.Prelude.{◌≡◌, IfOk, length, All};
ghost use Rattle.csg_tree.specs.Trees.{plain_tree_of};
ghost use Rattle.csg_tree.specs.ProperTrees.{IsProper};
ghost use Rattle.csg_tree.specs.Numberings.{nodes_of, tree_numbered, AreNumberedTrees, IsNumberIn};
ghost use Rattle.csg_tree.specs.Nodes.{IsNodeOf};

use crate::levels::levels_of;
use crate::node::{CsgNode, StoredNode};
use crate::numbering::nodes_of_levels;
use crate::parts::parts_of;
use crate::tree::CsgTree;
use plain_text::NoMemory;
use std::alloc::Global;
use std::marker::Model;

/// The distinct subtrees of a tree as nodes that are linked by number, which contracts see as the
/// list of these subtrees in order of number. They are proper trees.
#[derive(Drop)]
pub struct CsgStore {
    nodes: Vec<StoredNode>,
}

impl Model for CsgStore {
    ghost use Rattle.std.specs.Prelude.{List};
    ghost use Rattle.std.specs.Coded.{coded_list};
    ghost use Rattle.csg_tree.specs.HalfSpaceTrees.{Tree};
    ghost use Rattle.csg_tree.specs.Codes.{coded_tree};

    ghost Value = { List Tree };

    ghost coded = { coded_list coded_tree };

    ghost use Rattle.csg_tree.specs.Nodes.{trees_of_nodes, IsStore};

    ghost view = { λ s. trees_of_nodes s.nodes.items };

    ghost invariant = { λ s. IsStore s.nodes.items };
}

impl CsgStore {
    /// The distinct subtrees of a proper tree other than Nothing, each as one node. Nodes are
    /// numbered from 1 by height, and then by first appearance.
    pub fn intern(alloc: Global, tree: &CsgTree) -> Result<CsgStore, NoMemory>
        requires { IsProper (plain_tree_of tree.now) }
        ensures { IfOk result (λ store. store ≡ nodes_of (plain_tree_of tree.now)) }
    {
        let parts = parts_of(alloc, tree)?;
        let levels = levels_of(alloc, &parts)?;
        let nodes = nodes_of_levels(alloc, &parts, &levels)?;
        Ok(CsgStore { nodes })
    }

    /// The number of nodes.
    pub fn len(&self) -> u32
        ensures is { result ≡ length self.now }
        ensures proper { All IsProper self.now }
        ensures numbered { AreNumberedTrees self.now }
    {
        self.nodes.len() as u32
    }

    /// The node of a number, from 1. The numbers of its two trees are smaller.
    pub fn node(&self, number: u32) -> CsgNode<'_>
        requires { IsNumberIn self.now number }
        ensures node { IsNodeOf self.now number result }
        ensures proper { IsProper (tree_numbered self.now number) }
    {
        self.nodes[number as usize - 1].as_node()
    }
}
