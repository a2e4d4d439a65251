//! Nodes that are linked by number.

ghost use Rattle.std.specs.Prelude.{◌≡◌, IfOk};
ghost use Rattle.csg_tree.specs.Nodes.{node_of};

use crate::op::Op;
use crate::planes::Planes;
use plain_text::NoMemory;
use plane_predicate::Plane;
use std::alloc::Global;

/// A node of trees that are linked by number: the planes of a leaf, or an operation and the numbers
/// of its two trees.
#[derive(Clone, Copy)]
pub enum CsgNode<'a> {
    Leaf(&'a [Plane]),
    Join(Op, u32, u32),
}

/// A node that is kept.
#[derive(Drop)]
pub enum StoredNode {
    Leaf(Planes),
    Join(Op, u32, u32),
}

impl StoredNode {
    /// The node of a node that is lent, with a copy of its planes.
    pub fn of(alloc: Global, node: CsgNode<'_>) -> Result<StoredNode, NoMemory>
        ensures { IfOk result (λ stored. stored ≡ node_of node.entry) }
    {
        match node {
            CsgNode::Leaf(planes) => {
                let items = Vec::from_slice(alloc, planes)?;
                Ok(StoredNode::Leaf(Planes::of(items)))
            }
            CsgNode::Join(op, left, right) => Ok(StoredNode::Join(op, left, right)),
        }
    }

    /// The node, with its planes lent.
    pub fn as_node(&self) -> CsgNode<'_>
        ensures { node_of result ≡ self.now }
    {
        match self {
            StoredNode::Leaf(planes) => CsgNode::Leaf(planes.items()),
            StoredNode::Join(op, left, right) => CsgNode::Join(*op, *left, *right),
        }
    }
}
