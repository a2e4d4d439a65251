//! Trees of constructive solid geometry.

ghost use Rattle.std.specs.Prelude.{◌≡◌, IfOk};
ghost use Rattle.csg_tree.specs.Trees.{plain_tree_of};

use crate::op::Op;
use crate::planes::Planes;
use plain_text::NoMemory;
use std::alloc::Global;

/// A tree of constructive solid geometry: nothing, the points behind all planes of a leaf, or an
/// operation on two trees.
#[derive(Drop)]
pub enum CsgTree {
    Nothing,
    Leaf(Planes),
    Join(Op, Box<CsgTree>, Box<CsgTree>),
}

impl CsgTree {
    /// An equal tree.
    pub fn copy(&self, alloc: Global) -> Result<CsgTree, NoMemory>
        ensures { IfOk result (λ tree. plain_tree_of tree ≡ plain_tree_of self.now) }
    {
        match self {
            CsgTree::Nothing => Ok(CsgTree::Nothing),
            CsgTree::Leaf(planes) => {
                let items = Vec::from_slice(alloc, planes.items())?;
                Ok(CsgTree::Leaf(Planes::of(items)))
            }
            CsgTree::Join(op, left, right) => {
                let left = Box::new(alloc, left.copy(alloc)?)?;
                let right = Box::new(alloc, right.copy(alloc)?)?;
                Ok(CsgTree::Join(*op, left, right))
            }
        }
    }
}
