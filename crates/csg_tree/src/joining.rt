//! How trees are joined.

ghost use Rattle.std.specs.Prelude.{◌≡◌, ◌≤◌, ◌<◌, IfOk, OnOk, map, length, take, drop};
ghost use Rattle.std.specs.Vec.Iter.{into_iter_items};
ghost use Rattle.csg_tree.specs.declared.op.Op.{Op};
ghost use Rattle.csg_tree.specs.Trees.{plain_tree_of};
ghost use Rattle.csg_tree.specs.Joins.{balanced_of, join_of};

use crate::op::Op;
use crate::tree::CsgTree;
use plain_text::NoMemory;
use std::alloc::Global;
use std::vec::IntoIter;

/// The join of two trees, without Nothing: in a union Nothing gives the other tree, in an
/// intersection Nothing, Nothing minus anything is Nothing, and a tree minus Nothing is the tree.
/// At `NoMemory` both trees are dropped.
pub fn join(alloc: Global, op: Op, left: CsgTree, right: CsgTree) -> Result<CsgTree, NoMemory>
    ensures { IfOk result (λ tree. plain_tree_of tree
        ≡ join_of op (plain_tree_of left) (plain_tree_of right)) }
{
    match (op, left, right) {
        (Op::Union, CsgTree::Nothing, other) | (Op::Union, other, CsgTree::Nothing) => Ok(other),
        (Op::Intersection | Op::Difference, CsgTree::Nothing, _)
        | (Op::Intersection, _, CsgTree::Nothing) => Ok(CsgTree::Nothing),
        (Op::Difference, left, CsgTree::Nothing) => Ok(left),
        (op, left, right) => {
            let left = Box::new(alloc, left)?;
            let right = Box::new(alloc, right)?;
            Ok(CsgTree::Join(op, left, right))
        }
    }
}

/// Trees joined by halves: none gives Nothing, one gives itself, and more give the join of the
/// first half of them, rounded down, and the rest. At `NoMemory` all trees are dropped.
pub fn balanced(alloc: Global, op: Op, list: Vec<CsgTree>) -> Result<CsgTree, NoMemory>
    ensures { IfOk result (λ tree. plain_tree_of tree ≡ balanced_of op
        (map plain_tree_of list.items)) }
{
    let count = list.len();
    let mut trees = list.into_iter();
    join_next(alloc, op, &mut trees, count)
}

// The next trees joined by halves.
fn join_next(
    alloc: Global,
    op: Op,
    trees: &mut IntoIter<CsgTree>,
    count: usize,
) -> Result<CsgTree, NoMemory>
    requires { count ≤ length (into_iter_items trees.old) }
    ensures rest { OnOk result (into_iter_items trees.new
        ≡ drop count (into_iter_items trees.old)) }
    ensures joined { IfOk result (λ tree. plain_tree_of tree
        ≡ balanced_of op (map plain_tree_of (take count (into_iter_items trees.old)))) }
{
    if count < 2 {
        return Ok(next_or_nothing(trees, count));
    }
    let half = count / 2;
    let first = join_next(alloc, op, trees, half)?;
    let rest = join_next(alloc, op, trees, count - half)?;
    join(alloc, op, first, rest)
}

// The next tree where one is wanted, else Nothing.
fn next_or_nothing(trees: &mut IntoIter<CsgTree>, count: usize) -> CsgTree
    requires one { count < 2 }
    requires within { count ≤ length (into_iter_items trees.old) }
    ensures rest { into_iter_items trees.new ≡ drop count (into_iter_items trees.old) }
    ensures next { (by : Op) →
        plain_tree_of result
        ≡ balanced_of by (map plain_tree_of (take count (into_iter_items trees.old))) }
{
    if count == 0 {
        return CsgTree::Nothing;
    }
    match trees.next() {
        Some(tree) => tree,
        None => CsgTree::Nothing,
    }
}
