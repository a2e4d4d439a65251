//! Merges of solids.

ghost use Rattle.std.specs.Prelude.{◌≡◌, ◌-◌, ◌^◌, IfOk};
ghost use Rattle.bsp_tree.specs.Trees.{BspTree};
ghost use Rattle.bsp_tree.specs.Shapes.{tree_of};
ghost use Rattle.bsp_boolean.specs.Merges.{merge_of, IsOperationOn};
ghost use Rattle.bsp_boolean.specs.Branches.{inside_decides, exchanges_right_sides};
ghost use Rattle.bsp_boolean.specs.LeafSolids.{IsBuilt};

use crate::BuildStop;
use crate::branches::Merge;
use bsp_tree::{Growing, MovedNodes, Solid, finish, solid_over};
use csg_tree::Op;
use plain_text::NoMemory;
use plane_table::{PlaneTable, join};
use std::alloc::Global;

/// The merge of two solids of one cell: the operation on them, at each point of the cell off all
/// their planes. Both solids are lent.
pub fn merge(alloc: Global, op: Op, left: &Solid, right: &Solid) -> Result<Solid, NoMemory>
    ensures same { IfOk result
        (λ s. tree_of s ≡ merge_of op (tree_of left.now) (tree_of right.now)) }
    ensures operation { IfOk result
        (λ s. IsOperationOn op (tree_of left.now) (tree_of right.now) (tree_of s)) }
{
    in_all_memory(merge_within(alloc, op, left, right, u64::MAX))
}

/// The same solid, where its size is at most `most`. `TooBig` comes exactly where it is above, as
/// soon as that is known: no more than `most` nodes and edges of the result are put together. What a
/// merge holds besides, the right solid over the joined table and its parts, may be larger.
#[tactic(auto, using(crate::proofs::Merged::is_operation))]
pub fn merge_within(
    alloc: Global,
    op: Op,
    left: &Solid,
    right: &Solid,
    most: u64,
) -> Result<Solid, BuildStop>
    ensures built { IsBuilt (merge_of op (tree_of left.now) (tree_of right.now)) most result }
    ensures operation { IfOk result
        (λ s. IsOperationOn op (tree_of left.now) (tree_of right.now) (tree_of s)) }
{
    merged_within(alloc, op, left, right, most)
}

// What was built within the limit of all numbers. A solid above that limit is larger than any
// memory: each node and each edge takes more than one byte.
fn in_all_memory(built: Result<Solid, BuildStop>) -> Result<Solid, NoMemory>
    requires { (wanted : BspTree) × IsBuilt wanted (2 ^ 64 - 1) built }
    ensures { IfOk result (λ s. built ≡ Ok s) }
{
    match built {
        Ok(solid) => Ok(solid),
        Err(BuildStop::TooBig | BuildStop::NoMemory) => Err(NoMemory),
    }
}

// The merge, by the definition: the left solid is gone through, its faces over the joined table, and the
// right one, which stands over that table, is divided by them.
fn merged_within(
    alloc: Global,
    op: Op,
    left: &Solid,
    right: &Solid,
    most: u64,
) -> Result<Solid, BuildStop>
    ensures { IsBuilt (merge_of op (tree_of left.now) (tree_of right.now)) most result }
{
    let (left_planes, left_forest, left_root) = left.parts();
    let (right_planes, right_forest, right_root) = right.parts();
    let joined = join(alloc, left_planes, right_planes)?;
    let table = PlaneTable::of(alloc, joined.planes)?;
    let left_nodes = MovedNodes::of(alloc, &table, left, &joined.left)?;
    let mut right_nodes = solid_over(alloc, &table, right, &joined.right)?;
    let mut growing = Growing::new(alloc, &table, most);
    let nodes = left_forest.len().saturating_add(right_forest.len());
    growing.reserve(room(nodes, most))?;
    let merge = Merge {
        left: &left_nodes,
        in_decides: is_union(op),
        is_exchanged: is_difference(op),
    };
    let root = merge.branch(alloc, &mut right_nodes, &mut growing, left_root, right_root)?;
    Ok(finish(alloc, growing, root)?)
}

// For how many nodes a merge of the given number takes room before it begins: it may have more nodes than both solids, and one
// of at most `most` in size has no more than a quarter of that, since a node has three edges at least. What is left of the room
// in the end is given back.
fn room(nodes: usize, most: u64) -> usize {
    let twice = nodes.saturating_mul(2);
    let limit = most / 4;
    if (twice as u64) < limit {
        twice
    } else {
        limit as usize
    }
}

// Whether an operation is a union, in which the leaf inside decides.
fn is_union(op: Op) -> bool
    ensures { result ≡ inside_decides op }
{
    match op {
        Op::Union => true,
        Op::Intersection | Op::Difference => false,
    }
}

// Whether an operation is a difference, in which the right solid's inside and outside are exchanged.
fn is_difference(op: Op) -> bool
    ensures { result ≡ exchanges_right_sides op }
{
    match op {
        Op::Difference => true,
        Op::Union | Op::Intersection => false,
    }
}
