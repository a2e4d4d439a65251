//! The parts of a tree by height.

ghost use Rattle.std.specs.Prelude.{◌≡◌, ℕ, ◌^◌, ◌<◌, ◌≤◌, ◌∷◌, ◌++◌, [], nat_eq, if◌then◌else◌, IfOk, OnOk, length, get_or};
ghost use Rattle.csg_tree.specs.Nodes.{node_of, trees_of_lent_nodes, AreLentOverEarlier, IsOver};
ghost use Rattle.csg_tree.specs.Levels.{height_over, level_at, numbers_of_height};

use crate::node::CsgNode;
use plain_text::NoMemory;
use std::alloc::Global;

/// The numbers of the parts of each height, the lowest height first, in ascending order.
pub fn levels_of(alloc: Global, parts: &[CsgNode<'_>]) -> Result<Vec<Vec<u32>>, NoMemory>
    requires linked { AreLentOverEarlier parts.now }
    requires few { length parts.now < 2 ^ 32 }
    ensures { IfOk result (λ levels. (h : ℕ) →
        level_at levels.items h ≡ numbers_of_height h (trees_of_lent_nodes parts.now)) }
{
    let mut heights = Vec::new(alloc);
    let mut levels = Vec::new(alloc);
    for part in parts {
        let height = height_of(*part, &heights);
        heights.push(height)?;
        put(alloc, &mut levels, height, heights.len() as u32)?;
    }
    Ok(levels)
}

// The height of a node, where the heights of the nodes before it are known.
fn height_of(node: CsgNode<'_>, heights: &[usize]) -> usize
    requires over { IsOver heights.now (node_of node) }
    requires small { (k : ℕ) → k < length heights.now → get_or heights.now k 0 < 2 ^ 63 }
    ensures { result ≡ height_over heights.now (node_of node.entry) }
{
    match node {
        CsgNode::Leaf(_) => 0,
        CsgNode::Join(_, left, right) => {
            1 + heights[left as usize - 1].max(heights[right as usize - 1])
        }
    }
}

// Puts a number at the end of the level of a height, which may be the first above all levels.
fn put(
    alloc: Global,
    levels: &mut Vec<Vec<u32>>,
    height: usize,
    number: u32,
) -> Result<(), NoMemory>
    requires { height ≤ length levels.old.items }
    ensures level { OnOk result ((h : ℕ) → level_at levels.new.items h
        ≡ (if nat_eq height h then level_at levels.old.items h ++ number ∷ []
        else level_at levels.old.items h)) }
    ensures more { OnOk result (length levels.old.items ≤ length levels.new.items) }
    ensures within { OnOk result (height < length levels.new.items) }
{
    if height == levels.len() {
        levels.push(Vec::new(alloc))?;
    }
    append(levels, height, number)
}

// Puts a number at the end of one of the levels.
fn append(levels: &mut Vec<Vec<u32>>, height: usize, number: u32) -> Result<(), NoMemory>
    requires { height < length levels.old.items }
    ensures level { OnOk result ((h : ℕ) → level_at levels.new.items h
        ≡ (if nat_eq height h then level_at levels.old.items h ++ number ∷ []
        else level_at levels.old.items h)) }
    ensures more { length levels.new.items ≡ length levels.old.items }
{
    levels[height].push(number)?;
    Ok(())
}
