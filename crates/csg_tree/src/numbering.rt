//! The nodes of parts in order of height.

ghost use Rattle.std.specs.Prelude.{◌≡◌, ℕ, ◌+◌, ◌^◌, ◌<◌, ◌∷◌, [], IfOk, OnOk, length, map};
ghost use Rattle.csg_tree.specs.Numberings.{by_height, distinct_trees, tree_numbered, HaveOneNumber};
ghost use Rattle.csg_tree.specs.Nodes.{node_of, trees_of_nodes, trees_of_lent_nodes, AreOverEarlier, AreLentOverEarlier, IsOver};
ghost use Rattle.csg_tree.specs.Levels.{level_at, numbers_of_height};
ghost use Rattle.csg_tree.specs.Interned.{renumbered_node, AreInterned, ArePlaced, IsLevelReady, GrowBy, IsNumbering, IsPartReady, IsPartNumbered, StayPlaced};

use crate::interner::Interner;
use crate::node::{CsgNode, StoredNode};
use plain_text::NoMemory;
use std::alloc::Global;

/// The distinct trees of parts as nodes, the lower ones first and those of one height in order of
/// appearance. The levels have the numbers of the parts by height.
pub fn nodes_of_levels(
    alloc: Global,
    parts: &[CsgNode<'_>],
    levels: &[Vec<u32>],
) -> Result<Vec<StoredNode>, NoMemory>
    requires linked { AreLentOverEarlier parts.now }
    requires few { length parts.now < 2 ^ 32 }
    requires levels { (h : ℕ) →
        level_at levels.now h ≡ numbers_of_height h (trees_of_lent_nodes parts.now) }
    ensures trees { IfOk result (λ nodes. trees_of_nodes nodes.items
        ≡ distinct_trees (by_height (length levels.now) (trees_of_lent_nodes parts.now))) }
    ensures linked { IfOk result (λ nodes. AreOverEarlier nodes.items) }
    ensures once { IfOk result (λ nodes. HaveOneNumber (trees_of_nodes nodes.items)) }
{
    let mut numbers = vec![in alloc; 0; parts.len()]?;
    let mut interner = Interner::new(alloc);
    for level in levels {
        number_level(alloc, parts, level, &mut numbers, &mut interner)?;
    }
    Ok(interner.nodes)
}

// Numbers the parts of one level, where the two parts of each of them are numbered.
fn number_level(
    alloc: Global,
    parts: &[CsgNode<'_>],
    level: &[u32],
    numbers: &mut Vec<u32>,
    interner: &mut Interner,
) -> Result<(), NoMemory>
    requires numbering { IsNumbering parts.now numbers.old.items interner.old.found
        interner.old.nodes.items }
    requires ready { IsLevelReady parts.now (trees_of_nodes interner.old.nodes.items)
        numbers.old.items
        level.now }
    requires few { length interner.old.nodes.items + length level.now < 2 ^ 32 }
    ensures room { length numbers.new.items ≡ length parts.now }
    ensures interned { OnOk result (AreInterned interner.new.found interner.new.nodes.items) }
    ensures placed { OnOk result (ArePlaced (trees_of_lent_nodes parts.now)
        (trees_of_nodes interner.new.nodes.items) numbers.new.items level.now) }
    ensures stay { OnOk result (StayPlaced (trees_of_lent_nodes parts.now)
        (trees_of_nodes interner.old.nodes.items) numbers.old.items
        (trees_of_nodes interner.new.nodes.items)
        numbers.new.items) }
    ensures grown { OnOk result (GrowBy interner.old.nodes.items interner.new.nodes.items
        (map (tree_numbered (trees_of_lent_nodes parts.now)) level.now)) }
{
    for number in level {
        number_part(alloc, parts, *number, numbers, interner)?;
    }
    Ok(())
}

// Numbers a part, where its two parts are numbered.
fn number_part(
    alloc: Global,
    parts: &[CsgNode<'_>],
    number: u32,
    numbers: &mut Vec<u32>,
    interner: &mut Interner,
) -> Result<(), NoMemory>
    requires numbering { IsNumbering parts.now numbers.old.items interner.old.found
        interner.old.nodes.items }
    requires ready { IsPartReady parts.now (trees_of_nodes interner.old.nodes.items)
        numbers.old.items
        number }
    requires few { length interner.old.nodes.items + 1 < 2 ^ 32 }
    ensures room { length numbers.new.items ≡ length parts.now }
    ensures interned { OnOk result (AreInterned interner.new.found interner.new.nodes.items) }
    ensures placed { OnOk result (IsPartNumbered (trees_of_lent_nodes parts.now)
        (trees_of_nodes interner.new.nodes.items) numbers.new.items number) }
    ensures stay { OnOk result (StayPlaced (trees_of_lent_nodes parts.now)
        (trees_of_nodes interner.old.nodes.items) numbers.old.items
        (trees_of_nodes interner.new.nodes.items)
        numbers.new.items) }
    ensures grown { OnOk result (GrowBy interner.old.nodes.items interner.new.nodes.items
        (tree_numbered (trees_of_lent_nodes parts.now) number ∷ [])) }
{
    let index = number as usize - 1;
    let node = linked(parts[index], numbers);
    numbers[index] = interner.number_of(alloc, node)?;
    Ok(())
}

// A part with the numbers of its two trees among the nodes.
fn linked<'a>(part: CsgNode<'a>, numbers: &[u32]) -> CsgNode<'a>
    requires { IsOver numbers.now (node_of part) }
    ensures { node_of result ≡ renumbered_node numbers.now (node_of part.entry) }
{
    match part {
        CsgNode::Leaf(planes) => CsgNode::Leaf(planes),
        CsgNode::Join(op, left, right) => CsgNode::Join(
            op,
            numbers[left as usize - 1],
            numbers[right as usize - 1],
        ),
    }
}
