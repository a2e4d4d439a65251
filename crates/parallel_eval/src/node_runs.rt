//! Nodes of which none is over another, one after another in a store.

ghost use Rattle.std.specs.Prelude.{◌≡◌, ◌+◌, ◌^◌, ◌<◌, ◌≤◌, true, false, IfOk, OnOk, length};
ghost use Rattle.parallel_eval.specs.Runs.{IsBelow, AreRunNodes};

use csg_tree::{CsgNode, CsgStore};
use plain_text::NoMemory;
use std::alloc::Global;

// The most nodes that a run has.
const MOST_OF_RUN: u32 = 64;

/// The nodes behind the first `start` ones, up to 64, that are over these alone: none is over another
/// one of the run, so that all of them can be done at the same time.
pub fn run_nodes(alloc: Global, store: &CsgStore, start: u32) -> Result<Vec<CsgNode<'_>>, NoMemory>
    requires { start < length store.now }
    ensures nodes { IfOk result (λ v. AreRunNodes store.now start start v.items) }
    ensures some { IfOk result (λ v. 0 < length v.items) }
    ensures within { IfOk result (λ v. start + length v.items ≤ length store.now) }
    ensures few { OnOk result (length store.now < 2 ^ 32) }
{
    let mut nodes = Vec::new(alloc);
    let last = store.len().min(start.saturating_add(MOST_OF_RUN));
    for before in start..last {
        let node = store.node(before + 1);
        if !is_below(node, start) {
            break;
        }
        nodes.push(node)?;
    }
    Ok(nodes)
}

// Whether a node is over none behind the first `start` ones.
fn is_below(node: CsgNode<'_>, start: u32) -> bool
    ensures yes { result ≡ true → IsBelow start node.entry }
    ensures no { result ≡ false → IsBelow start node.entry → ⊥ }
{
    match node {
        CsgNode::Leaf(_) => true,
        CsgNode::Join(_, left, right) => left <= start && right <= start,
    }
}
