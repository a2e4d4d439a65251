//! Phrases that ask what a tree is: its bytes, its nodes by number, its solid and its export.

use crate::proper::ProperTree;
use crate::written::{put_tree, sign_of};
use bsp_boolean::{PlainBuilder, TreeStop, tree_solid};
use case_lines::{CaseStop, found, put, put_number, put_stroked, unit_of};
use csg_tree::{CsgNode, CsgStore, TreeKey};
use export_limits::PassedLimit;
use plane_predicate::Unit;
use std::alloc::Global;
use std::sync::Arc;
use tree_export::{TreeExport, export_tree};

#[derive(Clone, Copy)]
pub enum TreeAsking {
    Written,
    Long,
    Key,
    Nodes,
    Node,
    Same,
    Size,
    Export,
}

const TREE_ASKINGS: [(&[u8], TreeAsking); 8] = [
    (b"written", TreeAsking::Written),
    (b"long", TreeAsking::Long),
    (b"key", TreeAsking::Key),
    (b"nodes", TreeAsking::Nodes),
    (b"node", TreeAsking::Node),
    (b"same", TreeAsking::Same),
    (b"size", TreeAsking::Size),
    (b"export", TreeAsking::Export),
];

pub fn tree_asking_of(word: &[u8]) -> Option<TreeAsking> {
    found(&TREE_ASKINGS, word)
}

fn store_of(alloc: Global, tree: &ProperTree) -> Result<CsgStore, CaseStop> {
    Ok(CsgStore::intern(alloc, tree.tree())?)
}

// A node: `leaf`, or the sign of the operation and the numbers of its two trees.
fn put_node(
    alloc: Global,
    out: &mut Vec<u8>,
    tree: &ProperTree,
    number: i64,
) -> Result<(), CaseStop> {
    let store = store_of(alloc, tree)?;
    let number = u32::try_from(number).unwrap_or(0);
    if number < 1 || number > store.len() {
        return Err(CaseStop::Unread);
    }
    match store.node(number) {
        CsgNode::Leaf(_) => put(out, b"leaf")?,
        CsgNode::Join(op, left, right) => {
            put(out, sign_of(op))?;
            put(out, b" ")?;
            put_number(alloc, out, i128::from(left))?;
            put(out, b" ")?;
            put_number(alloc, out, i128::from(right))?;
        }
    }
    Ok(())
}

// The numbers of two keys, whether they are the same tree, and whether they have one name.
fn put_keys(
    alloc: Global,
    out: &mut Vec<u8>,
    first: &TreeKey,
    second: &TreeKey,
) -> Result<(), CaseStop> {
    put_number(alloc, out, i128::from(first.at().1))?;
    put(out, b" ")?;
    put_number(alloc, out, i128::from(second.at().1))?;
    put(
        out,
        if first.is_same(second) {
            b" same"
        } else {
            b" different"
        },
    )?;
    put(
        out,
        if first.name() == second.name() {
            b" one name"
        } else {
            b" two names"
        },
    )?;
    Ok(())
}

// The same of the keys of two nodes of a tree.
fn put_same(
    alloc: Global,
    out: &mut Vec<u8>,
    tree: &ProperTree,
    first: i64,
    second: i64,
) -> Result<(), CaseStop> {
    let store = Arc::new(alloc, store_of(alloc, tree)?)?;
    let first = u32::try_from(first).unwrap_or(0);
    let second = u32::try_from(second).unwrap_or(0);
    if first < 1 || first > store.len() || second < 1 || second > store.len() {
        return Err(CaseStop::Unread);
    }
    let one = TreeKey::of(&store, first)?;
    let other = TreeKey::of(&store, second)?;
    put_keys(alloc, out, &one, &other)
}

// A word, and the number of a node.
fn put_at(alloc: Global, out: &mut Vec<u8>, word: &[u8], number: u32) -> Result<(), CaseStop> {
    put(out, word)?;
    put_number(alloc, out, i128::from(number))?;
    Ok(())
}

// The size of a tree's solid, or the first node that passes a limit.
fn put_tree_size(alloc: Global, out: &mut Vec<u8>, tree: &ProperTree) -> Result<(), CaseStop> {
    let store = store_of(alloc, tree)?;
    if store.len() == 0 {
        return Err(CaseStop::Unread);
    }
    match tree_solid(alloc, &store, &mut PlainBuilder::new()) {
        Ok(solid) => put_number(alloc, out, i128::from(solid.count()))?,
        Err(TreeStop::TooBig(number)) => put_at(alloc, out, b"too big at ", number)?,
        Err(TreeStop::SumTooBig(number)) => put_at(alloc, out, b"too big together at ", number)?,
        Err(TreeStop::NoMemory) => return Err(CaseStop::NoMemory),
    }
    Ok(())
}

fn put_complex(alloc: Global, out: &mut Vec<u8>, passed: PassedLimit) -> Result<(), CaseStop> {
    match passed {
        PassedLimit::Solid(number) => put_at(alloc, out, b"solid ", number)?,
        PassedLimit::Sum(number) => put_at(alloc, out, b"sum ", number)?,
        PassedLimit::Facets => put(out, b"facets")?,
        PassedLimit::Corners => put(out, b"corners")?,
        PassedLimit::Vertices => put(out, b"vertices")?,
    }
    Ok(())
}

// The first bytes of a tree's text in a unit, or the first limit that it passes.
fn put_export(
    alloc: Global,
    out: &mut Vec<u8>,
    tree: &ProperTree,
    unit: Unit,
    most: usize,
) -> Result<(), CaseStop> {
    match export_tree(alloc, tree.tree(), unit)? {
        TreeExport::Text(text) => put_stroked(out, text.items(), most)?,
        TreeExport::PassedLimit(passed) => put_complex(alloc, out, passed)?,
    }
    Ok(())
}

/// What a phrase writes of a tree.
pub fn ask_tree(
    alloc: Global,
    out: &mut Vec<u8>,
    asking: TreeAsking,
    numbers: &[i64],
    tree: &ProperTree,
) -> Result<(), CaseStop> {
    match (asking, numbers) {
        (TreeAsking::Written, []) => put_tree(out, tree.tree())?,
        (TreeAsking::Long, []) => {
            let mut text = Vec::new(alloc);
            put_tree(&mut text, tree.tree())?;
            put_number(alloc, out, text.len() as i128)?;
        }
        (TreeAsking::Key, []) => {
            let bytes = tree.tree().key_bytes(alloc)?;
            put_number(alloc, out, bytes.len() as i128)?;
        }
        (TreeAsking::Nodes, []) => {
            let store = store_of(alloc, tree)?;
            put_number(alloc, out, i128::from(store.len()))?;
        }
        (TreeAsking::Node, [number]) => put_node(alloc, out, tree, *number)?,
        (TreeAsking::Same, [first, second]) => put_same(alloc, out, tree, *first, *second)?,
        (TreeAsking::Size, []) => put_tree_size(alloc, out, tree)?,
        (TreeAsking::Export, [unit]) => {
            put_export(alloc, out, tree, unit_of(*unit)?, usize::MAX)?;
        }
        (TreeAsking::Export, [unit, most]) => {
            let most = usize::try_from(*most).unwrap_or(0);
            put_export(alloc, out, tree, unit_of(*unit)?, most)?;
        }
        _ => return Err(CaseStop::Unread),
    }
    Ok(())
}
