//! Trees in one line.

use crate::proper::ProperTree;
use case_lines::{CaseStop, put};
use csg_tree::{CsgTree, Op, balanced};
use plain_text::NoMemory;
use std::alloc::Global;

pub fn sign_of(op: Op) -> &'static [u8] {
    match op {
        Op::Union => b"+",
        Op::Intersection => b"*",
        Op::Difference => b"-",
    }
}

/// A tree in one line: `0` for Nothing, a leaf by the last digits of its planes' offsets, and joins in parentheses.
pub fn put_tree(out: &mut Vec<u8>, tree: &CsgTree) -> Result<(), NoMemory> {
    match tree {
        CsgTree::Nothing => put(out, b"0")?,
        CsgTree::Leaf(planes) => {
            for plane in planes.items() {
                out.push(b'0' + (plane.d.unsigned_abs() % 10) as u8)?;
            }
        }
        CsgTree::Join(op, left, right) => {
            put(out, b"(")?;
            put_tree(out, left)?;
            put(out, sign_of(*op))?;
            put_tree(out, right)?;
            put(out, b")")?;
        }
    }
    Ok(())
}

/// The union by halves of some trees.
pub fn put_halves(alloc: Global, out: &mut Vec<u8>, trees: &[ProperTree]) -> Result<(), CaseStop> {
    let mut list = Vec::new(alloc);
    for tree in trees {
        list.push(tree.tree().copy(alloc)?)?;
    }
    let joined = balanced(alloc, Op::Union, list)?;
    put_tree(out, &joined)?;
    Ok(())
}

/// Whether the last two trees are written alike.
pub fn put_alike(alloc: Global, out: &mut Vec<u8>, trees: &[ProperTree]) -> Result<(), CaseStop> {
    let [.., first, second] = trees else {
        return Err(CaseStop::Unread);
    };
    let mut one = Vec::new(alloc);
    put_tree(&mut one, first.tree())?;
    let mut other = Vec::new(alloc);
    put_tree(&mut other, second.tree())?;
    put(out, if one == other { b"alike" } else { b"different" })?;
    Ok(())
}
