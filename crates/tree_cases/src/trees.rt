//! Phrases that put trees, and what is asked of them.

use crate::proper::ProperTree;
use crate::stores::{ask_tree, tree_asking_of};
use crate::written::{put_alike, put_halves};
use case_lines::{CaseStop, Phrase, Walls, box_walls, found, lay, laying_of, slab_walls};
use csg_tree::Op;
use std::alloc::Global;

#[derive(Clone, Copy)]
enum Planting {
    Nothing,
    Leaf,
    Box,
    Slabs,
    Copy,
    Join(Op),
    Halves,
    Alike,
}

const PLANTINGS: [(&[u8], Planting); 10] = [
    (b"nothing", Planting::Nothing),
    (b"leaf", Planting::Leaf),
    (b"box", Planting::Box),
    (b"slabs", Planting::Slabs),
    (b"copy", Planting::Copy),
    (b"+", Planting::Join(Op::Union)),
    (b"*", Planting::Join(Op::Intersection)),
    (b"-", Planting::Join(Op::Difference)),
    (b"halves", Planting::Halves),
    (b"alike", Planting::Alike),
];

// The union of the given number of slabs of an axis from a coordinate on, each joined to those before it, with a step between
// them.
fn slabs(alloc: Global, axis: i64, from: i64, count: i64) -> Result<ProperTree, CaseStop> {
    let mut all = ProperTree::leaf(alloc, &slab_walls(alloc, axis, from)?)?;
    let mut at = from;
    for _ in 1..count {
        at = at.checked_add(2).ok_or(CaseStop::Unread)?;
        let next = ProperTree::leaf(alloc, &slab_walls(alloc, axis, at)?)?;
        all = ProperTree::join(alloc, Op::Union, all, next)?;
    }
    Ok(all)
}

/// Trees in the order in which they were put, and the planes for the next leaf.
#[derive(Drop)]
pub struct Trees {
    walls: Walls,
    items: Vec<ProperTree>,
}

impl Trees {
    pub fn new(alloc: Global) -> Self {
        Trees {
            walls: Walls::new(alloc),
            items: Vec::new(alloc),
        }
    }

    fn put(&mut self, tree: ProperTree) -> Result<(), CaseStop> {
        self.items.push(tree)?;
        Ok(())
    }

    fn last(&self) -> Result<&ProperTree, CaseStop> {
        self.items.last().ok_or(CaseStop::Unread)
    }

    // The leaf of the planes.
    fn leaf(&mut self, alloc: Global) -> Result<(), CaseStop> {
        let leaf = ProperTree::leaf(alloc, &self.walls)?;
        self.walls.clear();
        self.put(leaf)
    }

    // The join of the last two trees, in their place.
    fn join(&mut self, alloc: Global, op: Op) -> Result<(), CaseStop> {
        let right = self.items.pop().ok_or(CaseStop::Unread)?;
        let left = self.items.pop().ok_or(CaseStop::Unread)?;
        let joined = ProperTree::join(alloc, op, left, right)?;
        self.put(joined)
    }

    // What a phrase makes of the trees, and what it writes of more than one.
    fn plant(
        &mut self,
        alloc: Global,
        out: &mut Vec<u8>,
        planting: Planting,
        numbers: &[i64],
    ) -> Result<(), CaseStop> {
        match (planting, numbers) {
            (Planting::Nothing, []) => self.put(ProperTree::nothing()),
            (Planting::Leaf, []) => self.leaf(alloc),
            (Planting::Box, _) => {
                let leaf = ProperTree::leaf(alloc, &box_walls(alloc, numbers)?)?;
                self.put(leaf)
            }
            (Planting::Slabs, [axis, from, count]) => {
                let slabs = slabs(alloc, *axis, *from, *count)?;
                self.put(slabs)
            }
            (Planting::Copy, []) => {
                let copied = self.last()?.copy(alloc)?;
                self.put(copied)
            }
            (Planting::Join(op), []) => self.join(alloc, op),
            (Planting::Halves, []) => put_halves(alloc, out, &self.items),
            (Planting::Alike, []) => put_alike(alloc, out, &self.items),
            _ => Err(CaseStop::Unread),
        }
    }

    /// Does what a phrase says, and writes what it asks.
    pub fn follow(
        &mut self,
        alloc: Global,
        out: &mut Vec<u8>,
        phrase: &Phrase,
    ) -> Result<(), CaseStop> {
        let (word, numbers) = (phrase.word.as_slice(), phrase.numbers.as_slice());
        if let Some(laying) = laying_of(word) {
            lay(&mut self.walls, laying, numbers)
        } else if let Some(planting) = found(&PLANTINGS, word) {
            self.plant(alloc, out, planting, numbers)
        } else if let Some(asking) = tree_asking_of(word) {
            let tree = self.last()?;
            ask_tree(alloc, out, asking, numbers, tree)
        } else {
            Err(CaseStop::Unread)
        }
    }
}
