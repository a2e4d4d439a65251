//! Trees of which solids can be made.

ghost use Rattle.std.specs.Prelude.{◌≡◌, All, IfOk, IfSome, OnOk};
ghost use Rattle.plane_predicate.specs.Space.{ComesInReach};
ghost use Rattle.csg_tree.specs.ProperTrees.{IsLeafPlane, IsProper, subtree_count};
ghost use Rattle.csg_tree.specs.Trees.{plain_tree_of};

use case_lines::{CaseStop, Walls};
use csg_tree::{CsgTree, Op, Planes, join, joins_are_proper};
use plain_text::NoMemory;
use plane_predicate::{Plane, planes_keep_their_form};
use std::alloc::Global;
use std::marker::Model;

// The most subtrees of a tree that is joined.
const MOST: u32 = 1_000_000;

/// A tree of which a solid can be made.
#[derive(Drop)]
pub struct ProperTree {
    tree: CsgTree,
}

impl Model for ProperTree {
    ghost use Rattle.csg_tree.specs.HalfSpaceTrees.{Tree};
    ghost use Rattle.csg_tree.specs.Codes.{coded_tree};

    ghost Value = { Tree };

    ghost coded = { coded_tree };

    ghost use Rattle.csg_tree.specs.Trees.{plain_tree_of};
    ghost use Rattle.csg_tree.specs.ProperTrees.{IsProper};

    ghost view = { λ t. plain_tree_of t.tree };

    ghost invariant = { λ t. IsProper (plain_tree_of t.tree) };
}

impl ProperTree {
    fn of(tree: CsgTree) -> ProperTree
        requires { IsProper (plain_tree_of tree) }
    {
        ProperTree { tree }
    }

    pub fn nothing() -> ProperTree {
        ProperTree::of(nothing())
    }

    /// The leaf of some planes.
    pub fn leaf(alloc: Global, walls: &Walls) -> Result<ProperTree, CaseStop> {
        Ok(ProperTree::of(leaf(alloc, walls)?))
    }

    /// The join of two trees.
    pub fn join(
        alloc: Global,
        op: Op,
        left: ProperTree,
        right: ProperTree,
    ) -> Result<ProperTree, CaseStop> {
        Ok(ProperTree::of(joined(alloc, op, left.tree, right.tree)?))
    }

    pub fn copy(&self, alloc: Global) -> Result<ProperTree, NoMemory> {
        Ok(ProperTree::of(self.tree.copy(alloc)?))
    }

    pub fn tree(&self) -> &CsgTree
        ensures { IsProper (plain_tree_of result.now) }
    {
        &self.tree
    }
}

fn nothing() -> CsgTree
    ensures { IsProper (plain_tree_of result) }
{
    CsgTree::Nothing
}

// Adds a plane; one with a point in reach is a plane of a leaf.
fn add(planes: &mut Vec<Plane>, plane: Plane) -> Result<(), NoMemory>
    requires reach { ComesInReach plane }
    requires all { All IsLeafPlane planes.old.items }
    ensures all { OnOk result (All IsLeafPlane planes.new.items) }
{
    planes_keep_their_form(&plane);
    planes.push(plane)?;
    Ok(())
}

fn leaf(alloc: Global, walls: &Walls) -> Result<CsgTree, CaseStop>
    ensures { IfOk result (λ tree. IsProper (plain_tree_of tree)) }
{
    let mut planes = Vec::new(alloc);
    for plane in walls.planes() {
        add(&mut planes, *plane)?;
    }
    if planes.is_empty() {
        return Err(CaseStop::Unread);
    }
    Ok(CsgTree::Leaf(Planes::of(planes)))
}

// How many subtrees a tree has, where they are few.
fn counted(tree: &CsgTree) -> Option<u32>
    ensures { IfSome result (λ n. n ≡ subtree_count (plain_tree_of tree.now)) }
{
    match tree {
        CsgTree::Nothing | CsgTree::Leaf(_) => Some(1),
        CsgTree::Join(_, left, right) => {
            let left = counted(left)?;
            let right = counted(right)?;
            if left < MOST && right < MOST {
                Some(1 + left + right)
            } else {
                None
            }
        }
    }
}

// The join of two trees, each of which has few subtrees.
fn joined(alloc: Global, op: Op, left: CsgTree, right: CsgTree) -> Result<CsgTree, CaseStop>
    requires left { IsProper (plain_tree_of left) }
    requires right { IsProper (plain_tree_of right) }
    ensures { IfOk result (λ tree. IsProper (plain_tree_of tree)) }
{
    let first = counted(&left).ok_or(CaseStop::Unread)?;
    let second = counted(&right).ok_or(CaseStop::Unread)?;
    if first > MOST || second > MOST {
        return Err(CaseStop::Unread);
    }
    // Called for its law; does nothing when it runs: joins of proper trees are proper.
    joins_are_proper();
    Ok(join(alloc, op, left, right)?)
}
