//! Merges of two trees over one table, link by link.

ghost use Rattle.std.specs.Prelude.{◌≡◌, ◌<◌, length, OnOk};
ghost use Rattle.link_forest.specs.Forests.{IsLinkOf};
ghost use Rattle.link_forest.specs.declared.link.Link.TheVariants.{To};
ghost use Rattle.bsp_tree.specs.Growths.{with_sides_exchanged, tree_on, GrowsBy};
ghost use Rattle.bsp_boolean.specs.Combined.{combination};
ghost use Rattle.bsp_boolean.specs.Branches.{AreOverOne};

use bsp_partition::add_parts;
use bsp_tree::{
    GrowStop, Growing, Link, MovedNodes, NodeId, Nodes, add_branch, add_moved, exchanged_leaf,
    is_alike,
};
use std::alloc::Global;

/// How a left tree is merged with a right one.
#[derive(Clone, Copy)]
pub struct Merge<'a> {
    /// The nodes of the left tree.
    pub left: &'a MovedNodes<'a>,
    /// Whether the leaf inside decides, and else the leaf outside.
    pub in_decides: bool,
    /// Whether the right tree's inside and outside are exchanged.
    pub is_exchanged: bool,
}

impl<'a> Merge<'a> {
    /// Adds the merge of the trees at two links to what grows. The scratch list has the right tree, and
    /// is afterwards as it was before.
    #[cycle(branches)]
    pub fn branch(
        &self,
        alloc: Global,
        scratch: &mut Nodes<'_>,
        growing: &mut Growing<'_>,
        left: Link,
        right: Link,
    ) -> Result<Link, GrowStop>
        requires tables { AreOverOne self.now.left.now scratch.old growing.old }
        requires left { IsLinkOf self.now.left.now.own.nodes left }
        requires right { IsLinkOf scratch.old.nodes right }
        ensures scratch { OnOk result (scratch.new ≡ scratch.old) }
        ensures grows { GrowsBy growing.old growing.new
            (combination self.now.in_decides (tree_on self.now.left.now.own left)
            (with_sides_exchanged self.now.is_exchanged (tree_on scratch.old right))) result }
    {
        match (left, right) {
            (Link::End(is_inside), _) => {
                if is_alike(is_inside, self.in_decides) {
                    return Ok(left);
                }
                add_branch(alloc, growing, scratch, right, self.is_exchanged)
            }
            (Link::To(_), Link::End(is_inside)) => {
                if is_alike(
                    exchanged_leaf(is_inside, self.is_exchanged),
                    self.in_decides,
                ) {
                    return Ok(Link::End(self.in_decides));
                }
                add_moved(alloc, growing, self.left, left)
            }
            (Link::To(left), Link::To(right)) => { self.node(alloc, scratch, growing, left, right) }
        }
    }

    // The same for two nodes: the left one's face divides the right tree.
    #[cycle(branches)]
    fn node(
        &self,
        alloc: Global,
        scratch: &mut Nodes<'_>,
        growing: &mut Growing<'_>,
        left: NodeId,
        right: NodeId,
    ) -> Result<Link, GrowStop>
        requires tables { AreOverOne self.now.left.now scratch.old growing.old }
        requires left { left.index < length self.now.left.now.own.nodes }
        requires right { right.index < length scratch.old.nodes }
        ensures scratch { OnOk result (scratch.new ≡ scratch.old) }
        ensures grows { GrowsBy growing.old growing.new
            (combination self.now.in_decides (tree_on self.now.left.now.own (To left))
            (with_sides_exchanged self.now.is_exchanged (tree_on scratch.old (To right)))) result }
    {
        let (face, behind, ahead) = self.left.node(alloc, left)?;
        let kept = scratch.len();
        let (low, high) = add_parts(alloc, scratch, Link::To(right), &face)?;
        let behind = self.branch(alloc, scratch, growing, behind, low)?;
        let ahead = self.branch(alloc, scratch, growing, ahead, high)?;
        scratch.cut_back(kept);
        growing.make(face, behind, ahead)
    }
}
