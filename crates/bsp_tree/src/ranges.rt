//! Trees whose nodes are a range of a forest's.

ghost use Rattle.std.specs.Prelude.{◌≡◌, ◌+◌, List, IfOk, IfSome};
ghost use Rattle.link_forest.specs.declared.forest.Entry.{Entry};
ghost use Rattle.link_forest.specs.Forests.{node_id, IsNode};
ghost use Rattle.link_forest.specs.declared.link.Link.TheVariants.{To};
ghost use Rattle.plane_table.specs.declared.faces.Face.{Face};
ghost use Rattle.bsp_tree.specs.Ranges.{link_shifted_by, AreFirsts, CanShift, Spans};

use link_forest::{Forest, Link, NodeId};
use plain_text::NoMemory;
use plane_table::Face;
use std::alloc::Global;
use std::marker::Model;

/// The nodes of a forest of faces, of which those up to some number stand in post-order: the nodes of
/// each such node's tree are a range that ends with it. Merges make all nodes so, and a forest that is
/// given need not have them.
#[derive(Drop)]
pub struct Ranges<'a> {
    forest: &'a Forest<Face>,
    firsts: Vec<usize>,
}

impl<'a> Model for Ranges<'a> {
    ghost use Rattle.std.specs.Prelude.{List};
    ghost use Rattle.link_forest.specs.declared.forest.Entry.{Entry};
    ghost use Rattle.plane_table.specs.declared.faces.Face.{Face};
    ghost use Rattle.bsp_tree.specs.Ranges.{AreFirsts};

    ghost Value = { List (Entry Face) };

    ghost view = { λ r. r.forest.now.nodes };

    ghost invariant = { λ r. AreFirsts r.forest.now.nodes r.firsts.items };
}

impl<'a> Ranges<'a> {
    ghost use Rattle.std.specs.Prelude.{◌≡◌, ◌<◌, length, IfOk, IfSome};
    ghost use Rattle.link_forest.specs.declared.link.Link.TheVariants.{To};
    ghost use Rattle.link_forest.specs.Forests.{IsNode};
    ghost use Rattle.bsp_tree.specs.Ranges.{Spans};

    /// The nodes of a forest.
    pub fn of(alloc: Global, forest: &'a Forest<Face>) -> Result<Ranges<'a>, NoMemory>
        ensures { IfOk result (λ r. r ≡ forest.now.nodes) }
    {
        let firsts = firsts_of(alloc, forest)?;
        Ok(Ranges { forest, firsts })
    }

    /// The face and the links of a node.
    pub fn at(&self, id: NodeId) -> (&Face, Link, Link)
        requires { id.index < length self.now }
        ensures { IsNode self.now id result.0.now result.1 result.2 }
    {
        self.forest.at(id)
    }

    /// From where up to where the nodes of a node's tree stand, where they are known to be a range.
    pub fn range(&self, id: NodeId) -> Option<(usize, usize)>
        ensures { IfSome result (λ r. Spans self.now r.0 (To id) r.1) }
    {
        let first = *self.firsts.get(id.index)?;
        Some((first, id.index + 1))
    }
}

// For the nodes of a forest in their order the number at which the nodes of its tree begin, which are those from there on up
// to it. It ends before the first node of which that isn't known.
fn firsts_of(alloc: Global, forest: &Forest<Face>) -> Result<Vec<usize>, NoMemory>
    ensures { IfOk result (λ firsts. AreFirsts forest.now.nodes firsts.items) }
{
    let mut firsts = Vec::with_capacity(alloc, forest.len())?;
    for index in 0..forest.len() {
        let (_, behind, ahead) = forest.at(NodeId { index });
        let Some(first) = first_of(&firsts, behind, ahead, index) else {
            return Ok(firsts);
        };
        firsts.push_reserved(first);
    }
    Ok(firsts)
}

// The same for the node of a number, over those before it.
fn first_of(firsts: &[usize], behind: Link, ahead: Link, index: usize) -> Option<usize>
    ensures { (nodes : List (Entry Face)) (face : Face) → AreFirsts nodes firsts.now →
        IsNode nodes (node_id index) face behind ahead →
        IfSome result (λ first. Spans nodes first (To (node_id index)) (index + 1)) }
{
    let middle = first_before(firsts, ahead, index)?;
    first_before(firsts, behind, middle)
}

// The number at which the nodes of the tree at a link begin, where they are known to be those from there on up to `end`.
fn first_before(firsts: &[usize], link: Link, end: usize) -> Option<usize>
    ensures { (nodes : List (Entry Face)) → AreFirsts nodes firsts.now →
        IfSome result (λ first. Spans nodes first link end) }
{
    match link {
        Link::End(_) => Some(end),
        Link::To(id) => {
            if end > 0 && id.index == end - 1 {
                firsts.get(id.index).copied()
            } else {
                None
            }
        }
    }
}

/// The link that reaches as far back from the number `to` as this one does from the number `from`.
pub fn link_shifted_by(link: Link, from: usize, to: usize) -> Link
    requires { CanShift link from to }
    ensures { result ≡ link_shifted_by link from to }
{
    match link {
        Link::End(_) => link,
        Link::To(id) => Link::To(NodeId {
            index: to - (from - id.index),
        }),
    }
}
