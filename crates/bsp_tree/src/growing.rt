//! Solids in the making.

use crate::links::is_same_leaf;
use crate::nodes::Nodes;
use link_forest::Link;
use plain_text::NoMemory;
use plane_table::{Face, PlaneTable};
use std::alloc::Global;
use std::marker::Model;

/// Why a solid can't grow.
#[derive(Clone, Copy, Debug)]
pub enum GrowStop {
    /// Its size is above the limit.
    TooBig,
    /// Memory ran out.
    NoMemory,
}

impl From<NoMemory> for GrowStop {
    ghost use Rattle.std.specs.Prelude.{◌≡◌};
    ghost use Rattle.bsp_tree.specs.declared.growing.GrowStop.TheVariants.{NoMemory};

    ghost from_gives = { λ _ stop. stop ≡ NoMemory };

    fn from(_refused: NoMemory) -> GrowStop {
        GrowStop::NoMemory
    }
}

/// The nodes of a solid in the making: each that is added stays. Their size is counted as they are
/// added, and stays within a limit.
#[derive(Drop)]
pub struct Growing<'t> {
    nodes: Nodes<'t>,
    size: u64,
    most: u64,
}

impl<'t> Model for Growing<'t> {
    ghost use Rattle.std.specs.Prelude.{◌≤◌};
    ghost use Rattle.bsp_tree.specs.Growths.{SolidGrowth};

    ghost Value = { SolidGrowth };

    ghost view = { λ g. record { sheet = g.nodes; size = g.size; most = g.most } };

    ghost invariant = { λ g. g.size ≤ g.most };
}

impl<'t> Growing<'t> {
    ghost use Rattle.std.specs.Prelude.{◌≡◌, [], length, IfOk};
    ghost use Rattle.link_forest.specs.Forests.{IsLinkOf};
    ghost use Rattle.plane_table.specs.Faces.{outline_of, IsFaceOver};
    ghost use Rattle.bsp_tree.specs.Trees.{BspTree, node_or_leaf, node};
    ghost use Rattle.bsp_tree.specs.Growths.{SolidGrowth, GrowsBy, HasGrown};
    ghost use Rattle.bsp_tree.specs.Ranges.{HasOneNodeMore};

    /// Nothing yet, over a table. What grows is at most `most` in size.
    pub fn new(alloc: Global, table: &'t PlaneTable, most: u64) -> Growing<'t>
        ensures { result ≡ record {
          sheet = record { planes = table.now; nodes = [] };
          size = 0;
          most = most;
        } }
    {
        Growing {
            nodes: Nodes::new(alloc, table),
            size: 0,
            most,
        }
    }

    /// How many nodes there are.
    pub fn len(&self) -> usize
        ensures { result ≡ length self.now.sheet.nodes }
    {
        self.nodes.len()
    }

    /// Makes room for `n` more nodes.
    pub fn reserve(&mut self, n: usize) -> Result<(), NoMemory>
        ensures { self.new ≡ self.old }
    {
        self.nodes.reserve(n)
    }

    /// Adds a node over a tree behind its face, and one ahead that was added after that. `TooBig` comes
    /// exactly where the size would be above the limit.
    // Inlined, since each call would copy the face, whose short list of numbers stands within it.
    #[inline(always)]
    pub fn add(&mut self, face: Face, behind: Link, ahead: Link) -> Result<Link, GrowStop>
        requires face { IsFaceOver self.old.sheet.planes face }
        requires behind { IsLinkOf self.old.sheet.nodes behind }
        requires ahead { IsLinkOf self.old.sheet.nodes ahead }
        ensures grows { (start middle : SolidGrowth) (b a : BspTree) →
            HasGrown start middle behind b →
            HasGrown middle self.old ahead a →
            GrowsBy start self.new (node (outline_of self.old.sheet.planes face) b a) result }
        ensures next { IfOk result (HasOneNodeMore self.old self.new) }
    {
        let edges = face.edges.len() as u64;
        if edges >= self.most - self.size {
            return Err(GrowStop::TooBig);
        }
        let id = self.nodes.add(face, behind, ahead)?;
        self.size += edges + 1;
        Ok(Link::To(id))
    }

    /// The same, or the leaf where both are the same leaf.
    pub fn make(&mut self, face: Face, behind: Link, ahead: Link) -> Result<Link, GrowStop>
        requires face { IsFaceOver self.old.sheet.planes face }
        requires behind { IsLinkOf self.old.sheet.nodes behind }
        requires ahead { IsLinkOf self.old.sheet.nodes ahead }
        ensures { (start middle : SolidGrowth) (b a : BspTree) → HasGrown start middle behind b →
            HasGrown middle self.old ahead a →
            GrowsBy start self.new (node_or_leaf (outline_of self.old.sheet.planes face) b a) result }
    {
        if is_same_leaf(behind, ahead) {
            return Ok(behind);
        }
        // That links stand before their nodes shows the proof that nodes are no leaves.
        let _ = self.nodes.len();
        self.add(face, behind, ahead)
    }

    /// The nodes and what they are in size.
    pub fn into_parts(self) -> (Nodes<'t>, u64)
        ensures nodes { result.0 ≡ self.entry.sheet }
        ensures size { result.1 ≡ self.entry.size }
    {
        (self.nodes, self.size)
    }
}
