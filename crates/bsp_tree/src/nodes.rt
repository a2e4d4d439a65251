//! Nodes over a table of planes.

ghost use Rattle.std.specs.Prelude.{◌≡◌, ◌<◌, [], length, take, IfOk, OnOk, OnErr};

use link_forest::{Forest, Link, NodeId};
use plain_text::NoMemory;
use plane_table::{Face, PlaneTable};
use std::alloc::Global;
use std::marker::Model;

/// Nodes of BSP trees in one list, over one table of planes. A node that is added stays until the
/// list is cut back.
#[derive(Drop)]
pub struct Nodes<'t> {
    table: &'t PlaneTable,
    forest: Forest<Face>,
}

impl<'t> Model for Nodes<'t> {
    ghost use Rattle.bsp_tree.specs.Growths.{Sheet};
    ghost use Rattle.bsp_tree.specs.Shapes.{AreFacesOver};

    ghost Value = { Sheet };

    ghost view = { λ n. record { planes = n.table.now; nodes = n.forest.nodes } };

    ghost invariant = { λ n. AreFacesOver n.table.now n.forest.nodes };
}

impl<'t> Nodes<'t> {
    ghost use Rattle.link_forest.specs.Forests.{AddsNode, AreLinked, IsLinkOf, IsNode};
    ghost use Rattle.plane_table.specs.Faces.{outline_of, IsFaceOver};
    ghost use Rattle.bsp_tree.specs.Shapes.{AreFacesOver};

    /// No nodes yet, over a table.
    pub fn new(alloc: Global, table: &'t PlaneTable) -> Nodes<'t>
        ensures { result ≡ record { planes = table.now; nodes = [] } }
    {
        Nodes {
            table,
            forest: Forest::new(alloc),
        }
    }

    /// The table.
    pub fn table(&self) -> &'t PlaneTable
        ensures { result.now ≡ self.now.planes }
    {
        self.table
    }

    /// How many nodes there are.
    pub fn len(&self) -> usize
        ensures count { result ≡ length self.now.nodes }
        ensures linked { AreLinked self.now.nodes }
    {
        self.forest.len()
    }

    /// The face and the links of a node.
    pub fn node(&self, id: NodeId) -> (&Face, Link, Link)
        requires { id.index < length self.now.nodes }
        ensures node { IsNode self.now.nodes id result.0.now result.1 result.2 }
        ensures face { IsFaceOver self.now.planes result.0.now }
    {
        self.forest.at(id)
    }

    /// Adds a node of a face and of links that are of these nodes.
    // It is `Forest::add`, inlined: each call would copy the face, whose short list of numbers stands within it.
    #[inline(always)]
    pub fn add(&mut self, face: Face, behind: Link, ahead: Link) -> Result<NodeId, NoMemory>
        requires face { IsFaceOver self.old.planes face }
        requires behind { IsLinkOf self.old.nodes behind }
        requires ahead { IsLinkOf self.old.nodes ahead }
        ensures planes { self.new.planes ≡ self.old.planes }
        ensures adds { IfOk result (AddsNode self.old.nodes self.new.nodes face behind ahead) }
    {
        self.forest.reserve(1)?;
        Ok(self.forest.add_reserved(face, behind, ahead))
    }

    /// Makes room for `n` more nodes.
    pub fn reserve(&mut self, n: usize) -> Result<(), NoMemory>
        ensures { self.new ≡ self.old }
    {
        self.forest.reserve(n)
    }

    /// Keeps the first `len` nodes.
    pub fn cut_back(&mut self, len: usize)
        ensures planes { self.new.planes ≡ self.old.planes }
        ensures nodes { self.new.nodes ≡ take len self.old.nodes }
    {
        self.forest.cut_back(len);
    }

    /// The nodes without their table.
    pub fn forest(&self) -> &Forest<Face>
        ensures nodes { result.now.nodes ≡ self.now.nodes }
        ensures faces { AreFacesOver self.now.planes self.now.nodes }
    {
        &self.forest
    }

    /// The same, given away.
    pub fn into_forest(self) -> Forest<Face>
        ensures nodes { result.nodes ≡ self.entry.nodes }
        ensures faces { AreFacesOver self.entry.planes self.entry.nodes }
    {
        self.forest
    }
}
