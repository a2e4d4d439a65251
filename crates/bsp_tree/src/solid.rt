//! Solids as binary space partitions (BSP trees).

ghost use Rattle.std.specs.Prelude.{◌≡◌, ◌-◌, ◌^◌, min, List, IfOk};
ghost use Rattle.plane_predicate.specs.Space.{Coefficients};
ghost use Rattle.link_forest.specs.Forests.{IsLinkOf};
ghost use Rattle.bsp_tree.specs.Trees.{size};
ghost use Rattle.bsp_tree.specs.Shapes.{tree_at_link};

use link_forest::{Forest, Link, NodeId};
use plain_text::NoMemory;
use plane_predicate::Plane;
use plane_table::Face;
use std::alloc::Global;
use std::marker::Model;

/// A solid, as a binary space partition: a table of planes, and nodes in one list, linked by number.
/// A node has a face, whose plane divides a cell, and the trees of what lies behind the plane and
/// ahead of it; a branch ends in a leaf, which is inside the solid or outside.
///
/// A solid keeps that no two planes of its table are equal or opposite, and that each node is reached
/// from the root.
#[derive(Drop)]
pub struct Solid {
    planes: Vec<Plane>,
    forest: Forest<Face>,
    root: Link,
    size: u64,
}

impl Model for Solid {
    ghost use Rattle.bsp_tree.specs.Shapes.{SolidParts};
    ghost use Rattle.bsp_tree.specs.Kept.{KeepsItsSize};

    ghost Value = { SolidParts };

    ghost view = { λ s. record { planes = s.planes.items; nodes = s.forest.nodes; root = s.root } };

    ghost invariant = { λ s. KeepsItsSize (record {
      planes = s.planes.items;
      nodes = s.forest.nodes;
      root = s.root;
    }) s.size };
}

impl Solid {
    ghost use Rattle.std.specs.Prelude.{◌≡◌, ◌-◌, ◌^◌, min, IfOk};
    ghost use Rattle.bsp_tree.specs.Trees.{size};
    ghost use Rattle.plane_table.specs.Tables.{HasNoTwoAlike};
    ghost use Rattle.bsp_tree.specs.Shapes.{leaf_of, tree_of, tree_at_link, AreFacesOver, IsWholeSolid};
    ghost use Rattle.bsp_tree.specs.Growths.{HasGrownWhole};
    ghost use Rattle.bsp_tree.specs.Kept.{KeepsItsSize};

    /// A leaf: all of the cell is inside, or all of it is outside.
    pub fn leaf(alloc: Global, is_inside: bool) -> Solid
        ensures { tree_of result ≡ leaf_of is_inside }
    {
        Solid {
            planes: Vec::new(alloc),
            forest: Forest::new(alloc),
            root: Link::End(is_inside),
            size: 0,
        }
    }

    /// The solid with just these parts: a table without two planes that are equal or opposite, faces over
    /// it, and the link from which each node is reached. Takes no memory, and the time of the tree's size.
    pub fn of_parts(planes: Vec<Plane>, forest: Forest<Face>, root: Link) -> Solid
        requires { IsWholeSolid (record {
          planes = planes.items;
          nodes = forest.nodes;
          root = root;
        }) }
        ensures { result ≡ record { planes = planes.items; nodes = forest.nodes; root = root } }
    {
        let size = size_at(&forest, root);
        Solid {
            planes,
            forest,
            root,
            size,
        }
    }

    /// A solid that has grown over a table from nothing, with its size.
    pub(crate) fn of_growth(
        planes: Vec<Plane>,
        forest: Forest<Face>,
        root: Link,
        size: u64,
    ) -> Solid
        requires apart { HasNoTwoAlike planes.items }
        requires faces { AreFacesOver planes.items forest.nodes }
        requires grown { HasGrownWhole
            (record { planes = planes.items; nodes = forest.nodes }) root size }
        ensures { result ≡ record { planes = planes.items; nodes = forest.nodes; root = root } }
    {
        Solid {
            planes,
            forest,
            root,
            size,
        }
    }

    /// The table, the forest of faces over it, and the link at which the solid's tree begins. An end
    /// of a link is a leaf, which is inside the solid where it is true.
    pub fn parts(&self) -> (&[Plane], &Forest<Face>, Link)
        ensures parts { self.now ≡
            record { planes = result.0.now; nodes = result.1.now.nodes; root = result.2 } }
        ensures tree { tree_of self.now ≡ tree_at_link result.0.now result.1.now.nodes result.2 }
        ensures whole { IsWholeSolid (record {
          planes = result.0.now;
          nodes = result.1.now.nodes;
          root = result.2;
        }) }
    {
        (&self.planes, &self.forest, self.root)
    }

    /// An equal solid.
    pub fn copy(&self, alloc: Global) -> Result<Solid, NoMemory>
        ensures { IfOk result (λ s. tree_of s ≡ tree_of self.now) }
    {
        let mut planes = Vec::new(alloc);
        planes.extend_from_slice(&self.planes)?;
        Ok(Solid {
            planes,
            forest: forest_copy(alloc, &self.forest)?,
            root: self.root,
            size: self.size,
        })
    }

    /// The number of nodes and of their polygons' edges, which stops at the greatest number.
    pub fn count(&self) -> u64
        ensures { result ≡ min (size (tree_of self.now)) (2 ^ 64 - 1) }
    {
        self.size
    }
}

// What the tree at a link of a forest is in size, which stops at the greatest number.
fn size_at(forest: &Forest<Face>, at: Link) -> u64
    requires { IsLinkOf forest.now.nodes at }
    ensures { (planes : List Coefficients) →
        result ≡ min (size (tree_at_link planes forest.now.nodes at)) (2 ^ 64 - 1) }
{
    match at {
        Link::End(_) => 0,
        Link::To(id) => {
            let (face, behind, ahead) = forest.at(id);
            let below = size_at(forest, behind).saturating_add(size_at(forest, ahead));
            below.saturating_add(face.size())
        }
    }
}

// An equal forest. Its room is taken first.
fn forest_copy(alloc: Global, forest: &Forest<Face>) -> Result<Forest<Face>, NoMemory>
    ensures { IfOk result (λ f. f.nodes ≡ forest.now.nodes) }
{
    let mut nodes = Forest::new(alloc);
    nodes.reserve(forest.len())?;
    for index in 0..forest.len() {
        let (face, behind, ahead) = forest.at(NodeId { index });
        nodes.add_reserved(face.copy(alloc)?, behind, ahead);
    }
    Ok(nodes)
}
