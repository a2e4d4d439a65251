//! The nodes of a solid, whose faces are given over another table.

ghost use Rattle.std.specs.Prelude.{◌≡◌};
ghost use Rattle.link_forest.specs.Forests.{IsLinkOf};
ghost use Rattle.bsp_tree.specs.Growths.{tree_on, GrowsBy};
ghost use Rattle.bsp_tree.specs.Ranges.{Spans};

use crate::growing::{GrowStop, Growing};
use crate::ranges::{Ranges, link_shifted_by};
use crate::solid::Solid;
use link_forest::{Link, NodeId};
use plain_text::NoMemory;
use plane_predicate::Plane;
use plane_table::{Face, PlaneTable, renumber};
use std::alloc::Global;
use std::marker::Model;

/// The nodes of a solid, whose faces are given over another table as they are asked for.
///
/// They keep that the planes of the solid have numbers over that table.
#[derive(Drop)]
pub struct MovedNodes<'a> {
    table: &'a PlaneTable,
    planes: &'a [Plane],
    nodes: Ranges<'a>,
    numbers: &'a [u32],
}

impl<'a> Model for MovedNodes<'a> {
    ghost use Rattle.bsp_tree.specs.Moves.{AreMoved, MovedSheet};

    ghost Value = { MovedSheet };

    ghost view = { λ m. record {
      own = record { planes = m.planes.now; nodes = m.nodes };
      planes = m.table.now;
    } };

    ghost invariant = { λ m. AreMoved m.table.now m.numbers.now m.planes.now m.nodes };
}

impl<'a> MovedNodes<'a> {
    ghost use Rattle.std.specs.Prelude.{◌≡◌, ◌<◌, length, IfOk, IfSome};
    ghost use Rattle.link_forest.specs.declared.link.Link.TheVariants.{To};
    ghost use Rattle.plane_table.specs.Joins.{AreNumbersOf};
    ghost use Rattle.bsp_tree.specs.Moves.{IsMovedNode};
    ghost use Rattle.bsp_tree.specs.Ranges.{Spans};

    /// The nodes of a solid whose planes have these numbers over the table.
    pub fn of(
        alloc: Global,
        table: &'a PlaneTable,
        solid: &'a Solid,
        numbers: &'a [u32],
    ) -> Result<MovedNodes<'a>, NoMemory>
        requires { AreNumbersOf table.now numbers.now solid.now.planes }
        ensures { IfOk result
            (λ m. m ≡
            record {
              own = record { planes = solid.now.planes; nodes = solid.now.nodes };
              planes = table.now;
            }) }
    {
        let (planes, forest, _) = solid.parts();
        Ok(MovedNodes {
            table,
            planes,
            nodes: Ranges::of(alloc, forest)?,
            numbers,
        })
    }

    /// The face of a node over the table, and the node's links.
    pub fn node(&self, alloc: Global, id: NodeId) -> Result<(Face, Link, Link), NoMemory>
        requires { id.index < length self.now.own.nodes }
        ensures { IfOk result (λ r. IsMovedNode self.now id r.0 r.1 r.2) }
    {
        let (face, behind, ahead) = self.nodes.at(id);
        Ok((renumber(alloc, face, self.numbers)?, behind, ahead))
    }

    // From where up to where the nodes of a node's tree stand, where they are known to be a range.
    fn range(&self, id: NodeId) -> Option<(usize, usize)>
        ensures { IfSome result (λ r. Spans self.now.own.nodes r.0 (To id) r.1) }
    {
        self.nodes.range(id)
    }
}

/// Adds the tree at a link of moved nodes to a solid in the making over their table.
pub fn add_moved(
    alloc: Global,
    growing: &mut Growing<'_>,
    from: &MovedNodes<'_>,
    at: Link,
) -> Result<Link, GrowStop>
    requires table { growing.old.sheet.planes ≡ from.now.planes }
    requires link { IsLinkOf from.now.own.nodes at }
    ensures { GrowsBy growing.old growing.new (tree_on from.now.own at) result }
{
    match at {
        Link::End(_) => Ok(at),
        Link::To(id) => {
            if let Some((first, end)) = from.range(id) {
                return add_range(alloc, growing, from, at, first, end);
            }
            let (face, behind, ahead) = from.node(alloc, id)?;
            let behind = add_moved(alloc, growing, from, behind)?;
            let ahead = add_moved(alloc, growing, from, ahead)?;
            growing.add(face, behind, ahead)
        }
    }
}

// The same where the tree's nodes are a range of the list: they are added in their order, each with links that reach as
// far back as its own.
fn add_range(
    alloc: Global,
    growing: &mut Growing<'_>,
    from: &MovedNodes<'_>,
    at: Link,
    first: usize,
    end: usize,
) -> Result<Link, GrowStop>
    requires table { growing.old.sheet.planes ≡ from.now.planes }
    requires range { Spans from.now.own.nodes first at end }
    ensures { GrowsBy growing.old growing.new (tree_on from.now.own at) result }
{
    for index in first..end {
        let (face, behind, ahead) = from.node(alloc, NodeId { index })?;
        let next = growing.len();
        growing.add(
            face,
            link_shifted_by(behind, index, next),
            link_shifted_by(ahead, index, next),
        )?;
    }
    Ok(link_shifted_by(at, end, growing.len()))
}
