//! Trees that are copied: into a solid in the making, and from a solid onto another table.

ghost use Rattle.std.specs.Prelude.{◌≡◌, IfOk, length};
ghost use Rattle.link_forest.specs.Forests.{IsLinkOf};
ghost use Rattle.plane_table.specs.Joins.{AreNumbersOf};
ghost use Rattle.bsp_tree.specs.Shapes.{tree_of, AreFacesOver};
ghost use Rattle.bsp_tree.specs.Growths.{with_sides_exchanged, tree_on, GrowsBy, HasTree};
ghost use Rattle.bsp_tree.specs.Copies.{AreCopied, AreFoundOver};

use crate::growing::{GrowStop, Growing};
use crate::links::exchanged_leaf;
use crate::nodes::Nodes;
use crate::solid::Solid;
use link_forest::{Forest, Link, NodeId};
use plain_text::NoMemory;
use plane_predicate::Plane;
use plane_table::{Face, PlaneTable, renumber};
use std::alloc::Global;

/// Adds the tree at a link of other nodes over the same table, or its complement, to a solid in the
/// making.
pub fn add_branch(
    alloc: Global,
    growing: &mut Growing<'_>,
    from: &Nodes<'_>,
    at: Link,
    is_exchanged: bool,
) -> Result<Link, GrowStop>
    requires table { growing.old.sheet.planes ≡ from.now.planes }
    requires link { IsLinkOf from.now.nodes at }
    ensures { GrowsBy growing.old growing.new
        (with_sides_exchanged is_exchanged (tree_on from.now at)) result }
{
    match at {
        Link::End(is_inside) => Ok(Link::End(exchanged_leaf(is_inside, is_exchanged))),
        Link::To(id) => {
            let (face, behind, ahead) = from.node(id);
            let behind = add_branch(alloc, growing, from, behind, is_exchanged)?;
            let ahead = add_branch(alloc, growing, from, ahead, is_exchanged)?;
            growing.add(face.copy(alloc)?, behind, ahead)
        }
    }
}

/// The nodes of a forest over a list of planes, as nodes over a table in which those planes that the
/// faces name have these numbers.
pub fn nodes_over<'t>(
    alloc: Global,
    table: &'t PlaneTable,
    planes: &[Plane],
    forest: &Forest<Face>,
    numbers: &[u32],
) -> Result<Nodes<'t>, NoMemory>
    requires faces { AreFacesOver planes.now forest.now.nodes }
    requires found { AreFoundOver table.now numbers.now planes.now forest.now.nodes }
    ensures table { IfOk result (λ n. n.planes ≡ table.now) }
    ensures copied { IfOk result (AreCopied planes.now forest.now.nodes (length forest.now.nodes)) }
{
    let mut nodes = Nodes::new(alloc, table);
    nodes.reserve(forest.len())?;
    for index in 0..forest.len() {
        let (face, behind, ahead) = forest.at(NodeId { index });
        nodes.add(renumber(alloc, face, numbers)?, behind, ahead)?;
    }
    Ok(nodes)
}

/// The nodes of a solid over a table, in which its planes have these numbers. Its tree begins at the
/// solid's own root.
pub fn solid_over<'t>(
    alloc: Global,
    table: &'t PlaneTable,
    solid: &Solid,
    numbers: &[u32],
) -> Result<Nodes<'t>, NoMemory>
    requires { AreNumbersOf table.now numbers.now solid.now.planes }
    ensures planes { IfOk result (λ n. n.planes ≡ table.now) }
    ensures stands { IfOk result (λ n. HasTree n solid.now.root (tree_of solid.now)) }
{
    let (planes, forest, _) = solid.parts();
    nodes_over(alloc, table, planes, forest, numbers)
}
