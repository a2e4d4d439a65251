//! The parts of a tree among nodes over one table.

ghost use Rattle.std.specs.Prelude.{◌≡◌, ◌<◌, length, IfOk};
ghost use Rattle.link_forest.specs.Forests.{IsLinkOf};
ghost use Rattle.link_forest.specs.declared.link.Link.TheVariants.{To};
ghost use Rattle.plane_polygon.specs.declared.classes.Class.TheVariants.{Across};
ghost use Rattle.plane_table.specs.Tables.{plane_named};
ghost use Rattle.plane_table.specs.Cuts.{IsCrossing};
ghost use Rattle.plane_table.specs.Faces.{AreSidesWhereAcross, IsFaceOver};
ghost use Rattle.bsp_tree.specs.Trees.{node_or_leaf};
ghost use Rattle.bsp_tree.specs.Growths.{tree_on};
ghost use Rattle.bsp_tree.specs.Partitions.{parts_where_across, parts_where_ahead, parts_where_behind, divide};
ghost use Rattle.bsp_partition.specs.Parts.{half_on, high_division, low_division, outline_on, parts_off_plane, trees_on, AreLinksOf, HasAddedTree, HasParts, HasSideParts, IsForkOn};

use crate::fork::Fork;
use bsp_tree::{Face, Link, NodeId, Nodes, Part, is_same_leaf};
use plain_text::NoMemory;
use plane_polygon::Class;
use plane_table::{CornerSides, Crossing, Half, cut, sides_where_across};
use std::alloc::Global;

/// Adds the parts behind and ahead of a face's plane of the tree at a link, and gives their links.
/// What stands among the nodes stays.
#[cycle(parts)]
pub fn add_parts(
    alloc: Global,
    nodes: &mut Nodes<'_>,
    at: Link,
    by: &Face,
) -> Result<(Link, Link), NoMemory>
    requires link { IsLinkOf nodes.old.nodes at }
    requires face { IsFaceOver nodes.old.planes by.now }
    ensures { IfOk result
        (λ r. HasParts nodes.old nodes.new r
        (divide (tree_on nodes.old at) (outline_on nodes.old by.now))) }
{
    match at {
        Link::End(_) => Ok((at, at)),
        Link::To(id) => node_parts(alloc, nodes, id, by),
    }
}

// The parts of a node's tree. On its own plane it has its two sides as its parts.
#[cycle(parts)]
fn node_parts(
    alloc: Global,
    nodes: &mut Nodes<'_>,
    id: NodeId,
    by: &Face,
) -> Result<(Link, Link), NoMemory>
    requires link { id.index < length nodes.old.nodes }
    requires face { IsFaceOver nodes.old.planes by.now }
    ensures { IfOk result
        (λ r. HasParts nodes.old nodes.new r
        (divide (tree_on nodes.old (To id)) (outline_on nodes.old by.now))) }
{
    let table = nodes.table();
    let (face, behind, ahead) = nodes.node(id);
    if table.is_same(face.plane, by.plane) {
        return Ok((behind, ahead));
    }
    if table.is_opposite(face.plane, by.plane) {
        return Ok((ahead, behind));
    }
    let face = face.copy(alloc)?;
    let node = Fork {
        face,
        behind,
        ahead,
    };
    other_parts(alloc, nodes, node, by)
}

// The parts of a node on another plane, by how its face and the other one lie against each other's
// planes.
#[cycle(parts)]
fn other_parts(
    alloc: Global,
    nodes: &mut Nodes<'_>,
    node: Fork,
    by: &Face,
) -> Result<(Link, Link), NoMemory>
    requires node { IsForkOn nodes.old node }
    requires face { IsFaceOver nodes.old.planes by.now }
    ensures { IfOk result
        (λ r. HasParts nodes.old nodes.new r
        (parts_off_plane (outline_on nodes.old by.now) (outline_on nodes.old node.face)
        (tree_on nodes.old node.behind) (tree_on nodes.old node.ahead))) }
{
    let table = nodes.table();
    let of_by = sides_where_across(alloc, table, by, node.face.plane)?;
    let of_own = sides_where_across(alloc, table, &node.face, by.plane)?;
    match (of_by.class, of_own.class) {
        (Class::Across, Class::Across) => {
            let parts = side_parts(alloc, nodes, &node, by, &of_by)?;
            made_across(alloc, nodes, &node.face, by, &of_own, parts)
        }
        (Class::Behind, Class::Behind) => behind_parts(alloc, nodes, node, by, Part::Low),
        (Class::Behind, Class::Ahead) => behind_parts(alloc, nodes, node, by, Part::High),
        (Class::Ahead, Class::Behind) => ahead_parts(alloc, nodes, node, by, Part::Low),
        (Class::Ahead, Class::Ahead) => ahead_parts(alloc, nodes, node, by, Part::High),
        _ => Ok((node.behind, node.ahead)),
    }
}

// The parts of what lies behind and ahead of a node's plane, by the parts of another face that is
// across that plane.
#[cycle(parts)]
fn side_parts(
    alloc: Global,
    nodes: &mut Nodes<'_>,
    node: &Fork,
    by: &Face,
    of_by: &CornerSides,
) -> Result<((Link, Link), (Link, Link)), NoMemory>
    requires node { IsForkOn nodes.old node.now }
    requires face { IsFaceOver nodes.old.planes by.now }
    requires sides { AreSidesWhereAcross (outline_on nodes.old by.now)
        (plane_named nodes.old.planes node.now.face.plane) of_by.now }
    requires across { of_by.now.class ≡ Across }
    ensures { IfOk result
        (λ r. HasSideParts nodes.old nodes.new r (low_division nodes.old node.now by.now)
        (high_division nodes.old node.now by.now)) }
{
    let by = Crossing {
        face: by,
        number: node.face.plane,
        sides: of_by,
    };
    let low = half_parts(alloc, nodes, node.behind, by, Half::Behind)?;
    let high = half_parts(alloc, nodes, node.ahead, by, Half::Ahead)?;
    Ok((low, high))
}

// The parts of the tree at a link, by the part of a face in a half space. A leaf is both its parts.
#[cycle(parts)]
fn half_parts(
    alloc: Global,
    nodes: &mut Nodes<'_>,
    at: Link,
    by: Crossing<'_>,
    half: Half,
) -> Result<(Link, Link), NoMemory>
    requires link { IsLinkOf nodes.old.nodes at }
    requires crossing { IsCrossing nodes.old.planes by }
    ensures { IfOk result
        (λ r. HasParts nodes.old nodes.new r
        (divide (tree_on nodes.old at) (half_on nodes.old half by.entry))) }
{
    match at {
        Link::End(_) => Ok((at, at)),
        Link::To(_) => {
            let part = cut(alloc, nodes.table(), by, half)?;
            add_parts(alloc, nodes, at, &part)
        }
    }
}

// The two parts of a face that is across another one's plane, in nodes with the parts of its sides.
fn made_across(
    alloc: Global,
    nodes: &mut Nodes<'_>,
    face: &Face,
    by: &Face,
    of_own: &CornerSides,
    parts: ((Link, Link), (Link, Link)),
) -> Result<(Link, Link), NoMemory>
    requires own { IsFaceOver nodes.old.planes face.now }
    requires face { IsFaceOver nodes.old.planes by.now }
    requires sides { AreSidesWhereAcross (outline_on nodes.old face.now)
        (plane_named nodes.old.planes by.now.plane) of_own.now }
    requires across { of_own.now.class ≡ Across }
    requires links { AreLinksOf nodes.old parts }
    ensures { IfOk result
        (λ r. HasParts nodes.old nodes.new r
        (parts_where_across (outline_on nodes.old by.now) (outline_on nodes.old face.now)
        (trees_on nodes.old parts.0) (trees_on nodes.old parts.1))) }
{
    let (low, high) = parts;
    let own = Crossing {
        face,
        number: by.plane,
        sides: of_own,
    };
    let first = make_half(alloc, nodes, own, Half::Behind, low.0, high.0)?;
    let second = make_half(alloc, nodes, own, Half::Ahead, low.1, high.1)?;
    Ok((first, second))
}

// A node of the part of a face in a half space, or the leaf where both its sides are the same leaf.
fn make_half(
    alloc: Global,
    nodes: &mut Nodes<'_>,
    own: Crossing<'_>,
    half: Half,
    behind: Link,
    ahead: Link,
) -> Result<Link, NoMemory>
    requires crossing { IsCrossing nodes.old.planes own }
    requires behind { IsLinkOf nodes.old.nodes behind }
    requires ahead { IsLinkOf nodes.old.nodes ahead }
    ensures { IfOk result
        (λ l. HasAddedTree nodes.old nodes.new l
        (node_or_leaf (half_on nodes.old half own.entry) (tree_on nodes.old behind)
        (tree_on nodes.old ahead))) }
{
    if is_same_leaf(behind, ahead) {
        return Ok(behind);
    }
    let part = cut(alloc, nodes.table(), own, half)?;
    make_node(nodes, part, behind, ahead)
}

// The parts of a node by a face that lies behind its plane, where its own face lies in this part.
#[cycle(parts)]
fn behind_parts(
    alloc: Global,
    nodes: &mut Nodes<'_>,
    node: Fork,
    by: &Face,
    part: Part,
) -> Result<(Link, Link), NoMemory>
    requires node { IsForkOn nodes.old node }
    requires face { IsFaceOver nodes.old.planes by.now }
    ensures { IfOk result
        (λ r. HasParts nodes.old nodes.new r
        (parts_where_behind part (outline_on nodes.old node.face)
        (divide (tree_on nodes.old node.behind) (outline_on nodes.old by.now))
        (tree_on nodes.old node.ahead))) }
{
    let (low, high) = add_parts(alloc, nodes, node.behind, by)?;
    match part {
        Part::Low => Ok((make_node(nodes, node.face, low, node.ahead)?, high)),
        Part::High => Ok((low, make_node(nodes, node.face, high, node.ahead)?)),
    }
}

// The parts of a node by a face that lies ahead of its plane, where its own face lies in this part.
#[cycle(parts)]
fn ahead_parts(
    alloc: Global,
    nodes: &mut Nodes<'_>,
    node: Fork,
    by: &Face,
    part: Part,
) -> Result<(Link, Link), NoMemory>
    requires node { IsForkOn nodes.old node }
    requires face { IsFaceOver nodes.old.planes by.now }
    ensures { IfOk result
        (λ r. HasParts nodes.old nodes.new r
        (parts_where_ahead part (outline_on nodes.old node.face) (tree_on nodes.old node.behind)
        (divide (tree_on nodes.old node.ahead) (outline_on nodes.old by.now)))) }
{
    let (low, high) = add_parts(alloc, nodes, node.ahead, by)?;
    match part {
        Part::Low => Ok((make_node(nodes, node.face, node.behind, low)?, high)),
        Part::High => Ok((low, make_node(nodes, node.face, node.behind, high)?)),
    }
}

// A node over two links, or the leaf where both are the same leaf.
fn make_node(nodes: &mut Nodes<'_>, face: Face, behind: Link, ahead: Link) -> Result<Link, NoMemory>
    requires face { IsFaceOver nodes.old.planes face }
    requires behind { IsLinkOf nodes.old.nodes behind }
    requires ahead { IsLinkOf nodes.old.nodes ahead }
    ensures { IfOk result
        (λ l. HasAddedTree nodes.old nodes.new l
        (node_or_leaf (outline_on nodes.old face) (tree_on nodes.old behind) (tree_on nodes.old ahead))) }
{
    if is_same_leaf(behind, ahead) {
        return Ok(behind);
    }
    // That links stand before their nodes shows the proof that nodes are no leaves.
    let _ = nodes.len();
    Ok(Link::To(nodes.add(face, behind, ahead)?))
}
