//! Solids that were made over a larger table.

ghost use Rattle.std.specs.Prelude.{◌≡◌, length, IfOk};
ghost use Rattle.link_forest.specs.Forests.{IsLinkOf};
ghost use Rattle.bsp_tree.specs.Shapes.{tree_of};
ghost use Rattle.bsp_tree.specs.Growths.{with_sides_exchanged, tree_on, HasGrownWhole};
ghost use Rattle.bsp_tree.specs.Copies.{AreUsed};

use crate::copying::{add_branch, nodes_over};
use crate::growing::Growing;
use crate::nodes::Nodes;
use crate::solid::Solid;
use link_forest::{Link, NodeId};
use plain_text::NoMemory;
use plane_predicate::Plane;
use plane_table::{PlaneTable, keep_used, mark_used};
use std::alloc::Global;

/// The tree at a link of nodes, or its complement, as a solid.
pub fn solid_at(
    alloc: Global,
    nodes: &Nodes<'_>,
    at: Link,
    is_exchanged: bool,
) -> Result<Solid, NoMemory>
    requires { IsLinkOf nodes.now.nodes at }
    ensures { IfOk result
        (λ s. tree_of s ≡ with_sides_exchanged is_exchanged (tree_on nodes.now at)) }
{
    let mut growing = Growing::new(alloc, nodes.table(), u64::MAX);
    // A solid above that limit is larger than any memory: each node and each edge takes more than one byte.
    let Ok(root) = add_branch(alloc, &mut growing, nodes, at, is_exchanged) else {
        return Err(NoMemory);
    };
    finish(alloc, growing, root)
}

/// The solid that has grown, whose tree begins at a link. Of its table it has all planes, or where more
/// than a third of them is not used, those that are.
pub fn finish(alloc: Global, growing: Growing<'_>, root: Link) -> Result<Solid, NoMemory>
    requires { HasGrownWhole growing.sheet root growing.size }
    ensures { IfOk result (λ s. tree_of s ≡ tree_on growing.entry.sheet root) }
{
    let (nodes, size) = growing.into_parts();
    let used = used_planes(alloc, &nodes)?;
    if has_many_unused(&used) {
        return trim(alloc, &nodes, root, size, &used);
    }
    whole(alloc, nodes, root, size)
}

// The solid with all planes of its table. Room for more nodes is given back, since a solid never grows.
fn whole(alloc: Global, nodes: Nodes<'_>, root: Link, size: u64) -> Result<Solid, NoMemory>
    requires { HasGrownWhole nodes root size }
    ensures { IfOk result (λ s. tree_of s ≡ tree_on nodes.entry root) }
{
    let mut planes = Vec::new(alloc);
    planes.extend_from_slice(nodes.table().planes())?;
    let mut forest = nodes.into_forest();
    forest.shrink_to_fit();
    Ok(Solid::of_growth(planes, forest, root, size))
}

// The solid with those planes that are used.
fn trim(
    alloc: Global,
    nodes: &Nodes<'_>,
    root: Link,
    size: u64,
    used: &[bool],
) -> Result<Solid, NoMemory>
    requires grown { HasGrownWhole nodes.now root size }
    requires used { AreUsed nodes.now used.now }
    ensures { IfOk result (λ s. tree_of s ≡ tree_on nodes.now root) }
{
    let planes = nodes.table().planes();
    let kept = keep_used(alloc, planes, used)?;
    let table = PlaneTable::of(alloc, kept.planes)?;
    let over = nodes_over(alloc, &table, planes, nodes.forest(), &kept.numbers)?;
    whole(alloc, over, root, size)
}

// Whether more than a third of the planes is not used.
fn has_many_unused(used: &[bool]) -> bool {
    let unused = used.iter().filter(|is_used| !**is_used).count();
    unused > used.len() / 3
}

// Which planes of their table some nodes name.
fn used_planes(alloc: Global, nodes: &Nodes<'_>) -> Result<Vec<bool>, NoMemory>
    ensures { IfOk result (λ v. AreUsed nodes.now v.items) }
{
    let mut used = vec![in alloc; false; nodes.table().planes().len()]?;
    mark_nodes(nodes, &mut used);
    Ok(used)
}

// Marks the planes that some nodes name as used.
fn mark_nodes(nodes: &Nodes<'_>, used: &mut [bool])
    requires { length used.old ≡ length nodes.now.planes }
    ensures { AreUsed nodes.now used.new }
{
    for index in 0..nodes.len() {
        let (face, _, _) = nodes.node(NodeId { index });
        mark_used(face, used);
    }
}
