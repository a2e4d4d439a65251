//! The facets of a solid.

ghost use Rattle.std.specs.Prelude.{◌≡◌, ◌<◌, ◌≤◌, length, All, IfOk, IsErrOf};
ghost use Rattle.plane_table.specs.Tables.{HasNoTwoAlike};
ghost use Rattle.bsp_tree.specs.Cells.{IsOfCell};
ghost use Rattle.bsp_tree.specs.Shapes.{tree_of};
ghost use Rattle.facet_cut.specs.Facets.{facets_of};
ghost use Rattle.facet_cut.specs.Sides.{BoundSolid, IsFacetOf};

use crate::walls::Walls;
use crate::{CutStop, Facet};
use bsp_tree::Solid;
use plain_text::NoMemory;
use plane_predicate::Plane;
use plane_table::PlaneTable;
use std::alloc::Global;

/// The facets of a solid, of which at most `most` are given. The solid is lent: each node's face is
/// cut in numbers, and what is left of it as a facet becomes a polygon.
///
/// `TooMany` comes where there are more than `most`, as soon as one more is found.
pub fn facets(alloc: Global, solid: &Solid, most: u32) -> Result<Vec<Facet>, CutStop>
    ensures list { IfOk result (λ v. v.items ≡ facets_of (tree_of solid.now)) }
    ensures fits { IfOk result (λ v. length v.items ≤ most) }
    ensures many { IsErrOf result CutStop.TooMany → most < length (facets_of (tree_of solid.now)) }
    ensures polygons { IfOk result
        (λ v. (cell : _) → IsOfCell cell (tree_of solid.now) →
        All (IsFacetOf cell (tree_of solid.now)) v.items) }
    ensures bound { IfOk result
        (λ v. (cell : _) → IsOfCell cell (tree_of solid.now) →
        BoundSolid cell (tree_of solid.now) v.items) }
{
    facet_list(alloc, solid, most)
}

/// The same list, of which its definition says all that is promised.
pub fn facet_list(alloc: Global, solid: &Solid, most: u32) -> Result<Vec<Facet>, CutStop>
    ensures list { IfOk result (λ v. v.items ≡ facets_of (tree_of solid.now)) }
    ensures fits { IfOk result (λ v. length v.items ≤ most) }
    ensures many { IsErrOf result CutStop.TooMany → most < length (facets_of (tree_of solid.now)) }
{
    let (planes, forest, root) = solid.parts();
    let table = table_of(alloc, planes)?;
    let walls = Walls {
        table: &table,
        forest,
    };
    let mut found = Vec::new(alloc);
    walls.push_facets(alloc, root, u64::from(most), &mut found)?;
    Ok(found)
}

/// The table of a list of planes.
pub fn table_of(alloc: Global, planes: &[Plane]) -> Result<PlaneTable, NoMemory>
    requires { HasNoTwoAlike planes.now }
    ensures { IfOk result (λ t. t ≡ planes.now) }
{
    let mut copied = Vec::new(alloc);
    copied.extend_from_slice(planes)?;
    PlaneTable::of(alloc, copied)
}
