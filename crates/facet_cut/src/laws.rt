//! Laws of facets, for the crates above. They are proved, and do nothing when they run.

ghost use Rattle.std.specs.Prelude.{◌↔◌, ◌<◌, ℕ, List, All};
ghost use Rattle.plane_predicate.specs.Space.{Coefficients, Coordinates, IsInClosedWorld};
ghost use Rattle.plane_polygon.specs.Polygons.{corner, edge_count, Covers, IsPolygon, IsStrictlyWithin, Outline};
ghost use Rattle.bsp_tree.specs.Trees.{BspTree};
ghost use Rattle.bsp_tree.specs.Cells.{IsOfCell, IsOfWorld};
ghost use Rattle.facet_cut.specs.Facets.{facets_of, reversed_outline};
ghost use Rattle.facet_cut.specs.Sides.{BoundSolid, IsFacetOf};

/// A polygon seen from the other side is a polygon of the opposite plane with the same points.
pub fn reversed_polygons_are_polygons()
    ensures polygon { (s : Outline) → IsPolygon s → IsPolygon (reversed_outline s) }
    ensures points { (s : Outline) (p : Coordinates) → Covers (reversed_outline s) p ↔ Covers s p }
    ensures within { (s : Outline) (p : Coordinates) → IsStrictlyWithin (reversed_outline s) p ↔
        IsStrictlyWithin s p }
{}

/// Each facet of a solid of a cell is a polygon of the plane of some node or of its opposite, and
/// its points are points of the closed cell. So the corners of a facet of a solid of the world box
/// lie in the closed world box.
pub fn facets_are_polygons()
    ensures facets { (cell : List Coefficients) (t : BspTree) → IsOfCell cell t →
        All (IsFacetOf cell t) (facets_of t) }
    ensures corners { (t : BspTree) → IsOfWorld t →
        All (λ s. (i : ℕ) → i < edge_count s → IsInClosedWorld (corner s i)) (facets_of t) }
{}

/// The facets bound their solid. Take a point of the cell that lies on one plane of the solid, and
/// one of the two sides of that plane. Where the walk with the point taken just behind the plane,
/// seen from that side, ends inside and the walk just ahead ends outside, exactly one facet covers
/// the point and faces that side. Otherwise none does.
pub fn facets_bound_their_solid()
    ensures { (cell : List Coefficients) (t : BspTree) → IsOfCell cell t →
        BoundSolid cell t (facets_of t) }
{}
