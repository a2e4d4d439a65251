//! Laws of the edges of facets, for the crates above. They are proved, and do nothing when they run.

ghost use Rattle.std.specs.Prelude.{◌≡◌, ◌↔◌, ◌<◌, ◌<ℤ◌, ◌-ℤ◌, ◌&&◌, ℕ, pos, true, map};
ghost use Rattle.plane_predicate.specs.declared.unit.Unit.TheVariants.{Whole};
ghost use Rattle.plane_predicate.specs.Space.{Coordinates, opposite_of};
ghost use Rattle.plane_polygon.specs.Polygons.{Outline, IsPolygon, IsStrictlyWithin, edge_count};
ghost use Rattle.plane_polygon.specs.Parts.{corners};
ghost use Rattle.closed_surface.specs.Ways.{Direction, displacement, dot_product, is_same_direction, is_opposite_direction};
ghost use Rattle.closed_surface.specs.Closed.{runs_through, edges_of, AreClosed, count_of_edges_along, count_of_edges_against};
ghost use Rattle.bsp_tree.specs.Trees.{BspTree};
ghost use Rattle.bsp_tree.specs.Cells.{IsOfWorld};
ghost use Rattle.facet_cut.specs.Facets.{facets_of};
ghost use Rattle.closed_surface.specs.Edges.{edge_of_outline, IsOnEdge, RunsAlong, RunsAgainst};
ghost use Rattle.closed_surface.specs.Near.{near_point, direction_beside, BoundsSlopes, IsNoCorner, IsClear, is_strictly_within, indicator};
ghost use Rattle.plane_predicate.specs.Indices.{index_after};

use facet_cut::{facets_are_polygons, facets_bound_their_solid};

/// The edge of a polygon from a corner to the next runs through exactly the points of its plane and of
/// the edge's plane that are strictly behind all other edges. It runs along a direction exactly where
/// both planes hold the direction and the one is to the left of the other about it, and against it where
/// it is to the right.
pub fn edges_run_on_their_planes()
    ensures points { (s : Outline) → IsPolygon s → (i : ℕ) → i < edge_count s → (q : Coordinates) →
        pos 0 <ℤ q.w → (runs_through (edge_of_outline s i) q ≡ true)
        ↔ IsOnEdge s (index_after (edge_count s) i) q }
    ensures along { (s : Outline) → IsPolygon s → (i : ℕ) → i < edge_count s → (q : Coordinates) →
        pos 0 <ℤ q.w → (v : Direction) →
        ((runs_through (edge_of_outline s i) q && is_same_direction
        (displacement (edge_of_outline s i).0 (edge_of_outline s i).1) v)
        ≡ true) ↔ RunsAlong s (index_after (edge_count s) i) q v }
    ensures against { (s : Outline) → IsPolygon s → (i : ℕ) → i < edge_count s → (q : Coordinates) →
        pos 0 <ℤ q.w → (v : Direction) →
        ((runs_through (edge_of_outline s i) q && is_opposite_direction
        (displacement (edge_of_outline s i).0 (edge_of_outline s i).1) v)
        ≡ true) ↔ RunsAgainst s (index_after (edge_count s) i) q v }
{}

/// Where a point is no corner of a polygon, just those of its edges that run through it along a
/// direction run through a point near by, moved along the direction.
pub fn edges_run_on()
    ensures along { (s : Outline) → IsPolygon s → (number : ℕ) (q : Coordinates) → pos 0 <ℤ q.w →
        IsNoCorner s q → (v : Direction) → BoundsSlopes number s v →
        count_of_edges_along (edges_of (corners s)) (near_point number q v) v
        ≡ count_of_edges_along (edges_of (corners s)) q v }
    ensures against { (s : Outline) → IsPolygon s → (number : ℕ) (q : Coordinates) → pos 0 <ℤ q.w →
        IsNoCorner s q → (v : Direction) → BoundsSlopes number s v →
        count_of_edges_against (edges_of (corners s)) (near_point number q v) v
        ≡ count_of_edges_against (edges_of (corners s)) q v }
{}

/// Let the planes of a polygon that go through a point hold a direction. Then how many of its edges
/// run through the point along the direction, less how many run the opposite way, is 1 where the
/// polygon covers a point near by to the left alone, -1 to the right alone, and else 0.
pub fn edges_bound_what_is_covered()
    ensures balance { (s : Outline) → IsPolygon s → (number : ℕ) (q : Coordinates) → pos 0 <ℤ q.w →
        (v : Direction) → pos 0 <ℤ dot_product v v → IsClear s q v →
        BoundsSlopes number s (direction_beside s.plane v) →
        BoundsSlopes number s (direction_beside (opposite_of s.plane) v) →
        pos (count_of_edges_along (edges_of (corners s)) q v) -ℤ pos
        (count_of_edges_against (edges_of (corners s)) q v)
        ≡ indicator (is_strictly_within s (near_point number q (direction_beside s.plane v)))
        -ℤ indicator (is_strictly_within s (near_point number q
        (direction_beside (opposite_of s.plane) v))) }
    ensures within { (s : Outline) (p : Coordinates) → (is_strictly_within s p ≡ true) ↔
        IsStrictlyWithin s p }
{}

/// The facets of a solid of the world box are closed. Take a point strictly inside the box that is no
/// corner of a facet, and a direction. As many edges of facets run through the point along the
/// direction as run through it the opposite way.
pub fn facets_are_closed()
    ensures { (t : BspTree) → IsOfWorld t → AreClosed Whole (map corners (facets_of t)) }
{
    // Each call is for its law, and does nothing when it runs.
    facets_are_polygons();
    facets_bound_their_solid();
}
