//! Laws of hulls. They are proved, and do nothing when they run.

ghost use Rattle.std.specs.Prelude.{◌↔◌, ℤ, ◌<ℤ◌, pos, List, Contains};
ghost use Rattle.std.specs.Cmp.Lexicographic.{slice_cmp};
ghost use Rattle.std.specs.List.Sorted.{IsStrictlySortedBy};
ghost use Rattle.std.specs.Ordering.{int_cmp};
ghost use Rattle.plane_predicate.specs.Space.{Coordinates};
ghost use Rattle.primitives.specs.Shapes.{IsInside, IsShape};
ghost use Rattle.scad_hull.specs.Combinations.{IsInnerCombination};
ghost use Rattle.scad_hull.specs.Hulls.{points_in_order, hull_of};
ghost use Rattle.scad_hull.specs.Refusals.{HaveHull};

/// The different ones of some points ascend strictly, by x, then y, then z, and are the given points.
#[tactic(auto, using(crate::proofs::Ordered::ascending))]
pub fn different_points_ascend()
    ensures ascending { (given : List (List ℤ)) →
        IsStrictlySortedBy (slice_cmp int_cmp) (points_in_order given) }
    ensures members { (given : List (List ℤ)) (p : List ℤ) → Contains (points_in_order given) p
        ↔ Contains given p }
{}

/// The hull of points that have one is a shape, and a point is strictly behind all of its faces exactly where it is a
/// combination of the points with weights above 0.
pub fn hulls_hold_inner_combinations()
    ensures shape { (given : List (List ℤ)) → HaveHull given → IsShape (hull_of given) }
    ensures inside { (given : List (List ℤ)) → HaveHull given → (q : Coordinates) → pos 0 <ℤ q.w →
        IsInside (hull_of given) q ↔ IsInnerCombination (points_in_order given) q }
{}
