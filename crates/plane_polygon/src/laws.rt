//! Laws of polygons, for the crates above. They are proved, and do nothing when they run.

ghost use Rattle.std.specs.Prelude.{◌≡◌, ◌≢◌, ◌↔◌, ◌<◌, ◌≤ℤ◌, ◌<ℤ◌, ℕ, pos};
ghost use Rattle.plane_predicate.specs.Space.{Coefficients, Coordinates, orientation_seen_from, value, IsInClosedWorld, IsPlane, ComesInReach};
ghost use Rattle.plane_polygon.specs.Polygons.{corner, edge_count, Covers, HasConvexCorners, IsInFan, IsPolygon, IsStrictlyLeft, IsStrictlyWithin, Outline};
ghost use Rattle.plane_polygon.specs.Parts.{class_of, part_ahead, part_behind};
ghost use Rattle.plane_polygon.specs.Boxes.{box_outline};
ghost use Rattle.plane_polygon.specs.declared.classes.Class.TheVariants.{Across};
ghost use Rattle.plane_predicate.specs.Indices.{index_after};

use crate::Polygon;

/// A polygon has the form that its type keeps.
pub fn polygons_keep_their_form(polygon: &Polygon)
    ensures { IsPolygon polygon.now }
{
    let _ = &polygon.plane;
}

/// At least three edges make a polygon exactly where each corner exists, it is strictly behind every
/// edge other than its own two, and the corners go counterclockwise, seen from ahead.
pub fn polygons_by_their_corners()
    ensures { (s : Outline) → IsPolygon s ↔ HasConvexCorners s }
{}

/// Each point of a polygon is a combination, with weights of at least 0, of three of its corners:
/// corner 0 and two neighbouring ones.
pub fn points_lie_in_the_fan()
    ensures { (s : Outline) → IsPolygon s → (p : Coordinates) → Covers s p → IsInFan s p }
{}

/// The two parts of a polygon that a plane is across are polygons, and have exactly the points
/// that are not ahead of the plane, and those that are not behind it.
pub fn parts_are_polygons()
    ensures behind { (s : Outline) (m : Coefficients) → IsPolygon s → class_of s m ≡ Across →
        IsPolygon (part_behind s m) }
    ensures ahead { (s : Outline) (m : Coefficients) → IsPolygon s → class_of s m ≡ Across →
        IsPolygon (part_ahead s m) }
    ensures behind_points { (s : Outline) (m : Coefficients) → IsPolygon s → class_of s m ≡ Across →
        (p : Coordinates) → Covers (part_behind s m) p ↔ (Covers s p × (value m p ≤ℤ pos 0)) }
    ensures ahead_points { (s : Outline) (m : Coefficients) → IsPolygon s → class_of s m ≡ Across →
        (p : Coordinates) → Covers (part_ahead s m) p ↔ (Covers s p × (pos 0 ≤ℤ value m p)) }
{}

/// The corners go counterclockwise, seen from ahead: each other corner lies strictly left of the
/// way from a corner to the next.
pub fn corners_go_counterclockwise()
    ensures { (s : Outline) → IsPolygon s → (i j : ℕ) → i < edge_count s →
        j < edge_count s → j ≢ i →
        j ≢ index_after (edge_count s) i →
        pos 0 <ℤ orientation_seen_from s.plane (corner s i)
        (corner s (index_after (edge_count s) i)) (corner s j) }
{}

/// A point is strictly behind all edges exactly where it is strictly left of each way from a
/// corner to the next, seen from ahead.
pub fn within_is_left()
    ensures { (s : Outline) → IsPolygon s → (p : Coordinates) → IsStrictlyWithin s p
        ↔ IsStrictlyLeft s p }
{}

/// The box polygon of a plane that comes in reach is a polygon, and has exactly the plane's points
/// in the closed world box.
pub fn box_polygons_are_polygons()
    ensures polygon { (m : Coefficients) → IsPlane m → ComesInReach m → IsPolygon (box_outline m) }
    ensures points { (m : Coefficients) → IsPlane m → ComesInReach m → (p : Coordinates) →
        Covers (box_outline m) p ↔ ((value m p ≡ pos 0) × IsInClosedWorld p) }
{}
