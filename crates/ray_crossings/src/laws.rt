//! Laws of ways through the faces of a text, and of its vertices. They are proved, and do nothing when they run.

ghost use Rattle.std.specs.Prelude.{◌≡◌, ℕ, ◌-ℤ◌, List, All, pos, negsuc, ◌<ℤ◌, ◌≤ℤ◌};
ghost use Rattle.plane_predicate.specs.declared.unit.Unit.{Unit as LengthUnit};
ghost use Rattle.plane_predicate.specs.Space.{Coordinates, Coefficients, value, IsInWorld, origin};
ghost use Rattle.plane_predicate.specs.InUnits.{in_steps};
ghost use Rattle.csg_tree.specs.declared.op.Op.TheVariants.{Union};
ghost use Rattle.csg_tree.specs.HalfSpaceTrees.{Tree, tree_join, holds, sides_of};
ghost use Rattle.csg_tree.specs.FacePlanes.{IsOnOneFacePlane};
ghost use Rattle.csg_tree.specs.ProperTrees.{IsProper};
ghost use Rattle.csg_tree.specs.Reach.{KeepsWithinReach};
ghost use Rattle.bsp_tree.specs.Cells.{IsInCell};
ghost use Rattle.closed_surface.specs.Closed.{corners_at};
ghost use Rattle.closed_surface.specs.Near.{indicator};
ghost use Rattle.off_text.specs.Bounding.{IsBoundary};
ghost use Rattle.ray_crossings.specs.Crossings.{crossing, crossings, TouchesNoEdge};
ghost use Rattle.ray_crossings.specs.Positions.{IsInGeneralPosition, IsOffFacePlanes};
ghost use Rattle.ray_crossings.specs.Limits.{IsInsideSolid, IsLimitOfInside};
ghost use Rattle.ray_crossings.specs.Tiles.{HoldAlikeInside, CoverAlike};
ghost use Rattle.ray_crossings.specs.Worked.{worked_triangle, point_below, point_above};
ghost use Rattle.ray_crossings.specs.Worked.{worked_cube, point_beside};

/// What a ray tells: of a way in general position, or one that touches no edge, between points off all face planes, the
/// crossings sum to 1 where it leaves the solid, to -1 where it enters, else to 0.
pub fn crossings_tell_inside()
    ensures planes { (unit : LengthUnit) (bytes : List ℕ) (f : Tree) → IsProper f →
        (text : IsBoundary unit bytes f) → (a b : Coordinates) → IsInGeneralPosition unit f a b →
        crossings a b text.vertices text.faces
        ≡ indicator (holds f (sides_of (in_steps unit a)))
        -ℤ indicator (holds f (sides_of (in_steps unit b))) }
    ensures edges { (unit : LengthUnit) (bytes : List ℕ) (f : Tree) → IsProper f →
        (text : IsBoundary unit bytes f) → (a b : Coordinates) → IsOffFacePlanes unit f a →
        IsOffFacePlanes unit f b →
        All (λ face. TouchesNoEdge a b (corners_at text.vertices face)) text.faces →
        crossings a b text.vertices text.faces
        ≡ indicator (holds f (sides_of (in_steps unit a)))
        -ℤ indicator (holds f (sides_of (in_steps unit b))) }
{}

/// Each vertex of the text of a boundary is a limit of points inside the solid, where all vertices are strictly inside the
/// world box: so the printed box is no larger than the solid.
pub fn vertices_are_limits()
    ensures { (unit : LengthUnit) (bytes : List ℕ) (f : Tree) → IsProper f →
        (text : IsBoundary unit bytes f) → All (λ p. IsInWorld (in_steps unit p)) text.vertices →
        All (λ v. IsLimitOfInside f (in_steps unit v)) text.vertices }
{}

/// Beyond all vertices nothing changes: two points inside the world box, off all face planes and strictly ahead of a plane that
/// no vertex is ahead of, are both inside the solid or both outside.
pub fn nothing_changes_beyond_vertices()
    ensures { (unit : LengthUnit) (bytes : List ℕ) (f : Tree) → IsProper f →
        (text : IsBoundary unit bytes f) → (k : Coefficients) →
        All (λ v. value k (in_steps unit v) ≤ℤ pos 0) text.vertices → (a b : Coordinates) →
        IsOffFacePlanes unit f a → IsOffFacePlanes unit f b → pos 0 <ℤ value k (in_steps unit a) →
        pos 0 <ℤ value k (in_steps unit b) →
        holds f (sides_of (in_steps unit a)) ≡ holds f (sides_of (in_steps unit b)) }
{}

/// The printed box is that of the solid, where the tree holds only within reach: each vertex is a limit of points inside,
/// and no point inside is ahead of a plane that no vertex is ahead of.
pub fn printed_boxes_are_those_of_solids()
    ensures limits { (unit : LengthUnit) (bytes : List ℕ) (f : Tree) → IsProper f →
        KeepsWithinReach f → (text : IsBoundary unit bytes f) →
        All (λ v. IsLimitOfInside f (in_steps unit v)) text.vertices }
    ensures bounds { (unit : LengthUnit) (bytes : List ℕ) (f : Tree) → IsProper f →
        KeepsWithinReach f → (text : IsBoundary unit bytes f) → (k : Coefficients) →
        All (λ v. value k v ≤ℤ pos 0) text.vertices → (p : Coordinates) →
        IsInsideSolid f (in_steps unit p) → value k p ≤ℤ pos 0 }
{}

/// A worked crossing: the way from (1, 1, -1) to (1, 1, 1) goes through the triangle with the corners (0, 0, 0), (4, 0, 0) and
/// (0, 4, 0) from behind to ahead, and touches none of its edges. The way back crosses it the other way round.
pub fn a_way_crosses_a_triangle()
    ensures out { crossing point_below point_above worked_triangle ≡ pos 1 }
    ensures back { crossing point_above point_below worked_triangle ≡ negsuc 0 }
    ensures edges { TouchesNoEdge point_below point_above worked_triangle }
{}

/// What tiles rest on: where two trees hold alike inside a cell, as a box is one, their texts have the same faces there. Of a point
/// strictly inside the cell and the world box, which is on exactly one of the planes of both trees: seen from each side of that
/// plane, either exactly one face of each text covers it, or no face of either does.
pub fn trees_alike_inside_have_faces_alike()
    ensures { (unit : LengthUnit) (cell : List Coefficients) (f g : Tree) (bytes others : List ℕ) →
        IsProper f → IsProper g → HoldAlikeInside cell f g →
        (text : IsBoundary unit bytes f) (other : IsBoundary unit others g) (n : Coefficients)
        (p : Coordinates) → IsInCell cell (in_steps unit p) →
        IsOnOneFacePlane (tree_join Union f g) n (in_steps unit p) →
        CoverAlike unit text.vertices other.vertices text.faces other.faces n p }
{}

/// A worked limit: the corner (0, 0, 0) of the cube from 0 to 1 along each axis is a limit of points inside the cube, and the
/// point (2, 0, 0) isn't.
pub fn a_corner_is_a_limit()
    ensures corner { IsLimitOfInside worked_cube origin }
    ensures beside { IsLimitOfInside worked_cube point_beside → ⊥ }
{}
