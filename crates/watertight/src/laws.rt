//! Laws of texts whose faces are closed. They are proved, and do nothing when they run.

ghost use Rattle.std.specs.Prelude.{◌≡◌, ℕ, ◌<ℤ◌, pos, true, List, map, All};
ghost use Rattle.plane_predicate.specs.declared.unit.Unit.{Unit as LengthUnit};
ghost use Rattle.plane_predicate.specs.Space.{Coordinates, IsInReach, IsInWorld};
ghost use Rattle.plane_predicate.specs.InUnits.{in_steps};
ghost use Rattle.csg_tree.specs.HalfSpaceTrees.{Tree};
ghost use Rattle.closed_surface.specs.Closed.{corners_at, IsClosedSurface};
ghost use Rattle.csg_tree.specs.ProperTrees.{IsProper};
ghost use Rattle.csg_tree.specs.Reach.{KeepsWithinReach};
ghost use Rattle.off_text.specs.Bounding.{IsBoundary};
ghost use Rattle.watertight.specs.Everywhere.{AreClosedAtEveryPoint, IsClosedAtEveryPoint};
ghost use Rattle.watertight.specs.Overlaps.{ShareNoInnerPointInAPlane};
ghost use Rattle.watertight.specs.Pieces.{has_no_corner_within, count_of_edges_over};
ghost use Rattle.watertight.specs.WatertightFaces.{AreWatertight};

/// Faces that are closed inside the world box, and whose vertices are strictly inside it, are closed at every point of space
/// that is no corner.
pub fn closed_at_every_point()
    ensures { (unit : LengthUnit) (vertices : List Coordinates) (faces : List (List ℕ)) →
        All (λ p. IsInWorld (in_steps unit p)) vertices → IsClosedSurface unit vertices faces →
        IsClosedAtEveryPoint vertices faces }
{}

/// Where faces are closed at every point, each directed elementary edge stands as often as its reverse: between two points with
/// no corner strictly between them, as many edges run one way as the other.
pub fn elementary_edges_pair()
    ensures { (faces : List (List Coordinates)) →
        All (λ corners. All (λ p. pos 0 <ℤ p.w) corners) faces → AreClosedAtEveryPoint faces →
        (p q : Coordinates) → pos 0 <ℤ p.w → pos 0 <ℤ q.w →
        has_no_corner_within faces (p, q) ≡ true →
        count_of_edges_over faces (p, q) ≡ count_of_edges_over faces (q, p) }
{}

/// The text of a boundary whose vertices are strictly inside the world box is watertight: closed at every point of space that
/// is no corner, and each of its directed elementary edges stands as often as its reverse.
pub fn texts_are_watertight()
    ensures everywhere { (unit : LengthUnit) (bytes : List ℕ) (f : Tree)
        (text : IsBoundary unit bytes f) → All (λ p. IsInWorld (in_steps unit p)) text.vertices →
        IsClosedAtEveryPoint text.vertices text.faces }
    ensures edges { (unit : LengthUnit) (bytes : List ℕ) (f : Tree)
        (text : IsBoundary unit bytes f) → All (λ p. IsInWorld (in_steps unit p)) text.vertices →
        (p q : Coordinates) → pos 0 <ℤ p.w → pos 0 <ℤ q.w →
        has_no_corner_within (map (corners_at text.vertices) text.faces) (p, q) ≡ true →
        count_of_edges_over (map (corners_at text.vertices) text.faces) (p, q)
        ≡ count_of_edges_over (map (corners_at text.vertices) text.faces) (q, p) }
{}

/// Faces of the text of a boundary that lie in the same or the opposite plane share no inner point: no point of space is
/// strictly inside two of them. Of faces in other planes it says nothing.
pub fn faces_share_no_inner_point()
    ensures { (unit : LengthUnit) (bytes : List ℕ) (f : Tree) → IsProper f →
        (text : IsBoundary unit bytes f) → ShareNoInnerPointInAPlane unit text.vertices text.faces }
{}

/// The text of a tree that holds only within reach has all vertices within reach, and so it is watertight, without a premise on
/// vertices.
pub fn texts_keep_within_reach()
    ensures vertices { (unit : LengthUnit) (bytes : List ℕ) (f : Tree) → IsProper f →
        KeepsWithinReach f → (text : IsBoundary unit bytes f) →
        All (λ p. IsInReach (in_steps unit p)) text.vertices }
    ensures watertight { (unit : LengthUnit) (bytes : List ℕ) (f : Tree) → IsProper f →
        KeepsWithinReach f → (text : IsBoundary unit bytes f) →
        AreWatertight text.vertices text.faces }
{}
