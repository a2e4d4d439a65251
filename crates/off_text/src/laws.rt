//! Laws of texts, for the crates above. They are proved, and do nothing when they run.

ghost use Rattle.std.specs.Prelude.{◌≡◌, ℕ, ◌+◌, ◌*◌, ◌^◌, ◌≤◌, Bool, List, length, All};
ghost use Rattle.plane_predicate.specs.declared.unit.Unit.{Unit as LengthUnit};
ghost use Rattle.plane_predicate.specs.Space.{Coefficients, Coordinates, IsInClosedWorld, IsPlane, IsPointTimes};
ghost use Rattle.plane_predicate.specs.InUnits.{in_steps, in_units};
ghost use Rattle.plane_polygon.specs.Polygons.{Outline, IsPolygon};
ghost use Rattle.csg_tree.specs.HalfSpaceTrees.{Tree, leaf, holds};
ghost use Rattle.csg_tree.specs.FacePlanes.{IsOnOneFacePlane, sides_just_ahead, sides_just_behind};
ghost use Rattle.csg_tree.specs.ProperTrees.{IsProper};
ghost use Rattle.bsp_tree.specs.Trees.{size};
ghost use Rattle.bsp_boolean.specs.Solids.{solid_of};
ghost use Rattle.facet_cut.specs.Facets.{facets_of};
ghost use Rattle.facet_cut.specs.Sides.{walk_by, CoversFacing, HasOneWhere};
ghost use Rattle.off_text.specs.Reading.{off_text};
ghost use Rattle.off_text.specs.Boundaries.{FaceCovers, OneExactlyWhere};
ghost use Rattle.off_text.specs.Prints.{CoverPolygons, Prints};
ghost use Rattle.off_text.specs.Texts.{vertices_of, corner_count, AreCornersOf, IsTextOf};
ghost use Rattle.off_text.specs.Bounding.{IsBoundary};

/// A 4OFF text has one list of vertices and one list of faces.
pub fn one_reading()
    ensures { (vertices vertices' : List Coordinates) (faces faces' : List (List ℕ)) →
        off_text vertices faces ≡ off_text vertices' faces' → (vertices ≡ vertices') ×
        (faces ≡ faces') }
{}

/// In each unit polygons have one list of reduced corners each, and one text.
pub fn one_text()
    ensures corners { (unit : LengthUnit) (polygons : List Outline)
        (faces faces' : List (List Coordinates)) → AreCornersOf unit polygons faces →
        AreCornersOf unit polygons faces' → faces ≡ faces' }
    ensures text { (unit : LengthUnit) (polygons : List Outline) (bytes bytes' : List ℕ) →
        IsTextOf unit polygons bytes → IsTextOf unit polygons bytes' → bytes ≡ bytes' }
{}

/// In each unit polygons have reduced corners.
pub fn some_corners()
    ensures { (unit : LengthUnit) (polygons : List Outline) → All IsPolygon polygons →
        (faces : List (List Coordinates)) × AreCornersOf unit polygons faces }
{}

/// The text of polygons is read back as the polygons, one face after another.
pub fn texts_print_polygons()
    ensures { (unit : LengthUnit) (polygons : List Outline) (bytes : List ℕ) →
        All IsPolygon polygons → IsTextOf unit polygons bytes → Prints unit polygons bytes }
{}

/// Printed faces that cover the points of their facets cover a point as these do: where exactly one facet covers it
/// facing a plane, exactly one face does, and where none does, none.
pub fn faces_cover_as_facets()
    ensures { (unit : LengthUnit) (vertices : List Coordinates) (polygons : List Outline)
        (faces : List (List ℕ)) → CoverPolygons unit vertices polygons faces →
        All (λ s. IsPlane s.plane) polygons → (n : Coefficients) → IsPlane n → (p : Coordinates) →
        (b : Bool) → HasOneWhere b (CoversFacing n (in_steps unit p)) polygons →
        OneExactlyWhere b (FaceCovers unit vertices n p) faces }
{}

/// A corner that is in the closed world box is there by its printed numbers too.
pub fn printed_corners_stay_in_the_world()
    ensures { (unit : LengthUnit) (p q : Coordinates) → IsPointTimes (in_units unit p) q →
        IsInClosedWorld p → IsInClosedWorld (in_steps unit q) }
{}

/// The leaf beside a face plane: for a point on exactly one face plane of a proper tree, the leaf that
/// the walk of the tree's solid reaches with the point taken just behind that plane is inside exactly
/// where the tree is solid just behind, and likewise just ahead.
pub fn leaves_beside_face_planes()
    ensures behind { (f : Tree) (n : Coefficients) (p : Coordinates) → IsProper f →
        IsOnOneFacePlane f n p →
        walk_by (solid_of f) (sides_just_behind n p) ≡ holds f (sides_just_behind n p) }
    ensures ahead { (f : Tree) (n : Coefficients) (p : Coordinates) → IsProper f →
        IsOnOneFacePlane f n p → walk_by (solid_of f) (sides_just_ahead n p) ≡ holds f
        (sides_just_ahead n p) }
{}

/// In each unit the text of the facets of a proper tree's solid is the boundary of the tree.
pub fn texts_are_boundaries()
    ensures { (unit : LengthUnit) (f : Tree) (bytes : List ℕ) → IsProper f →
        Prints unit (facets_of (solid_of f)) bytes → IsBoundary unit bytes f }
{}

/// A leaf of n planes has a small solid, of at most n facets. A cut at most doubles the edges of a
/// polygon, so its size is at most n (1 + 16 · 2^n), and its facets have at most 16 n · 2^n corners
/// together: far more than there are, and for a few planes still below every limit.
pub fn leaves_stay_small()
    ensures size { (planes : List Coefficients) →
        size (solid_of (leaf planes)) ≤ length planes * (1 + 16 * 2 ^ length planes) }
    ensures facets { (planes : List Coefficients) →
        length (facets_of (solid_of (leaf planes))) ≤ length planes }
    ensures corners { (planes : List Coefficients) →
        corner_count (facets_of (solid_of (leaf planes)))
        ≤ length planes * (16 * 2 ^ length planes) }
{}

/// Polygons have at most as many vertices as corners.
pub fn vertices_are_corners()
    ensures { (unit : LengthUnit) (polygons : List Outline) (faces : List (List Coordinates)) →
        AreCornersOf unit polygons faces → length (vertices_of faces) ≤ corner_count polygons }
{}
