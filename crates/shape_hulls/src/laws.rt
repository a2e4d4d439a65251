//! Laws of shapes as the hulls of their points. They are proved, and do nothing when they run.

ghost use Rattle.std.specs.Prelude.{◌↔◌, ℕ, ℤ, ◌<ℤ◌, pos, Bool, List, [], ◌∷◌, All};
ghost use Rattle.plane_predicate.specs.declared.unit.Unit.{Unit as LengthUnit};
ghost use Rattle.plane_predicate.specs.Space.{Coefficients, Coordinates, point_at, IsInReach};
ghost use Rattle.int_transform.specs.declared.affine.Affine.{Affine};
ghost use Rattle.int_transform.specs.Maps.{image};
ghost use Rattle.primitives.specs.Boxes.{cube_of};
ghost use Rattle.primitives.specs.Placing.{moved_mesh, IsBehindAll};
ghost use Rattle.primitives.specs.Polygons.{IsFlatShape};
ghost use Rattle.primitives.specs.Polyhedra.{polyhedron_of, IsPolyhedron};
ghost use Rattle.primitives.specs.Prisms.{extrusion_of};
ghost use Rattle.primitives.specs.Shapes.{Mesh, IsInside};
ghost use Rattle.primitives.specs.Sizes.{AreSizes};
ghost use Rattle.round_four.specs.Cylinders.{cylinder_of, AreCylinderSizes};
ghost use Rattle.scad_hull.specs.Combinations.{IsInnerCombination};
ghost use Rattle.scad_hull.specs.Hulls.{hull_of};
ghost use Rattle.scad_hull.specs.Refusals.{HaveHull};
ghost use Rattle.shape_hulls.specs.OwnHulls.{corner_points, AreAllCorners, ArePlacedPlanes, IsHullOfItsCorners, IsHullOfItsPoints};
ghost use Rattle.shape_hulls.specs.Worked.{two_points, point_between_them};

/// A cube is the hull of its corners.
pub fn cubes_are_hulls_of_their_points()
    ensures { (unit : LengthUnit) (center : Bool) (x y z : ℤ) →
        AreSizes unit center (x ∷ y ∷ z ∷ []) →
        IsHullOfItsPoints (cube_of unit center (x ∷ y ∷ z ∷ [])) }
{}

/// A cylinder with four fragments is the hull of its points, also where one of its ends is an apex.
pub fn cylinders_are_hulls_of_their_points()
    ensures { (unit : LengthUnit) (center : Bool) (height low high : ℤ) →
        AreCylinderSizes unit center height low high →
        IsHullOfItsPoints (cylinder_of unit center height low high) }
{}

/// An extruded convex polygon is the hull of its points: those of the polygon at both heights.
pub fn extrusions_are_hulls_of_their_points()
    ensures { (unit : LengthUnit) (center : Bool) (points : List (List ℤ)) (height : ℤ) →
        IsFlatShape points → AreSizes unit center (height ∷ []) →
        IsHullOfItsPoints (extrusion_of unit center points height) }
{}

/// What `hull` makes of points that have a hull is the hull of its points.
pub fn hulls_are_hulls_of_their_points()
    ensures { (given : List (List ℤ)) → HaveHull given → IsHullOfItsPoints (hull_of given) }
{}

/// A polyhedron is the hull of the points that are corners of its faces, and of all its points where each one is such a corner.
pub fn polyhedra_are_hulls_of_their_corners()
    ensures faces { (unit : LengthUnit) (points : List (List ℤ)) (faces : List (List ℕ)) →
        IsPolyhedron unit points faces → IsHullOfItsCorners (polyhedron_of unit points faces) }
    ensures points { (unit : LengthUnit) (points : List (List ℤ)) (faces : List (List ℕ)) →
        IsPolyhedron unit points faces → AreAllCorners (polyhedron_of unit points faces) →
        IsHullOfItsPoints (polyhedron_of unit points faces) }
{}

/// A point is inside a shape exactly where its image is strictly behind all planes of the placed
/// shape.
pub fn images_of_points_inside_are_behind_planes()
    ensures { (mesh : Mesh) (f : Affine) (planes : List Coefficients) →
        ArePlacedPlanes mesh f planes → (p : Coordinates) →
        IsInside mesh p ↔ IsBehindAll planes (image f p) }
{}

/// A placed shape is the hull of its placed points where the shape is the hull of its points. So it is within reach where they
/// are.
pub fn placed_shapes_are_hulls_of_their_points()
    ensures hull { (mesh : Mesh) (f : Affine) (planes : List Coefficients) →
        ArePlacedPlanes mesh f planes → IsHullOfItsPoints mesh →
        IsHullOfItsPoints (moved_mesh f mesh) }
    ensures behind { (mesh : Mesh) (f : Affine) (planes : List Coefficients) →
        ArePlacedPlanes mesh f planes → IsHullOfItsPoints mesh →
        (q : Coordinates) → pos 0 <ℤ q.w →
        IsBehindAll planes q ↔ IsInnerCombination (moved_mesh f mesh).points q }
    ensures reach { (mesh : Mesh) (f : Affine) (planes : List Coefficients) →
        ArePlacedPlanes mesh f planes → IsHullOfItsPoints mesh →
        All (λ p. IsInReach (point_at p)) (moved_mesh f mesh).points →
        (q : Coordinates) → pos 0 <ℤ q.w → IsBehindAll planes q → IsInReach q }
{}

/// The same of a shape that is the hull of its faces' points, as a polyhedron is, whatever other
/// points it lists.
pub fn placed_shapes_are_hulls_of_their_corners()
    ensures hull { (mesh : Mesh) (f : Affine) (planes : List Coefficients) →
        ArePlacedPlanes mesh f planes → IsHullOfItsCorners mesh →
        IsHullOfItsCorners (moved_mesh f mesh) }
    ensures behind { (mesh : Mesh) (f : Affine) (planes : List Coefficients) →
        ArePlacedPlanes mesh f planes → IsHullOfItsCorners mesh →
        (q : Coordinates) → pos 0 <ℤ q.w →
        IsBehindAll planes q ↔ IsInnerCombination (corner_points (moved_mesh f mesh)) q }
    ensures reach { (mesh : Mesh) (f : Affine) (planes : List Coefficients) →
        ArePlacedPlanes mesh f planes → IsHullOfItsCorners mesh →
        All (λ p. IsInReach (point_at p)) (moved_mesh f mesh).points →
        (q : Coordinates) → pos 0 <ℤ q.w → IsBehindAll planes q → IsInReach q }
{}

/// A worked combination: (1, 0, 0) is between (0, 0, 0) and (3, 0, 0), with the weights 2 and 1.
pub fn a_point_between_two_is_a_combination()
    ensures { IsInnerCombination two_points point_between_them }
{}
