//! Laws of placed extrusions, for the crates above. They are proved, and do nothing when they run.

ghost use Rattle.std.specs.Prelude.{List, ℤ, Bool};
ghost use Rattle.plane_predicate.specs.Space.{Coefficients};
ghost use Rattle.plane_predicate.specs.declared.unit.Unit.{Unit as LengthUnit};
ghost use Rattle.int_transform.specs.declared.affine.Affine.{Affine};
ghost use Rattle.primitives.specs.Placing.{moved_mesh, ArePlanesOf};
ghost use Rattle.primitives.specs.Prisms.{extrusion_of, AreBehindOrOn};

/// Every corner of a placed extrusion is behind or on each of the planes of its faces.
pub fn corners_of_extrusions_are_behind_or_on_planes()
    ensures { (unit : LengthUnit) (center : Bool) (points : List (List ℤ)) (height : ℤ) (f : Affine)
        (planes : List Coefficients) →
        ArePlanesOf (moved_mesh f (extrusion_of unit center points height))
        (extrusion_of unit center points height).faces planes →
        AreBehindOrOn (moved_mesh f (extrusion_of unit center points height)).points planes }
{}
