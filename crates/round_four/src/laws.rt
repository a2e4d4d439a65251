//! Laws of placed cylinders and extruded circles, for the crates above. They are proved, and do nothing when they run.

ghost use Rattle.std.specs.Prelude.{List, ℤ, Bool};
ghost use Rattle.plane_predicate.specs.Space.{Coefficients};
ghost use Rattle.plane_predicate.specs.declared.unit.Unit.{Unit as LengthUnit};
ghost use Rattle.int_transform.specs.declared.affine.Affine.{Affine};
ghost use Rattle.primitives.specs.Placing.{moved_mesh, ArePlanesOf};
ghost use Rattle.primitives.specs.Prisms.{extrusion_of, AreBehindOrOn};
ghost use Rattle.round_four.specs.Circles.{circle_of};
ghost use Rattle.round_four.specs.Cylinders.{cylinder_of};

/// Every corner of a placed cylinder is behind or on each of the planes of its faces.
pub fn corners_are_behind_or_on_planes()
    ensures { (unit : LengthUnit) (center : Bool) (height low high : ℤ) (f : Affine)
        (planes : List Coefficients) →
        ArePlanesOf (moved_mesh f (cylinder_of unit center height low high))
        (cylinder_of unit center height low high).faces planes →
        AreBehindOrOn (moved_mesh f (cylinder_of unit center height low high)).points planes }
{}

/// Every corner of a placed extrusion of a circle is behind or on each of the planes of its faces.
pub fn corners_of_extruded_circles_are_behind_or_on_planes()
    ensures { (unit : LengthUnit) (center : Bool) (radius height : ℤ) (f : Affine)
        (planes : List Coefficients) →
        ArePlanesOf (moved_mesh f (extrusion_of unit center (circle_of unit radius) height))
        (extrusion_of unit center (circle_of unit radius) height).faces planes →
        AreBehindOrOn
        (moved_mesh f (extrusion_of unit center (circle_of unit radius) height)).points planes }
{}
