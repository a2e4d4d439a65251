//! Laws of planes, for the crates above. They are proved, and do nothing when they run.

ghost use Rattle.std.specs.Prelude.{◌≡◌, ◌⊎◌, ◌↔◌, ◌+ℤ◌, ◌-ℤ◌, ◌*ℤ◌};
ghost use Rattle.plane_predicate.specs.declared.unit.Unit.{Unit as LengthUnit};
ghost use Rattle.plane_predicate.specs.declared.unit.Unit.TheVariants.{Whole};
ghost use Rattle.plane_predicate.specs.Space.{Coefficients, Coordinates, opposite_of, orientation_seen_from, value, IsPlane, IsPointTimes, HasItsPointsOn, HaveSamePoints};
ghost use Rattle.plane_predicate.specs.InUnits.{in_steps, in_units};
ghost use Rattle.plane_predicate.specs.Units.{grid_steps_per_unit};

use crate::Plane;

/// A plane has the form that its type keeps.
pub fn planes_keep_their_form(plane: &Plane)
    ensures { IsPlane plane.now }
{
    let _ = &plane.a;
}

/// Two planes without a common factor are the same set of points exactly where they are equal or
/// opposite, and it is enough for that if all points of the one are on the other.
#[tactic(auto, using(crate::proofs::lemmas::SamePlanes::same_points, crate::proofs::lemmas::SamePlanes::equal_or_opposite))]
pub fn planes_with_the_same_points()
    ensures same { (m n : Coefficients) → IsPlane m → IsPlane n → HaveSamePoints m n
        ↔ ((m ≡ n) ⊎ (m ≡ opposite_of n)) }
    ensures within { (m n : Coefficients) → IsPlane m → IsPlane n → HasItsPointsOn m n →
        (m ≡ n) ⊎ (m ≡ opposite_of n) }
{}

/// A point in units is the point in grid steps with its weight multiplied, and a point in grid steps
/// is the point in units with its coordinates multiplied. The value of a plane (a, b, c, d) at a
/// point in units is `u (a x + b y + c z) - d w`, where u is how many grid steps a unit has, and the
/// sign of an orientation stays. A whole unit is a grid step.
pub fn points_in_units_and_grid_steps()
    ensures steps { (unit : LengthUnit) (p : Coordinates) →
        IsPointTimes (in_steps unit (in_units unit p)) p }
    ensures units { (unit : LengthUnit) (p : Coordinates) →
        IsPointTimes (in_units unit (in_steps unit p)) p }
    ensures value { (unit : LengthUnit) (m : Coefficients) (p : Coordinates) →
        value m (in_steps unit p) ≡ grid_steps_per_unit unit *ℤ (m.a *ℤ p.x +ℤ m.b *ℤ p.y +ℤ m.c *ℤ p.z)
        -ℤ m.d *ℤ p.w }
    ensures orientation_seen_from { (unit : LengthUnit) (n : Coefficients) (p q r : Coordinates) →
        orientation_seen_from n (in_steps unit p) (in_steps unit q) (in_steps unit r)
        ≡ grid_steps_per_unit unit *ℤ grid_steps_per_unit unit *ℤ orientation_seen_from n p q r }
    ensures whole_units { (p : Coordinates) → in_units Whole p ≡ p }
    ensures whole_steps { (p : Coordinates) → in_steps Whole p ≡ p }
{}
