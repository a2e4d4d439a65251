//! Laws of surfaces, for the crates above. They are proved, and do nothing when they run.

ghost use Rattle.std.specs.Prelude.{◌≡◌, ℤ, pos, Bool, List};
ghost use Rattle.plane_predicate.specs.declared.unit.Unit.{Unit as LengthUnit};
ghost use Rattle.plane_predicate.specs.declared.unit.Unit.TheVariants.{Whole};
ghost use Rattle.plane_predicate.specs.Space.{Coefficients, Coordinates};
ghost use Rattle.closed_surface.specs.Ways.{Direction};
ghost use Rattle.closed_surface.specs.Around.{HaveNoParallels, fall};
ghost use Rattle.closed_surface.specs.Closed.{AreClosed};
ghost use Rattle.closed_surface.specs.Printing.{AreRoundsOf};
ghost use Rattle.plane_predicate.specs.Sums.{sum_over};

/// Planes through a line, no two of them parallel, cut the space round it into sectors. Let each
/// list of sides of the planes have any value. Then what the value falls by at all half planes
/// together, on a way round the line, is 0: each sector is left once and entered once.
pub fn values_round_a_line_cancel()
    ensures { (d : Direction) (planes : List Coefficients) → HaveNoParallels d planes →
        (value : List Bool → ℤ) → sum_over (fall d planes value) planes ≡ pos 0 }
{}

/// Faces that are closed in grid steps are closed as they are printed: in units, their corners by
/// numbers of their own, each round begun at some corner.
pub fn printed_faces_are_closed()
    ensures { (unit : LengthUnit) (faces printed : List (List Coordinates)) →
        AreRoundsOf unit faces printed → AreClosed Whole faces → AreClosed unit printed }
{}
