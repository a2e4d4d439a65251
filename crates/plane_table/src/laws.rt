//! Laws of faces over lists of planes, for the crates above. They are proved, and do nothing when they
//! run.

ghost use Rattle.std.specs.Prelude.{ℕ, Bool, List};
ghost use Rattle.plane_predicate.specs.Space.{Coefficients};
ghost use Rattle.plane_table.specs.declared.faces.Face.{Face};
ghost use Rattle.plane_table.specs.Faces.{IsFaceOver};
ghost use Rattle.plane_table.specs.Joins.{AreNumbersOf, AreNumbersOfUsed, AreNumbersFound, AreMarkedUsed};

/// Where all planes of a list have their numbers over another, so have those that a face names. The
/// same where the planes that are used have their numbers, and the face's planes are marked as used.
pub fn faces_are_found()
    ensures all { (planes : List Coefficients) (numbers : List ℕ) (from : List Coefficients)
        (face : Face) → AreNumbersOf planes numbers from → IsFaceOver from face →
        AreNumbersFound planes numbers from face }
    ensures used { (planes : List Coefficients) (numbers : List ℕ) (from : List Coefficients)
        (used : List Bool) (face : Face) → AreNumbersOfUsed planes numbers from used →
        IsFaceOver from face → AreMarkedUsed used face → AreNumbersFound planes numbers from face }
{}
