//! The range of written coordinates.

ghost use Rattle.std.specs.Prelude.{All};
ghost use Rattle.std.specs.Bool.{OnTrue, OnFalse};
ghost use Rattle.plane_predicate.specs.Space.{point_at};
ghost use Rattle.primitives.specs.Shapes.{IsPointInRange};

/// Whether all coordinates are at most 65,535 in size.
pub fn are_in_range(points: &[[i64; 3]]) -> bool
    ensures all { OnTrue result (All (λ p. IsPointInRange (point_at p)) points.now) }
    ensures past { OnFalse result (All (λ p. IsPointInRange (point_at p)) points.now → ⊥) }
{
    for point in points {
        if !is_in_range(*point) {
            return false;
        }
    }
    true
}

// Whether the coordinates of a point are at most 65,535 in size.
fn is_in_range(at: [i64; 3]) -> bool
    ensures all { OnTrue result (IsPointInRange (point_at at)) }
    ensures past { OnFalse result (IsPointInRange (point_at at) → ⊥) }
{
    at[0].unsigned_abs() <= 65535 && at[1].unsigned_abs() <= 65535 && at[2].unsigned_abs() <= 65535
}
