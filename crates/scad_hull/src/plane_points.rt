//! The points on the planes of faces: a triple of points on one of these planes is passed over.

ghost use Rattle.std.specs.Prelude.{◌≡◌, ◌<◌, ◌≤◌, true, false, All, IfSome, get_or, length};
ghost use Rattle.std.specs.Bool.{OnTrue};
ghost use Rattle.plane_predicate.specs.Space.{point_at};
ghost use Rattle.primitives.specs.GridSizes.{IsWithinGridLimits};
ghost use Rattle.scad_hull.specs.Steps.{AreThree, HasPointsOn, IsCommonRow};

use crate::face_list::Row;
use crate::triples::{is_point_on, through};

/// Which points are on the plane of a triple.
pub fn row_of(points: &[[i64; 3]], triple: [u32; 3]) -> Row
    requires grid { All (λ p. IsWithinGridLimits (point_at p)) points.now }
    requires few { length points.now ≤ 128 }
    requires three { AreThree (length points.now) triple }
    ensures { HasPointsOn points.now triple result }
{
    let plane = through(points, triple);
    let mut row = [false; 128];
    for number in 0..points.len() {
        row[number] = is_point_on(points, &plane, number as u32);
    }
    row
}

/// The row of a face that has two points on its plane. `None` is no promise: it is where no face has.
pub fn common_row(rows: &[Row], first: usize, second: usize) -> Option<Row>
    requires first_in { first < 128 }
    requires second_in { second < 128 }
    ensures { IfSome result (IsCommonRow rows.now first second) }
{
    for at in 0..rows.len() {
        if has_both(&rows[at], first, second) {
            return Some(rows[at]);
        }
    }
    None
}

// Whether two points are in a row.
fn has_both(row: &Row, first: usize, second: usize) -> bool
    requires first_in { first < 128 }
    requires second_in { second < 128 }
    ensures { OnTrue result ((get_or row.now first false ≡ true)
        × (get_or row.now second false ≡ true)) }
{
    row[first] && row[second]
}
