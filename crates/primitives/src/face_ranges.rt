//! Points in grid steps.

ghost use Rattle.std.specs.Prelude.{◌≡◌, All, IfOk, map};
ghost use Rattle.plane_predicate.specs.Space.{point_at};
ghost use Rattle.primitives.specs.Shapes.{IsPointInRange};
ghost use Rattle.primitives.specs.Checks.{grid_point_of, grid_points_of};

use crate::Corners;
use plane_predicate::Unit;
use std::alloc::{AllocError, Global};

/// The points in grid steps.
pub fn points_in_grid_steps(
    alloc: Global,
    points: &[[i64; 3]],
    unit: Unit,
) -> Result<Vec<[i64; 3]>, AllocError>
    requires { All (λ p. IsPointInRange (point_at p)) points.now }
    ensures { IfOk result (λ v. v.items ≡ grid_points_of unit points.now) }
{
    let mut steps = Vec::new(alloc);
    for point in points {
        steps.push(point_in_grid_steps(*point, unit))?;
    }
    Ok(steps)
}

// One point in grid steps.
fn point_in_grid_steps(at: [i64; 3], unit: Unit) -> [i64; 3]
    requires { IsPointInRange (point_at at) }
    ensures { result ≡ grid_point_of unit at }
{
    let per = unit.per();
    [per * at[0], per * at[1], per * at[2]]
}

/// Faces with the same corners.
pub fn copied(alloc: Global, faces: &[Corners]) -> Result<Vec<Corners>, AllocError>
    ensures { IfOk result (λ v. v.items ≡ faces.now) }
{
    let mut copies = Vec::new(alloc);
    for face in faces {
        copies.push(Corners::of(face.items().to_vec(alloc)?))?;
    }
    Ok(copies)
}
