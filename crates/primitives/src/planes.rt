//! The planes of faces whose points are within reach.

ghost use Rattle.std.specs.Prelude.{◌≡◌, All, IfOk};
ghost use Rattle.std.specs.List.{list_any};
ghost use Rattle.plane_predicate.specs.Space.{point_at, IsInReach};
ghost use Rattle.primitives.specs.Shapes.{IsFaceOfShape, IsPlaneOfFace};
ghost use Rattle.primitives.specs.Placing.{is_same_plane, ArePlanesOf};

use crate::ahead::has_ahead;
use crate::corners::Corners;
use crate::facing::of_plane;
use crate::spanning::spanned;
use plane_predicate::{Plane, opposite};
use std::alloc::{AllocError, Global};

/// The planes of the faces in order, of equal ones the first.
pub fn planes_of(
    alloc: Global,
    points: &[[i64; 3]],
    faces: &[Corners],
) -> Result<Vec<Plane>, AllocError>
    requires reach { All (λ p. IsInReach (point_at p)) points.now }
    requires faces_are { All (IsFaceOfShape (record { points = points.now; faces = faces.now }))
        faces.now }
    ensures { IfOk result (λ v. ArePlanesOf (record { points = points.now; faces = faces.now })
        faces.now v.items) }
{
    let mut planes = Vec::with_capacity(alloc, faces.len())?;
    for face in faces {
        let plane = face_plane(points, faces, face.items());
        if !holds(&planes, &plane) {
            planes.push(plane)?;
        }
    }
    Ok(planes)
}

// The plane of one face.
fn face_plane(points: &[[i64; 3]], faces: &[Corners], face: &[u32]) -> Plane
    requires reach { All (λ p. IsInReach (point_at p)) points.now }
    requires faces_are { All (IsFaceOfShape (record { points = points.now; faces = faces.now }))
        faces.now }
    requires face_is { IsFaceOfShape (record { points = points.now; faces = faces.now }) face.now }
    ensures { IsPlaneOfFace (record { points = points.now; faces = faces.now }) face.now result }
{
    let plane = spanned(points, face);
    if has_ahead(points, faces, &of_plane(&plane)) {
        opposite(&plane)
    } else {
        plane
    }
}

// Whether a plane is among some planes.
fn holds(planes: &[Plane], plane: &Plane) -> bool
    ensures { result ≡ list_any (λ m. is_same_plane m plane.now) planes.now }
{
    planes.contains(plane)
}
