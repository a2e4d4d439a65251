//! A convex shape as points and faces, with what its type keeps.

ghost use Rattle.std.specs.Prelude.{◌≡◌, IfOk};
ghost use Rattle.primitives.specs.Shapes.{IsShape, MakesShape};

use crate::corners::Corners;
use std::alloc::{AllocError, Global};
use std::marker::Model;

/// A shape: points in grid steps, and faces as lists of numbers of points. Its solid is the set of
/// points behind the planes of all its faces.
///
/// A shape keeps that it has a face, that the corners of each face are there and not on one line,
/// that each face has a plane with no point of a face ahead and one strictly behind, and that
/// coordinates are at most 2^53 - 1 in size.
#[derive(Drop)]
pub struct Shape {
    points: Vec<[i64; 3]>,
    faces: Vec<Corners>,
}

impl Model for Shape {
    ghost use Rattle.primitives.specs.Shapes.{Mesh, IsShape};

    ghost Value = { Mesh };

    ghost view = { λ s. record { points = s.points.items; faces = s.faces.items } };

    ghost invariant = { λ s. IsShape (record { points = s.points.items; faces = s.faces.items }) };
}

impl Shape {
    /// The shape of points and faces that meet what a shape keeps.
    pub fn of(points: Vec<[i64; 3]>, faces: Vec<Corners>) -> Self
        requires { IsShape (record { points = points.items; faces = faces.items }) }
        ensures { result ≡ record { points = points.items; faces = faces.items } }
    {
        Shape { points, faces }
    }

    /// The shape of these points, in grid steps, and of faces with three corners each.
    pub fn of_faces(
        alloc: Global,
        points: &[[i64; 3]],
        faces: &[[u32; 3]],
    ) -> Result<Self, AllocError>
        requires { MakesShape (record { points = points.now; faces = faces.now }) }
        ensures { IfOk result (λ s. s ≡ record { points = points.now; faces = faces.now }) }
    {
        let mut corners = Vec::new(alloc);
        for face in faces {
            corners.push(Corners::of(face.to_vec(alloc)?))?;
        }
        Ok(Shape::of(Vec::from_slice(alloc, points)?, corners))
    }

    /// Its points in grid steps.
    pub fn points(&self) -> &[[i64; 3]]
        ensures points { result.now ≡ self.now.points }
        ensures shape { IsShape self.now }
    {
        &self.points
    }

    /// Its faces in order.
    pub fn faces(&self) -> &[Corners]
        ensures { result.now ≡ self.now.faces }
    {
        &self.faces
    }
}
