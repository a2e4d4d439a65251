//! A convex polygon in the plane, with what its type keeps.

ghost use Rattle.std.specs.Prelude.{◌≡◌};
ghost use Rattle.primitives.specs.Polygons.{IsFlatShape};

use std::marker::Model;

/// A convex polygon in the plane, which contracts see as its points in grid steps.
///
/// A flat keeps that it has at most 64 points, that they are not all on one line, that in one of its
/// two directions no point lies strictly to the right of a way from a point to the next, and that
/// coordinates are at most 2^53 - 1 in size.
#[derive(Drop)]
pub struct Flat {
    points: Vec<[i64; 2]>,
}

impl Model for Flat {
    ghost use Rattle.std.specs.Prelude.{List, ℤ};
    ghost use Rattle.primitives.specs.Polygons.{IsFlatShape};

    ghost Value = { List (List ℤ) };

    ghost view = { λ f. f.points.items };

    ghost invariant = { λ f. IsFlatShape f.points.items };
}

impl Flat {
    /// The flat of points that meet what a flat keeps.
    pub fn of(points: Vec<[i64; 2]>) -> Self
        requires { IsFlatShape points.items }
        ensures { result ≡ points.items }
    {
        Flat { points }
    }

    /// Its points in grid steps, in order.
    pub fn points(&self) -> &[[i64; 2]]
        ensures points { result.now ≡ self.now }
        ensures flat { IsFlatShape self.now }
    {
        &self.points
    }
}
