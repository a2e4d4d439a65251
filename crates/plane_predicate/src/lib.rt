//! Planes in space and the points where they meet, in exact whole numbers.
#![tactic(auto)]

mod arithmetic;
mod laws;
mod line;
mod meeting;
mod place;
mod reduction;
mod sides;
mod small;
mod small_arithmetic;
mod through;
mod unit;

pub use laws::{
    planes_keep_their_form, planes_with_the_same_points, points_in_units_and_grid_steps,
};
pub use line::{Line, line_of};
pub use meeting::{meet, opposite, point_side, side};
pub use place::{Place, place_on, side_between};
pub use reduction::reduce;
pub use sides::Side;
pub use small::{are_small, is_small};
use std::marker::Model;
pub use through::{plane_of, plane_through};
pub use unit::Unit;

/// The points with `a x + b y + c z = d`, where a point is behind the plane if the left side is
/// smaller, and ahead of it if the left side is greater.
///
/// A plane keeps that its direction `(a, b, c)` is not zero, that its four numbers have no common
/// factor above 1, and the sizes within which every test of four planes fits 128 bits: at most
/// 134,152,200 for `a`, `b` and `c`, and at most 1,648,059,777,000 for `d`.
#[derive(Clone, Copy, PartialEq, Eq)]
pub struct Plane {
    pub a: i64,
    pub b: i64,
    pub c: i64,
    pub d: i64,
}

impl Model for Plane {
    ghost use Rattle.plane_predicate.specs.Space.{Coefficients, IsPlane};

    ghost Value = { Coefficients };

    ghost view = { λ p. record { a = p.a; b = p.b; c = p.c; d = p.d } };

    ghost inverse = { λ v. record { a = v.a; b = v.b; c = v.c; d = v.d } };

    ghost invariant = { λ p. IsPlane (record { a = p.a; b = p.b; c = p.c; d = p.d }) };
}

/// The point `(x / w, y / w, z / w)`, with `w` above 0.
///
/// A point keeps the sizes that a meeting of three planes has: at most 1.45 * 10^25 for `w`, and at
/// most 1.79 * 10^29 for `x`, `y` and `z`.
#[derive(Clone, Copy, PartialEq, Eq)]
pub struct Point {
    pub x: i128,
    pub y: i128,
    pub z: i128,
    pub w: i128,
}

impl Model for Point {
    ghost use Rattle.plane_predicate.specs.Space.{Coordinates, IsPoint};

    ghost Value = { Coordinates };

    ghost view = { λ p. record { x = p.x; y = p.y; z = p.z; w = p.w } };

    ghost inverse = { λ v. record { x = v.x; y = v.y; z = v.z; w = v.w } };

    ghost invariant = { λ p. IsPoint (record { x = p.x; y = p.y; z = p.z; w = p.w }) };
}
