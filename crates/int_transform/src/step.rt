//! The kinds of step.

ghost use Rattle.std.specs.Prelude.{◌≡◌, ◌<◌, ◌≤◌, ◌⊎◌, ◌↔◌, ◌*◌, ◌+ℤ◌, ◌*ℤ◌, pos, unsigned_abs, IfSome, IsNone};
ghost use Rattle.plane_predicate.specs.Space.{point_at, minor};
ghost use Rattle.int_transform.specs.Maps.{affine_of, coordinate_list, determinant_of, cosine_of, diagonal_map as diagonal_of, image, reflection, translation, quarter_rotation, power_of, rotation_of, row_of, scale_map, sine_of, HasSafeCoordinates, IsMatrix};

use crate::affine::{Affine, Row};
use crate::sums::safe_value;
use std::marker::Model;

/// A step of a transform, which contracts see as its affine map: a move, quarter rotations about
/// an axis, a mirror image, a scaling or a matrix.
///
/// A step keeps that its numbers are at most 2^53 - 1 in size, and that it is not singular.
#[derive(Clone, Copy, Debug, PartialEq, Eq)]
pub struct Step {
    map: Affine,
}

impl Model for Step {
    ghost use Rattle.int_transform.specs.declared.affine.Affine.{Affine};
    ghost use Rattle.int_transform.specs.Maps.{IsStep};

    ghost Value = { Affine };

    ghost view = { λ s. s.map };

    ghost inverse = { λ m. record { map = m } };

    ghost invariant = { λ s. IsStep s.map };
}

impl Step {
    /// The move by a vector.
    pub fn move_by(by: [i64; 3]) -> Step
        requires { HasSafeCoordinates (point_at by) }
        ensures { result ≡ translation (point_at by) }
    {
        Step {
            map: diagonal([1, 1, 1], by),
        }
    }

    /// The given number of right-handed quarter rotations about axis 0, 1 or 2.
    pub fn quarter(axis: u8, turns: u8) -> Step
        requires axis_is { axis < 3 }
        requires turns_are { turns < 4 }
        ensures { result ≡ power_of (quarter_rotation axis) turns }
    {
        Step {
            map: rotation(axis, cosine(turns), sine(turns)),
        }
    }

    /// The mirror image across axis 0, 1 or 2.
    pub fn mirror(axis: u8) -> Step
        requires { axis < 3 }
        ensures { result ≡ reflection axis }
    {
        let by = match axis {
            0 => [-1, 1, 1],
            1 => [1, -1, 1],
            _ => [1, 1, -1],
        };
        Step {
            map: diagonal(by, [0, 0, 0]),
        }
    }

    /// Each coordinate times its factor. `None` exactly where a factor is 0.
    pub fn scale(by: [i64; 3]) -> Option<Step>
        requires { HasSafeCoordinates (point_at by) }
        ensures some { IfSome result (λ step. step ≡ scale_map (point_at by)) }
        ensures none { IsNone result
            ↔ (((point_at by).x ≡ pos 0)
            ⊎ (((point_at by).y ≡ pos 0) ⊎ ((point_at by).z ≡ pos 0))) }
    {
        if by[0] == 0 || by[1] == 0 || by[2] == 0 {
            return None;
        }
        Some(Step {
            map: diagonal(by, [0, 0, 0]),
        })
    }

    /// The image of a point. `None` exactly where a coordinate of it is past 2^53 - 1 in size.
    pub(crate) fn image(&self, point: [i64; 3]) -> Option<[i64; 3]>
        requires { HasSafeCoordinates (point_at point) }
        ensures some { IfSome result (λ q. (q ≡ coordinate_list (image self.now (point_at point)))
            × HasSafeCoordinates (image self.now (point_at point))) }
        ensures none { IsNone result → HasSafeCoordinates (image self.now (point_at point)) → ⊥ }
        ensures regular { determinant_of self.now ≡ pos 0 → ⊥ }
    {
        let x = safe_value(&self.map.x, point)?;
        let y = safe_value(&self.map.y, point)?;
        let z = safe_value(&self.map.z, point)?;
        Some([x, y, z])
    }

    /// The map with these rows. `None` exactly where its linear part is singular.
    pub fn matrix(rows: [[i64; 4]; 3]) -> Option<Step>
        requires { IsMatrix (affine_of rows) }
        ensures some { IfSome result (λ step. step ≡ affine_of rows) }
        ensures none { IsNone result ↔ (determinant_of (affine_of rows) ≡ pos 0) }
    {
        let map = Affine {
            x: row(rows[0]),
            y: row(rows[1]),
            z: row(rows[2]),
        };
        if determinant(&map) == 0 {
            return None;
        }
        Some(Step { map })
    }
}

// Each coordinate times a number, and another one added.
fn diagonal(by: [i64; 3], plus: [i64; 3]) -> Affine
    ensures { result ≡ diagonal_of (point_at by).x (point_at by).y (point_at by).z (point_at plus).x
        (point_at plus).y (point_at plus).z }
{
    Affine {
        x: row([by[0], 0, 0, plus[0]]),
        y: row([0, by[1], 0, plus[1]]),
        z: row([0, 0, by[2], plus[2]]),
    }
}

// The row with these numbers.
fn row(numbers: [i64; 4]) -> Row
    ensures { result ≡ row_of numbers }
{
    let [a, b, c, d] = numbers;
    Row { a, b, c, d }
}

// The rotation about an axis by an angle with this cosine and sine.
fn rotation(axis: u8, cos: i64, sin: i64) -> Affine
    requires axis_is { axis < 3 }
    requires sine_size { unsigned_abs sin ≤ 1 }
    ensures { result ≡ rotation_of axis cos sin }
{
    match axis {
        0 => Affine {
            x: row([1, 0, 0, 0]),
            y: row([0, cos, -sin, 0]),
            z: row([0, sin, cos, 0]),
        },
        1 => Affine {
            x: row([cos, 0, sin, 0]),
            y: row([0, 1, 0, 0]),
            z: row([-sin, 0, cos, 0]),
        },
        _ => Affine {
            x: row([cos, -sin, 0, 0]),
            y: row([sin, cos, 0, 0]),
            z: row([0, 0, 1, 0]),
        },
    }
}

// The cosine of the given number of quarter rotations.
fn cosine(turns: u8) -> i64
    requires { turns < 4 }
    ensures { result ≡ cosine_of turns }
{
    match turns {
        0 => 1,
        2 => -1,
        _ => 0,
    }
}

// The sine of the given number of quarter rotations.
fn sine(turns: u8) -> i64
    requires { turns < 4 }
    ensures value { result ≡ sine_of turns }
    ensures size { unsigned_abs result ≤ 1 }
{
    match turns {
        1 => 1,
        3 => -1,
        _ => 0,
    }
}

// The determinant of the linear part.
fn determinant(map: &Affine) -> i64
    requires { IsMatrix map.now }
    ensures { result ≡ determinant_of map.now }
{
    let (x, y, z) = (map.x, map.y, map.z);
    let a = minor_of(y.b, y.c, z.b, z.c);
    let b = minor_of(y.c, y.a, z.c, z.a);
    let c = minor_of(y.a, y.b, z.a, z.b);
    expansion(x.a, x.b, x.c, a, b, c)
}

// `a d - b c`
fn minor_of(a: i64, b: i64, c: i64, d: i64) -> i64
    requires a_size { unsigned_abs a ≤ 65535 }
    requires b_size { unsigned_abs b ≤ 65535 }
    requires c_size { unsigned_abs c ≤ 65535 }
    requires d_size { unsigned_abs d ≤ 65535 }
    ensures value { result ≡ minor a b c d }
    ensures size { unsigned_abs result ≤ 2 * (65535 * 65535) }
{
    a * d - b * c
}

// `a x + b y + c z` of a row and minors of the others.
fn expansion(a: i64, b: i64, c: i64, x: i64, y: i64, z: i64) -> i64
    requires a_size { unsigned_abs a ≤ 65535 }
    requires b_size { unsigned_abs b ≤ 65535 }
    requires c_size { unsigned_abs c ≤ 65535 }
    requires x_size { unsigned_abs x ≤ 2 * (65535 * 65535) }
    requires y_size { unsigned_abs y ≤ 2 * (65535 * 65535) }
    requires z_size { unsigned_abs z ≤ 2 * (65535 * 65535) }
    ensures { result ≡ a *ℤ x +ℤ b *ℤ y +ℤ c *ℤ z }
{
    a * x + b * y + c * z
}
