//! Vertices, and their order.

ghost use Rattle.std.specs.Prelude.{◌≡◌, ◌&&◌, ◌*ℤ◌, true, pos};
ghost use Rattle.plane_predicate.specs.declared.unit.Unit.TheVariants.{Half};
ghost use Rattle.off_text.specs.Numbering.{is_even, IsVertexAt};
ghost use Rattle.off_text.specs.Texts.{comes_before, place_of_least};

use plane_predicate::{Point, Unit};
use std::marker::Model;

/// A corner in units, as a key of the table that numbers vertices.
#[derive(Clone, Copy, PartialEq, Eq, Hash)]
pub struct Vertex {
    pub x: i128,
    pub y: i128,
    pub z: i128,
    pub w: i128,
}

impl Model for Vertex {
    ghost use Rattle.plane_predicate.specs.Space.{Coordinates};

    ghost Value = { Coordinates };

    ghost view = { λ p. record { x = p.x; y = p.y; z = p.z; w = p.w } };

    ghost inverse = { λ v. record { x = v.x; y = v.y; z = v.z; w = v.w } };

    ghost use Rattle.off_text.specs.Numbering.{HasVertexSizes};

    ghost invariant = { λ p. HasVertexSizes (record { x = p.x; y = p.y; z = p.z; w = p.w }) };
}

impl Vertex {
    /// The vertex at a corner: its point in units, without a common factor where the corner has
    /// none.
    pub fn of(corner: &Point, unit: Unit) -> Vertex
        ensures { IsVertexAt unit corner.now result }
    {
        match unit {
            Unit::Whole => Vertex {
                x: corner.x,
                y: corner.y,
                z: corner.z,
                w: corner.w,
            },
            Unit::Half => in_halves(corner),
        }
    }
}

// The vertex at a corner where a unit has two grid steps. The weight is doubled, or else the three
// coordinates are halved: no other factor can be common.
fn in_halves(corner: &Point) -> Vertex
    ensures { IsVertexAt Half corner.now result }
{
    if has_even_coordinates(corner) {
        Vertex {
            x: half_of(corner.x),
            y: half_of(corner.y),
            z: half_of(corner.z),
            w: corner.w,
        }
    } else {
        Vertex {
            x: corner.x,
            y: corner.y,
            z: corner.z,
            w: 2 * corner.w,
        }
    }
}

// Whether a number is even.
fn is_even(x: i128) -> bool
    ensures { result ≡ is_even x }
{
    x % 2 == 0
}

// Whether the three coordinates are even.
fn has_even_coordinates(corner: &Point) -> bool
    ensures { result ≡ ((is_even corner.now.x && is_even corner.now.y) && is_even corner.now.z) }
{
    is_even(corner.x) && is_even(corner.y) && is_even(corner.z)
}

// Half of an even number.
fn half_of(x: i128) -> i128
    requires { is_even x ≡ true }
    ensures { x ≡ pos 2 *ℤ result }
{
    x / 2
}

// Whether `p` comes before `q`: by x, then by y, z and w, as whole numbers.
fn comes_before(p: &Vertex, q: &Vertex) -> bool
    ensures { result ≡ comes_before p.now q.now }
{
    p.x < q.x || p.x == q.x && (p.y < q.y || p.y == q.y && (p.z < q.z || p.z == q.z && p.w < q.w))
}

/// The place of the least corner, from 0.
pub fn least_corner(corners: &[Vertex]) -> usize
    ensures { result ≡ place_of_least corners.now }
{
    let mut least = 0;
    for i in 1..corners.len() {
        if comes_before(&corners[i], &corners[least]) {
            least = i;
        }
    }
    least
}
