//! Parallel planes.

ghost use Rattle.std.specs.Prelude.{◌≡◌, true, IfSome};
ghost use Rattle.plane_predicate.specs.Space.{opposite_of};
ghost use Rattle.plane_polygon.specs.Parallels.{side_past, HasAllOn, HasSameDirection};

use plane_predicate::{Plane, Side, opposite};

/// The side of `m` on which all points of `p` lie, where their directions are equal or opposite. `None`
/// is no promise.
pub fn parallel_side(p: &Plane, m: &Plane) -> Option<Side>
    ensures { IfSome result (λ s. HasAllOn p.now m.now s) }
{
    if is_alike(p, m) {
        return Some(side_alike(p, m));
    }
    let turned = opposite(p);
    if is_alike(&turned, m) {
        return Some(side_alike(&turned, m));
    }
    None
}

/// True only of two planes that have one direction.
pub fn is_alike(p: &Plane, m: &Plane) -> bool
    ensures { result ≡ true → HasSameDirection p.now m.now }
{
    p.a == m.a && p.b == m.b && p.c == m.c
}

/// The side of `m` on which all points of `p` lie, which are those of its opposite, where both have one
/// direction.
pub fn side_alike(p: &Plane, m: &Plane) -> Side
    requires { HasSameDirection p.now m.now }
    ensures own { HasAllOn p.now m.now result }
    ensures opposite { HasAllOn (opposite_of p.now) m.now result }
{
    side_past(p, m)
}

// The side of the offset of `m` on which that of `p` lies.
fn side_past(p: &Plane, m: &Plane) -> Side
    ensures { result ≡ side_past p.now.d m.now.d }
{
    if p.d < m.d {
        Side::Behind
    } else if p.d == m.d {
        Side::On
    } else {
        Side::Ahead
    }
}
