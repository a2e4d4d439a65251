//! Triples of points, and the planes through them.

ghost use Rattle.std.specs.Prelude.{◌≡◌, ◌<◌, ◌<ℤ◌, pos, All, length};
ghost use Rattle.std.specs.Bool.{OnTrue};
ghost use Rattle.std.specs.List.{list_any};
ghost use Rattle.std.specs.Ordering.{int_eq};
ghost use Rattle.plane_predicate.specs.Space.{point_at, value};
ghost use Rattle.primitives.specs.GridSizes.{IsWithinGridLimits};
ghost use Rattle.primitives.specs.Shapes.{value_at_point};
ghost use Rattle.scad_hull.specs.Hulls.{is_directed, has_none_ahead, is_supporting, plane_of, shares_plane};
ghost use Rattle.scad_hull.specs.Steps.{AreNumberedPoints, AreThree};

use primitives::face_has_ahead;
use primitives::facing::{
    FacePlane, goes_through, has_direction, is_ahead, opposite, plane_through,
};

/// Whether three points are not on one line, and no point lies strictly on one side of their plane.
pub fn supports(points: &[[i64; 3]], all: &[u32], triple: [u32; 3]) -> bool
    requires numbered { AreNumberedPoints points.now all.now }
    requires three { AreThree (length points.now) triple }
    ensures { result ≡ is_supporting points.now triple }
{
    let plane = through(points, triple);
    if !is_directed(&plane) {
        return false;
    }
    if has_free_side(points, all, &plane) {
        return true;
    }
    has_free_side(points, all, &opposite(&plane))
}

// Whether a direction is not 0.
fn is_directed(plane: &FacePlane) -> bool
    ensures { result ≡ is_directed plane.now }
{
    has_direction(plane)
}

// Whether no point is strictly ahead of a plane.
fn has_free_side(points: &[[i64; 3]], all: &[u32], plane: &FacePlane) -> bool
    requires { AreNumberedPoints points.now all.now }
    ensures { result ≡ has_none_ahead points.now plane.now }
{
    !face_has_ahead(points, all, plane)
}

/// The plane through three points.
pub fn through(points: &[[i64; 3]], triple: [u32; 3]) -> FacePlane
    requires grid { All (λ p. IsWithinGridLimits (point_at p)) points.now }
    requires three { AreThree (length points.now) triple }
    ensures { result ≡ plane_of points.now triple }
{
    let [i, j, k] = triple;
    plane_through(points[i as usize], points[j as usize], points[k as usize])
}

/// Whether the plane of a triple is that of one of some faces.
pub fn is_listed(points: &[[i64; 3]], faces: &[[u32; 3]], triple: [u32; 3]) -> bool
    requires grid { All (λ p. IsWithinGridLimits (point_at p)) points.now }
    requires faces_three { All (AreThree (length points.now)) faces.now }
    requires three { AreThree (length points.now) triple }
    ensures { result ≡ list_any (λ s. shares_plane points.now s triple) faces.now }
{
    for face in faces {
        if is_on_plane(points, *face, triple) {
            return true;
        }
    }
    false
}

// Whether the plane of one triple goes through the points of another.
fn is_on_plane(points: &[[i64; 3]], of: [u32; 3], triple: [u32; 3]) -> bool
    requires grid { All (λ p. IsWithinGridLimits (point_at p)) points.now }
    requires of_three { AreThree (length points.now) of }
    requires three { AreThree (length points.now) triple }
    ensures { result ≡ shares_plane points.now of triple }
{
    let plane = through(points, of);
    let [i, j, k] = triple;
    if !holds(&plane, points[i as usize]) {
        return false;
    }
    if !holds(&plane, points[j as usize]) {
        return false;
    }
    holds(&plane, points[k as usize])
}

// Whether a plane goes through a point.
fn holds(plane: &FacePlane, at: [i64; 3]) -> bool
    requires { IsWithinGridLimits (point_at at) }
    ensures { result ≡ int_eq (value plane.now (point_at at)) (pos 0) }
{
    goes_through(plane, at)
}

/// Whether a point is strictly ahead of a plane.
pub fn is_point_ahead(points: &[[i64; 3]], plane: &FacePlane, number: u32) -> bool
    requires grid { All (λ p. IsWithinGridLimits (point_at p)) points.now }
    requires there { number < length points.now }
    ensures { OnTrue result (pos 0 <ℤ value_at_point points.now plane.now number) }
{
    is_ahead(plane, points[number as usize])
}

/// Whether a plane goes through a point.
pub fn is_point_on(points: &[[i64; 3]], plane: &FacePlane, number: u32) -> bool
    requires grid { All (λ p. IsWithinGridLimits (point_at p)) points.now }
    requires there { number < length points.now }
    ensures { OnTrue result (value_at_point points.now plane.now number ≡ pos 0) }
{
    goes_through(plane, points[number as usize])
}
