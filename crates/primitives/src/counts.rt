//! The numbers of points and corners, and the corners themselves.

ghost use Rattle.std.specs.Prelude.{◌≤◌, ◌<◌, All, Any, length};
ghost use Rattle.std.specs.Bool.{OnTrue, OnFalse};
ghost use Rattle.primitives.specs.Checks.{AreCornersThere, HasEnoughCorners, IsWithinLimits};

use crate::Corners;

/// Whether there are at most 128 points, and at most 64 faces of at most 64 corners each.
pub fn is_within_limits(points: &[[i64; 3]], faces: &[Corners]) -> bool
    ensures within { OnTrue result (IsWithinLimits points.now faces.now) }
    ensures past { OnFalse result (IsWithinLimits points.now faces.now → ⊥) }
{
    points.len() <= 128 && faces.len() <= 64 && have_at_most(faces, 64)
}

/// Whether there are at least 4 faces, of at least 3 corners each.
pub fn has_enough_corners(faces: &[Corners]) -> bool
    ensures enough { OnTrue result (HasEnoughCorners faces.now) }
    ensures few { OnFalse result (HasEnoughCorners faces.now → ⊥) }
{
    faces.len() >= 4 && have_at_least(faces, 3)
}

/// Whether each corner of a face is one of the points.
pub fn are_there(points: usize, faces: &[Corners]) -> bool
    ensures all { OnTrue result (AreCornersThere points faces.now) }
    ensures past { OnFalse result (AreCornersThere points faces.now → ⊥) }
{
    for face in faces {
        if !is_there(points, face.items()) {
            return false;
        }
    }
    true
}

// Whether each corner of one face is one of the points.
fn is_there(points: usize, face: &[u32]) -> bool
    ensures all { OnTrue result (All (λ i. i < points) face.now) }
    ensures past { OnFalse result (All (λ i. i < points) face.now → ⊥) }
{
    for i in face {
        if *i as usize >= points {
            return false;
        }
    }
    true
}

// Whether each face has at most the given number of corners.
fn have_at_most(faces: &[Corners], most: usize) -> bool
    ensures all { OnTrue result (All (λ f. length f ≤ most) faces.now) }
    ensures past { OnFalse result (All (λ f. length f ≤ most) faces.now → ⊥) }
{
    for face in faces {
        if face.items().len() > most {
            return false;
        }
    }
    true
}

// Whether each face has at least the given number of corners.
fn have_at_least(faces: &[Corners], least: usize) -> bool
    ensures all { OnTrue result (All (λ f. least ≤ length f) faces.now) }
    ensures past { OnFalse result (All (λ f. least ≤ length f) faces.now → ⊥) }
{
    for face in faces {
        if face.items().len() < least {
            return false;
        }
    }
    true
}
