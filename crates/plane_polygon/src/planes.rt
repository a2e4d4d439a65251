//! The planes of the world box.

ghost use Rattle.std.specs.Prelude.{◌≡◌, ◌∷◌, [], IfOk};
ghost use Rattle.plane_polygon.specs.Boxes.{high_x, low_x, high_y, low_y, high_z, low_z};

use plain_text::NoMemory;
use plane_predicate::Plane;
use std::alloc::Global;

/// The six planes of the world box.
pub fn world_planes(alloc: Global) -> Result<Vec<Plane>, NoMemory>
    ensures { IfOk result (λ v. v.items ≡ low_x ∷ high_x ∷ low_y ∷ high_y ∷ low_z ∷ high_z ∷ []) }
{
    let planes = [low_x(), high_x(), low_y(), high_y(), low_z(), high_z()];
    Ok(Vec::from_slice(alloc, &planes)?)
}

/// The high plane of the world box over x.
pub fn high_x() -> Plane
    ensures { result ≡ high_x }
{
    Plane {
        a: 1,
        b: 0,
        c: 0,
        d: 4096,
    }
}

/// The low plane of the world box over x.
pub fn low_x() -> Plane
    ensures { result ≡ low_x }
{
    Plane {
        a: -1,
        b: 0,
        c: 0,
        d: 4096,
    }
}

/// The high plane of the world box over y.
pub fn high_y() -> Plane
    ensures { result ≡ high_y }
{
    Plane {
        a: 0,
        b: 1,
        c: 0,
        d: 4096,
    }
}

/// The low plane of the world box over y.
pub fn low_y() -> Plane
    ensures { result ≡ low_y }
{
    Plane {
        a: 0,
        b: -1,
        c: 0,
        d: 4096,
    }
}

/// The high plane of the world box over z.
pub fn high_z() -> Plane
    ensures { result ≡ high_z }
{
    Plane {
        a: 0,
        b: 0,
        c: 1,
        d: 4096,
    }
}

/// The low plane of the world box over z.
pub fn low_z() -> Plane
    ensures { result ≡ low_z }
{
    Plane {
        a: 0,
        b: 0,
        c: -1,
        d: 4096,
    }
}
