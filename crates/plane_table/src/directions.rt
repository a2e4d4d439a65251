//! The planes of a list and their opposites, by number.

ghost use Rattle.std.specs.Prelude.{◌<◌, ◌^◌, length, get_or, IfOk};
ghost use Rattle.plane_polygon.specs.Polygons.{missing_plane};
ghost use Rattle.plane_polygon.specs.Parallels.{HasSameDirection};
ghost use Rattle.plane_table.specs.Tables.{plane_named, AreFirstOriented, AreOriented};

use crate::numbering::MOST_PLANES;
use crate::opposite_number;
use plain_text::NoMemory;
use plane_polygon::is_alike;
use plane_predicate::{Plane, opposite};
use std::alloc::Global;

/// A plane with the number of one that has the same direction.
#[derive(Clone, Copy)]
pub struct OrientedPlane {
    /// The plane.
    pub plane: Plane,
    /// The number of a plane with its direction. For speed, that is the first of those that follow one
    /// another in the list.
    pub direction: u32,
}

/// The planes of a list and their opposites, by number. `NoMemory` where the list has more planes than
/// there are numbers.
pub fn by_number(alloc: Global, planes: &[Plane]) -> Result<Vec<OrientedPlane>, NoMemory>
    ensures { IfOk result (λ v. AreOriented planes.now v.items) }
{
    if planes.len() > MOST_PLANES {
        return Err(NoMemory);
    }
    let mut found = Vec::with_capacity(alloc, 2 * planes.len())?;
    for i in 0..planes.len() {
        let direction = direction_of(planes, &found, i);
        found.push(OrientedPlane {
            plane: planes[i],
            direction,
        })?;
        found.push(OrientedPlane {
            plane: opposite(&planes[i]),
            direction: opposite_number(direction),
        })?;
    }
    Ok(found)
}

// The direction of plane `i`: that of the plane before it or of its opposite, where it has it too, else
// its own number.
fn direction_of(planes: &[Plane], found: &[OrientedPlane], i: usize) -> u32
    requires index { i < length planes.now }
    requires range { i < 2 ^ 31 }
    requires known { AreFirstOriented planes.now found.now i }
    ensures { HasSameDirection (plane_named planes.now result) (get_or planes.now i missing_plane) }
{
    if i > 0 {
        let before = found[2 * i - 2];
        if is_alike(&before.plane, &planes[i]) {
            return before.direction;
        }
        let turned = found[2 * i - 1];
        if is_alike(&turned.plane, &planes[i]) {
            return turned.direction;
        }
    }
    2 * i as u32
}
