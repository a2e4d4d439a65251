//! Facets added to a list of at most a given number.

ghost use Rattle.std.specs.Prelude.{◌≤◌, [], ◌∷◌, length};
ghost use Rattle.facet_cut.specs.Facets.{facets_facing};
ghost use Rattle.facet_cut.specs.Adding.{AddsFacetsWithin};

use crate::facet::{facing_ahead, facing_back};
use crate::{CutStop, Facet};
use plane_polygon::Polygon;

/// Adds the facet on a polygon between two leaves, if there is one, by whether the leaf just behind
/// it and the one just ahead are inside.
pub fn push_facing(
    behind: bool,
    ahead: bool,
    polygon: Polygon,
    most: u64,
    found: &mut Vec<Facet>,
) -> Result<(), CutStop>
    requires { length found.old.items ≤ most }
    ensures { AddsFacetsWithin (facets_facing behind ahead polygon) most found.old.items
        found.new.items result }
{
    match (behind, ahead) {
        (true, true) | (false, false) => Ok(()),
        (true, false) => push_one(facing_ahead(polygon), most, found),
        (false, true) => push_one(facing_back(polygon), most, found),
    }
}

// Adds a facet.
fn push_one(facet: Facet, most: u64, found: &mut Vec<Facet>) -> Result<(), CutStop>
    requires { length found.old.items ≤ most }
    ensures { AddsFacetsWithin (facet ∷ []) most found.old.items found.new.items result }
{
    if found.len() as u64 >= most {
        return Err(CutStop::TooMany);
    }
    match found.push(facet) {
        Ok(()) => Ok(()),
        Err(_) => Err(CutStop::NoMemory),
    }
}
