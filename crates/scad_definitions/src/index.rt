//! An index from names to places.

ghost use Rattle.std.specs.Prelude.{◌≡◌, ℕ, List, OnOk, OnErr, IfSome, Some, is_some, IsTrue, if◌then◌else◌};
ghost use Rattle.std.specs.Str.{bytes_eq};
ghost use Rattle.scad_definitions.specs.Index.{place_of_name};

use std::alloc::Global;
use std::collections::BTreeMap;
use text_place::NoMemory;

/// The place by a name.
pub(crate) fn place_in(index: &BTreeMap<Vec<u8>, usize>, name: &[u8]) -> Option<usize>
    ensures { result ≡ place_of_name index.now name.now }
{
    index.get(name).copied()
}

/// Lets a place be found by a name.
pub(crate) fn put(
    index: &mut BTreeMap<Vec<u8>, usize>,
    alloc: Global,
    name: &[u8],
    place: usize,
) -> Result<(), NoMemory>
    ensures put { OnOk result ((other : List ℕ) → place_of_name index.new other
        ≡ (if bytes_eq name.now other then Some place else place_of_name index.old other)) }
    ensures unchanged { OnErr result ((other : List ℕ) → place_of_name index.new other
        ≡ place_of_name index.old other) }
{
    let name = Vec::from_slice(alloc, name)?;
    index.insert(name, place)?;
    Ok(())
}

/// Lets what a name had before, a place or nothing, be found by it again.
pub(crate) fn put_back(index: &mut BTreeMap<Vec<u8>, usize>, name: &[u8], before: Option<usize>)
    requires { IsTrue (is_some (place_of_name index.old name.now)) }
    ensures { (other : List ℕ) → place_of_name index.new other
        ≡ (if bytes_eq name.now other then before else place_of_name index.old other) }
{
    match before {
        Some(place) => {
            if let Some(found) = index.get_mut(name) {
                *found = place;
            }
        }
        None => {
            index.remove(name);
        }
    }
}
