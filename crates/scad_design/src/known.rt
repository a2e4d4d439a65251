//! The distinct planes of the leaves so far, up to orientation, in a table.

ghost use Rattle.std.specs.Prelude.{◌≡◌, All, OnOk};
ghost use Rattle.std.specs.List.{list_any};
ghost use Rattle.plane_predicate.specs.Space.{IsPlane};
ghost use Rattle.scad_design.specs.Placing.{with_new_planes, with_plane_unless_known, is_same_or_opposite};

use indexmap::IndexSet;
use plane_predicate::{Plane, opposite};
use std::marker::Model;
use text_place::NoMemory;

/// The four numbers of a plane, as a key of the table.
#[derive(Clone, Copy, PartialEq, Eq, Hash)]
pub struct PlaneKey {
    pub a: i64,
    pub b: i64,
    pub c: i64,
    pub d: i64,
}

impl Model for PlaneKey {
    ghost use Rattle.plane_predicate.specs.Space.{Coefficients};

    ghost Value = { Coefficients };

    ghost view = { λ p. record { a = p.a; b = p.b; c = p.c; d = p.d } };

    ghost inverse = { λ v. record { a = v.a; b = v.b; c = v.c; d = v.d } };
}

impl PlaneKey {
    // The key of a plane.
    fn of(plane: &Plane) -> PlaneKey
        ensures key { result ≡ plane.now }
        ensures plane { IsPlane plane.now }
    {
        PlaneKey {
            a: plane.a,
            b: plane.b,
            c: plane.c,
            d: plane.d,
        }
    }
}

// Whether a plane is a plane of the table, seen from either side.
#[tactic(auto, using(crate::proofs::KnownPlanes::either))]
fn is_known(known: &IndexSet<PlaneKey>, plane: &Plane) -> bool
    ensures { result ≡ list_any (is_same_or_opposite plane.now) known.now.keys }
{
    known.contains(&PlaneKey::of(plane)) || known.contains(&PlaneKey::of(&opposite(plane)))
}

// Adds a plane that is no plane of the others, up to orientation. At `NoMemory` the table stays.
fn add_plane(known: &mut IndexSet<PlaneKey>, plane: &Plane) -> Result<(), NoMemory>
    ensures added { OnOk result (known.new.keys ≡ with_plane_unless_known (list_any
        (is_same_or_opposite plane.now) known.old.keys) known.old.keys plane.now) }
    ensures plane { IsPlane plane.now }
{
    let key = PlaneKey::of(plane);
    if !is_known(known, plane) {
        known.insert(key)?;
    }
    Ok(())
}

/// Adds those planes that are new, in their order.
pub fn add_planes(known: &mut IndexSet<PlaneKey>, planes: &[Plane]) -> Result<(), NoMemory>
    ensures added { OnOk result (known.new.keys ≡ with_new_planes known.old.keys planes.now) }
    ensures planes { OnOk result (All IsPlane planes.now) }
{
    for plane in planes {
        add_plane(known, plane)?;
    }
    Ok(())
}
