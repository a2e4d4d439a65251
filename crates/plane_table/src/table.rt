//! Planes by number.

ghost use Rattle.std.specs.Prelude.{◌≡◌, true, IfOk};
ghost use Rattle.plane_predicate.specs.Space.{opposite_of, is_same};
ghost use Rattle.plane_polygon.specs.Parallels.{HasSameDirection};
ghost use Rattle.plane_table.specs.Tables.{plane_named, opposite_number, AreNumbersSmall, HasNoTwoAlike, NamesPlaneIn};

use crate::directions::{OrientedPlane, by_number};
use plain_text::NoMemory;
use plane_predicate::{Plane, are_small, planes_keep_their_form};
use std::alloc::Global;
use std::marker::Model;

/// Planes by number, which contracts see as the list of planes: 2k names plane k of the list, and
/// 2k + 1 its opposite.
///
/// A table keeps that no two planes of the list are equal or opposite.
#[derive(Drop)]
pub struct PlaneTable {
    planes: Vec<Plane>,
    oriented: Vec<OrientedPlane>,
    is_small: bool,
}

impl Model for PlaneTable {
    ghost use Rattle.std.specs.Prelude.{List};
    ghost use Rattle.plane_predicate.specs.Space.{Coefficients};
    ghost use Rattle.plane_table.specs.Tables.{IsTable};

    ghost Value = { List Coefficients };

    ghost view = { λ t. t.planes.items };

    ghost invariant = { λ t. IsTable t.planes.items t.oriented.items t.is_small };
}

impl PlaneTable {
    /// The table of a list of planes.
    pub fn of(alloc: Global, planes: Vec<Plane>) -> Result<PlaneTable, NoMemory>
        requires { HasNoTwoAlike planes.items }
        ensures { IfOk result (λ t. t ≡ planes.items) }
    {
        let oriented = by_number(alloc, &planes)?;
        let is_small = are_small(&planes);
        Ok(PlaneTable {
            planes,
            oriented,
            is_small,
        })
    }

    /// The list of planes, without their opposites.
    pub fn planes(&self) -> &[Plane]
        ensures planes { result.now ≡ self.now }
        ensures apart { HasNoTwoAlike self.now }
    {
        &self.planes
    }

    // No two planes of the list are equal or opposite, as the type keeps.
    fn keeps_its_planes_apart(&self)
        ensures { HasNoTwoAlike self.now }
    {
        let _ = &self.planes;
    }

    /// The plane that a number names.
    pub fn plane(&self, number: u32) -> &Plane
        requires { NamesPlaneIn self.now number }
        ensures { result.now ≡ plane_named self.now number }
    {
        &self.oriented[number as usize].plane
    }

    /// Whether all planes have small numbers, for work in 64 bits. False is no promise.
    pub fn is_small(&self) -> bool
        ensures { result ≡ true → AreNumbersSmall self.now }
    {
        self.is_small
    }

    /// The number of a plane that has the direction of the one that a number names. For speed, and no
    /// promise: planes of one direction that follow one another in the list, or whose opposites do, have the
    /// same one.
    pub fn direction(&self, number: u32) -> u32
        requires { NamesPlaneIn self.now number }
        ensures { HasSameDirection (plane_named self.now result) (plane_named self.now number) }
    {
        self.oriented[number as usize].direction
    }

    /// Whether two numbers name the same plane.
    pub fn is_same(&self, m: u32, n: u32) -> bool
        requires m { NamesPlaneIn self.now m }
        requires n { NamesPlaneIn self.now n }
        ensures { result ≡ is_same (plane_named self.now m) (plane_named self.now n) }
    {
        self.keeps_its_planes_apart();
        planes_keep_their_form(self.plane(m));
        m == n
    }

    /// Whether two numbers name opposite planes.
    pub fn is_opposite(&self, m: u32, n: u32) -> bool
        requires m { NamesPlaneIn self.now m }
        requires n { NamesPlaneIn self.now n }
        ensures { result ≡ is_same (plane_named self.now m) (opposite_of (plane_named self.now n)) }
    {
        self.keeps_its_planes_apart();
        planes_keep_their_form(self.plane(m));
        m == opposite_number(n)
    }
}

/// The number that names the opposite plane.
#[tactic(auto, unfolding(crate::specs::Tables::opposite_number))]
pub fn opposite_number(number: u32) -> u32
    ensures { result ≡ opposite_number number }
{
    if number % 2 == 0 {
        number + 1
    } else {
        number - 1
    }
}
