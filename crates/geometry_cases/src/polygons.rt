//! Phrases of polygons, with the last plane.

ghost use Rattle.plane_predicate.specs.Space.{ComesInReach};

use crate::put::{put_class, put_corners};
use case_lines::{CaseStop, found, high, low, put_number};
use facet_cut::Facet;
use plane_polygon::{Class, Polygon, box_polygon, cut, sort_by};
use plane_predicate::Plane;
use std::alloc::Global;

#[derive(Clone, Copy)]
pub enum Shaping {
    Polygon,
    Again,
    Drop,
    Cut,
    Trim,
    Facet,
    Class,
    Edges,
    Corners,
}

const SHAPINGS: [(&[u8], Shaping); 9] = [
    (b"polygon", Shaping::Polygon),
    (b"again", Shaping::Again),
    (b"drop", Shaping::Drop),
    (b"cut", Shaping::Cut),
    (b"trim", Shaping::Trim),
    (b"facet", Shaping::Facet),
    (b"class", Shaping::Class),
    (b"edges", Shaping::Edges),
    (b"corners", Shaping::Corners),
];

pub fn shaping_of(word: &[u8]) -> Option<Shaping> {
    found(&SHAPINGS, word)
}

/// Polygons in the order in which they were put, and those that became facets.
#[derive(Drop)]
pub struct Polygons {
    pub items: Vec<Polygon>,
    pub facets: Vec<Facet>,
}

impl Polygons {
    fn last(&self) -> Result<&Polygon, CaseStop> {
        self.items.last().ok_or(CaseStop::Unread)
    }

    fn again(&mut self, alloc: Global) -> Result<(), CaseStop> {
        let copied = self.last()?.copy(alloc)?;
        self.items.push(copied)?;
        Ok(())
    }

    // The part behind a plane and then the one ahead of it, in place of the last polygon.
    fn cut(&mut self, alloc: Global, plane: &Plane) -> Result<(), CaseStop> {
        let polygon = self.items.pop().ok_or(CaseStop::Unread)?;
        match sort_by(&polygon, plane) {
            Class::Across => {
                let (behind, ahead) = cut(alloc, &polygon, plane)?;
                self.items.push(behind)?;
                self.items.push(ahead)?;
                Ok(())
            }
            Class::Behind | Class::Ahead | Class::On => Err(CaseStop::Unread),
        }
    }

    // The part behind a plane, in place of the last polygon where the plane is across it.
    fn trim(&mut self, alloc: Global, plane: &Plane) -> Result<(), CaseStop> {
        match sort_by(self.last()?, plane) {
            Class::Across => {
                self.cut(alloc, plane)?;
                self.items.pop();
                Ok(())
            }
            Class::Behind | Class::Ahead | Class::On => Ok(()),
        }
    }

    // Adds a polygon as a facet that it faces.
    fn add_facet(&mut self, polygon: Polygon) -> Result<(), CaseStop> {
        self.facets.push(Facet {
            plane: *polygon.plane(),
            polygon,
        })?;
        Ok(())
    }

    // The last polygon, the given number of times, as facets that it faces.
    fn end_facet(&mut self, alloc: Global, times: i64) -> Result<(), CaseStop> {
        let polygon = self.items.pop().ok_or(CaseStop::Unread)?;
        for _ in 0..times {
            self.add_facet(polygon.copy(alloc)?)?;
        }
        Ok(())
    }

    // Adds the square on z = 0 from x to x + 1 and from y to y + 1 as a facet that faces down.
    fn put_square(&mut self, alloc: Global, x: i64, y: i64) -> Result<(), CaseStop> {
        let floor = low(2, 0).ok_or(CaseStop::Unread)?;
        self.items.push(box_polygon(alloc, &floor)?)?;
        for (axis, from) in [(0, x), (1, y)] {
            let below = low(axis, from).ok_or(CaseStop::Unread)?;
            self.trim(alloc, &below)?;
            let upto = from.checked_add(1).ok_or(CaseStop::Unread)?;
            let above = high(axis, upto).ok_or(CaseStop::Unread)?;
            self.trim(alloc, &above)?;
        }
        self.end_facet(alloc, 1)
    }

    /// Adds the given number of squares from 2i to 2i + 1 and from 2j to 2j + 1, for i and j from 0 to 122, in order of i and
    /// then j.
    pub fn put_squares(&mut self, alloc: Global, count: i64) -> Result<(), CaseStop> {
        let count = u16::try_from(count).ok().ok_or(CaseStop::Unread)?;
        for at in 0..count {
            self.put_square(alloc, i64::from(at / 123) * 2, i64::from(at % 123) * 2)?;
        }
        Ok(())
    }

    /// What a phrase makes of the polygons and the last plane, and what it writes.
    pub fn shape(
        &mut self,
        alloc: Global,
        out: &mut Vec<u8>,
        shaping: Shaping,
        numbers: &[i64],
        plane: &Plane,
    ) -> Result<(), CaseStop>
        requires { ComesInReach plane.now }
    {
        match shaping {
            Shaping::Polygon => self.items.push(box_polygon(alloc, plane)?)?,
            Shaping::Again => self.again(alloc)?,
            Shaping::Drop => {
                self.items.pop();
            }
            Shaping::Cut => self.cut(alloc, plane)?,
            Shaping::Trim => self.trim(alloc, plane)?,
            Shaping::Facet => self.end_facet(alloc, numbers.first().copied().unwrap_or(1))?,
            Shaping::Class => put_class(out, sort_by(self.last()?, plane))?,
            Shaping::Edges => put_number(alloc, out, self.last()?.edges().len() as i128)?,
            Shaping::Corners => put_corners(alloc, out, self.last()?)?,
        }
        Ok(())
    }
}
