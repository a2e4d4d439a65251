//! Things put together by phrases.

use crate::asking::{ask, asking_of, print, printing_of};
use crate::faces::put_face;
use crate::polygons::{Polygons, shaping_of};
use crate::solids::{Solids, building_of};
use crate::tables::{put_tabled, tabling_of};
use case_lines::{CaseStop, Phrase, Walls, lay, laying_of};
use std::alloc::Global;

/// Planes, polygons with facets, and solids.
#[derive(Drop)]
pub struct Bench {
    walls: Walls,
    polygons: Polygons,
    solids: Solids,
}

impl Bench {
    pub fn new(alloc: Global) -> Self {
        Bench {
            walls: Walls::new(alloc),
            polygons: Polygons {
                items: Vec::new(alloc),
                facets: Vec::new(alloc),
            },
            solids: Solids {
                items: Vec::new(alloc),
            },
        }
    }

    // Writes what is asked.
    fn tell(
        &mut self,
        alloc: Global,
        out: &mut Vec<u8>,
        word: &[u8],
        numbers: &[i64],
    ) -> Result<(), CaseStop> {
        if let Some(asking) = asking_of(word) {
            let solid = self.solids.last()?;
            let facets = &mut self.polygons.facets;
            ask(alloc, out, asking, numbers, solid, facets)
        } else if let Some(printing) = printing_of(word) {
            let facets = &self.polygons.facets;
            print(alloc, out, printing, numbers, facets)
        } else if word == b"face".as_slice() {
            let plane = self.walls.last().ok_or(CaseStop::Unread)?;
            put_face(alloc, out, &plane)
        } else if let Some(tabling) = tabling_of(word) {
            put_tabled(alloc, out, tabling, numbers, self.walls.planes())
        } else {
            Err(CaseStop::Unread)
        }
    }

    /// Does what a phrase says, and writes what it asks.
    pub fn follow(
        &mut self,
        alloc: Global,
        out: &mut Vec<u8>,
        phrase: &Phrase,
    ) -> Result<(), CaseStop> {
        let (word, numbers) = (phrase.word.as_slice(), phrase.numbers.as_slice());
        if let Some(laying) = laying_of(word) {
            lay(&mut self.walls, laying, numbers)
        } else if word == b"squares".as_slice() {
            let count = numbers.first().ok_or(CaseStop::Unread)?;
            self.polygons.put_squares(alloc, *count)
        } else if let Some(shaping) = shaping_of(word) {
            let plane = self.walls.last().ok_or(CaseStop::Unread)?;
            self.polygons.shape(alloc, out, shaping, numbers, &plane)
        } else if let Some(building) = building_of(word) {
            let by = self.polygons.items.last();
            self.solids
                .build(alloc, out, building, numbers, &mut self.walls, by)
        } else {
            self.tell(alloc, out, word, numbers)
        }
    }
}
