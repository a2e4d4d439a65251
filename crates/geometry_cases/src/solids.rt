//! Phrases that put solids.

use bsp_boolean::{BuildStop, Builder, PlainBuilder, leaf_solid, merge};
use bsp_partition::partition;
use bsp_tree::{Forest, Link, Solid, exchange, half};
use case_lines::{CaseStop, Walls, box_walls, found, high, put, put_number, slab_walls};
use csg_tree::Op;
use plain_text::NoMemory;
use plane_polygon::Polygon;
use plane_table::face_of;
use std::alloc::Global;

/// What a phrase makes of the solids.
#[derive(Clone, Copy)]
pub enum Building {
    Half,
    Leaf,
    Box,
    Slabs,
    Beyond,
    Node,
    Twice,
    End,
    Over,
    Copy,
    Exchange,
    Part,
    Join(Op),
}

const BUILDINGS: [(&[u8], Building); 15] = [
    (b"half", Building::Half),
    (b"leaf", Building::Leaf),
    (b"box", Building::Box),
    (b"slabs", Building::Slabs),
    (b"beyond", Building::Beyond),
    (b"node", Building::Node),
    (b"twice", Building::Twice),
    (b"end", Building::End),
    (b"over", Building::Over),
    (b"copy", Building::Copy),
    (b"exchange", Building::Exchange),
    (b"part", Building::Part),
    (b"+", Building::Join(Op::Union)),
    (b"*", Building::Join(Op::Intersection)),
    (b"-", Building::Join(Op::Difference)),
];

/// What a word has phrases make, if it has.
pub fn building_of(word: &[u8]) -> Option<Building> {
    found(&BUILDINGS, word)
}

// The solid behind all planes of a list, of any size.
fn leaf(alloc: Global, walls: &Walls) -> Result<Solid, CaseStop> {
    leaf_within(alloc, walls, u64::MAX)?.ok_or(CaseStop::Unread)
}

// The same of a size at most, or nothing where it is larger.
fn leaf_within(alloc: Global, walls: &Walls, most: u64) -> Result<Option<Solid>, CaseStop> {
    let planes = walls.planes();
    if planes.is_empty() {
        return Err(CaseStop::Unread);
    }
    within(leaf_solid(alloc, planes, most))
}

// A solid where one was built, or nothing where it is too big.
fn within(built: Result<Solid, BuildStop>) -> Result<Option<Solid>, CaseStop> {
    match built {
        Ok(solid) => Ok(Some(solid)),
        Err(BuildStop::TooBig) => Ok(None),
        Err(BuildStop::NoMemory) => Err(CaseStop::NoMemory),
    }
}

// A solid with one slab of an axis more.
fn with_slab(alloc: Global, all: &Solid, axis: i64, at: i64) -> Result<Solid, CaseStop> {
    let next = leaf(alloc, &slab_walls(alloc, axis, at)?)?;
    Ok(merge(alloc, Op::Union, all, &next)?)
}

// The union of the given number of slabs of an axis from a coordinate on, with a step between them.
fn slabs(alloc: Global, axis: i64, from: i64, count: i64) -> Result<Solid, CaseStop> {
    let mut all = Solid::leaf(alloc, false);
    for step in 0..count {
        let at = from.saturating_add(step.saturating_mul(2));
        all = with_slab(alloc, &all, axis, at)?;
    }
    Ok(all)
}

// What of a solid lies beyond a plane of an axis.
fn past(alloc: Global, all: &Solid, axis: i64, at: i64) -> Result<Solid, CaseStop> {
    let plane = high(axis, at).ok_or(CaseStop::Unread)?;
    let next = exchange(alloc, &half(alloc, &plane)?)?;
    Ok(merge(alloc, Op::Intersection, all, &next)?)
}

// What lies beyond the given number of planes of an axis, one step apart, from a coordinate on: each node is ahead of the one
// before it.
fn beyond(alloc: Global, axis: i64, from: i64, count: i64) -> Result<Solid, CaseStop> {
    let mut all = Solid::leaf(alloc, true);
    for step in 0..count {
        all = past(alloc, &all, axis, from.saturating_add(step))?;
    }
    Ok(all)
}

// The solid behind the last plane.
fn half_of(alloc: Global, walls: &Walls) -> Result<Solid, CaseStop> {
    let plane = walls.last().ok_or(CaseStop::Unread)?;
    Ok(half(alloc, &plane)?)
}

// The box between two corners.
fn box_of(alloc: Global, numbers: &[i64]) -> Result<Solid, CaseStop> {
    leaf(alloc, &box_walls(alloc, numbers)?)
}

// One node on the last polygon, where there is one.
fn node_on(alloc: Global, by: Option<&Polygon>) -> Result<Solid, CaseStop> {
    Ok(node(alloc, by.ok_or(CaseStop::Unread)?)?)
}

// One node on a polygon: all behind it is inside, and all ahead of it is outside.
fn node(alloc: Global, polygon: &Polygon) -> Result<Solid, NoMemory> {
    let own = face_of(alloc, polygon)?;
    let mut forest = Forest::new(alloc);
    let id = forest.add(own.face, Link::End(true), Link::End(false))?;
    Ok(Solid::of_parts(own.planes, forest, Link::To(id)))
}

// Two nodes on the last polygon, where there is one.
fn twice_on(alloc: Global, by: Option<&Polygon>) -> Result<Solid, CaseStop> {
    Ok(twice(alloc, by.ok_or(CaseStop::Unread)?)?)
}

// Two nodes on a polygon, of which the second has the first both behind it and ahead of it. Merges make no such nodes.
fn twice(alloc: Global, polygon: &Polygon) -> Result<Solid, NoMemory> {
    let own = face_of(alloc, polygon)?;
    let mut forest = Forest::new(alloc);
    let first = forest.add(own.face.copy(alloc)?, Link::End(true), Link::End(false))?;
    let second = forest.add(own.face, Link::To(first), Link::To(first))?;
    Ok(Solid::of_parts(own.planes, forest, Link::To(second)))
}

// The size of a solid, or that it is too big.
fn put_size(alloc: Global, out: &mut Vec<u8>, solid: Option<Solid>) -> Result<(), CaseStop> {
    match solid {
        Some(solid) => put_number(alloc, out, i128::from(solid.count()))?,
        None => put(out, b"too big")?,
    }
    Ok(())
}

// The size that the leaf of some planes has within a limit.
fn put_leaf(alloc: Global, out: &mut Vec<u8>, walls: &Walls, most: i64) -> Result<(), CaseStop> {
    let most = u64::try_from(most).unwrap_or(0);
    put_size(alloc, out, leaf_within(alloc, walls, most)?)
}

// The size that the merge of two solids has within a limit, by a builder of its own.
fn put_joined(
    alloc: Global,
    out: &mut Vec<u8>,
    op: Op,
    solids: &[Solid],
    most: i64,
) -> Result<(), CaseStop> {
    let [.., left, right] = solids else {
        return Err(CaseStop::Unread);
    };
    let mut builder = PlainBuilder::new();
    let most = u64::try_from(most).unwrap_or(0);
    put_size(
        alloc,
        out,
        within(builder.build(alloc, op, left, right, most))?,
    )
}

/// Solids in the order in which they were put.
#[derive(Drop)]
pub struct Solids {
    pub items: Vec<Solid>,
}

impl Solids {
    /// The solid that was put last.
    pub fn last(&self) -> Result<&Solid, CaseStop> {
        self.items.last().ok_or(CaseStop::Unread)
    }

    fn put(&mut self, solid: Solid) -> Result<(), CaseStop> {
        self.items.push(solid)?;
        Ok(())
    }

    // The join of the last two solids, in their place.
    fn join(&mut self, alloc: Global, op: Op) -> Result<(), CaseStop> {
        let [.., left, right] = self.items.as_slice() else {
            return Err(CaseStop::Unread);
        };
        let joined = merge(alloc, op, left, right)?;
        self.items.pop();
        self.items.pop();
        self.put(joined)
    }

    // The second last solid once more.
    fn over(&mut self, alloc: Global) -> Result<(), CaseStop> {
        let [.., left, _] = self.items.as_slice() else {
            return Err(CaseStop::Unread);
        };
        let copied = left.copy(alloc)?;
        self.put(copied)
    }

    // A copy of the last solid behind it.
    fn copy(&mut self, alloc: Global) -> Result<(), CaseStop> {
        let copied = self.last()?.copy(alloc)?;
        self.put(copied)
    }

    // The last solid with inside and outside exchanged, in its place.
    fn exchange(&mut self, alloc: Global) -> Result<(), CaseStop> {
        let exchanged = exchange(alloc, self.last()?)?;
        self.items.pop();
        self.put(exchanged)
    }

    // The parts of the last solid behind a polygon and ahead of it, in its place.
    fn part(&mut self, alloc: Global, by: Option<&Polygon>) -> Result<(), CaseStop> {
        let by = by.ok_or(CaseStop::Unread)?;
        let (behind, ahead) = partition(alloc, self.last()?, by)?;
        self.items.pop();
        self.items.push(behind)?;
        self.put(ahead)
    }

    // The solid that a phrase makes of numbers, of the planes or of the last polygon.
    fn made(
        alloc: Global,
        building: Building,
        numbers: &[i64],
        walls: &Walls,
        by: Option<&Polygon>,
    ) -> Result<Solid, CaseStop> {
        match (building, numbers) {
            (Building::Leaf, []) => leaf(alloc, walls),
            (Building::Half, []) => half_of(alloc, walls),
            (Building::Box, _) => box_of(alloc, numbers),
            (Building::Slabs, [axis, from, count]) => slabs(alloc, *axis, *from, *count),
            (Building::Beyond, [axis, from, count]) => beyond(alloc, *axis, *from, *count),
            (Building::Node, []) => node_on(alloc, by),
            (Building::Twice, []) => twice_on(alloc, by),
            (Building::End, [is_inside]) => Ok(Solid::leaf(alloc, *is_inside == 1)),
            _ => Err(CaseStop::Unread),
        }
    }

    /// What a phrase makes of the solids, the planes and the last polygon, and what it writes.
    pub fn build(
        &mut self,
        alloc: Global,
        out: &mut Vec<u8>,
        building: Building,
        numbers: &[i64],
        walls: &mut Walls,
        by: Option<&Polygon>,
    ) -> Result<(), CaseStop> {
        match (building, numbers) {
            (Building::Over, []) => self.over(alloc),
            (Building::Copy, []) => self.copy(alloc),
            (Building::Exchange, []) => self.exchange(alloc),
            (Building::Part, []) => self.part(alloc, by),
            (Building::Join(op), []) => self.join(alloc, op),
            (Building::Join(op), [most]) => put_joined(alloc, out, op, &self.items, *most),
            (Building::Leaf, [most]) => put_leaf(alloc, out, walls, *most),
            _ => {
                let made = Solids::made(alloc, building, numbers, walls, by)?;
                if let Building::Leaf | Building::Half = building {
                    walls.clear();
                }
                self.put(made)
            }
        }
    }
}
