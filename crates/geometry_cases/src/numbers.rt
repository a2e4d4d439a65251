//! Questions about planes that are given by their numbers.

use crate::put::{put_point, put_side};
use case_lines::{CaseStop, put, put_numbers, put_plane, through};
use plain_text::NoMemory;
use plane_predicate::{Plane, Point, Side, meet, opposite, plane_of, point_side, reduce, side};
use std::alloc::Global;

// The greatest size of a direction, and of an offset.
const MOST: u64 = 134_152_200;

const MOST_OFFSET: u64 = 1_648_059_777_000;

// The plane of four numbers that have no common factor.
fn plane(a: i64, b: i64, c: i64, d: i64) -> Result<Plane, CaseStop> {
    let is_small = a.unsigned_abs() <= MOST
        && b.unsigned_abs() <= MOST
        && c.unsigned_abs() <= MOST
        && d.unsigned_abs() <= MOST_OFFSET;
    if is_small {
        plane_of(a, b, c, d).ok_or(CaseStop::Unread)
    } else {
        Err(CaseStop::Unread)
    }
}

/// The planes of numbers, four for each.
pub fn planes_of(alloc: Global, numbers: &[i64]) -> Result<Vec<Plane>, CaseStop> {
    let mut planes = Vec::new(alloc);
    let mut rest = numbers;
    for _ in 0..numbers.len() / 4 {
        let [a, b, c, d, more @ ..] = rest else {
            return Ok(planes);
        };
        planes.push(plane(*a, *b, *c, *d)?)?;
        rest = more;
    }
    Ok(planes)
}

/// The plane through three points, unless they are on one line.
pub fn put_through(alloc: Global, out: &mut Vec<u8>, numbers: &[i64]) -> Result<(), CaseStop> {
    let [a, b, c, d, e, f, g, h, i] = numbers else {
        return Err(CaseStop::Unread);
    };
    match through([*a, *b, *c], [*d, *e, *f], [*g, *h, *i]) {
        Some(plane) => put_plane(alloc, out, &plane)?,
        None => put(out, b"none")?,
    }
    Ok(())
}

// The point on three planes, as it is found and in lowest terms.
fn put_point_on(
    alloc: Global,
    out: &mut Vec<u8>,
    p: &Plane,
    q: &Plane,
    r: &Plane,
) -> Result<(), NoMemory> {
    match meet(p, q, r) {
        Some(point) => {
            put_point(alloc, out, &point)?;
            put(out, b" least ")?;
            put_point(alloc, out, &reduce(&point))
        }
        None => put(out, b"none"),
    }
}

/// The same of three planes by their numbers.
pub fn put_meeting(alloc: Global, out: &mut Vec<u8>, numbers: &[i64]) -> Result<(), CaseStop> {
    let planes = planes_of(alloc, numbers)?;
    match planes.as_slice() {
        [p, q, r] => Ok(put_point_on(alloc, out, p, q, r)?),
        _ => Err(CaseStop::Unread),
    }
}

// The side of the fourth plane on which the first three meet, where they do.
fn side_of_meeting(p: &Plane, q: &Plane, r: &Plane, s: &Plane) -> Option<Side> {
    match meet(p, q, r) {
        None => None,
        Some(_) => Some(side(p, q, r, s)),
    }
}

// The same, written.
fn put_side_of(
    out: &mut Vec<u8>,
    p: &Plane,
    q: &Plane,
    r: &Plane,
    s: &Plane,
) -> Result<(), CaseStop> {
    put_side(out, side_of_meeting(p, q, r, s).ok_or(CaseStop::Unread)?)?;
    Ok(put(out, b" ")?)
}

// The side of the last plane on which the first three meet; then that with the first two exchanged, with the first one
// turned, and with the turned one last.
fn put_turned(
    out: &mut Vec<u8>,
    p: &Plane,
    q: &Plane,
    r: &Plane,
    s: &Plane,
) -> Result<(), CaseStop> {
    let turned = opposite(p);
    put_side_of(out, p, q, r, s)?;
    put_side_of(out, q, p, r, s)?;
    put_side_of(out, &turned, q, r, s)?;
    put_side_of(out, q, r, &turned, s)
}

/// The same of four planes by their numbers.
pub fn put_sides(alloc: Global, out: &mut Vec<u8>, numbers: &[i64]) -> Result<(), CaseStop> {
    let planes = planes_of(alloc, numbers)?;
    match planes.as_slice() {
        [p, q, r, s] => put_turned(out, p, q, r, s),
        _ => Err(CaseStop::Unread),
    }
}

/// The side of a plane, and that of its opposite, on which a point lies.
pub fn put_point_side(out: &mut Vec<u8>, numbers: &[i64]) -> Result<(), CaseStop> {
    let [a, b, c, d, x, y, z, w] = numbers else {
        return Err(CaseStop::Unread);
    };
    let plane = plane(*a, *b, *c, *d)?;
    let point = point(*x, *y, *z, *w)?;
    put_side(out, point_side(&plane, &point))?;
    put(out, b" opposite ")?;
    put_side(out, point_side(&opposite(&plane), &point))?;
    Ok(())
}

/// The point (x / w, y / w, z / w).
pub fn point(x: i64, y: i64, z: i64, w: i64) -> Result<Point, CaseStop> {
    let is_small = x.unsigned_abs() <= 9999 && y.unsigned_abs() <= 9999 && z.unsigned_abs() <= 9999;
    if !is_small || w < 1 || w > 9999 {
        return Err(CaseStop::Unread);
    }
    Ok(Point {
        x: i128::from(x),
        y: i128::from(y),
        z: i128::from(z),
        w: i128::from(w),
    })
}

// A number, turned round where a bit of `signs` says so.
fn turned(number: i64, signs: u32, bit: u32) -> i64 {
    if signs & bit == 0 {
        number
    } else {
        number.saturating_neg()
    }
}

// A plane, where bits of `signs` turn its numbers round.
fn signed(p: &Plane, signs: u32) -> Result<Plane, CaseStop> {
    plane(
        turned(p.a, signs, 1),
        turned(p.b, signs, 2),
        turned(p.c, signs, 4),
        turned(p.d, signs, 8),
    )
}

// How often something lay behind a plane, on it and ahead of it.
#[derive(Clone, Copy)]
struct Counts {
    behind: u32,
    on: u32,
    ahead: u32,
}

impl Counts {
    fn add(&mut self, side: Side) {
        match side {
            Side::Behind => self.behind = self.behind.saturating_add(1),
            Side::On => self.on = self.on.saturating_add(1),
            Side::Ahead => self.ahead = self.ahead.saturating_add(1),
        }
    }
}

// Counts the sides on which a plane meets the others with all their signs.
fn count_sides(
    counts: &mut Counts,
    p: &Plane,
    q: &Plane,
    r: &Plane,
    s: &Plane,
) -> Result<(), CaseStop> {
    for second in 0..16 {
        let q = signed(q, second)?;
        for third in 0..16 {
            let r = signed(r, third)?;
            counts.add(side_of_meeting(p, &q, &r, s).ok_or(CaseStop::Unread)?);
        }
    }
    Ok(())
}

// How often the first three planes, with all signs of their numbers, meet behind the last one, on it and ahead of it.
fn counted(p: &Plane, q: &Plane, r: &Plane, s: &Plane) -> Result<Counts, CaseStop> {
    let mut counts = Counts {
        behind: 0,
        on: 0,
        ahead: 0,
    };
    for first in 0..16 {
        count_sides(&mut counts, &signed(p, first)?, q, r, s)?;
    }
    Ok(counts)
}

/// The same of four planes by their numbers.
pub fn put_signs(alloc: Global, out: &mut Vec<u8>, numbers: &[i64]) -> Result<(), CaseStop> {
    let planes = planes_of(alloc, numbers)?;
    let [p, q, r, s] = planes.as_slice() else {
        return Err(CaseStop::Unread);
    };
    let counts = counted(p, q, r, s)?;
    let found = [
        i128::from(counts.behind),
        i128::from(counts.on),
        i128::from(counts.ahead),
    ];
    Ok(put_numbers(alloc, out, &found)?)
}
