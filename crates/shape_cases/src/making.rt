//! Flats and shapes, made by the numbers of a phrase.

use crate::safe::safe;
use case_lines::{CaseStop, found};
use plane_predicate::Unit;
use primitives::{
    Corners, Flat, Shape, ShapeStop, cube_shape, extrude, polygon_flat, polyhedron_shape,
    square_flat,
};
use round_four::{circle_flat, cylinder_shape};
use scad_hull::hull_shape;
use std::alloc::Global;
use text_place::FaultKind;

/// The unit of lengths, and whether what is made is centred.
#[derive(Clone, Copy)]
pub struct DirectedEdge {
    pub unit: Unit,
    pub center: bool,
}

#[derive(Clone, Copy)]
pub enum FlatKind {
    Square,
    Circle,
    Polygon,
}

const FLAT_KINDS: [(&[u8], FlatKind); 3] = [
    (b"square", FlatKind::Square),
    (b"circle", FlatKind::Circle),
    (b"polygon", FlatKind::Polygon),
];

pub fn flat_kind_of(word: &[u8]) -> Option<FlatKind> {
    found(&FLAT_KINDS, word)
}

#[derive(Clone, Copy)]
pub enum ShapeKind {
    Cube,
    Cylinder,
    Extrude,
    Hull,
    Polyhedron,
}

const SHAPE_KINDS: [(&[u8], ShapeKind); 5] = [
    (b"cube", ShapeKind::Cube),
    (b"cylinder", ShapeKind::Cylinder),
    (b"extrude", ShapeKind::Extrude),
    (b"hull", ShapeKind::Hull),
    (b"polyhedron", ShapeKind::Polyhedron),
];

pub fn shape_kind_of(word: &[u8]) -> Option<ShapeKind> {
    found(&SHAPE_KINDS, word)
}

/// What was made, or the kind of its fault.
pub fn made<T: Drop>(outcome: Result<T, ShapeStop>) -> Result<Result<T, FaultKind>, CaseStop> {
    match outcome {
        Ok(thing) => Ok(Ok(thing)),
        Err(ShapeStop::Kind(kind)) => Ok(Err(kind)),
        Err(ShapeStop::NoMemory) => Err(CaseStop::NoMemory),
    }
}

/// The points of numbers, three for each.
pub fn points_of(alloc: Global, numbers: &[i64]) -> Result<Vec<[i64; 3]>, CaseStop> {
    let mut points = Vec::new(alloc);
    let mut rest = numbers;
    for _ in 0..numbers.len() / 3 {
        let [x, y, z, more @ ..] = rest else {
            return Ok(points);
        };
        points.push([*x, *y, *z])?;
        rest = more;
    }
    Ok(points)
}

// The points of numbers, two for each.
fn corners_of(alloc: Global, numbers: &[i64]) -> Result<Vec<[i64; 2]>, CaseStop> {
    let mut points = Vec::new(alloc);
    let mut rest = numbers;
    for _ in 0..numbers.len() / 2 {
        let [x, y, more @ ..] = rest else {
            return Ok(points);
        };
        points.push([*x, *y])?;
        rest = more;
    }
    Ok(points)
}

/// A face with these corners.
pub fn face_of(alloc: Global, numbers: &[i64]) -> Result<Corners, CaseStop> {
    let mut corners = Vec::new(alloc);
    for number in numbers {
        match u32::try_from(*number) {
            Ok(corner) => corners.push(corner)?,
            Err(_) => return Err(CaseStop::Unread),
        }
    }
    Ok(Corners::of(corners))
}

pub fn make_flat(
    alloc: Global,
    way: DirectedEdge,
    kind: FlatKind,
    numbers: &[i64],
) -> Result<Result<Flat, FaultKind>, CaseStop> {
    match (kind, numbers) {
        (FlatKind::Square, [x, y]) => {
            let size = [safe(*x)?, safe(*y)?];
            made(square_flat(alloc, size, way.center, way.unit))
        }
        (FlatKind::Circle, [radius]) => made(circle_flat(alloc, safe(*radius)?, way.unit)),
        (FlatKind::Polygon, _) => {
            let points = corners_of(alloc, numbers)?;
            made(polygon_flat(alloc, &points, way.unit))
        }
        _ => Err(CaseStop::Unread),
    }
}

/// The points and faces of a polyhedron, and the last flat.
#[derive(Drop)]
pub struct Given {
    pub points: Vec<[i64; 3]>,
    pub faces: Vec<Corners>,
    pub flat: Option<Flat>,
}

pub fn make_shape(
    alloc: Global,
    way: DirectedEdge,
    kind: ShapeKind,
    numbers: &[i64],
    given: &Given,
) -> Result<Result<Shape, FaultKind>, CaseStop> {
    match (kind, numbers) {
        (ShapeKind::Cube, [x, y, z]) => {
            let size = [safe(*x)?, safe(*y)?, safe(*z)?];
            made(cube_shape(alloc, size, way.center, way.unit))
        }
        (ShapeKind::Cylinder, [height, low, high]) => {
            let (height, low, high) = (safe(*height)?, safe(*low)?, safe(*high)?);
            made(cylinder_shape(alloc, height, low, high, way.center, way.unit))
        }
        (ShapeKind::Extrude, [height]) => {
            let flat = given.flat.as_ref().ok_or(CaseStop::Unread)?;
            made(extrude(alloc, flat, safe(*height)?, way.center, way.unit))
        }
        (ShapeKind::Hull, _) => made(hull_shape(alloc, &points_of(alloc, numbers)?)),
        (ShapeKind::Polyhedron, []) => {
            made(polyhedron_shape(alloc, &given.points, &given.faces, way.unit))
        }
        _ => Err(CaseStop::Unread),
    }
}
