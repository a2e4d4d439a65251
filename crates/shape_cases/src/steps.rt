//! Steps of a transform, and the images of points.

ghost use Rattle.std.specs.Prelude.{IfOk};
ghost use Rattle.plane_predicate.specs.Space.{point_at};
ghost use Rattle.int_transform.specs.Maps.{HasSafeCoordinates};

use crate::put::put_points;
use crate::safe::{axis, near, quarters, safe};
use case_lines::{CaseStop, found, put};
use int_transform::{Step, StepFault, apply};
use std::alloc::Global;

#[derive(Clone, Copy)]
pub enum Kind {
    Move,
    Turn,
    Mirror,
    Scale,
    Matrix,
}

const KINDS: [(&[u8], Kind); 5] = [
    (b"move", Kind::Move),
    (b"turn", Kind::Turn),
    (b"mirror", Kind::Mirror),
    (b"scale", Kind::Scale),
    (b"matrix", Kind::Matrix),
];

pub fn kind_of(word: &[u8]) -> Option<Kind> {
    found(&KINDS, word)
}

// The step of a matrix, or nothing where it is singular.
fn matrix(numbers: &[i64]) -> Result<Option<Step>, CaseStop> {
    let [a, b, c, d, e, f, g, h, i, j, k, l] = numbers else {
        return Err(CaseStop::Unread);
    };
    let (a, b, c, d) = (near(*a)?, near(*b)?, near(*c)?, safe(*d)?);
    let (e, f, g, h) = (near(*e)?, near(*f)?, near(*g)?, safe(*h)?);
    let (i, j, k, l) = (near(*i)?, near(*j)?, near(*k)?, safe(*l)?);
    Ok(Step::matrix([[a, b, c, d], [e, f, g, h], [i, j, k, l]]))
}

// A step, or nothing where it is singular.
fn step(kind: Kind, numbers: &[i64]) -> Result<Option<Step>, CaseStop> {
    match (kind, numbers) {
        (Kind::Move, [x, y, z]) => Ok(Some(Step::move_by([safe(*x)?, safe(*y)?, safe(*z)?]))),
        (Kind::Turn, [about, turns]) => Ok(Some(Step::quarter(axis(*about)?, quarters(*turns)?))),
        (Kind::Mirror, [along]) => Ok(Some(Step::mirror(axis(*along)?))),
        (Kind::Scale, [x, y, z]) => Ok(Step::scale([safe(*x)?, safe(*y)?, safe(*z)?])),
        (Kind::Matrix, _) => matrix(numbers),
        _ => Err(CaseStop::Unread),
    }
}

/// Adds a step, or writes that it is singular.
pub fn add_step(
    out: &mut Vec<u8>,
    steps: &mut Vec<Step>,
    kind: Kind,
    numbers: &[i64],
) -> Result<(), CaseStop> {
    match step(kind, numbers)? {
        Some(step) => steps.push(step)?,
        None => put(out, b"singular")?,
    }
    Ok(())
}

fn put_moved(
    alloc: Global,
    out: &mut Vec<u8>,
    moved: Result<Vec<[i64; 3]>, StepFault>,
) -> Result<(), CaseStop> {
    match moved {
        Ok(points) => Ok(put_points(alloc, out, &points)?),
        Err(StepFault::TooLarge) => Ok(put(out, b"TooLarge")?),
        Err(StepFault::NoMemory) => Err(CaseStop::NoMemory),
    }
}

// A point whose coordinates are at most 2^53 - 1 in size.
fn safe_point(x: i64, y: i64, z: i64) -> Result<[i64; 3], CaseStop>
    ensures { IfOk result (λ p. HasSafeCoordinates (point_at p)) }
{
    Ok([safe(x)?, safe(y)?, safe(z)?])
}

// The images of two points.
fn put_two(
    alloc: Global,
    out: &mut Vec<u8>,
    steps: &[Step],
    first: [i64; 3],
    second: [i64; 3],
) -> Result<(), CaseStop>
    requires first { HasSafeCoordinates (point_at first) }
    requires second { HasSafeCoordinates (point_at second) }
{
    put_moved(alloc, out, apply(alloc, steps, &[first, second]))
}

/// The images of one point or two.
pub fn put_images(
    alloc: Global,
    out: &mut Vec<u8>,
    steps: &[Step],
    numbers: &[i64],
) -> Result<(), CaseStop> {
    match numbers {
        [x, y, z] => {
            let point = safe_point(*x, *y, *z)?;
            put_moved(alloc, out, apply(alloc, steps, &[point]))
        }
        [x, y, z, u, v, w] => {
            let first = safe_point(*x, *y, *z)?;
            let second = safe_point(*u, *v, *w)?;
            put_two(alloc, out, steps, first, second)
        }
        _ => Err(CaseStop::Unread),
    }
}
