//! What the phrases of a case make, and what they write.

use crate::making::{
    DirectedEdge, Given, face_of, flat_kind_of, made, make_flat, make_shape, points_of,
    shape_kind_of,
};
use crate::put::{put_corners, put_counts, put_faces, put_points};
use crate::steps::{add_step, kind_of, put_images};
use case_lines::{CaseStop, Interpreter, Phrase, found, put, put_planes};
use int_transform::Step;
use plane_predicate::Unit;
use primitives::{Shape, place};
use std::alloc::Global;
use text_place::{FaultKind, word};

/// What was made up to a phrase.
#[derive(Drop)]
pub struct Table {
    way: DirectedEdge,
    steps: Vec<Step>,
    given: Given,
    shape: Option<Shape>,
}

#[derive(Clone, Copy)]
enum Asking {
    Points,
    Faces,
    Counts,
    Planes,
}

const ASKINGS: [(&[u8], Asking); 4] = [
    (b"points", Asking::Points),
    (b"faces", Asking::Faces),
    (b"counts", Asking::Counts),
    (b"planes", Asking::Planes),
];

#[derive(Clone, Copy)]
enum Other {
    Half,
    Centred,
    At,
    Face,
    Corners,
    Image,
}

const OTHERS: [(&[u8], Other); 6] = [
    (b"half", Other::Half),
    (b"centred", Other::Centred),
    (b"at", Other::At),
    (b"face", Other::Face),
    (b"corners", Other::Corners),
    (b"image", Other::Image),
];

// What was made, where it was, and in words.
fn kept<T: Drop>(out: &mut Vec<u8>, outcome: Result<T, FaultKind>) -> Result<Option<T>, CaseStop> {
    match outcome {
        Ok(thing) => {
            put(out, b"made")?;
            Ok(Some(thing))
        }
        Err(kind) => {
            put(out, word(kind).as_bytes())?;
            Ok(None)
        }
    }
}

// What is asked of a shape.
fn put_asked(
    alloc: Global,
    out: &mut Vec<u8>,
    asking: Asking,
    shape: &Shape,
    steps: &[Step],
) -> Result<(), CaseStop> {
    match asking {
        Asking::Points => put_points(alloc, out, shape.points())?,
        Asking::Faces => put_faces(alloc, out, shape.faces())?,
        Asking::Counts => put_counts(alloc, out, shape)?,
        Asking::Planes => match made(place(alloc, shape, steps))? {
            Ok(planes) => put_planes(alloc, out, &planes)?,
            Err(kind) => put(out, word(kind).as_bytes())?,
        },
    }
    Ok(())
}

impl Table {
    pub fn new(alloc: Global) -> Table {
        Table {
            way: DirectedEdge {
                unit: Unit::Whole,
                center: false,
            },
            steps: Vec::new(alloc),
            given: Given {
                points: Vec::new(alloc),
                faces: Vec::new(alloc),
                flat: None,
            },
            shape: None,
        }
    }

    fn do_other(
        &mut self,
        alloc: Global,
        out: &mut Vec<u8>,
        other: Other,
        numbers: &[i64],
    ) -> Result<(), CaseStop> {
        match other {
            Other::Half => self.way.unit = Unit::Half,
            Other::Centred => self.way.center = true,
            Other::At => self.given.points = points_of(alloc, numbers)?,
            Other::Face => self.given.faces.push(face_of(alloc, numbers)?)?,
            Other::Corners => {
                let flat = self.given.flat.as_ref().ok_or(CaseStop::Unread)?;
                put_corners(alloc, out, flat.points())?;
            }
            Other::Image => put_images(alloc, out, &self.steps, numbers)?,
        }
        Ok(())
    }
}

impl Interpreter for Table {
    fn follow(
        &mut self,
        alloc: Global,
        out: &mut Vec<u8>,
        phrase: &Phrase,
    ) -> Result<(), CaseStop> {
        let (name, numbers) = (phrase.word.as_slice(), phrase.numbers.as_slice());
        if let Some(kind) = flat_kind_of(name) {
            let flat = make_flat(alloc, self.way, kind, numbers)?;
            self.given.flat = kept(out, flat)?;
            Ok(())
        } else if let Some(kind) = shape_kind_of(name) {
            let shape = make_shape(alloc, self.way, kind, numbers, &self.given)?;
            self.shape = kept(out, shape)?;
            Ok(())
        } else if let Some(kind) = kind_of(name) {
            add_step(out, &mut self.steps, kind, numbers)
        } else if let Some(asking) = found(&ASKINGS, name) {
            let shape = self.shape.as_ref().ok_or(CaseStop::Unread)?;
            put_asked(alloc, out, asking, shape, &self.steps)
        } else {
            let other = found(&OTHERS, name).ok_or(CaseStop::Unread)?;
            self.do_other(alloc, out, other, numbers)
        }
    }
}
