//! Answers cases of planes, polygons and solids, in the form of `case_lines`. A plane is written as its four numbers a, b, c
//! and d; a point x, y, z and w stands for (x / w, y / w, z / w).
//!
//! - `through P Q R` asks for the plane through three points with three coordinates each; `meet P Q R` for the point on three
//!   planes, also in lowest terms; `side P Q R S` for the side of the plane S on which that point lies, in four orders of the
//!   first three; `point P Q` for the side of the plane P, and of its opposite, on which the point Q lies.
//! - `signs P Q R S` asks how often the first three planes, with all signs of their numbers, meet behind S, on it and ahead.
//! - `join N PLANES` asks for the list in which the first N planes are joined with the others, and for their numbers there.
//! - `edges NUMBERS` asks for a list of edges with these numbers, and a copy of it.
//! - `build PHRASES` puts planes, polygons and solids together, and asks for what they are. Each phrase works on what was added
//!   last.
//!
//! Planes: `low AXIS AT` and `high AXIS AT` are square to an axis, and face smaller and greater coordinates; `through P Q R`;
//! `steps AXIS N` stands for `high AXIS N`, and so on down to `high AXIS 1`. `face` asks for the face of the last plane in the
//! world box, `table` for that of the second last plane over the planes that both their faces name, `used` for the planes that
//! this face names itself, `lies N` for how it lies against the plane of a number, and `alike M N` for how the planes of two
//! numbers lie.
//!
//! Polygons: `polygon` of the last plane in the world box, `again`, `drop`, `cut` into the parts behind and ahead of the last
//! plane, `trim` to the part behind it, `facet` adds it to the facets, and `facet N` adds it N times. `squares N` adds squares
//! on z = 0, as `put_squares` says. `class`, `edges` and `corners` ask.
//!
//! Solids: `half` of the last plane, `leaf` of all planes, `box LOW HIGH`, `slabs AXIS FROM N` (the union of N slabs of an axis
//! that are one step thick, with a step between two of them), `beyond AXIS FROM N` (beyond N planes of an axis, one step
//! apart), `node` (one node on the last polygon), `twice` (a second node on it, which has the first on both sides), `end 1`
//! (all) and `end 0` (nothing), `over` (the second last one again), `copy`, `exchange`, `part` (both parts by the last
//! polygon), and `+`, `*` and `-` of the last two. `leaf MOST`, `+ MOST`, `* MOST` and `- MOST` ask for the size within a
//! limit. `size`, `nodes` and `holds POINT` ask.
//!
//! Facets: `facets MOST` asks how many the last solid has, and keeps them. `planes`, `around AT` (the corners of one), `text`,
//! `text 2` (in half units) and `text UNIT N` (its first N bytes) ask for what is kept; a stroke `|` stands for each newline of
//! a text.
#![tactic(auto)]

mod asking;
mod build;
mod faces;
mod numbers;
mod polygons;
mod put;
mod questions;
mod solids;
mod tables;

use crate::build::Bench;
use crate::questions::put_about;
use case_lines::{CaseStop, answer_cases, cut, phrases_of, put_next, unfolded};
use std::alloc::Global;
use std::process::ExitCode;

// The answers of phrases that build.
fn put_built(alloc: Global, out: &mut Vec<u8>, text: &[u8]) -> Result<(), CaseStop> {
    let mut bench = Bench::new(alloc);
    let from = out.len();
    for phrase in &phrases_of(alloc, text)? {
        let mut told = Vec::new(alloc);
        bench.follow(alloc, &mut told, phrase)?;
        put_next(out, from, &told)?;
    }
    Ok(())
}

// The answer of a question about numbers, or of phrases that build.
fn put_answer(alloc: Global, out: &mut Vec<u8>, case: &[u8]) -> Result<(), CaseStop> {
    let text = unfolded(alloc, case)?;
    let (asked, rest) = cut(&text);
    if asked == b"build".as_slice() {
        put_built(alloc, out, rest)
    } else {
        let phrases = phrases_of(alloc, &text)?;
        put_about(alloc, out, phrases.first().ok_or(CaseStop::Unread)?)
    }
}

fn main(rt: HostRuntime) -> ExitCode {
    let alloc = rt.alloc();
    answer_cases(
        &rt,
        |out: &mut Vec<u8>, case: &[u8]| -> Result<(), CaseStop> { put_answer(alloc, out, case) },
    )
}
