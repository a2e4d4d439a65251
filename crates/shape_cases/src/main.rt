//! Answers cases of transforms and shapes, in the form of `case_lines`. A case is a list of phrases, with a comma and a space
//! between two of them. The output of each phrase follows that of the one before, behind a semicolon and a space.
//!
//! - `half` makes a unit two grid steps from there on, and `centred` centres what is made.
//! - `cube X Y Z`, `cylinder HEIGHT LOW HIGH`, `extrude HEIGHT` (of the last flat), `hull POINTS` and `polyhedron` (of the
//!   points and faces before it) make a shape; `square X Y`, `circle RADIUS` and `polygon POINTS` make a flat. Each writes
//!   `made`, or the fault.
//! - `at POINTS` adds points of a polyhedron, and `face NUMBERS` a face of it.
//! - `move X Y Z`, `turn AXIS QUARTERS`, `mirror AXIS`, `scale X Y Z` and `matrix ROWS` add a step of a transform.
//! - `points`, `faces` and `counts` ask for what the last shape has, `corners` for the points of the last flat, and `planes`
//!   for the planes of the shape that the steps have moved. `image POINTS` asks for the images of one point or two.
#![tactic(auto)]

mod making;
mod put;
mod safe;
mod steps;
mod table;

use crate::table::Table;
use case_lines::{CaseStop, answer_cases, follow_all, phrases_of, unfolded};
use std::alloc::Global;
use std::process::ExitCode;

// The answer of phrases about shapes.
fn put_answer(alloc: Global, out: &mut Vec<u8>, case: &[u8]) -> Result<(), CaseStop> {
    let text = unfolded(alloc, case)?;
    let phrases = phrases_of(alloc, &text)?;
    let mut table = Table::new(alloc);
    follow_all(alloc, out, &mut table, &phrases)
}

fn main(rt: HostRuntime) -> ExitCode {
    let alloc = rt.alloc();
    answer_cases(
        &rt,
        |out: &mut Vec<u8>, case: &[u8]| -> Result<(), CaseStop> { put_answer(alloc, out, case) },
    )
}
