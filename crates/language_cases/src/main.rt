//! Answers cases of the language, in the form of `case_lines`. A case is a question and a source.
//!
//! - `tokens SOURCE` asks for the tokens, `program SOURCE` for the program with the column of each part, and `reads SOURCE` for
//!   whether it is a program; each asks for the first fault otherwise.
//! - `value SOURCE` asks for the value of the first assignment, where `later` is 7, or its first fault. Columns of the fault
//!   are counted from the one behind `x = `. `turns N SOURCE` asks for the same where N turns were counted before.
//! - `tree SOURCE` asks for the tree that the source means in whole units, `half SOURCE` for that in half units, or for the
//!   first fault.
//! - `places SOURCE` asks for the column of each statement, and for an `if` with an `else` also for the columns of the
//!   instance, its core and its two bodies. `behind SOURCE MORE` asks whether the tokens of SOURCE with those of MORE behind
//!   their end are a program; SOURCE has no blank.
#![tactic(auto)]

mod case;
mod places;
mod program;
mod text;
mod tokens;
mod tree;
mod value;

use crate::case::put_case;
use case_lines::{CaseStop, answer_cases};
use std::process::ExitCode;

fn main(rt: HostRuntime) -> ExitCode {
    let alloc = rt.alloc();
    answer_cases(
        &rt,
        |out: &mut Vec<u8>, case: &[u8]| -> Result<(), CaseStop> {
            put_case(alloc, out, case)?;
            Ok(())
        },
    )
}
