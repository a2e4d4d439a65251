//! What the program does around the run of its clients: it reads the script, and writes the results.
//!
//! Its caller supplies the answers to exports and the counts of the memo.
#![tactic(auto)]

mod demo;
mod ending;
mod input;
mod laws;
mod outcome;
mod output;
mod status;

pub use input::{InputEnd, read_input};
pub use laws::one_ending;
pub use outcome::{refuse_input, refuse_words, write_outcome};
pub use output::{OutputEnd, write_output};
pub use status::Status;
