//! The words of the command line, and the settings that they choose.
#![tactic(auto)]

mod command;
mod given;
mod settings;

pub use settings::{Settings, WordsFault, read_words};
