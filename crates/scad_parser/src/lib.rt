//! The parser of programs: exactly the program that tokens or a source write, or their first fault with its place.
#![tactic(auto)]

mod assignments;
mod functions;
mod instances;
mod loop_variables;
mod parameters;
mod program;
mod source;
mod statement;

pub(crate) use assignments::{assignment, special_assignment};
pub(crate) use functions::function;
pub(crate) use instances::{condition, instance_from, modifiers};
pub(crate) use loop_variables::binders;
pub(crate) use parameters::params;
pub use program::{an_only_end_is_last, parse};
pub use source::{with_parsed, with_program};
