//! The evaluation of expressions in a scope, with dynamic bindings and with counts of calls, evaluations and turns.
//!
//! Read `Meaning.value_within` first: it defines the value of an expression, or its first fault. `Evaluations.EvaluatesTo`
//! describes the code: it returns that value or that fault, and the definition says what stays unchanged.
#![tactic(auto)]

mod answer;
mod argument;
mod bind;
mod definitions;
mod dynamic;
mod evaluation;
mod evaluator;
mod laws;
mod limits;
mod meter;
mod names;
mod scoped;
mod scoping;
mod source;
mod value;
mod values;

pub(crate) use answer::{apply_builtin, list_value, text_of};
pub(crate) use argument::{argument_value, built_in_for};
pub use evaluation::Evaluation;
pub use evaluator::{arguments, evaluate};
pub use laws::{arguments_are_evaluated_as_matched, enter_what_stands};
pub(crate) use limits::{EVALUATIONS, TURNS};
pub use meter::Meter;
pub(crate) use names::Indexed;
pub use scad_value::with;
pub use scoped::parameters_in;
pub use source::Source;
pub use value::value_of;
pub use values::BoundedValues;
