//! The evaluator of programs: the tree that a program means, or its first fault.
//!
//! It promises `IsMeaning` of `scad_meaning`. `Keeping.EvaluatesKeeping` describes each step: the equation of the meaning that
//! the step meets, and what the step leaves unchanged.
#![tactic(auto)]

mod assigning;
mod built_in;
mod called_children;
mod calls;
mod entering;
mod evaluator;
mod instances;
mod leaves;
mod loops;
mod open_variable;
mod program;
mod scopes;

pub use program::evaluate;
