//! Scopes: which variable, function or module a name stands for, and the dynamic bindings of special names.
#![tactic(auto)]

mod fault;
mod local;
mod scopes;
mod table;
mod variables;

pub use scad_definitions::{
    ArgumentsSoFar, Assignment, BlockText, Blocks, CallArguments, Function, Matching, Module,
    Names, SpecialArgument, arguments, parameter_name, positional_after,
};
pub use scopes::Scopes;
pub use table::{Found, ModuleActivation};
