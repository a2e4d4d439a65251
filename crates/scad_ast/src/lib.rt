//! The syntax tree of the modelling language, with the place of each form, name, operator and sign.
//!
//! There is one variant for each form. Each has the place of its first token. Each name, each operator, and each `?`, `.` and
//! `[` of an index has a place of its own.
#![tactic(auto)]

mod expression;
mod operator;
mod program;
mod statement;

pub use expression::{
    Arg, Args, Call, Chain, Choice, Expr, Exprs, Link, Links, Postfix, Range, SteppedRange, Suffix,
    Suffixes,
};
pub use operator::{BinaryOp, Modifier, UnaryOp};
pub use program::Program;
pub use statement::{
    Binder, Binders, Body, Core, Instance, Param, Params, PlacedModifier, PlacedModifiers,
    Statement, Statements,
};
