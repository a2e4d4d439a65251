//! The parser of expressions: tokens as the parser sees them, and the expression with which they begin, or the fault.
#![tactic(auto)]

mod class;
mod expression;
mod next;

pub(crate) use class::Level;
pub use class::TokenClass;
pub use expression::{arguments, behind, expr};
pub use next::{
    Parsed, Stopped, assigned, behind_comma, boxed, bytes, closed, is_comma_and_name, list_of,
    modifier, not_expected, take, too_deep, with,
};
pub(crate) use next::{
    binary_operator, is_before, is_comma_before, lone_atom, take_first, unary_operator,
};
