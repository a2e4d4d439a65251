//! The built-in functions of the modelling language, each from values to a value.
#![tactic(auto)]

mod arguments;
mod best;
mod bound;
mod function;
mod list;
mod name;
mod number;

pub use bound::are_bounded;
pub use function::Builtin;
pub use name::{builtin, is_among, is_left_out_function, named_in};
