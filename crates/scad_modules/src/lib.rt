//! The built-in modules of the modelling language: their names and parameters, and what the arguments of a call mean.
#![tactic(auto)]

mod arguments;
mod calls;
mod effects;
mod lists;
mod matrix;
mod name;
mod shapes;
mod table;
mod transforms;
mod vectors;

pub(crate) use arguments::{
    bound_argument, found_number, is_centered, is_given, required_argument,
};
pub use calls::effect;
pub use effects::{Chosen, Effect, FlatShape, SolidShape};
pub(crate) use lists::{faces, flat_points, numbers, points};
pub use name::{builtin_module, is_left_out_module};
pub use table::BuiltinModule;
pub(crate) use vectors::{angles, coordinates, factors, number, quadruple, three_sides, two_sides};
