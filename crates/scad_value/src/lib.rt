//! The values of the modelling language, its operators, and the results of operators, with the place of a fault.
#![tactic(auto)]

mod arithmetic;
mod bounded_value;
mod compare;
mod held;
mod limits;
mod members;
mod operator;
mod operators;
mod ranges;
mod stop;
mod texts;
mod value;

pub use arithmetic::{number_or_too_large, product_of_two};
pub use bounded_value::BoundedValue;
pub use held::{value_alone, with, with_next};
pub use members::member_of;
pub use operator::{binary, index, unary, value_or_long_list};
pub use operators::{answer_placed, binary_value, is_true, unary_value, wants_right};
pub use ranges::{range_value, stepped_range_value};
pub use stop::ValueStop;
pub use texts::text_value;
pub use value::{Value, Values, truth};
