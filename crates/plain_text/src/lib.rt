//! Plain text: lists of bytes and lines, numbers in decimal digits, places by line and column, and the error that memory ran out.
#![tactic(auto)]

mod compact;
mod decimal;
mod lists;
mod memory;
mod numeral;
mod place;

pub use compact::CompactBytes;
pub use decimal::{one_numeral, push_decimal, read_decimal};
pub use lists::{Bytes, Lines};
pub use memory::NoMemory;
pub use numeral::{Numeral, TOO_LARGE};
pub use place::Place;
