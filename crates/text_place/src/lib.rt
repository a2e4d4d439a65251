//! The words for what is wrong with a source, and where; text and its places are handed on from below.
#![tactic(auto)]

mod fault;

pub use fault::{Fault, FaultKind, Stop, word};
pub use plain_text::{
    Bytes, CompactBytes, Lines, NoMemory, Numeral, Place, TOO_LARGE, one_numeral, push_decimal,
    read_decimal,
};
