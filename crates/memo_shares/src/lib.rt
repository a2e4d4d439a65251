//! The weight of a caller's entries in a memo, and whether a journal is one of the sequential memo.
#![tactic(auto)]

mod again;
mod by_weight;
mod verdict;

pub use verdict::{JournalVerdict, check_journal, owned};
