//! The limits that an export may pass, for those who export and those who tell of it.
#![tactic(auto)]

mod passed;

pub use passed::PassedLimit;
