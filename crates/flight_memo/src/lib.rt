//! Claims on the missing keys of a memo: a missing key has one live claim, and every other caller that asks for the key waits.
//!
//! The caller that misses a key claims it. Each claim ends in a call of its holder, and all claims have ended once the memo is
//! closed.
#![tactic(auto)]

mod claim;
mod claims;
mod desk;
mod flight;
mod flight_share;
mod ledgers;

pub use claim::Claim;
pub use claims::{Claims, LogItem};
pub use flight::{Claimed, Flight};
pub use flight_share::FlightShare;
pub use ledgers::{FlightBlanks, FlightBooks, FlightLedgers, ThreadBooks};
