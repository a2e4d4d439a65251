//! The sequential memo: its entries, the most recent first, and a journal of the answer to each call.
//!
//! Contracts see the memo as a list that is searched from its front; a cache of names implements it.
#![tactic(auto)]

mod dropped;
mod fit;
mod journal;
mod memo;
mod owners;
mod plan;
mod slots;

pub use dropped::DroppedEntries;
pub use fit::{Fit, NAME_BYTES, Name, Namer};
pub use journal::{Did, JournalItem, counts_one_more};
pub use memo::{Fill, MemoCore, Probe};
