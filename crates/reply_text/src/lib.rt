//! Replies to commands, and their text.
#![tactic(auto)]

mod exporting;
mod laws;
mod reply;
mod text;

pub use export_limits::PassedLimit;
pub use exporting::Exporting;
pub use laws::{one_output, own_replies};
pub use reply::{Replies, Reply};
pub use text::{push_reply, push_words};
