//! Sessions: the source of one client, line by line.
#![tactic(auto)]

mod fault;
mod session;

pub use fault::{Asked, SessionFault};
pub use session::Session;
