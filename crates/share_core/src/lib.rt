//! A state machine of clients that share one memo, without threads: every interleaving of their events.
//!
//! Each client's replies are those that its own commands define.
#![tactic(auto)]

mod acts;
mod event;
mod kept_nodes;
mod parts;
mod work;
mod world;

pub use event::{Act, Event, Stepped};
pub use work::Work;
pub use world::{World, clients_are_isolated, run};
