//! Makes the solids of a store: builders divide its nodes among them, and use the shared memo and what an earlier store knew.
#![tactic(auto)]

mod gate;
mod growth;
mod join_solids;
mod known_store;
mod lane;
mod lanes;
mod node_runs;
mod solid_fit;
mod store_solids;
mod tree_namer;

pub use bsp_boolean::TreeStop as EvalStop;
pub use gate::{Gate, OpenGate};
pub use join_solids::{Builds, JoinNode};
pub use known_store::KnownStore;
pub use solid_fit::SolidFit;
pub use store_solids::solid_of;
pub use tree_namer::ShaNamer;
