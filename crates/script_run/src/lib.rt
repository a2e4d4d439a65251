//! Serves the clients of a script, each with a session and an exporter of its own.
#![tactic(auto)]

mod client;
mod exporter;
mod script;
mod served;

pub use exporter::Exporter;
pub use script::run_script;
