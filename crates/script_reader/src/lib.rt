//! Scripts: commands of clients, one command on each line.
#![tactic(auto)]

mod clients;
mod cuts;
mod fault_line;
mod laws;
mod reader;
mod script;

pub use cuts::split_at_byte;
pub use fault_line::write_fault;
pub use laws::bytes_are_one_script;
pub use reader::read_script;
pub use script::{ClientScript, ClientScripts, Command, Commands, Script, ScriptFault};
