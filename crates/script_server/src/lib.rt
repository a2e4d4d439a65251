//! The server: it reads one script, writes the replies of its clients, and defines the answer to each export.
#![tactic(auto)]

mod export;
mod exporter;
mod kept_export;
mod meaning;
mod program;
mod running;
mod server;
mod under_way;

pub use meaning::{
    one_meaning, one_output, one_reply, own_replies, solids_pass_no_limit, some_meaning,
    some_reply, texts_of_sources_are_watertight, the_rule_gives_the_meaning,
};
pub use program::{run_program, serve_streams, serve_to_exit};
pub use run_words::{Settings, WordsFault, read_words};
pub use running::{RunResult, printed_weights, run_gated, run_named, run_script};
pub use script_service::Status;
pub use server::serve;
