//! The program: it passes its words, standard input and standard output to the server.
#![tactic(auto)]

use script_server::run_program;
use std::process::ExitCode;

fn main(rt: HostRuntime) -> ExitCode {
    run_program(&rt, &rt)
}
