//! The command line, as clap is told it.

ghost use Rattle.std.specs.Prelude.{◌≡◌, IfOk, false};
ghost use Rattle.clap.specs.Words.{app_of, rule_of};
ghost use Rattle.clap.specs.declared.builder.command.Command.TheViews.{out-Command as fields_of};
ghost use Rattle.run_words.specs.Program.{number_option, flag_option, run_command as run_told, demo_command as demo_told, bare_program, program as program_told};

use clap::{Arg, ArgAction, Command};
use std::alloc::{AllocError, Global};

// The option of this name, which has one value.
fn number<'a>(alloc: Global, name: &'a str) -> Arg<'a>
    ensures rule { rule_of result ≡ number_option name.entry.now }
    ensures local { result.global ≡ false }
{
    Arg::new(alloc, name).long(name).action(ArgAction::Set)
}

// The option of this name, which has no value.
fn flag<'a>(alloc: Global, name: &'a str) -> Arg<'a>
    ensures rule { rule_of result ≡ flag_option name.entry.now }
    ensures local { result.global ≡ false }
{
    Arg::new(alloc, name).long(name).action(ArgAction::SetTrue)
}

// `run` and its options, each at most once.
fn run_command<'a>(alloc: Global) -> Result<Command<'a>, AllocError>
    ensures told { IfOk result (λ command. app_of command ≡ run_told) }
    ensures local { IfOk result (λ command. (fields_of command).has_globals ≡ false) }
{
    let workers = number(alloc, "workers");
    let memo = number(alloc, "memo");
    let share = number(alloc, "share");
    let half = flag(alloc, "half");
    let tally = flag(alloc, "tally");
    let command = Command::new(alloc, "run").arg(workers)?;
    let command = command.arg(memo)?;
    let command = command.arg(share)?;
    let command = command.arg(half)?;
    let command = command.arg(tally)?;
    Ok(command)
}

// `demo` and its number of parts.
fn demo_command<'a>(alloc: Global) -> Result<Command<'a>, AllocError>
    ensures told { IfOk result (λ command. app_of command ≡ demo_told) }
    ensures local { IfOk result (λ command. (fields_of command).has_globals ≡ false) }
{
    let parts = Arg::new(alloc, "parts")
        .required(true)
        .action(ArgAction::Set);
    let command = Command::new(alloc, "demo").arg(parts)?;
    Ok(command)
}

// The program before its subcommands: one of them is wanted, and clap's own help and version are off.
fn bare_command<'a>(alloc: Global) -> Command<'a>
    ensures { app_of result ≡ bare_program }
{
    Command::new(alloc, "scadserve")
        .no_binary_name(true)
        .disable_help_flag(true)
        .disable_help_subcommand(true)
        .disable_version_flag(true)
        .subcommand_required(true)
}

/// The program's words, without its name.
pub fn program<'a>(alloc: Global) -> Result<Command<'a>, AllocError>
    ensures { IfOk result (λ command. app_of command ≡ program_told) }
{
    let run = run_command(alloc)?;
    let demo = demo_command(alloc)?;
    let command = bare_command(alloc).subcommand(run)?;
    let command = command.subcommand(demo)?;
    Ok(command)
}
