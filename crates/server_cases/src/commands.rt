//! The commands that a script has.

use crate::serving::put_byte;
use case_lines::{CaseStop, put, put_number};
use script_reader::{Command, Script, ScriptFault, read_script};
use std::alloc::Global;

// The number of a line, and a text.
fn put_edit(
    alloc: Global,
    out: &mut Vec<u8>,
    word: &[u8],
    line: u32,
    text: &[u8],
) -> Result<(), CaseStop> {
    put(out, word)?;
    put_number(alloc, out, i128::from(line))?;
    put(out, b" ")?;
    for byte in text {
        put_byte(alloc, out, *byte)?;
    }
    Ok(())
}

fn put_command(alloc: Global, out: &mut Vec<u8>, command: &Command) -> Result<(), CaseStop> {
    match command {
        Command::Put { line, text } => put_edit(alloc, out, b"put ", *line, text.items()),
        Command::Set { line, text } => put_edit(alloc, out, b"set ", *line, text.items()),
        Command::Cut { from, upto } => {
            put_edit(alloc, out, b"cut ", *from, b"")?;
            Ok(put_number(alloc, out, i128::from(*upto))?)
        }
        Command::Show => Ok(put(out, b"show")?),
        Command::Export => Ok(put(out, b"export")?),
        Command::Bad => Ok(put(out, b"bad")?),
    }
}

// Each client's name and commands.
fn put_script(alloc: Global, out: &mut Vec<u8>, script: &Script) -> Result<(), CaseStop> {
    for client in script.clients.items() {
        put(out, client.name.items())?;
        put(out, b":")?;
        for command in client.commands.items() {
            put_command(alloc, out, command)?;
            put(out, b"|")?;
        }
    }
    Ok(())
}

fn put_fault(alloc: Global, out: &mut Vec<u8>, name: &[u8], line: u32) -> Result<(), CaseStop> {
    put(out, name)?;
    put(out, b" ")?;
    put_number(alloc, out, i128::from(line))?;
    Ok(())
}

/// The clients of a script with their commands, or its fault; of a long script only that it has none.
pub fn put_commands(alloc: Global, out: &mut Vec<u8>, bytes: &[u8]) -> Result<(), CaseStop> {
    match read_script(alloc, bytes) {
        Ok(script) if bytes.len() < 1000 => put_script(alloc, out, &script),
        Ok(_) => Ok(put(out, b"a script")?),
        Err(ScriptFault::NoName(line)) => put_fault(alloc, out, b"NoName", line),
        Err(ScriptFault::TooLong(line)) => put_fault(alloc, out, b"TooLong", line),
        Err(ScriptFault::TooManyClients(line)) => put_fault(alloc, out, b"TooManyClients", line),
        Err(ScriptFault::TooManyCommands(line)) => put_fault(alloc, out, b"TooManyCommands", line),
        Err(ScriptFault::TooLarge) => Ok(put(out, b"TooLarge")?),
        Err(ScriptFault::NoMemory) => Err(CaseStop::NoMemory),
    }
}
