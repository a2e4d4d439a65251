//! The line that tells a script's fault.

ghost use Rattle.std.specs.Prelude.{◌≡◌, ◌++◌, IfOk, OnOk};
ghost use Rattle.script_reader.specs.FaultLines.{script_fault_word, script_fault_number, script_fault_line};

use crate::script::ScriptFault;
use plain_text::{NoMemory, push_decimal};
use std::alloc::Global;

fn word_of(fault: ScriptFault) -> &'static [u8]
    ensures { result.now ≡ script_fault_word fault }
{
    match fault {
        ScriptFault::TooLarge => b"TooLarge",
        ScriptFault::TooLong(_) => b"TooLong",
        ScriptFault::NoName(_) => b"NoName",
        ScriptFault::TooManyClients(_) => b"TooManyClients",
        ScriptFault::TooManyCommands(_) => b"TooManyCommands",
        ScriptFault::NoMemory => b"NoMemory",
    }
}

fn push_number(alloc: Global, out: &mut Vec<u8>, fault: ScriptFault) -> Result<(), NoMemory>
    ensures { OnOk result (out.new.items ≡ out.old.items ++ script_fault_number fault) }
{
    match fault {
        ScriptFault::TooLong(line)
        | ScriptFault::NoName(line)
        | ScriptFault::TooManyClients(line)
        | ScriptFault::TooManyCommands(line) => {
            push_decimal(alloc, out, i128::from(line))?;
            out.push(b' ')?;
            Ok(())
        }
        ScriptFault::TooLarge | ScriptFault::NoMemory => Ok(()),
    }
}

/// The line that tells a fault, with its newline: `script`, the number of the line that has it, where it is a
/// line's, and the fault's name.
pub fn write_fault(alloc: Global, fault: ScriptFault) -> Result<Vec<u8>, NoMemory>
    ensures { IfOk result (λ line. line.items ≡ script_fault_line fault) }
{
    let mut line = Vec::from_slice(alloc, b"script ")?;
    push_number(alloc, &mut line, fault)?;
    line.extend_from_slice(word_of(fault))?;
    line.push(b'\n')?;
    Ok(line)
}
