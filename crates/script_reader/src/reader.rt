//! Reads a script, in one pass over its bytes.

ghost use Rattle.std.specs.Prelude.{◌≡◌, ◌≤◌, ◌⊎◌, [], length, IfOk, IfErr, MatchResult};
ghost use Rattle.script_reader.specs.declared.script.Script.{Script};
ghost use Rattle.script_reader.specs.declared.script.ScriptFault.{ScriptFault};
ghost use Rattle.script_reader.specs.declared.script.ScriptFault.TheVariants.{NoMemory};
ghost use Rattle.script_reader.specs.Limits.{AreClientsWithin};
ghost use Rattle.script_reader.specs.Scripts.{EndsScript, HasFirstLineFault, IsScript, IsScriptFault};

use crate::clients::{Clients, read_line};
use crate::cuts::first_line;
use crate::script::{ClientScript, ClientScripts, Script, ScriptFault};
use indexmap::IndexSet;
use std::alloc::Global;

// The most bytes of a script.
const SCRIPT_BYTES: usize = 1_048_576;

fn read_lines(alloc: Global, bytes: &[u8]) -> Result<Vec<ClientScript>, ScriptFault>
    requires { length bytes.now ≤ 1048576 }
    ensures found { IfOk result (λ clients.
        EndsScript [] bytes.now (record { clients = clients.items })) }
    ensures within { IfOk result (λ clients. AreClientsWithin clients.items) }
    ensures fault { IfErr result (λ fault. (fault ≡ NoMemory)
        ⊎ HasFirstLineFault [] 0 bytes.now fault) }
{
    let mut clients = Clients {
        numbers: IndexSet::new(alloc),
        scripts: Vec::new(alloc),
    };
    let mut rest = bytes;
    let mut number = 0u32;
    while !rest.is_empty() {
        let (line, more) = first_line(rest);
        read_line(alloc, &mut clients, line, number + 1)?;
        number += 1;
        rest = more;
    }
    Ok(clients.scripts)
}

/// The script that the bytes are. A fault is the first one by line, and within a line by the order of
/// `ScriptFault`. Names are numbered by first appearance.
pub fn read_script(alloc: Global, bytes: &[u8]) -> Result<Script, ScriptFault>
    ensures found { IfOk result (λ script. IsScript bytes.now script) }
    ensures within { IfOk result (λ script. AreClientsWithin script.clients) }
    ensures fault { IfErr result (λ fault. (fault ≡ NoMemory) ⊎ IsScriptFault bytes.now fault) }

    // Nothing else: a script is read and a fault answered, unless memory runs out.
    ensures only_script { (script : Script) → IsScript bytes.now script
        → MatchResult result (λ read. read ≡ script) (λ fault. fault ≡ NoMemory) }
    ensures only_fault { (fault : ScriptFault) → IsScriptFault bytes.now fault
        → MatchResult result (λ _. ⊥) (λ found. (found ≡ NoMemory) ⊎ (found ≡ fault)) }
{
    read_bytes(alloc, bytes)
}

fn read_bytes(alloc: Global, bytes: &[u8]) -> Result<Script, ScriptFault>
    ensures within { IfOk result (λ script. AreClientsWithin script.clients) }
    ensures outcome { MatchResult result (IsScript bytes.now)
        (λ fault. (fault ≡ NoMemory) ⊎ IsScriptFault bytes.now fault) }
{
    if bytes.len() > SCRIPT_BYTES {
        return Err(ScriptFault::TooLarge);
    }
    let clients = ClientScripts::of(read_lines(alloc, bytes)?);
    Ok(Script { clients })
}
