//! Reads the input: the script of the source, or that of the demonstration.

ghost use Rattle.std.specs.Prelude.{◌≡◌, ◌≤◌, IfOk, IfErr};
ghost use Rattle.run_words.specs.Words.{AreSettingsInRange};
ghost use Rattle.big_input.specs.DemoScript.{demo_script};
ghost use Rattle.script_reader.specs.Limits.{AreClientsWithin};
ghost use Rattle.script_reader.specs.Scripts.{IsScript};
ghost use Rattle.script_service.specs.Streams.{stream_change};
ghost use Rattle.script_service.specs.Serving.{IsRun, AreNoScript, GivesScript, LacksScript, IsReadInLimit, HasInputCause};

use big_input::{demo_scripts_have_no_fault, make_script};
use outside_io::{ReadEnd, Source, read_to_end};
use plain_text::NoMemory;
use run_words::Settings;
use script_reader::{Script, ScriptFault, read_script};
use std::alloc::Global;

// The most bytes of a script.
const SCRIPT_BYTES: usize = 1_048_576;

/// Why there is no script to serve.
#[derive(Clone, Copy, PartialEq, Eq)]
pub enum InputEnd {
    /// The bytes that were read are no script.
    BadScript(ScriptFault),
    /// The source failed.
    Failed,
    /// Memory ran out.
    NoMemory,
}

impl From<NoMemory> for InputEnd {
    ghost use Rattle.script_service.specs.declared.input.InputEnd.TheVariants.{NoMemory};

    ghost from_gives = { λ _ end. end ≡ NoMemory };

    fn from(_refused: NoMemory) -> InputEnd {
        InputEnd::NoMemory
    }
}

// Reads bytes as a script.
fn parse(alloc: Global, bytes: &[u8]) -> Result<Script, InputEnd>
    ensures script { IfOk result (IsScript bytes.now) }
    ensures within { IfOk result (λ script. AreClientsWithin script.clients) }
    ensures lacks { IfErr result (AreNoScript bytes.now) }
{
    match read_script(alloc, bytes) {
        Ok(script) => Ok(script),
        Err(ScriptFault::NoMemory) => Err(InputEnd::NoMemory),
        Err(fault) => Err(InputEnd::BadScript(fault)),
    }
}

// Reads the script of the source.
fn read_run<S: Source>(
    alloc: Global,
    settings: Settings,
    source: &mut S,
) -> Result<Script, InputEnd>
    requires { IsRun settings }
    ensures script { IfOk result (GivesScript settings
        (stream_change S.left S.faults source.old source.new)) }
    ensures within { IfOk result (λ script. AreClientsWithin script.clients) }
    ensures lacks { IfErr result (LacksScript settings
        (stream_change S.left S.faults source.old source.new)) }
    ensures cause { HasInputCause (S.faults source.old) (S.faults source.new) result }
    ensures limit { IsReadInLimit (stream_change S.left S.faults source.old source.new) }
{
    match read_to_end(alloc, source, SCRIPT_BYTES) {
        Ok(bytes) => parse(alloc, bytes.as_slice()),
        Err(ReadEnd::TooLarge) => Err(InputEnd::BadScript(ScriptFault::TooLarge)),
        Err(ReadEnd::Failed) => Err(InputEnd::Failed),
        Err(ReadEnd::NoMemory) => Err(InputEnd::NoMemory),
    }
}

// Makes the script of the demonstration, which has no fault.
fn make_demo(alloc: Global, parts: u64) -> Result<Script, NoMemory>
    requires { (1 ≤ parts) × (parts ≤ 200) }
    ensures script { IfOk result (IsScript (demo_script parts)) }
    ensures within { IfOk result (λ script. AreClientsWithin script.clients) }
{
    // Called for its law; does nothing when it runs: the script of a demonstration has no fault.
    demo_scripts_have_no_fault();
    let bytes = make_script(alloc, parts as u32)?;
    match read_script(alloc, bytes.as_slice()) {
        Ok(script) => Ok(script),
        Err(fault) => {
            // The script has no fault, so memory ran out.
            prove!(fault == ScriptFault::NoMemory);
            Err(NoMemory)
        }
    }
}

/// Reads what the settings have the program serve: the script of the source, or that of the demonstration, for which
/// nothing is read.
pub fn read_input<S: Source>(
    alloc: Global,
    settings: Settings,
    source: &mut S,
) -> Result<Script, InputEnd>
    requires { AreSettingsInRange settings }
    ensures script { IfOk result (GivesScript settings
        (stream_change S.left S.faults source.old source.new)) }
    ensures within { IfOk result (λ script. AreClientsWithin script.clients) }
    ensures lacks { IfErr result (LacksScript settings
        (stream_change S.left S.faults source.old source.new)) }
    ensures cause { HasInputCause (S.faults source.old) (S.faults source.new) result }
    ensures limit { IsReadInLimit (stream_change S.left S.faults source.old source.new) }
    ensures unread { (IsRun settings → ⊥) → source.new ≡ source.old }
{
    match settings {
        Settings::Run { .. } => read_run(alloc, settings, source),
        Settings::Demo(parts) => Ok(make_demo(alloc, parts)?),
    }
}
