//! The call that does all that the program does.

ghost use Rattle.std.specs.Prelude.{◌≡◌, ◌≢◌, ◌≤◌, ◌⊎◌, length, map, string_bytes, IfSome, IfOk};
ghost use Rattle.outside_io.specs.Counts.{CountRose};
ghost use Rattle.csg_tree.specs.TreeKeys.{name_of};
ghost use Rattle.run_words.specs.declared.settings.Settings.{Settings};
ghost use Rattle.run_words.specs.Words.{Chooses, AreSettingsInRange};
ghost use Rattle.script_reader.specs.Limits.{AreClientsWithin};
ghost use Rattle.script_service.specs.declared.status.Status.TheVariants as Status;
ghost use Rattle.script_service.specs.Streams.{stream_change, stream_changes};
ghost use Rattle.script_service.specs.Units.{unit_of, memo_of, share_of};
ghost use Rattle.script_server.specs.Books.{IsRunOf};
ghost use Rattle.script_service.specs.Outcomes.{HasStatusCause};
ghost use Rattle.script_server.specs.Serving.{StatusTells, HaveStatusCauses, WritesOutput, AskForRun, ReadsAsAsked, IsSomeScript, IsNoScript};

use crate::running::{RunResult, printed_weights, run_script};
use outside_io::{Sink, Source};
use parallel_eval::ShaNamer;
use plane_predicate::Unit;
use run_words::{Settings, read_words};
use script_reader::{ClientScript, Script, bytes_are_one_script};
use script_service::{Status, read_input, refuse_input, refuse_words, write_outcome};
use std::alloc::Global;
use std::sync::Wait;
use std::thread::Threads;
use text_place::NoMemory;

// Runs the clients of a script as the settings say: those of the demonstration by the defaults.
fn run_clients<R: Threads + Wait + Sync>(
    rt: &R,
    alloc: Global,
    settings: Settings,
    script: &Script,
) -> Result<RunResult<ShaNamer>, NoMemory>
    requires within { AreClientsWithin script.now.clients }
    requires range { AreSettingsInRange settings }
    ensures { IfOk result (λ ran.
        IsRunOf (unit_of settings) script.now.clients (memo_of settings) (share_of settings) name_of
        ran.replies.items ran.tally ran.core ran.claims) }
{
    match settings {
        Settings::Run {
            workers,
            memo,
            share,
            half,
            ..
        } => {
            let unit = if half { Unit::Half } else { Unit::Whole };
            run_script(rt, alloc, script, workers, memo, share, unit)
        }
        Settings::Demo(_) => run_script(rt, alloc, script, 4, 500_000, 0, Unit::Whole),
    }
}

// Writes what came of a run, and where it is asked for what the memo holds of each client.
fn write_ran<K: Sink>(
    alloc: Global,
    settings: Settings,
    clients: &[ClientScript],
    ran: &RunResult<ShaNamer>,
    sink: &mut K,
) -> Status
    requires ran { IsRunOf (unit_of settings) clients.now (memo_of settings) (share_of settings)
        name_of ran.now.replies.items ran.now.tally ran.now.core ran.now.claims }
    requires few { length clients.now ≤ 16 }
    ensures told { WritesOutput settings clients.now
        (stream_change K.held K.faults sink.old sink.new) result }
    ensures cause { HasStatusCause Status.WriteFault (K.faults sink.old)
        (K.faults sink.new) result }
{
    match printed_weights(alloc, settings, &ran.core, clients.len() as u32) {
        Ok(owned) => write_outcome(
            alloc,
            settings,
            clients,
            &ran.replies,
            ran.tally,
            owned.as_slice(),
            sink,
        ),
        Err(_) => Status::NoMemory,
    }
}

/// Does all that the program does: reads the words, reads the script of the source or makes the demonstration's, runs its
/// clients, and writes their replies to the sink.
pub fn serve<S: Source, K: Sink, R: Threads + Wait + Sync>(
    rt: &R,
    alloc: Global,
    words: &[String],
    source: &mut S,
    sink: &mut K,
) -> Status
    // What each status tells. Where it is `Done`, whatever was read, each client's replies are those that its own commands
    // define, and each solid is the watertight boundary of what the client's source means, in the unit of the run.
    ensures told { StatusTells (map string_bytes words.now)
        (stream_changes S.left S.faults K.held K.faults source.old source.new sink.old sink.new)
        result }
    // At words outside the grammar, and for the demonstration, nothing is read, and else no more than a script may have, and
    // one read more.
    ensures reads { ReadsAsAsked (map string_bytes words.now)
        (stream_change S.left S.faults source.old source.new) }
    // A source that failed is told as that, and so is a sink. The counts of their faults never fall.
    ensures causes { HaveStatusCauses
        (stream_changes S.left S.faults K.held K.faults source.old source.new sink.old sink.new)
        result }

    // Where no count of faults rose, a script is served and other bytes are refused, unless memory ran out.
    ensures complete { (settings : Settings) → Chooses (map string_bytes words.now) settings
        → (CountRose (S.faults source.old) (S.faults source.new) → ⊥) →
        (CountRose (K.faults sink.old) (K.faults sink.new) → ⊥)
        → (result ≡ Status.Done) ⊎ (result ≡ Status.BadScript) ⊎ (result ≡ Status.NoMemory) }
    ensures script { IfSome (S.left source.old)
        (λ bytes. IsSomeScript bytes → result ≢ Status.BadScript) }
    ensures no_script { AskForRun (map string_bytes words.now)
        → IfSome (S.left source.old) (λ bytes. IsNoScript bytes → result ≢ Status.Done) }
{
    // Called for its law; does nothing when it runs: bytes are one script, or none.
    bytes_are_one_script();
    let settings = match read_words(alloc, words) {
        Ok(settings) => settings,
        Err(fault) => return refuse_words(fault, sink),
    };
    let script = match read_input(alloc, settings, source) {
        Ok(script) => script,
        Err(end) => return refuse_input(alloc, end, sink),
    };
    match run_clients(rt, alloc, settings, &script) {
        Ok(ran) => write_ran(alloc, settings, script.clients.items(), &ran, sink),
        Err(_) => Status::NoMemory,
    }
}
