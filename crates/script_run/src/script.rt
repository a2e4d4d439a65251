//! The clients of a script.

ghost use Rattle.std.specs.Prelude.{◌≡◌, ◌≤◌, [], length, All, IfOk, vec_capacity};
ghost use Rattle.script_reader.specs.Limits.{AreClientsWithin};
ghost use Rattle.reply_text.specs.Answers.{AllFit};
ghost use Rattle.script_run.specs.Asking.{AreFresh};
ghost use Rattle.script_run.specs.Moves.{AllMove};
ghost use Rattle.script_run.specs.Serving.{AreWaiting, replies_of};

use crate::exporter::Exporter;
use crate::served::{ClientService, ServedClient};
use parallel_zip::work_each;
use plain_text::NoMemory;
use plane_predicate::Unit;
use reply_text::Replies;
use script_reader::{ClientScript, Script};
use std::alloc::Global;
use std::thread::Threads;

// Each client with its commands, and room for one reply a command.
fn waiting(alloc: Global, clients: &[ClientScript]) -> Result<Vec<ServedClient<'_>>, NoMemory>
    ensures { IfOk result (λ all. AreWaiting clients.now all.items) }
{
    let mut all = Vec::new(alloc);
    for client in clients {
        let commands = client.commands.items();
        let replies = Vec::with_capacity(alloc, commands.len())?;
        all.push(ServedClient { commands, replies })?;
    }
    Ok(all)
}

// The replies of each client, in the room that is given for them.
fn taken(clients: Vec<ServedClient<'_>>, room: Vec<Replies>) -> Vec<Replies>
    requires empty { room.items ≡ [] }
    requires room { length clients.items ≤ vec_capacity room }
    ensures { result.items ≡ replies_of clients.entry.items }
{
    let mut all = room;
    for client in clients {
        let ServedClient { replies, .. } = client;
        all.push_reserved(Replies::of(replies));
    }
    all
}

/// The replies to the commands of each client, in the clients' order, with the lengths of sources in a unit. Each client is
/// served by an exporter of its own, in a thread of its own where one can be started: the first exporters, in order, and the
/// others stay as they are. An exporter is asked for no source that its client's own commands may not export. The room for one
/// reply a command is taken before any command is done: so a command for which memory runs out is answered so, and its session
/// stays as it was.
pub fn run_script<E: Exporter + Send, R: Threads + Sync>(
    rt: &R,
    alloc: Global,
    exporters: &mut [E],
    unit: Unit,
    script: &Script,
) -> Result<Vec<Replies>, NoMemory>
    requires within { AreClientsWithin script.now.clients }
    requires many { length script.now.clients ≤ length exporters.old }
    requires fresh { AreFresh E.asked (E.can_export unit) script.now.clients exporters.old }
    ensures fits { IfOk result (λ replies.
        AllFit (E.exports unit) script.now.clients replies.items) }
    ensures few { IfOk result (λ replies. All (λ rs. length rs ≤ 8192) replies.items) }
    ensures moved { IfOk result (λ replies.
        AllMove (E.moves unit) script.now.clients replies.items exporters.old exporters.new) }
    ensures many { length exporters.new ≡ length exporters.old }
{
    let mut clients = waiting(alloc, script.clients.items())?;
    let room = Vec::with_capacity(alloc, clients.len())?;
    let (busy, _idle) = exporters.split_at_mut(clients.len());
    // A thread gets the stack that the C library gives each one: that of `ulimit -s`, or 2 MiB where it says
    // `unlimited`. The usual 8 MiB are enough for a solid of 1,024 planes, whose deepest merge takes less than 1 MiB,
    // and for the deepest source, whose evaluation takes less than 7 MiB.
    work_each(rt, &ClientService { alloc, unit }, &mut clients, busy);
    Ok(taken(clients, room))
}
