//! The commands of one client.

ghost use Rattle.std.specs.Prelude.{◌≡◌, ◌≢◌, ◌+◌, ◌<◌, ◌≤◌, ℕ, List, [], length, All, None, IfOk, IfErr, OnErr, vec_capacity};
ghost use Rattle.script_reader.specs.declared.script.Command.TheVariants.{Show, Export};
ghost use Rattle.script_reader.specs.Limits.{HasText};
ghost use Rattle.edit_session.specs.Sessions.{start_state, source_of, refusal, state_after_accepted};
ghost use Rattle.reply_text.specs.Answers.{Fits, state_after};
ghost use Rattle.edit_session.specs.Asking.{RefusesCommand};
ghost use Rattle.reply_text.specs.declared.reply.Reply.TheVariants as replies;
ghost use Rattle.script_run.specs.Asking.{ExportsSource, MayServe};
ghost use Rattle.script_run.specs.Steps.{Obeys, StepsSession, reply_in};
ghost use Rattle.script_run.specs.Moves.{GoesOn, reply_or_want, MovesAt, MovesAlong};

use crate::exporter::Exporter;
use edit_session::{Asked, Session, SessionFault};
use plain_text::{Lines, NoMemory};
use plane_predicate::Unit;
use reply_text::Reply;
use script_reader::Command;
use std::alloc::Global;

// Shows the lines, and books it.
fn show(alloc: Global, session: &mut Session) -> Result<Reply, NoMemory>
    requires { refusal session.old Show ≡ None }
    ensures shown { IfOk result (λ reply. (reply ≡ replies.Text session.old.lines)
        × (session.new ≡ state_after_accepted session.old Show)) }
    ensures err { OnErr result (session.new ≡ session.old) }
{
    let lines = Lines::copy_of(alloc, session.lines())?;
    session.book_show();
    Ok(Reply::Text(lines))
}

// Exports the source, and books it.
fn export<E: Exporter>(
    alloc: Global,
    exporter: &mut E,
    unit: Unit,
    session: &mut Session,
) -> Result<Reply, NoMemory>
    requires may { refusal session.old Export ≡ None }
    requires asked { E.asked exporter.old < 8192 }
    requires can_export { E.can_export unit (source_of session.old) exporter.old }
    ensures exported { IfOk result (λ reply. E.exports unit (source_of session.old) reply
        × (session.new ≡ state_after_accepted session.old Export)) }
    ensures err { OnErr result (session.new ≡ session.old) }
    ensures has_memory { IfOk result (λ reply. reply ≢ replies.NoMem) }
    ensures moved { MovesAt (E.moves unit) session.old Export (reply_or_want result)
        exporter.old exporter.new }
    ensures goes_on { GoesOn E.asked (E.can_export unit) exporter.old exporter.new }
{
    let source = session.source(alloc)?;
    let reply = exporter.export(alloc, unit, source.as_slice())?;
    session.book_export();
    Ok(reply)
}

// Does what a command asks, or says why not. An error changes nothing.
fn obey<E: Exporter>(
    alloc: Global,
    exporter: &mut E,
    unit: Unit,
    session: &mut Session,
    command: &Command,
) -> Result<Reply, SessionFault>
    requires text { HasText command.now }
    requires asked { E.asked exporter.old < 8192 }
    requires can_export { (source : List ℕ) → ExportsSource session.old command.now source
        → E.can_export unit source exporter.old }
    ensures done { IfOk result (λ reply.
        Obeys (E.exports unit) session.old command.now session.new reply) }
    ensures refused { IfErr result (λ why. RefusesCommand session.old command.now session.new why) }
    ensures state { session.new ≡ state_after session.old command.now (reply_in result) }
    ensures moved { MovesAt (E.moves unit) session.old command.now (reply_in result)
        exporter.old exporter.new }
    ensures goes_on { GoesOn E.asked (E.can_export unit) exporter.old exporter.new }
{
    match session.command(alloc, command)? {
        Asked::Lines(count) => Ok(Reply::Lines(count)),
        Asked::Show => Ok(show(alloc, session)?),
        Asked::Export => Ok(export(alloc, exporter, unit, session)?),
    }
}

// The reply to a command: where memory runs out, the session is as it was.
fn reply_to<E: Exporter>(
    alloc: Global,
    exporter: &mut E,
    unit: Unit,
    session: &mut Session,
    command: &Command,
) -> Reply
    requires text { HasText command.now }
    requires asked { E.asked exporter.old < 8192 }
    requires can_export { (source : List ℕ) → ExportsSource session.old command.now source
        → E.can_export unit source exporter.old }
    ensures steps { StepsSession (E.exports unit) session.old command.now session.new result }
    ensures state { session.new ≡ state_after session.old command.now result }
    ensures moved { MovesAt (E.moves unit) session.old command.now result
        exporter.old exporter.new }
    ensures goes_on { GoesOn E.asked (E.can_export unit) exporter.old exporter.new }
{
    match obey(alloc, exporter, unit, session, command) {
        Ok(reply) => reply,
        Err(SessionFault::NoMemory) => Reply::NoMem,
        Err(why) => Reply::Refused(why),
    }
}

/// Puts the replies to a client's commands into the room that is given for them.
pub fn serve_client<E: Exporter>(
    alloc: Global,
    exporter: &mut E,
    unit: Unit,
    commands: &[Command],
    replies: &mut Vec<Reply>,
)
    requires empty { replies.old.items ≡ [] }
    requires room { length commands.now ≤ vec_capacity replies.old }
    requires texts { All HasText commands.now }
    requires asked { E.asked exporter.old + length commands.now ≤ 8192 }
    requires can_export { MayServe (λ source. E.can_export unit source exporter.old)
        start_state commands.now }
    ensures fits { Fits (E.exports unit) start_state commands.now replies.new.items }
    ensures count { length replies.new.items ≡ length commands.now }
    ensures moved { MovesAlong (E.moves unit) start_state commands.now replies.new.items
        exporter.old exporter.new }
{
    let mut session = Session::new(alloc);
    for command in commands {
        let reply = reply_to(alloc, exporter, unit, &mut session, command);
        replies.push_reserved(reply);
    }
}
