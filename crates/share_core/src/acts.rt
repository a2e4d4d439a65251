//! What clients of a shared memo do, one function for each kind of event.

ghost use Rattle.std.specs.Prelude.{◌≡◌, ℕ, ◌<◌, length, option_map, true, false, Some, []};
ghost use Rattle.std.specs.Prelude.{IfOk, OnOk, OnErr, IfNone, IfSome, MatchOption};
ghost use Rattle.std.specs.Arc.{arc_value};
ghost use Rattle.memo_core.specs.Fields.{value_in};
ghost use Rattle.memo_core.specs.Views.{after_probe, after_fill};
ghost use Rattle.share_core.specs.Views.{Built, There, settled_memo};
ghost use Rattle.share_core.specs.Fields.{part_of, IsSoundPart};
ghost use Rattle.share_core.specs.Steps.{TellsIfTaken, Changes, can_do, is_at, is_built, node_at, key_at};
ghost use Rattle.share_core.specs.Steps.{part_at_command, part_after_reply, with_node, node_after_probe};
ghost use Rattle.std.specs.Option.{option_map_or};

use crate::event::{Act, Stepped};
use crate::kept_nodes::{NodeState, Nodes};
use crate::parts::{ClientPart, put_node};
use crate::work::Work;
use memo_core::{Fill, Fit, MemoCore, Namer, Probe};
use plain_text::NoMemory;
use std::alloc::Global;
use std::sync::Arc;

// The number of the command that a client is at, or else of its next one.
fn command_of<F: Fit, W: Work<F>>(
    work: &W,
    part: &ClientPart<F::Value, W::Reply>,
    client: u32,
) -> u32
    requires { IsSoundPart F.fits F.weighs (W.tasks work.now) client (part_of part.now) }
    ensures { result ≡ length part.now.replies.items }
{
    let _count = work.commands(client);
    part.replies.len() as u32
}

/// A client between commands comes to its next one.
pub fn command<F: Fit, W: Work<F>>(
    alloc: Global,
    work: &W,
    part: &mut ClientPart<F::Value, W::Reply>,
    client: u32,
) -> Result<Stepped, NoMemory>
    requires { IsSoundPart F.fits F.weighs (W.tasks work.now) client (part_of part.old) }
    ensures acts { IfOk result (TellsIfTaken
        (can_do (W.tasks work.now) client Act.Command (part_of part.old))
        (part_of part.new ≡ part_at_command (W.tasks work.now) client (part_of part.old))
        (part_of part.new ≡ part_of part.old)) }
    ensures sound { IsSoundPart F.fits F.weighs (W.tasks work.now) client (part_of part.new) }
    ensures err { OnErr result (part_of part.new ≡ part_of part.old) }
{
    let command = command_of(work, part, client);
    if part.nodes.is_some() || command >= work.commands(client) {
        return Ok(Stepped::NotReady);
    }
    let nodes = Nodes::new(alloc, work.nodes(client, command))?;
    part.nodes = Some(nodes);
    Ok(Stepped::Taken)
}

// Whether a client may ask the memo for this node.
fn can_probe<F: Fit, W: Work<F>>(
    work: &W,
    part: &ClientPart<F::Value, W::Reply>,
    client: u32,
    node: u32,
) -> bool
    requires { IsSoundPart F.fits F.weighs (W.tasks work.now) client (part_of part.now) }
    ensures { result ≡ can_do (W.tasks work.now) client (Act.Probe node) (part_of part.now) }
{
    let Some(nodes) = &part.nodes else {
        return false;
    };
    if !nodes.is_unasked_at(node) {
        return false;
    }
    let command = command_of(work, part, client);
    work.ready(client, command, node, nodes.have())
}

// The value that a probe found.
fn found<V>(probe: Probe<V>) -> Option<Arc<V>>
    ensures { option_map arc_value result ≡ value_in probe }
{
    match probe {
        Probe::Hit(value) => Some(value),
        Probe::Miss => None,
    }
}

/// A client asks the memo for a node's value.
pub fn probe<F: Fit, N: Namer<F::Key>, W: Work<F>>(
    alloc: Global,
    memo: &mut MemoCore<F, N>,
    work: &W,
    part: &mut ClientPart<F::Value, W::Reply>,
    client: u32,
    node: u32,
) -> Result<Stepped, NoMemory>
    requires { IsSoundPart F.fits F.weighs (W.tasks work.now) client (part_of part.old) }
    ensures acts { IfOk result (TellsIfTaken
        (can_do (W.tasks work.now) client (Act.Probe node) (part_of part.old))
        ((settled_memo memo.new ≡ after_probe F.same_key client
        (key_at (W.tasks work.now) client node (part_of part.old)) (settled_memo memo.old))
        × (part_of part.new ≡ with_node node
        (node_after_probe F.same_key (key_at (W.tasks work.now) client node (part_of part.old))
        (settled_memo memo.old)) (part_of part.old)))
        ((settled_memo memo.new ≡ settled_memo memo.old) × (part_of part.new ≡ part_of part.old))) }
    ensures sound { IsSoundPart F.fits F.weighs (W.tasks work.now) client (part_of part.new) }
    ensures err { OnErr result
        ((settled_memo memo.new ≡ settled_memo memo.old) × (part_of part.new ≡ part_of part.old)) }
{
    if !can_probe(work, part, client, node) {
        return Ok(Stepped::NotReady);
    }
    let command = command_of(work, part, client);
    memo.room(alloc)?;
    let probe = memo.probe(client, work.key(client, command, node))?;
    put_node(part, node, NodeState::Missed, found(probe));
    Ok(Stepped::Taken)
}

// Builds a node that was missed.
fn built<F: Fit, W: Work<F>>(
    alloc: Global,
    work: &W,
    part: &ClientPart<F::Value, W::Reply>,
    client: u32,
    node: u32,
) -> Result<Option<(Arc<F::Value>, u64)>, NoMemory>
    requires { IsSoundPart F.fits F.weighs (W.tasks work.now) client (part_of part.now) }
    ensures { IfOk result (λ b. MatchOption b
        (can_do (W.tasks work.now) client (Act.Build node) (part_of part.now) ≡ false)
        (λ r. (can_do (W.tasks work.now) client (Act.Build node) (part_of part.now) ≡ true)
        × F.fits (key_at (W.tasks work.now) client node (part_of part.now)) (arc_value r.0)
        × (r.1 ≡ F.weighs (arc_value r.0)))) }
{
    let Some(nodes) = &part.nodes else {
        return Ok(None);
    };
    if !nodes.is_missed_at(node) {
        return Ok(None);
    }
    let command = command_of(work, part, client);
    let made = work.build(alloc, client, command, node, nodes.have())?;
    Ok(Some(made))
}

/// A client builds a node that was missed.
pub fn build<F: Fit, W: Work<F>>(
    alloc: Global,
    work: &W,
    part: &mut ClientPart<F::Value, W::Reply>,
    client: u32,
    node: u32,
) -> Result<Stepped, NoMemory>
    requires { IsSoundPart F.fits F.weighs (W.tasks work.now) client (part_of part.old) }
    ensures acts { IfOk result (TellsIfTaken
        (can_do (W.tasks work.now) client (Act.Build node) (part_of part.old))
        ((v : F.Value) × (w : ℕ)
        × F.fits (key_at (W.tasks work.now) client node (part_of part.old)) v
        × (w ≡ F.weighs v) × (part_of part.new ≡ with_node node (Built v w) (part_of part.old)))
        (part_of part.new ≡ part_of part.old)) }
    ensures sound { IsSoundPart F.fits F.weighs (W.tasks work.now) client (part_of part.new) }
    ensures err { OnErr result (part_of part.new ≡ part_of part.old) }
{
    let Some((value, weight)) = built(alloc, work, part, client, node)? else {
        return Ok(Stepped::NotReady);
    };
    put_node(part, node, NodeState::Built(value, weight), None);
    Ok(Stepped::Taken)
}

// What a client has built for this node, twice, and what it weighs.
fn offered<V: Drop, R: Drop>(
    part: &ClientPart<V, R>,
    node: u32,
) -> Result<Option<(Arc<V>, Arc<V>, u64)>, NoMemory>
    ensures { IfOk result (λ b. MatchOption b
        (option_map_or (λ xs. is_at is_built xs node) (part_of part.now).nodes false ≡ false)
        (λ r. (node_at node (part_of part.now) ≡ Some (Some (Built (arc_value r.0) r.2)))
        × (arc_value r.1 ≡ arc_value r.0))) }
{
    let Some(nodes) = &part.nodes else {
        return Ok(None);
    };
    let Some((value, weight)) = nodes.built_at(node) else {
        return Ok(None);
    };
    let given = Arc::try_clone(value)?;
    let kept = Arc::try_clone(value)?;
    Ok(Some((given, kept, weight)))
}

// Offers a value to the memo, which keeps it or not, and frees what it dropped.
fn offer<F: Fit, N: Namer<F::Key>>(
    alloc: Global,
    memo: &mut MemoCore<F, N>,
    client: u32,
    key: &Arc<F::Key>,
    value: Arc<F::Value>,
    weight: u64,
) -> Result<(), NoMemory>
    requires fits { F.fits (arc_value key.now) (arc_value value) }
    requires weight { weight ≡ F.weighs (arc_value value) }
    ensures ok { OnOk result (settled_memo memo.new ≡
        after_fill F.same_key N.name_of client (arc_value key.now) (arc_value value) weight
        (settled_memo memo.old)) }
    ensures err { OnErr result (settled_memo memo.new ≡ settled_memo memo.old) }
{
    memo.room(alloc)?;
    match memo.fill(alloc, client, key, value, weight) {
        Fill::NoMemory => Err(NoMemory),
        Fill::Kept | Fill::TooHeavy => {
            let _dropped = memo.take_dropped(alloc);
            Ok(())
        }
    }
}

/// A client offers to the memo what it built.
pub fn fill<F: Fit, N: Namer<F::Key>, W: Work<F>>(
    alloc: Global,
    memo: &mut MemoCore<F, N>,
    work: &W,
    part: &mut ClientPart<F::Value, W::Reply>,
    client: u32,
    node: u32,
) -> Result<Stepped, NoMemory>
    requires { IsSoundPart F.fits F.weighs (W.tasks work.now) client (part_of part.old) }
    ensures acts { IfOk result (TellsIfTaken
        (can_do (W.tasks work.now) client (Act.Fill node) (part_of part.old))
        ((v : F.Value) × (w : ℕ) × (node_at node (part_of part.old) ≡ Some (Some (Built v w)))
        × (settled_memo memo.new ≡ after_fill F.same_key N.name_of client
        (key_at (W.tasks work.now) client node (part_of part.old)) v w (settled_memo memo.old))
        × (part_of part.new ≡ with_node node (There v) (part_of part.old)))
        ((settled_memo memo.new ≡ settled_memo memo.old) × (part_of part.new ≡ part_of part.old))) }
    ensures sound { IsSoundPart F.fits F.weighs (W.tasks work.now) client (part_of part.new) }
    ensures err { OnErr result
        ((settled_memo memo.new ≡ settled_memo memo.old) × (part_of part.new ≡ part_of part.old)) }
{
    let Some((given, kept, weight)) = offered(part, node)? else {
        return Ok(Stepped::NotReady);
    };
    let command = command_of(work, part, client);
    offer(
        alloc,
        memo,
        client,
        work.key(client, command, node),
        given,
        weight,
    )?;
    put_node(part, node, NodeState::Missed, Some(kept));
    Ok(Stepped::Taken)
}

// The reply to the command that a client is at, where all its nodes are there.
fn answer<F: Fit, W: Work<F>>(
    alloc: Global,
    work: &W,
    part: &ClientPart<F::Value, W::Reply>,
    client: u32,
) -> Result<Option<W::Reply>, NoMemory>
    requires { IsSoundPart F.fits F.weighs (W.tasks work.now) client (part_of part.now) }
    ensures { IfOk result (λ b. MatchOption b
        (can_do (W.tasks work.now) client Act.Reply (part_of part.now) ≡ false)
        (λ r. (can_do (W.tasks work.now) client Act.Reply (part_of part.now) ≡ true)
        × (r ≡ (W.tasks work.now).reply client (length part.now.replies.items)))) }
{
    let Some(nodes) = &part.nodes else {
        return Ok(None);
    };
    if !nodes.are_there() {
        return Ok(None);
    }
    let command = command_of(work, part, client);
    let reply = work.reply(alloc, client, command, nodes.have())?;
    Ok(Some(reply))
}

/// A client answers the command that it is at.
pub fn reply<F: Fit, W: Work<F>>(
    alloc: Global,
    work: &W,
    part: &mut ClientPart<F::Value, W::Reply>,
    client: u32,
) -> Result<Stepped, NoMemory>
    requires { IsSoundPart F.fits F.weighs (W.tasks work.now) client (part_of part.old) }
    ensures acts { IfOk result (TellsIfTaken
        (can_do (W.tasks work.now) client Act.Reply (part_of part.old))
        (part_of part.new ≡ part_after_reply (W.tasks work.now) client (part_of part.old))
        (part_of part.new ≡ part_of part.old)) }
    ensures sound { IsSoundPart F.fits F.weighs (W.tasks work.now) client (part_of part.new) }
    ensures err { OnErr result (part_of part.new ≡ part_of part.old) }
{
    let Some(reply) = answer(alloc, work, part, client)? else {
        return Ok(Stepped::NotReady);
    };
    part.replies.push(reply)?;
    part.nodes = None;
    Ok(Stepped::Taken)
}

/// A client does this, if it can.
pub fn act<F: Fit, N: Namer<F::Key>, W: Work<F>>(
    alloc: Global,
    memo: &mut MemoCore<F, N>,
    work: &W,
    part: &mut ClientPart<F::Value, W::Reply>,
    client: u32,
    act: Act,
) -> Result<Stepped, NoMemory>
    requires { IsSoundPart F.fits F.weighs (W.tasks work.now) client (part_of part.old) }
    ensures acts { IfOk result (TellsIfTaken (can_do (W.tasks work.now) client act
        (part_of part.old))
        (Changes F.same_key N.name_of F.fits F.weighs (W.tasks work.now) client act
        (settled_memo memo.old) (part_of part.old) (settled_memo memo.new) (part_of part.new))
        ((settled_memo memo.new ≡ settled_memo memo.old) × (part_of part.new ≡ part_of part.old))) }
    ensures sound { IsSoundPart F.fits F.weighs (W.tasks work.now) client (part_of part.new) }
    ensures err { OnErr result
        ((settled_memo memo.new ≡ settled_memo memo.old) × (part_of part.new ≡ part_of part.old)) }
{
    match act {
        Act::Command => command(alloc, work, part, client),
        Act::Probe(node) => probe(alloc, memo, work, part, client, node),
        Act::Build(node) => build(alloc, work, part, client, node),
        Act::Fill(node) => fill(alloc, memo, work, part, client, node),
        Act::Reply => reply(alloc, work, part, client),
    }
}
