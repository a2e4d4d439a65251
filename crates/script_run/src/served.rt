//! The clients of a script with their replies, and the serving of one.

ghost use Rattle.std.specs.Prelude.{◌≡◌};
ghost use Rattle.edit_session.specs.Sessions.{start_state};
ghost use Rattle.script_run.specs.Asking.{MayServe};
ghost use Rattle.script_run.specs.Serving.{HasRoomForReplies, IsServed};

use crate::client::serve_client;
use crate::exporter::Exporter;
use parallel_zip::PairWork;
use plane_predicate::Unit;
use reply_text::Reply;
use script_reader::Command;
use std::alloc::Global;

/// A client's commands, and the replies to them, or at first the room for these.
#[derive(Drop)]
pub struct ServedClient<'a> {
    pub commands: &'a [Command],
    pub replies: Vec<Reply>,
}

/// The serving of a client by an exporter of its own, with the lengths of sources in a unit.
#[derive(Drop)]
pub struct ClientService {
    pub alloc: Global,
    pub unit: Unit,
}

impl<'a, E: Exporter> PairWork<ServedClient<'a>, E> for ClientService {
    ghost ready = { λ w client exporter.
        HasRoomForReplies client × (E.asked exporter ≡ 0)
        × MayServe (λ source. E.can_export w.unit source exporter) start_state
        client.commands.now };

    ghost worked = { λ w old before new after.
        IsServed (E.exports w.unit) (E.moves w.unit) old before new after };

    fn work(&self, client: &mut ServedClient<'a>, exporter: &mut E) {
        serve_client(
            self.alloc,
            exporter,
            self.unit,
            client.commands,
            &mut client.replies,
        );
    }
}
