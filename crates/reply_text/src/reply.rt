//! What a command is answered.

ghost use Rattle.std.specs.Prelude.{◌≡◌};

use edit_session::SessionFault;
use export_limits::PassedLimit;
use std::marker::Model;
use text_place::{Bytes, Fault, Lines};

/// What one command is answered.
#[derive(Drop)]
pub enum Reply {
    /// A done edit: the number of lines afterwards.
    Lines(u32),
    /// A command that the session refuses.
    Refused(SessionFault),
    /// An export whose source has a fault.
    Faulted(Fault),
    /// An export that passes a limit.
    PassedLimit(PassedLimit),
    /// Memory ran out, and the command counts as not given.
    NoMem,
    /// A show: the lines of the source.
    Text(Lines),
    /// An export: the bytes of its 4OFF text.
    Solid(Bytes),
}

/// The replies to a client's commands in order, which contracts see as a list.
#[derive(Drop)]
pub struct Replies {
    items: Vec<Reply>,
}

impl Model for Replies {
    ghost use Rattle.std.specs.Prelude.{List};
    ghost use Rattle.reply_text.specs.declared.reply.Reply.{Reply};

    ghost Value = { List Reply };

    ghost view = { λ r. r.items.items };
}

impl Replies {
    /// The replies of a vector.
    pub fn of(items: Vec<Reply>) -> Self
        ensures { result ≡ items.items }
    {
        Replies { items }
    }

    /// The replies in order.
    pub fn items(&self) -> &[Reply]
        ensures { result.now ≡ self.now }
    {
        &self.items
    }
}
