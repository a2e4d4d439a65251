//! What a script is: clients with their commands.

ghost use Rattle.std.specs.Prelude.{◌≡◌, ◌∷◌, [], ◌++◌, OnOk};

use plain_text::{Bytes, NoMemory};
use std::marker::Model;

/// One command of a client.
#[derive(Drop)]
pub enum Command {
    /// `put N TEXT`: the text becomes a new line N, and the old line N and later ones move down.
    Put { line: u32, text: Bytes },
    /// `set N TEXT`: line N becomes the text.
    Set { line: u32, text: Bytes },
    /// `cut N M`: lines N to M are removed.
    Cut { from: u32, upto: u32 },
    /// `show`: the lines are replied.
    Show,
    /// `export`: the source's solid is replied.
    Export,
    /// A line that is none of these.
    Bad,
}

/// The commands of one client in order, which contracts see as a list.
#[derive(Drop)]
pub struct Commands {
    items: Vec<Command>,
}

impl Model for Commands {
    ghost use Rattle.std.specs.Prelude.{List};
    ghost use Rattle.script_reader.specs.declared.script.Command.{Command};

    ghost Value = { List Command };

    ghost view = { λ c. c.items.items };
}

impl Commands {
    /// The commands of a vector.
    pub fn of(items: Vec<Command>) -> Self
        ensures { result ≡ items.items }
    {
        Commands { items }
    }

    /// The commands in order.
    pub fn items(&self) -> &[Command]
        ensures { result.now ≡ self.now }
    {
        &self.items
    }

    /// One command more at the end.
    pub(crate) fn push(&mut self, command: Command) -> Result<(), NoMemory>
        ensures { OnOk result (self.new ≡ self.old ++ command ∷ []) }
    {
        self.items.push(command)?;
        Ok(())
    }
}

/// A client with its commands.
#[derive(Drop)]
pub struct ClientScript {
    pub name: Bytes,
    pub commands: Commands,
}

/// The clients of a script by first appearance, which contracts see as a list.
#[derive(Drop)]
pub struct ClientScripts {
    items: Vec<ClientScript>,
}

impl Model for ClientScripts {
    ghost use Rattle.std.specs.Prelude.{List};
    ghost use Rattle.script_reader.specs.declared.script.ClientScript.{ClientScript};

    ghost Value = { List ClientScript };

    ghost view = { λ c. c.items.items };
}

impl ClientScripts {
    /// The clients of a vector.
    pub fn of(items: Vec<ClientScript>) -> Self
        ensures { result ≡ items.items }
    {
        ClientScripts { items }
    }

    /// The clients in order.
    pub fn items(&self) -> &[ClientScript]
        ensures { result.now ≡ self.now }
    {
        &self.items
    }
}

/// A script.
#[derive(Drop)]
pub struct Script {
    pub clients: ClientScripts,
}

/// Why bytes are no script. Each number is that of the line, from 1.
#[derive(Clone, Copy, Debug, PartialEq, Eq)]
pub enum ScriptFault {
    /// More than 1,048,576 bytes.
    TooLarge,
    /// A line of more than 1,024 bytes.
    TooLong(u32),
    /// A line that does not begin with a name.
    NoName(u32),
    /// The 17th name.
    TooManyClients(u32),
    /// The 8,193rd line of its client.
    TooManyCommands(u32),
    /// Memory ran out.
    NoMemory,
}

impl From<NoMemory> for ScriptFault {
    ghost use Rattle.script_reader.specs.declared.script.ScriptFault.TheVariants.{NoMemory};

    ghost from_gives = { λ _ fault. fault ≡ NoMemory };

    fn from(_refused: NoMemory) -> ScriptFault {
        ScriptFault::NoMemory
    }
}
