//! The clients of a script while it is read.

ghost use Rattle.std.specs.Prelude.{◌≡◌, ◌<◌, ◌++◌, ◌∷◌, [], ℕ, List, map, length, None, OnOk, IfErr};
ghost use Rattle.std.specs.List.{position};
ghost use Rattle.std.specs.Str.{bytes_eq};
ghost use Rattle.script_reader.specs.Reading.{with_client_line, AddsCommandAtPlace, AddsLine, IsFaultAfter};

use crate::cuts::{command_of, split_name};
use crate::script::{ClientScript, Command, Commands, ScriptFault};
use indexmap::IndexSet;
use plain_text::{Bytes, NoMemory};
use std::alloc::Global;

// The most bytes of a line.
const LINE_BYTES: usize = 1024;

// The most clients.
const CLIENTS: usize = 16;

// The most commands of a client.
const COMMANDS: usize = 8192;

/// Clients by first appearance, and their numbers by name.
#[derive(Drop)]
pub struct Clients {
    pub numbers: IndexSet<Vec<u8>>,
    pub scripts: Vec<ClientScript>,
}

// The number of the client with this name, from 0.
fn number_of(clients: &Clients, name: &[u8]) -> Option<usize>
    requires { map (λ k. k.items) clients.now.numbers.keys
        ≡ map (λ c. c.name) clients.now.scripts.items }
    ensures { result ≡ position (λ c. bytes_eq name.now c.name) clients.now.scripts.items }
{
    clients.numbers.get_index_of(name)
}

// A command more of a client that is there.
fn push_command(
    scripts: &mut Vec<ClientScript>,
    number: usize,
    command: Command,
) -> Result<(), NoMemory>
    requires { number < length scripts.old.items }
    ensures { OnOk result (AddsCommandAtPlace scripts.old.items number command scripts.new.items) }
{
    let script = &mut scripts[number];
    script.commands.push(command)
}

// A new client with its first command.
fn push_client(
    alloc: Global,
    clients: &mut Clients,
    name: &[u8],
    command: Command,
) -> Result<(), NoMemory>
    requires known { map (λ k. k.items) clients.old.numbers.keys
        ≡ map (λ c. c.name) clients.old.scripts.items }
    requires fresh { position (λ c. bytes_eq name.now c.name) clients.old.scripts.items ≡ None }
    ensures known { OnOk result
        (map (λ k. k.items) clients.new.numbers.keys
        ≡ map (λ c. c.name) clients.new.scripts.items) }
    ensures last { OnOk result
        (clients.new.scripts.items
        ≡ clients.old.scripts.items ++ record { name = name.now; commands = command ∷ [] } ∷ []) }
{
    let mut commands = Vec::new(alloc);
    commands.push(command)?;
    let commands = Commands::of(commands);
    clients.numbers.insert(Vec::from_slice(alloc, name)?)?;
    let name = Bytes::copy_of(alloc, name)?;
    clients.scripts.push(ClientScript { name, commands })?;
    Ok(())
}

/// Reads one line, whose number is given from 1.
pub fn read_line(
    alloc: Global,
    clients: &mut Clients,
    line: &[u8],
    number: u32,
) -> Result<(), ScriptFault>
    requires { map (λ k. k.items) clients.old.numbers.keys
        ≡ map (λ c. c.name) clients.old.scripts.items }
    ensures known { OnOk result
        (map (λ k. k.items) clients.new.numbers.keys
        ≡ map (λ c. c.name) clients.new.scripts.items) }
    ensures ok { OnOk result (AddsLine clients.old.scripts.items line.now
        clients.new.scripts.items) }
    ensures err { IfErr result (λ fault.
        IsFaultAfter clients.old.scripts.items line.now number fault) }
{
    if line.len() > LINE_BYTES {
        return Err(ScriptFault::TooLong(number));
    }
    let Some((name, tail)) = split_name(line) else {
        return Err(ScriptFault::NoName(number));
    };
    match number_of(clients, name) {
        Some(client) => {
            if clients.scripts[client].commands.items().len() >= COMMANDS {
                return Err(ScriptFault::TooManyCommands(number));
            }
            let command = command_of(alloc, tail)?;
            push_command(&mut clients.scripts, client, command)?;
        }
        None => {
            if clients.scripts.len() >= CLIENTS {
                return Err(ScriptFault::TooManyClients(number));
            }
            let command = command_of(alloc, tail)?;
            push_client(alloc, clients, name, command)?;
        }
    }
    Ok(())
}
