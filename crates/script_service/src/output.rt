//! The output of a script: for each client its name and its replies, and then a few further lines.

ghost use Rattle.std.specs.Prelude.{◌≡◌, ◌<◌, ◌≤◌, ◌⊎◌, ◌++◌, ℕ, List, [], length, All, IfErr, OnOk, OnErr, IsErrOf, codes};
ghost use Rattle.std.specs.Io.KnownBytes.{Appends};
ghost use Rattle.plain_text.specs.Decimals.{numeral};
ghost use Rattle.plain_text.specs.Separators.{newline};
ghost use Rattle.outside_io.specs.Counts.{CountRose};
ghost use Rattle.outside_io.specs.Moves.{AppendsProperPrefix};
ghost use Rattle.reply_text.specs.Texts.{reply_body, replies_text, client_text, output};
ghost use Rattle.script_service.specs.declared.output.OutputEnd.TheVariants as ends;
ghost use Rattle.script_service.specs.Sending.{Sends, IsCutOff, HasOutputCause};

use outside_io::{Failed, Sink, write_all};
use plain_text::NoMemory;
use reply_text::{Replies, Reply, push_reply};
use script_reader::ClientScript;
use std::alloc::Global;

// How many bytes are gathered before they are written. A reply's text is gathered whole.
const BUFFER_BYTES: usize = 65_536;

/// Why an output was cut off.
#[derive(Clone, Copy, Debug, PartialEq, Eq)]
pub enum OutputEnd {
    /// The sink failed.
    Failed,
    /// Memory ran out.
    NoMemory,
}

impl From<NoMemory> for OutputEnd {
    ghost use Rattle.script_service.specs.declared.output.OutputEnd.TheVariants as ends;

    ghost from_gives = { λ _ end. end ≡ ends.NoMemory };

    fn from(_refused: NoMemory) -> OutputEnd {
        OutputEnd::NoMemory
    }
}

// Writes what the buffer holds, and empties it.
fn flush<K: Sink>(sink: &mut K, buffer: &mut Vec<u8>) -> Result<(), OutputEnd>
    ensures ok { OnOk result
        (Appends (K.held sink.old) (K.held sink.new) buffer.old.items × (buffer.new.items ≡ [])) }
    ensures err { IfErr result (λ end. (end ≡ ends.Failed)
        × AppendsProperPrefix (K.held sink.old) (K.held sink.new) buffer.old.items) }
    ensures cause { HasOutputCause (K.faults sink.old) (K.faults sink.new) result }
{
    if write_all(sink, buffer.as_slice()).is_err() {
        return Err(OutputEnd::Failed);
    }
    buffer.clear();
    Ok(())
}

// Writes what the buffer holds once it is long enough.
fn settle<K: Sink>(sink: &mut K, buffer: &mut Vec<u8>) -> Result<(), OutputEnd>
    ensures ok { OnOk result (Sends K.held sink.old sink.new buffer.new.items buffer.old.items) }
    ensures err { IfErr result (IsCutOff K.held sink.old sink.new buffer.old.items) }
    ensures cause { HasOutputCause (K.faults sink.old) (K.faults sink.new) result }
{
    if buffer.len() < BUFFER_BYTES {
        return Ok(());
    }
    flush(sink, buffer)
}

// Adds bytes to the buffer.
fn put(buffer: &mut Vec<u8>, bytes: &[u8]) -> Result<(), NoMemory>
    ensures ok { OnOk result (buffer.new.items ≡ buffer.old.items ++ bytes.now) }
    ensures err { OnErr result (0 < length bytes.now) }
{
    buffer.extend_from_slice(bytes)?;
    Ok(())
}

// Adds a client's name to the buffer.
fn put_name(buffer: &mut Vec<u8>, name: &[u8]) -> Result<(), NoMemory>
    ensures ok { OnOk result
        (buffer.new.items ≡ buffer.old.items ++ (codes "== " ++ name.now ++ newline)) }
{
    put(buffer, b"== ")?;
    put(buffer, name)?;
    put(buffer, b"\n")
}

// Adds a reply with its number, and writes the buffer where it is long enough.
fn write_reply<K: Sink>(
    alloc: Global,
    sink: &mut K,
    buffer: &mut Vec<u8>,
    number: u32,
    reply: &Reply,
) -> Result<(), OutputEnd>
    ensures ok { OnOk result
        (Sends K.held sink.old sink.new buffer.new.items
        (buffer.old.items ++ (numeral number ++ reply_body reply.now))) }
    ensures err { IfErr result
        (IsCutOff K.held sink.old sink.new
        (buffer.old.items ++ (numeral number ++ reply_body reply.now))) }
    ensures cause { HasOutputCause (K.faults sink.old) (K.faults sink.new) result }
{
    push_reply(alloc, buffer, number, reply)?;
    settle(sink, buffer)
}

// Adds a client's replies, numbered from 1.
fn write_replies<K: Sink>(
    alloc: Global,
    sink: &mut K,
    buffer: &mut Vec<u8>,
    replies: &[Reply],
) -> Result<(), OutputEnd>
    requires { length replies.now ≤ 8192 }
    ensures ok { OnOk result
        (Sends K.held sink.old sink.new buffer.new.items
        (buffer.old.items ++ replies_text 1 replies.now)) }
    ensures err { IfErr result
        (IsCutOff K.held sink.old sink.new (buffer.old.items ++ replies_text 1 replies.now)) }
    ensures cause { HasOutputCause (K.faults sink.old) (K.faults sink.new) result }
{
    let mut number = 0u32;
    for reply in replies {
        number += 1;
        write_reply(alloc, sink, buffer, number, reply)?;
    }
    Ok(())
}

// Adds a client's name and replies.
fn write_client<K: Sink>(
    alloc: Global,
    sink: &mut K,
    buffer: &mut Vec<u8>,
    name: &[u8],
    replies: &[Reply],
) -> Result<(), OutputEnd>
    requires { length replies.now ≤ 8192 }
    ensures ok { OnOk result
        (Sends K.held sink.old sink.new buffer.new.items
        (buffer.old.items ++ client_text name.now replies.now)) }
    ensures err { IfErr result
        (IsCutOff K.held sink.old sink.new (buffer.old.items ++ client_text name.now replies.now)) }
    ensures cause { HasOutputCause (K.faults sink.old) (K.faults sink.new) result }
{
    put_name(buffer, name)?;
    write_replies(alloc, sink, buffer, replies)
}

// Adds the clients' names and replies.
fn write_clients<K: Sink>(
    alloc: Global,
    sink: &mut K,
    buffer: &mut Vec<u8>,
    clients: &[ClientScript],
    replies: &[Replies],
) -> Result<(), OutputEnd>
    requires { All (λ rs. length rs ≤ 8192) replies.now }
    ensures ok { OnOk result
        (Sends K.held sink.old sink.new buffer.new.items
        (buffer.old.items ++ output clients.now replies.now)) }
    ensures err { IfErr result
        (IsCutOff K.held sink.old sink.new (buffer.old.items ++ output clients.now replies.now)) }
    ensures cause { HasOutputCause (K.faults sink.old) (K.faults sink.new) result }
{
    let mut left = replies;
    for client in clients {
        let Some((first, more)) = left.split_first() else {
            return Ok(());
        };
        write_client(alloc, sink, buffer, client.name.items(), first.items())?;
        left = more;
    }
    Ok(())
}

/// Writes the output of a script whose clients are given these replies, and an ending behind it: reply by
/// reply, so that beside the replies no more is held than one reply's text and a buffer.
///
/// At an error a prefix of that was appended to the sink, and not the whole; after `NoMemory` the sink is as it was
/// where nothing was appended.
pub fn write_output<K: Sink>(
    alloc: Global,
    sink: &mut K,
    clients: &[ClientScript],
    replies: &[Replies],
    ending: &[u8],
) -> Result<(), OutputEnd>
    requires { All (λ rs. length rs ≤ 8192) replies.now }
    ensures ok { OnOk result
        (Appends (K.held sink.old) (K.held sink.new)
        (output clients.now replies.now ++ ending.now)) }
    ensures err { IfErr result
        (IsCutOff K.held sink.old sink.new (output clients.now replies.now ++ ending.now)) }
    ensures cause { HasOutputCause (K.faults sink.old) (K.faults sink.new) result }
{
    let mut buffer = Vec::new(alloc);
    write_clients(alloc, sink, &mut buffer, clients, replies)?;
    put(&mut buffer, ending)?;
    flush(sink, &mut buffer)
}
