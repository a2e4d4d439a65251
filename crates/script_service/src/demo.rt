//! The lines of the demonstration.

ghost use Rattle.std.specs.Prelude.{◌≡◌, ◌++◌, IfOk, OnOk};
ghost use Rattle.script_service.specs.Demos.{bytes_before, bytes_after, solid_words, export_words, wants_memory, last_words, demo_line, demo_text, vertex_count, face_count};
ghost use Rattle.sha2.specs.Sha256.{sha256};
ghost use Rattle.hex.specs.Hex.{encode_lower};

use hex::encode;
use plain_text::NoMemory;
use reply_text::{Replies, Reply, push_words};
use script_reader::{ClientScript, split_at_byte};
use sha2::{Digest, Sha256};
use std::alloc::Global;

// The bytes before the first one that is `at`, and those behind it.
fn cut(bytes: &[u8], at: u8) -> (&[u8], &[u8])
    ensures { (result.0.now ≡ bytes_before at bytes.now)
        × (result.1.now ≡ bytes_after at bytes.now) }
{
    match split_at_byte(bytes, at) {
        Some(parts) => parts,
        None => (bytes, &[]),
    }
}

// The counts of vertices and of faces that a 4OFF text begins with.
fn counts(text: &[u8]) -> (&[u8], &[u8])
    ensures { (result.0.now ≡ vertex_count text.now) × (result.1.now ≡ face_count text.now) }
{
    let (_, lines) = cut(text, b'\n');
    let (vertices, rest) = cut(lines, b' ');
    let (faces, _) = cut(rest, b' ');
    (vertices, faces)
}

// Appends a digest in hexadecimal digits.
fn push_digest(alloc: Global, out: &mut Vec<u8>, text: &[u8]) -> Result<(), NoMemory>
    ensures { OnOk result (out.new.items ≡ out.old.items ++ encode_lower (sha256 text.now)) }
{
    let digest = Sha256::digest(text);
    let digits = encode(alloc, digest)?;
    out.extend_from_slice(digits.as_bytes())?;
    Ok(())
}

// Appends the report on a text.
fn push_solid(alloc: Global, out: &mut Vec<u8>, text: &[u8]) -> Result<(), NoMemory>
    ensures { OnOk result (out.new.items ≡ out.old.items ++ solid_words text.now) }
{
    let (vertices, faces) = counts(text);
    out.extend_from_slice(b" facets ")?;
    out.extend_from_slice(faces)?;
    out.extend_from_slice(b" vertices ")?;
    out.extend_from_slice(vertices)?;
    out.extend_from_slice(b" sha256 ")?;
    push_digest(alloc, out, text)
}

// Appends the report on an export.
fn push_export(alloc: Global, out: &mut Vec<u8>, reply: &Reply) -> Result<(), NoMemory>
    ensures { OnOk result (out.new.items ≡ out.old.items ++ export_words reply.now) }
{
    match reply {
        Reply::Solid(text) => push_solid(alloc, out, text.items()),
        _ => push_words(alloc, out, reply),
    }
}

// Whether memory ran out at a command.
fn is_wanting(replies: &[Reply]) -> bool
    ensures { result ≡ wants_memory replies.now }
{
    for reply in replies {
        if matches!(reply, Reply::NoMem) {
            return true;
        }
    }
    false
}

// Appends the report on the last reply.
fn push_last(alloc: Global, out: &mut Vec<u8>, replies: &[Reply]) -> Result<(), NoMemory>
    ensures { OnOk result (out.new.items ≡ out.old.items ++ last_words replies.now) }
{
    match replies.split_last() {
        Some((last, _)) => push_export(alloc, out, last),
        None => Ok(()),
    }
}

// Appends a client's line.
fn push_line(
    alloc: Global,
    out: &mut Vec<u8>,
    name: &[u8],
    replies: &[Reply],
) -> Result<(), NoMemory>
    ensures { OnOk result (out.new.items ≡ out.old.items ++ demo_line name.now replies.now) }
{
    out.extend_from_slice(name)?;
    if is_wanting(replies) {
        out.extend_from_slice(b" nomem")?;
    } else {
        push_last(alloc, out, replies)?;
    }
    out.push(b'\n')?;
    Ok(())
}

/// The line of each client.
pub fn demo_lines(
    alloc: Global,
    clients: &[ClientScript],
    replies: &[Replies],
) -> Result<Vec<u8>, NoMemory>
    ensures { IfOk result (λ lines. lines.items ≡ demo_text clients.now replies.now) }
{
    let mut lines = Vec::new(alloc);
    let mut left = replies;
    for client in clients {
        let Some((first, more)) = left.split_first() else {
            return Ok(lines);
        };
        push_line(alloc, &mut lines, client.name.items(), first.items())?;
        left = more;
    }
    Ok(lines)
}
