//! Ends of calls in words.

use crate::outside::Served;
use case_lines::{CaseStop, put, put_number};
use script_server::Status;
use std::alloc::Global;

pub fn put_status(out: &mut Vec<u8>, status: Status) -> Result<(), CaseStop> {
    let name = match status {
        Status::Done => b"Done".as_slice(),
        Status::BadWords => b"BadWords",
        Status::BadScript => b"BadScript",
        Status::ReadFault => b"ReadFault",
        Status::WriteFault => b"WriteFault",
        Status::NoMemory => b"NoMemory",
    };
    put(out, name)?;
    Ok(())
}

// Whether a byte is told as it is.
fn is_plain(byte: u8) -> bool {
    (b' '..=b'~').contains(&byte) && byte != b'|' && byte != b'`'
}

/// A byte: a stroke for a newline, and its number between backticks for another one that is not told as it is.
pub fn put_byte(alloc: Global, out: &mut Vec<u8>, byte: u8) -> Result<(), CaseStop> {
    if byte == b'\n' {
        put(out, b"|")?;
    } else if is_plain(byte) {
        out.push(byte)?;
    } else {
        put(out, b"`")?;
        put_number(alloc, out, i128::from(byte))?;
        put(out, b"`")?;
    }
    Ok(())
}

/// Which bytes of an output are told.
#[derive(Clone, Copy)]
pub enum Told {
    All,
    First(usize),
    Last(usize),
}

fn part(bytes: &[u8], told: Told) -> &[u8] {
    match told {
        Told::First(count) if count < bytes.len() => &bytes[..count],
        Told::Last(count) if count < bytes.len() => &bytes[bytes.len() - count..],
        _ => bytes,
    }
}

/// How a call ended, and the output or a part of it.
pub fn put_end(
    alloc: Global,
    out: &mut Vec<u8>,
    served: &Served,
    told: Told,
) -> Result<(), CaseStop> {
    put_status(out, served.status)?;
    put(out, b" ")?;
    put_output(alloc, out, part(&served.output, told))
}

/// An output, byte by byte.
pub fn put_output(alloc: Global, out: &mut Vec<u8>, output: &[u8]) -> Result<(), CaseStop> {
    for byte in output {
        put_byte(alloc, out, *byte)?;
    }
    Ok(())
}
