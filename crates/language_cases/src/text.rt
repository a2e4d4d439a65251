//! Text, columns and faults, written behind what was written.

use case_lines::put;
use std::alloc::Global;
use text_place::{CompactBytes, Fault, NoMemory, Place, Stop, push_decimal, word};

/// A text with the column of its place.
pub(crate) fn put_at(
    alloc: Global,
    out: &mut Vec<u8>,
    text: &[u8],
    place: Place,
) -> Result<(), NoMemory> {
    put(out, text)?;
    put(out, b"@")?;
    push_decimal(alloc, out, i128::from(place.column))?;
    put(out, b" ")
}

pub(crate) fn put_name(
    alloc: Global,
    out: &mut Vec<u8>,
    name: &CompactBytes,
    place: Place,
) -> Result<(), NoMemory> {
    put_at(alloc, out, name.items(), place)
}

/// A special name with its `$`.
pub(crate) fn put_special(
    alloc: Global,
    out: &mut Vec<u8>,
    name: &CompactBytes,
    place: Place,
) -> Result<(), NoMemory> {
    put(out, b"$")?;
    put_name(alloc, out, name, place)
}

pub(crate) fn put_place(alloc: Global, out: &mut Vec<u8>, place: Place) -> Result<(), NoMemory> {
    push_decimal(alloc, out, i128::from(place.line))?;
    put(out, b":")?;
    push_decimal(alloc, out, i128::from(place.column))
}

fn put_fault(alloc: Global, out: &mut Vec<u8>, fault: Fault) -> Result<(), NoMemory> {
    put_place(alloc, out, fault.place)?;
    put(out, b" ")?;
    put(out, word(fault.kind).as_bytes())
}

pub(crate) fn put_stop(alloc: Global, out: &mut Vec<u8>, stop: Stop) -> Result<(), NoMemory> {
    match stop {
        Stop::Fault(fault) => put_fault(alloc, out, fault),
        Stop::NoMemory => put(out, b"no memory"),
    }
}
