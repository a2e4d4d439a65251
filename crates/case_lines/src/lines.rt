//! Lines.

use plain_text::{Bytes, NoMemory};
use std::alloc::Global;

/// The lines of some bytes, each of which ends with a newline.
pub fn lines_of(alloc: Global, bytes: &[u8]) -> Result<Vec<Bytes>, NoMemory> {
    let mut lines = Vec::new(alloc);
    let mut line = Vec::new(alloc);
    for byte in bytes {
        if *byte == b'\n' {
            lines.push(Bytes::of(line))?;
            line = Vec::new(alloc);
        } else {
            line.push(*byte)?;
        }
    }
    Ok(lines)
}
