//! Sources in which parts stand many times.

use crate::text::{cut, put};
use plain_text::{NoMemory, read_decimal};
use std::alloc::Global;

// What two backticks enclose: a number and a text, which stands that number of times, or the number of a byte.
fn push_enclosed(source: &mut Vec<u8>, enclosed: &[u8]) -> Result<(), NoMemory> {
    let (digits, text) = cut(enclosed);
    let number = read_decimal(digits).unwrap_or(0);
    if text.is_empty() {
        source.push(u8::try_from(number).unwrap_or(0))?;
        return Ok(());
    }
    for _ in 0..number {
        put(source, text)?;
    }
    Ok(())
}

/// The source that a case writes.
pub fn unfolded(alloc: Global, text: &[u8]) -> Result<Vec<u8>, NoMemory> {
    let mut source = Vec::new(alloc);
    let mut enclosed = Vec::new(alloc);
    let mut is_open = false;
    for byte in text {
        if *byte != b'`' {
            if is_open {
                enclosed.push(*byte)?;
            } else {
                source.push(*byte)?;
            }
        } else {
            if is_open {
                push_enclosed(&mut source, &enclosed)?;
                enclosed.clear();
            }
            is_open = !is_open;
        }
    }
    Ok(source)
}
