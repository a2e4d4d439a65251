//! The script of the demonstration.

use crate::serving::put_byte;
use big_input::make_script;
use case_lines::CaseStop;
use plain_text::read_decimal;
use std::alloc::Global;

/// The script of a demonstration with the given number of parts.
pub fn put_demonstration(alloc: Global, out: &mut Vec<u8>, parts: &[u8]) -> Result<(), CaseStop> {
    let parts = read_decimal(parts).unwrap_or(0);
    if parts < 1 || parts > 200 {
        return Err(CaseStop::Unread);
    }
    for byte in &make_script(alloc, parts as u32)? {
        put_byte(alloc, out, *byte)?;
    }
    Ok(())
}
