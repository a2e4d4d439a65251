//! Cases that are run many times.

use crate::stop::CaseStop;
use crate::text::put;
use std::alloc::Global;

/// What the given number of runs write, at least one: once, where it is the same each time, and else what the first one
/// writes, and the first other one.
pub fn put_runs<F: Fn(&mut Vec<u8>) -> Result<(), CaseStop>>(
    alloc: Global,
    out: &mut Vec<u8>,
    times: u32,
    put_run: F,
) -> Result<(), CaseStop>
    requires { F.IsAlwaysCallable put_run }
{
    let mut told = Vec::new(alloc);
    put_run(&mut told)?;
    for _ in 1..times {
        let mut again = Vec::new(alloc);
        put_run(&mut again)?;
        if again != told {
            put(out, b"first ")?;
            put(out, &told)?;
            put(out, b", and then ")?;
            put(out, &again)?;
            return Ok(());
        }
    }
    Ok(put(out, &told)?)
}
