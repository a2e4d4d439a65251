//! Text and numbers, written behind what was written.

use plain_text::{NoMemory, push_decimal};
use std::alloc::Global;

pub fn put(out: &mut Vec<u8>, text: &[u8]) -> Result<(), NoMemory> {
    out.extend_from_slice(text)?;
    Ok(())
}

/// A number, which isn't the least that there is.
pub fn put_number(alloc: Global, out: &mut Vec<u8>, number: i128) -> Result<(), NoMemory> {
    if number == i128::MIN {
        put(out, b"least")
    } else {
        push_decimal(alloc, out, number)
    }
}

/// Items, a text between two of them.
pub fn put_separated<T, F: Fn(&mut Vec<u8>, &T) -> Result<(), NoMemory>>(
    out: &mut Vec<u8>,
    items: &[T],
    between: &[u8],
    put_item: F,
) -> Result<(), NoMemory>
    requires { F.IsAlwaysCallable put_item }
{
    let Some((first, rest)) = items.split_first() else {
        return Ok(());
    };
    put_item(out, first)?;
    for item in rest {
        put(out, between)?;
        put_item(out, item)?;
    }
    Ok(())
}

/// Numbers, a space between two of them.
pub fn put_numbers<N: Copy + Into<i128>>(
    alloc: Global,
    out: &mut Vec<u8>,
    numbers: &[N],
) -> Result<(), NoMemory> {
    put_separated(
        out,
        numbers,
        b" ",
        |out: &mut Vec<u8>, number: &N| -> Result<(), NoMemory> {
            put_number(alloc, out, (*number).into())
        },
    )
}

/// Numbers in parentheses.
pub fn put_tuple<N: Copy + Into<i128>>(
    alloc: Global,
    out: &mut Vec<u8>,
    numbers: &[N],
) -> Result<(), NoMemory> {
    put(out, b"(")?;
    put_numbers(alloc, out, numbers)?;
    put(out, b")")
}

/// The counts of a tally, and what all entries weigh.
pub fn put_tally(
    alloc: Global,
    out: &mut Vec<u8>,
    counts: &[u64],
    weight: u64,
) -> Result<(), NoMemory> {
    put(out, b"tally ")?;
    put_numbers(alloc, out, counts)?;
    put(out, b" weight ")?;
    put_number(alloc, out, i128::from(weight))
}

/// What stands before the first space, and what stands behind it.
pub fn cut(text: &[u8]) -> (&[u8], &[u8]) {
    match text.iter().position(|byte| *byte == b' ') {
        Some(at) => (&text[..at], &text[at + 1..]),
        None => (text, b""),
    }
}
