//! Tests that arguments of a call reach the parameters they name or stand for.

use crate::reading::at;
use scad_ast::{Arg, Expr, Param};
use scad_scope::{Matching, arguments};
use std::alloc::Global;
use std::process::Abort;
use std::test::Fail;
use text_place::{CompactBytes, NoMemory, Place, Stop};

fn bytes(alloc: Global, name: &[u8]) -> Result<CompactBytes, NoMemory> {
    Ok(CompactBytes::of(alloc, name)?)
}

// An argument of a name, a special one where the name begins with `$`, or a positional one where it is
// empty.
fn argument(alloc: Global, column: u32, name: &[u8]) -> Result<Arg, NoMemory> {
    let value = Expr::Undef(at(column.saturating_add(2)));
    if name.is_empty() {
        Ok(Arg::Positional(Expr::Undef(at(column))))
    } else if name[0] == b'$' {
        Ok(Arg::Special(at(column), bytes(alloc, &name[1..])?, value))
    } else {
        Ok(Arg::Named(at(column), bytes(alloc, name)?, value))
    }
}

// Parameters a and b, and arguments of these names at the columns 1, 11, 21.
fn matched(
    alloc: Global,
    names: &[&[u8]],
) -> Result<Result<(Option<u32>, Option<u32>), Place>, NoMemory> {
    let mut params = Vec::new(alloc);
    params.push(Param::Plain(at(1), bytes(alloc, b"a")?))?;
    params.push(Param::WithDefault(at(1), bytes(alloc, b"b")?, Expr::Undef(at(1))))?;
    let mut args = Vec::new(alloc);
    let mut column: u32 = 1;
    for name in names {
        args.push(argument(alloc, column, name)?)?;
        column = column.saturating_add(10);
    }
    told(arguments(alloc, params.as_slice(), args.as_slice(), at(99)))
}

fn told(
    answer: Result<Matching, Stop>,
) -> Result<Result<(Option<u32>, Option<u32>), Place>, NoMemory> {
    match answer {
        Ok(matching) => Ok(Ok(both(&matching))),
        Err(Stop::Fault(fault)) => Ok(Err(fault.place)),
        Err(Stop::NoMemory) => Err(NoMemory),
    }
}

fn both(matching: &Matching) -> (Option<u32>, Option<u32>) {
    if matching.count() == 2 {
        (matching.argument(0), matching.argument(1))
    } else {
        (None, None)
    }
}

#[test]
fn gives_arguments_to_parameters(rt: HostRuntime) -> Result<(), Fail> {
    let alloc = rt.alloc();
    let cases: [(&[&[u8]], Result<(Option<u32>, Option<u32>), Place>); 13] = [
        (&[], Ok((None, None))),
        (&[b"", b""], Ok((Some(0), Some(1)))),
        (&[b"b", b""], Ok((Some(1), Some(0)))),
        (&[b"b", b"a"], Ok((Some(1), Some(0)))),
        (&[b"b"], Ok((None, Some(0)))),
        (&[b"", b"a"], Err(at(11))),
        (&[b"a", b""], Err(at(11))),
        (&[b"c"], Err(at(1))),
        (&[b"", b"", b""], Err(at(21))),
        (&[b"", b"$a", b""], Ok((Some(0), Some(2)))),
        (&[b"$a", b"$b", b"a"], Ok((Some(2), None))),
        (&[b"$a", b"", b"$a"], Err(at(21))),
        (&[b"$a", b"c", b"$a"], Err(at(11))),
    ];
    for (names, wanted) in cases {
        assert_eq!(rt; matched(alloc, names)?, wanted);
    }
    Ok(())
}
