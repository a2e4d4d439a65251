//! Programs that are lent.

ghost use Rattle.std.specs.Prelude.{◌^◌, ◌-◌, ◌<◌, length};
ghost use Rattle.std.specs.Fn.{FnOnceReturnsAt};
ghost use Rattle.scad_parser.specs.Sources.{IsMadeOf, IsMadeOfTokens};

use crate::{an_only_end_is_last, parse};
use scad_ast::Program;
use scad_lexer::{Token, lex};
use std::alloc::Global;
use text_place::Stop;

/// What is made of the program that fewer than 2^32 tokens write, or, where the last of them is an end, their first fault.
pub fn with_parsed<T, F: FnOnce(&Program) -> Result<T, Stop>>(
    alloc: Global,
    tokens: &[Token],
    make: F,
) -> Result<T, Stop>
    requires few { length tokens.now < 2 ^ 32 }
    requires make { F.IsAlwaysCallable make }
    ensures { IsMadeOfTokens (FnOnceReturnsAt F.FnOnce make) tokens.now result }
{
    let program = parse(alloc, tokens)?;
    make(&program)
}

/// What is made of the program that a source with fewer than 2^32 - 1 bytes writes, or the source's first fault.
pub fn with_program<T, F: FnOnce(&Program) -> Result<T, Stop>>(
    alloc: Global,
    source: &[u8],
    make: F,
) -> Result<T, Stop>
    requires short { length source.now < 2 ^ 32 - 1 }
    requires make { F.IsAlwaysCallable make }
    ensures { IsMadeOf (FnOnceReturnsAt F.FnOnce make) source.now result }
{
    // Called for its law; does nothing when it runs: tokens that end once end with their only end.
    an_only_end_is_last();
    let tokens = lex(alloc, source)?;
    with_parsed(alloc, &tokens, make)
}
