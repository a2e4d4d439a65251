//! Sources that are lexed and parsed.

use scad_ast::Program;
use scad_lexer::lex;
use scad_parser::parse;
use std::alloc::Global;
use text_place::{Place, Stop};

pub fn at(column: u32) -> Place {
    Place { line: 1, column }
}

/// The program of a source of at most 100,000 bytes, or its first fault.
pub fn read(alloc: Global, source: &[u8]) -> Result<Program, Stop> {
    if source.len() > 100_000 {
        return Err(Stop::NoMemory);
    }
    let tokens = lex(alloc, source)?;
    parse(alloc, &tokens)
}
