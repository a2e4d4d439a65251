//! A whole program: its statements, few enough that blocks and definitions are numbered by `u32`.

ghost use Rattle.std.specs.Prelude.{◌<◌, ◌^◌};
ghost use Rattle.scad_ast.specs.Counts.{count_begun_by_program};
ghost use Rattle.scad_ast.specs.StatementView.{statements_of};

use crate::statement::Statements;

/// A whole source. The type keeps that fewer than 2^32 blocks, functions and modules begin in it, so that they are
/// numbered by `u32`.
#[derive(Drop)]
pub struct Program {
    pub statements: Statements,
    pub ghost few: { count_begun_by_program (statements_of statements) < 2 ^ 32 },
}
