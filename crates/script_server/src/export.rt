//! The tree that a source means, and the reply to its export.

ghost use Rattle.std.specs.Prelude.{◌≡◌, ◌-◌, ◌^◌, ◌<◌, IfOk, IfErr, length};
ghost use Rattle.csg_tree.specs.ProperTrees.{IsProper};
ghost use Rattle.csg_tree.specs.Trees.{plain_tree_of};
ghost use Rattle.scad_ast.specs.ProgramView.{program_of};
ghost use Rattle.script_server.specs.Meaning.Sources.{Means, RefusesSource, GivesTree};
ghost use Rattle.script_server.specs.Meaning.Exports.{export_reply};

use csg_tree::CsgTree;
use plane_predicate::Unit;
use reply_text::Reply;
use scad_ast::Program;
use scad_eval::evaluate;
use scad_parser::with_program;
use std::alloc::Global;
use text_place::Stop;
use tree_export::TreeExport;

/// The tree that a source means in a unit, or its first fault.
pub fn tree_of(alloc: Global, unit: Unit, source: &[u8]) -> Result<CsgTree, Stop>
    requires { length source.now < 2 ^ 32 - 1 }
    ensures tree { IfOk result (λ tree. Means unit source.now (plain_tree_of tree)) }
    ensures proper { IfOk result (λ tree. IsProper (plain_tree_of tree)) }
    ensures fault { IfErr result (RefusesSource unit source.now) }
{
    // The program is lent, since a crate proves the drop of each type that it drops.
    with_program(
        alloc,
        source,
        |program: &Program| -> Result<CsgTree, Stop>
            ensures { GivesTree unit (program_of program.now) result }
        { evaluate(alloc, program, unit) },
    )
}

/// An export as a reply.
pub fn reply(exported: TreeExport) -> Reply
    ensures { result ≡ export_reply exported }
{
    match exported {
        TreeExport::Text(bytes) => Reply::Solid(bytes),
        TreeExport::PassedLimit(passed) => Reply::PassedLimit(passed),
    }
}
