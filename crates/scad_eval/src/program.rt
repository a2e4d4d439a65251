//! What a program means.

ghost use Rattle.std.specs.Prelude.{◌≡◌, List, IfOk, IfErr, map, option_map};
ghost use Rattle.csg_tree.specs.ProperTrees.{IsProper};
ghost use Rattle.csg_tree.specs.Trees.{plain_tree_of};
ghost use Rattle.scad_ast.specs.Terms.{StatementTerm};
ghost use Rattle.scad_ast.specs.ProgramView.{program_of};
ghost use Rattle.scad_func.specs.View.{IsTableOf, table_in};
ghost use Rattle.scad_func.specs.Definitions.{IsWholeTable};
ghost use Rattle.scad_design.specs.View.{plain_of};
ghost use Rattle.scad_meaning.specs.Meaning.{root_or_union};
ghost use Rattle.scad_meaning.specs.Sources.{IsMeaning, a_tree, IsMeaningStop, HoldsFault};
ghost use Rattle.scad_instance_rules.specs.Listing.{AreInstancesOf};
ghost use Rattle.scad_eval.specs.Programs.{MeetsDesign, IsFirstTable};

use crate::evaluator::InstanceEvaluator;
use csg_tree::{CsgTree, Op};
use plane_predicate::Unit;
use scad_ast::Program;
use scad_design::{Design, balanced_join, place};
use scad_func::{Evaluation, Source};
use scad_instance_rules::{InstanceTable, MemberResults, Position};
use scad_meaning::programs_mean_proper_trees;
use scad_scope::Scopes;
use std::alloc::Global;
use text_place::{NoMemory, Stop};

/// The tree of a program in world position, in a unit, or its first fault, which stands at one of the program's places.
pub fn evaluate(alloc: Global, program: &Program, unit: Unit) -> Result<CsgTree, Stop>
    ensures tree { IfOk result (λ tree. IsMeaning unit (program_of program.now)
        (a_tree (plain_tree_of tree))) }
    ensures stop { IfErr result (IsMeaningStop unit (program_of program.now)) }
    ensures place { IfErr result (HoldsFault (program_of program.now)) }
    ensures proper { IfOk result (λ tree. IsProper (plain_tree_of tree)) }
{
    // Called for its law; does nothing when it runs: the tree that a program means is proper.
    programs_mean_proper_trees();
    let source = Source::of(alloc, program)?;
    let instances = InstanceTable::of(alloc, &source)?;
    let mut scopes = Scopes::new(alloc)?;
    let design = design_of(alloc, &source, &instances, &mut scopes, unit)?;
    place(alloc, &design)
}

// The design of a program, whose block is the first one.
fn design_of(
    alloc: Global,
    source: &Source<'_>,
    instances: &InstanceTable<'_>,
    scopes: &mut Scopes,
    unit: Unit,
) -> Result<Design, Stop>
    requires table { IsFirstTable scopes.old }
    requires whole { IsWholeTable (table_in source.now) }
    requires listed { AreInstancesOf (table_in source.now) instances.now }
    ensures { (program : List StatementTerm) → IsTableOf source.now program →
        MeetsDesign unit program result }
{
    let mut evaluator = InstanceEvaluator {
        evaluation: Evaluation {
            alloc,
            source,
            scopes,
            scope: 0,
            calls: 0,
            depth: 0,
            turns: 0,
        },
        unit,
        leaves: 0,
    };
    evaluator.evaluation.enter_body(0, 0)?;
    let position = Position {
        instances,
        inside: None,
        under_root: false,
    };
    let members = evaluator.members_in_scope(position, 0, None)?;
    Ok(first_or_all(alloc, members)?)
}

// The first design that is marked `!`, or else all.
fn first_or_all(alloc: Global, members: MemberResults) -> Result<Design, NoMemory>
    ensures { IfOk result (λ design. plain_of design ≡ root_or_union (option_map plain_of members.root)
        (map plain_of members.designs.items)) }
{
    let MemberResults { designs, root } = members;
    match root {
        Some(design) => Ok(design),
        None => balanced_join(alloc, Op::Union, designs),
    }
}
