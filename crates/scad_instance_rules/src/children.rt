//! Children of calls.

ghost use Rattle.std.specs.Prelude.{◌≡◌, IfOk, is_some, codes, not, ◌||◌, ◌&&◌};
ghost use Rattle.std.specs.Str.{bytes_eq};
ghost use Rattle.scad_ast.specs.StatementView.{instance_of};
ghost use Rattle.scad_func.specs.Meaning.{visible_module};
ghost use Rattle.scad_func.specs.View.{table_in};
ghost use Rattle.scad_func.specs.Definitions.{statements_at, IsWholeTable};
ghost use Rattle.scad_func.specs.Evaluations.{env_here};
ghost use Rattle.scad_meaning.specs.Bodies.{children_in, is_child};
ghost use Rattle.scad_meaning.specs.Meaning.{candidates_of, instances_chosen};
ghost use Rattle.scad_modules.specs.View.{chosen_of};
ghost use Rattle.scad_instance_rules.specs.Choosing.{chosen_seen, IsSafeChosen};
ghost use Rattle.scad_instance_rules.specs.Counting.{CountsChildren};
ghost use Rattle.scad_instance_rules.specs.Listing.{AreInstancesOf};
ghost use Rattle.scad_instance_rules.specs.Positions.{HaveBodyBlocks};

use crate::chosen::chosen_among;
use crate::numbered::NumberedInstance;
use crate::table::InstanceTable;
use scad_ast::{Core, Instance};
use scad_func::Evaluation;
use scad_modules::Chosen;
use scad_value::{BoundedValue, Value};
use text_place::NoMemory;

// The most children of a call: their number is one of the language's.
const CHILDREN: usize = (1 << 53) - 1;

/// Whether an instance of the current scope is a child: `echo` and `assert` are none, where the source defines no
/// module of that name.
pub fn is_child(evaluation: &Evaluation<'_, '_>, instance: &Instance) -> bool
    ensures { result ≡ is_child (env_here evaluation.now) (instance_of instance.now) }
{
    match &instance.core {
        Core::Call(_, name, _, _) => !has_no_geometry(evaluation, name.items()),
        Core::If(_, _, _)
        | Core::IfElse(_, _, _, _)
        | Core::For(_, _, _)
        | Core::IntersectionFor(_, _, _) => true,
    }
}

// Whether a name is `echo` or `assert`, and no module of the source, seen from the scope.
fn has_no_geometry(evaluation: &Evaluation<'_, '_>, name: &[u8]) -> bool
    ensures { result ≡ ((bytes_eq name.now (codes "echo") || bytes_eq name.now (codes "assert"))
        && not (is_some (visible_module (env_here evaluation.now) name.now))) }
{
    (name == b"echo".as_slice() || name == b"assert".as_slice()) && has_no_module(evaluation, name)
}

// Whether the source defines no module of a name, seen from the scope.
fn has_no_module(evaluation: &Evaluation<'_, '_>, name: &[u8]) -> bool
    ensures { result ≡ not (is_some (visible_module (env_here evaluation.now) name.now)) }
{
    evaluation.module(name).is_none()
}

// The children among the instances of a block, in its scope: all but calls of `echo` and of `assert`, each where the source
// defines no module of that name.
fn children<'t, 'a>(
    evaluation: &Evaluation<'_, '_>,
    instances: &'t InstanceTable<'a>,
    block: u32,
) -> &'t [NumberedInstance<'a>]
    requires { AreInstancesOf (table_in evaluation.now.source.now) instances.now }
    ensures { let table = table_in evaluation.now.source.now in
        HaveBodyBlocks table (children_in (env_here evaluation.now)
        (statements_at table block)) result.now }
{
    let echo = has_no_module(evaluation, b"echo");
    let assert = has_no_module(evaluation, b"assert");
    instances.children(block, echo, assert)
}

/// How many children a call has whose body is a block, in a scope of it inside the one in which is evaluated.
pub fn count_children(
    evaluation: &mut Evaluation<'_, '_>,
    instances: &InstanceTable<'_>,
    block: u32,
) -> Result<BoundedValue, NoMemory>
    requires whole { IsWholeTable (table_in evaluation.old.source.now) }
    requires listed { AreInstancesOf (table_in evaluation.old.source.now) instances.now }
    ensures { CountsChildren (statements_at (table_in evaluation.old.source.now) block)
        evaluation.old evaluation.new result }
{
    let outer = evaluation.scope;
    let before = evaluation.enter_body(outer, block)?;
    let count = children(evaluation, instances, block).len();
    evaluation.leave(before);
    if count > CHILDREN {
        return Err(NoMemory);
    }
    Ok(BoundedValue {
        value: Value::Number(count as i64),
    })
}

// The instances of a block among which a call of `children` chooses: its children by an index, and else all that are evaluated,
// as in any other body.
fn candidates<'t, 'a>(
    evaluation: &Evaluation<'_, '_>,
    instances: &'t InstanceTable<'a>,
    block: u32,
    chosen: &Chosen,
) -> &'t [NumberedInstance<'a>]
    requires { AreInstancesOf (table_in evaluation.now.source.now) instances.now }
    ensures { let table = table_in evaluation.now.source.now in
        HaveBodyBlocks table (candidates_of (env_here evaluation.now) (chosen_of chosen.now)
        (statements_at table block)) result.now }
{
    match chosen {
        Chosen::All => instances.instances(block),
        Chosen::Numbered(_) | Chosen::Range { .. } => children(evaluation, instances, block),
    }
}

/// The instances of a block that are evaluated, or the chosen ones among them.
pub fn chosen_instances<'a>(
    evaluation: &Evaluation<'_, '_>,
    instances: &InstanceTable<'a>,
    block: u32,
    chosen: Option<&Chosen>,
) -> Result<Vec<NumberedInstance<'a>>, NoMemory>
    requires listed { AreInstancesOf (table_in evaluation.now.source.now) instances.now }
    requires safe { IsSafeChosen chosen }
    ensures { let table = table_in evaluation.now.source.now in
        let wanted = instances_chosen (env_here evaluation.now) (chosen_seen chosen.entry)
        (statements_at table block) in
        IfOk result (λ found. HaveBodyBlocks table wanted found.items) }
{
    let alloc = evaluation.alloc;
    match chosen {
        None => Ok(Vec::from_slice(alloc, instances.instances(block))?),
        Some(chosen) => chosen_among(
            alloc,
            candidates(evaluation, instances, block, chosen),
            chosen,
        ),
    }
}
