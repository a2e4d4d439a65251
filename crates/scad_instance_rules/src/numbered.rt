//! The instances of a block with the numbers of their bodies' blocks, so that a body is entered by its number. Functions,
//! modules and bodies are passed over by where their blocks end, and not walked through.

ghost use Rattle.std.specs.Prelude.{◌≡◌, ◌<◌, ◌+◌, ◌++◌, ◌∷◌, [], length, map, IfOk, OnOk};
ghost use Rattle.std.specs.List.{All, filter};
ghost use Rattle.scad_ast.specs.Terms.{statements_from};
ghost use Rattle.scad_ast.specs.StatementView.{core_of, instance_of, statement_of, statements_of};
ghost use Rattle.scad_definitions.specs.Blocks.{BlockTable, StandAt, entities_in, entities_of, entities_of_instance, count_blocks};
ghost use Rattle.scad_func.specs.Definitions.{statements_at, IsWholeTable};
ghost use Rattle.scad_func.specs.View.{table_in};
ghost use Rattle.scad_meaning.specs.Bodies.{instances_of, evaluated_instances, is_switched_on};
ghost use Rattle.scad_instance_rules.specs.Positions.{term_of_numbered, HasBlocks, HaveBodyBlocks, AddsInstances, PassesOver, BlocksBegin, has_else};

use crate::modifiers::is_on;
use scad_ast::{Core, Instance, Statement, Statements};
use scad_func::Source;
use scad_scope::BlockText;
use std::alloc::Global;
use text_place::NoMemory;

/// An instance with the numbers of the blocks of its bodies: of the first one, and of the one behind `else`,
/// which is any number where there is none.
#[derive(Clone, Copy)]
pub struct NumberedInstance<'a> {
    pub instance: &'a Instance,
    pub block: u32,
    pub other: u32,
}

/// The instances of a block that are evaluated, in order, those of bare blocks too, with the numbers of their
/// bodies' blocks. A block that isn't there has none. Its time is that of the block's own statements.
pub(crate) fn numbered_instances<'a>(
    alloc: Global,
    source: &Source<'a>,
    block: u32,
) -> Result<Vec<NumberedInstance<'a>>, NoMemory>
    requires { IsWholeTable (table_in source.now) }
    ensures { let table = table_in source.now in
        IfOk result (λ found. HaveBodyBlocks table
        (evaluated_instances (statements_at table block)) found.items) }
{
    let mut found = Vec::new(alloc);
    if (block as usize) < source.blocks.count() {
        add_block(source, block, &mut found)?;
    }
    Ok(found)
}

// Adds the instances of a block that is there.
fn add_block<'a>(
    source: &Source<'a>,
    block: u32,
    found: &mut Vec<NumberedInstance<'a>>,
) -> Result<(), NoMemory>
    requires whole { IsWholeTable (table_in source.now) }
    requires there { block < length (table_in source.now).entries }
    ensures { let table = table_in source.now in
        AddsInstances table (evaluated_instances (statements_at table block)) found.old.items
        found.new.items result }
{
    // What stands in a block begins behind it. No program has enough blocks to run out of numbers.
    let Some(first) = block.checked_add(1) else {
        return Err(NoMemory);
    };
    match source.blocks.text(block) {
        BlockText::Nothing => Ok(()),
        BlockText::Statements(statements) => {
            add_all(source, statements, first, found)?;
            Ok(())
        }
        BlockText::Single(instance) => {
            add_instance(source, instance, first, found)?;
            Ok(())
        }
    }
}

// Adds the instances of statements whose blocks begin at a number, and answers the number behind them.
#[cycle(numbered)]
fn add_all<'a>(
    source: &Source<'a>,
    statements: &'a Statements,
    first: u32,
    found: &mut Vec<NumberedInstance<'a>>,
) -> Result<u32, NoMemory>
    requires whole { IsWholeTable (table_in source.now) }
    requires stand { StandAt (table_in source.now) first
        (entities_in (statements_from (statements_of statements.now))) }
    ensures { let terms = statements_from (statements_of statements.now) in
        PassesOver (table_in source.now) first (entities_in terms)
        (evaluated_instances terms) found.old.items found.new.items result }
{
    let mut next = first;
    'each: for statement in &statements.items {
        next = add(source, statement, next, found)?;
    }
    Ok(next)
}

#[cycle(numbered)]
fn add<'a>(
    source: &Source<'a>,
    statement: &'a Statement,
    first: u32,
    found: &mut Vec<NumberedInstance<'a>>,
) -> Result<u32, NoMemory>
    requires whole { IsWholeTable (table_in source.now) }
    requires stand { StandAt (table_in source.now) first
        (entities_of (statement_of statement.now)) }
    ensures { let term = statement_of statement.now in
        PassesOver (table_in source.now) first (entities_of term)
        (filter is_switched_on (instances_of term)) found.old.items found.new.items result }
{
    match statement {
        Statement::Block(_, statements) => add_all(source, statements, first, found),
        Statement::Instantiation(instance) => add_instance(source, instance, first, found),
        Statement::Module(_, _, _, _, _) => Ok(source.blocks.block_end(first)),
        Statement::Function(_, _, _, _, _) => Ok(source.blocks.block_end(first)),
        Statement::Empty(_) => Ok(first),
        Statement::Assignment(_, _, _) => Ok(first),
        Statement::SpecialAssignment(_, _, _) => Ok(first),
    }
}

fn add_instance<'a>(
    source: &Source<'a>,
    instance: &'a Instance,
    block: u32,
    found: &mut Vec<NumberedInstance<'a>>,
) -> Result<u32, NoMemory>
    requires whole { IsWholeTable (table_in source.now) }
    requires stand { StandAt (table_in source.now) block
        (entities_of_instance (instance_of instance.now)) }
    ensures { let term = instance_of instance.now in
        PassesOver (table_in source.now) block (entities_of_instance term)
        (filter is_switched_on (term ∷ [])) found.old.items found.new.items result }
{
    let numbered = NumberedInstance {
        instance,
        block,
        other: source.blocks.block_end(block),
    };
    add_if_on(numbered, found)?;
    Ok(block_end(source, numbered))
}

// The number behind all blocks of an instance.
fn block_end(source: &Source<'_>, numbered: NumberedInstance<'_>) -> u32
    requires whole { IsWholeTable (table_in source.now) }
    requires begins { BlocksBegin (table_in source.now) numbered }
    ensures { result ≡ numbered.entry.block + count_blocks
        (entities_of_instance (term_of_numbered numbered.entry)) }
{
    if has_else(&numbered.instance.core) {
        source.blocks.block_end(numbered.other)
    } else {
        numbered.other
    }
}

fn has_else(core: &Core) -> bool
    ensures { result ≡ has_else (core_of core.now) }
{
    match core {
        Core::IfElse(_, _, _, _) => true,
        Core::If(_, _, _) => false,
        Core::For(_, _, _) => false,
        Core::IntersectionFor(_, _, _) => false,
        Core::Call(_, _, _, _) => false,
    }
}

fn add_if_on<'a>(
    numbered: NumberedInstance<'a>,
    found: &mut Vec<NumberedInstance<'a>>,
) -> Result<(), NoMemory>
    ensures instances { OnOk result (map term_of_numbered found.new.items ≡ map term_of_numbered
        found.old.items
        ++ filter is_switched_on (term_of_numbered numbered.entry ∷ [])) }
    ensures blocks { (table : BlockTable) → HasBlocks table numbered.entry →
        All (HasBlocks table) found.old.items
        → OnOk result (All (HasBlocks table) found.new.items) }
{
    if is_on(numbered.instance) {
        found.push(numbered)?;
    }
    Ok(())
}
