//! The instances of all blocks of a source, listed once: to evaluate a body, or to find a child, walks through no text again.

ghost use Rattle.std.specs.Prelude.{◌≡◌, IfOk, codes, ◌||◌, ◌&&◌};
ghost use Rattle.std.specs.List.{filter};
ghost use Rattle.std.specs.Str.{bytes_eq};
ghost use Rattle.scad_ast.specs.StatementView.{instance_of};
ghost use Rattle.scad_definitions.specs.Blocks.{BlockTable};
ghost use Rattle.scad_func.specs.Definitions.{statements_at, IsWholeTable};
ghost use Rattle.scad_func.specs.View.{table_in};
ghost use Rattle.scad_meaning.specs.Bodies.{evaluated_instances};
ghost use Rattle.scad_instance_rules.specs.Positions.{HaveBodyBlocks};
ghost use Rattle.scad_instance_rules.specs.Listing.{is_child_where, is_numbered_child, children_listed, AreChildLists, ListsInstances, AreInstancesOf};

use crate::numbered::{NumberedInstance, numbered_instances};
use scad_ast::{Core, Instance};
use scad_func::Source;
use std::alloc::Global;
use text_place::NoMemory;

/// The instances of each block of a source that are evaluated, by the block's number.
#[derive(Drop)]
pub struct InstanceTable<'a> {
    pub(crate) blocks: Vec<BlockInstances<'a>>,
}

/// The instances of a block that are evaluated, in order. Where one is a call of `echo` or of `assert`, also those that
/// are children.
#[derive(Drop)]
pub(crate) struct BlockInstances<'a> {
    pub(crate) all: Vec<NumberedInstance<'a>>,
    pub(crate) children: Option<Box<ChildLists<'a>>>,
}

/// Instances without calls of `echo`, without calls of `assert`, and without either: which are children depends on the
/// modules that are seen from the scope.
#[derive(Drop)]
pub(crate) struct ChildLists<'a> {
    pub(crate) without_echo: Vec<NumberedInstance<'a>>,
    pub(crate) without_assert: Vec<NumberedInstance<'a>>,
    pub(crate) without_either: Vec<NumberedInstance<'a>>,
}

impl<'a> InstanceTable<'a> {
    /// Each block of a source is walked through once.
    pub fn of(alloc: Global, source: &Source<'a>) -> Result<InstanceTable<'a>, NoMemory>
        requires { IsWholeTable (table_in source.now) }
        ensures { IfOk result (AreInstancesOf (table_in source.now)) }
    {
        let count = source.blocks.count();
        // No program has enough blocks to run out of numbers.
        if count > u32::MAX as usize {
            return Err(NoMemory);
        }
        let mut blocks = Vec::new(alloc);
        for block in 0..count {
            let lists = block_instances(alloc, source, block as u32)?;
            blocks.push(lists)?;
        }
        Ok(InstanceTable { blocks })
    }

    /// The instances of a block that are evaluated, in order. A block that isn't there has none.
    pub(crate) fn instances(&self, block: u32) -> &[NumberedInstance<'a>]
        ensures { (table : BlockTable) → AreInstancesOf table self.now →
            HaveBodyBlocks table (evaluated_instances (statements_at table block)) result.now }
    {
        if (block as usize) < self.blocks.len() {
            return &self.blocks[block as usize].all;
        }
        &[]
    }

    /// Those of them that are children, where calls of `echo` are none, or those of `assert`.
    pub(crate) fn children(&self, block: u32, echo: bool, assert: bool) -> &[NumberedInstance<'a>]
        ensures { (table : BlockTable) → AreInstancesOf table self.now →
            HaveBodyBlocks table (filter (is_child_where echo assert)
            (evaluated_instances (statements_at table block))) result.now }
    {
        if (block as usize) < self.blocks.len() {
            return self.blocks[block as usize].children(echo, assert);
        }
        &[]
    }
}

impl<'a> BlockInstances<'a> {
    // The children, where calls of `echo` are none, or those of `assert`.
    fn children(&self, echo: bool, assert: bool) -> &[NumberedInstance<'a>]
        ensures { result.now ≡ children_listed echo assert self.now.all.items self.now.children }
    {
        match &self.children {
            None => &self.all,
            Some(lists) => match (echo, assert) {
                (true, true) => &lists.without_either,
                (true, false) => &lists.without_echo,
                (false, true) => &lists.without_assert,
                (false, false) => &self.all,
            },
        }
    }
}

// The lists of a block. Their time is that of the block's own statements.
fn block_instances<'a>(
    alloc: Global,
    source: &Source<'a>,
    block: u32,
) -> Result<BlockInstances<'a>, NoMemory>
    requires { IsWholeTable (table_in source.now) }
    ensures { let table = table_in source.now in
        IfOk result (ListsInstances table (statements_at table block)) }
{
    let all = numbered_instances(alloc, source, block)?;
    let children = child_lists(alloc, &all)?;
    Ok(BlockInstances { all, children })
}

// The lists of children among instances, where not all are.
#[tactic(auto, using(crate::proofs::Listing::no_lists, crate::proofs::Listing::three_lists))]
fn child_lists<'a>(
    alloc: Global,
    all: &[NumberedInstance<'a>],
) -> Result<Option<Box<ChildLists<'a>>>, NoMemory>
    ensures { IfOk result (AreChildLists all.now) }
{
    let without_either = children_among(alloc, all, true, true)?;
    if without_either.len() == all.len() {
        return Ok(None);
    }
    let lists = ChildLists {
        without_echo: children_among(alloc, all, true, false)?,
        without_assert: children_among(alloc, all, false, true)?,
        without_either,
    };
    Ok(Some(Box::new(alloc, lists)?))
}

// The children among instances, where calls of `echo` are none, or those of `assert`.
fn children_among<'a>(
    alloc: Global,
    all: &[NumberedInstance<'a>],
    echo: bool,
    assert: bool,
) -> Result<Vec<NumberedInstance<'a>>, NoMemory>
    ensures { IfOk result (λ found. found.items
        ≡ filter (is_numbered_child echo assert) all.now) }
{
    let mut found = Vec::new(alloc);
    'each: for numbered in all {
        if is_child_where(numbered.instance, echo, assert) {
            found.push(*numbered)?;
        }
    }
    Ok(found)
}

// Whether an instance is a child, where calls of `echo` are none, or those of `assert`.
fn is_child_where(instance: &Instance, echo: bool, assert: bool) -> bool
    ensures { result ≡ is_child_where echo assert (instance_of instance.now) }
{
    match &instance.core {
        Core::Call(_, name, _, _) => !is_either(name.items(), echo, assert),
        Core::If(_, _, _)
        | Core::IfElse(_, _, _, _)
        | Core::For(_, _, _)
        | Core::IntersectionFor(_, _, _) => true,
    }
}

// Whether a name is `echo`, where that counts, or `assert`, where that does.
fn is_either(name: &[u8], echo: bool, assert: bool) -> bool
    ensures { result ≡ ((echo && bytes_eq name.now (codes "echo"))
        || (assert && bytes_eq name.now (codes "assert"))) }
{
    (echo && name == b"echo".as_slice()) || (assert && name == b"assert".as_slice())
}
