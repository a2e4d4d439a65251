//! What stands in a block, and functions and modules as the source writes them.

ghost use Rattle.std.specs.Prelude.{◌≡◌, ◌++◌, ◌∷◌, [], OnOk};
ghost use Rattle.scad_definitions.specs.Names.{oldest_first};
ghost use Rattle.scad_definitions.specs.Blocks.{no_locals};
ghost use Rattle.scad_definitions.specs.TextView.{locals_of, locals_under_way};

use crate::{NameList, NameTable};
use scad_ast::{Body, Expr, Instance, Params, Statements};
use std::alloc::Global;
use std::rc::Rc;
use text_place::{Bytes, CompactBytes, NoMemory, Place};

/// What stands in a block: nothing, statements, or the one instance that a body is.
#[derive(Clone, Copy)]
pub enum BlockText<'a> {
    Nothing,
    Statements(&'a Statements),
    Single(&'a Instance),
}

/// A function of the source: its parameters and its value.
#[derive(Clone, Copy)]
pub struct Function<'a> {
    pub params: &'a Params,
    pub value: &'a Expr,
}

/// A module of the source: its parameters, its body and the number of the body's block.
#[derive(Clone, Copy)]
pub struct Module<'a> {
    pub params: &'a Params,
    pub body: &'a Body,
    pub block: u32,
}

/// An assignment of a block: the place of the first one to its name, and the expression of the last.
#[derive(Clone, Copy)]
pub struct Assignment<'a> {
    pub place: Place,
    /// Whether the name is a special one, without its `$`.
    pub special: bool,
    pub name: &'a [u8],
    pub value: &'a Expr,
}

/// The functions and the modules of a block by name, each with its number, in the order of the text.
#[derive(Drop)]
pub struct Definitions {
    pub functions: NameList<u32>,
    pub modules: NameList<u32>,
}

/// What stands in a block and in no block inside it, while the block is walked through.
#[derive(Drop)]
pub(crate) struct LocalsUnderWay<'a> {
    pub(crate) definitions: Definitions,
    /// The assignments, each name once.
    pub(crate) assignments: Vec<Assignment<'a>>,
}

/// What stands in a block and in no block inside it, in the order of the text. Scopes of the block share its
/// definitions, which are indexed once.
#[derive(Drop)]
pub struct LocalDefinitions<'a> {
    /// None where a block has no function and no module.
    pub definitions: Option<Rc<Definitions>>,
    /// The names that a scope of the block is expected to bind, in order, where there are any.
    pub names: Option<Rc<NameTable>>,
    /// The assignments, each name once.
    pub assignments: Vec<Assignment<'a>>,
}

/// A block of a program.
#[derive(Drop)]
pub(crate) struct Entry<'a> {
    pub(crate) text: BlockText<'a>,
    pub(crate) local: LocalDefinitions<'a>,
    /// The number of the first block behind it and all that stands in it.
    pub(crate) block_end: u32,
}

impl<'a> LocalsUnderWay<'a> {
    ghost use Rattle.std.specs.Prelude.{IfOk};

    /// Nothing yet.
    pub(crate) fn new(alloc: Global) -> LocalsUnderWay<'a>
        ensures { locals_under_way result ≡ no_locals }
    {
        LocalsUnderWay {
            definitions: Definitions {
                functions: NameList::new(alloc),
                modules: NameList::new(alloc),
            },
            assignments: Vec::new(alloc),
        }
    }

    /// The same, with definitions that scopes can share.
    pub(crate) fn shared(self, alloc: Global) -> Result<LocalDefinitions<'a>, NoMemory>
        ensures { IfOk result (λ local. locals_of local ≡ locals_under_way self.entry) }
    {
        let LocalsUnderWay {
            definitions,
            assignments,
        } = self;
        let definitions = Some(Rc::new(alloc, definitions)?);
        let names = NameTable::of_assignments(alloc, &assignments)?;
        let names = Some(Rc::new(alloc, names)?);
        Ok(LocalDefinitions {
            definitions,
            names,
            assignments,
        })
    }
}

impl<'a> LocalDefinitions<'a> {
    /// A block in which nothing stands.
    pub(crate) fn new(alloc: Global) -> LocalDefinitions<'a>
        ensures { locals_of result ≡ no_locals }
    {
        LocalDefinitions {
            definitions: None,
            names: None,
            assignments: Vec::new(alloc),
        }
    }
}

/// A function or a module more of a block, with its number.
#[tactic(auto, using(crate::proofs::Places::oldest_pushed))]
pub(crate) fn define(
    names: &mut NameList<u32>,
    alloc: Global,
    name: &CompactBytes,
    number: u32,
) -> Result<(), NoMemory>
    ensures { OnOk result (oldest_first names.new ≡ oldest_first names.old
        ++ (name.now, number) ∷ []) }
{
    let name = Bytes::copy_of(alloc, name.items())?;
    names.push(alloc, name, number)
}
