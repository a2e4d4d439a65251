//! Makes the scope of a block.

ghost use Rattle.std.specs.Prelude.{◌≡◌, IfOk, option_map};
ghost use Rattle.scad_scope.specs.Rows.{row_of_block, local_row};
ghost use Rattle.scad_scope.specs.Names.{empty_row};
ghost use Rattle.scad_definitions.specs.Tables.{block_table_in};
ghost use Rattle.scad_scope.specs.View.{row_of_scope};
ghost use Rattle.scad_definitions.specs.TextView.{locals_of};

use crate::table::Scope;
use crate::variables::Variables;
use scad_definitions::{Blocks, LocalDefinitions};
use std::alloc::Global;
use std::rc::Rc;
use text_place::NoMemory;

/// A new scope of a block, inside another one. A block that isn't there has no definitions.
pub(crate) fn scope_of_block(
    alloc: Global,
    outer: u32,
    blocks: &Blocks<'_>,
    block: u32,
) -> Result<Scope, NoMemory>
    ensures { IfOk result (λ s. row_of_scope s ≡ row_of_block outer
        (block_table_in blocks.now) block) }
{
    if block as usize >= blocks.count() {
        return Ok(empty(alloc, outer));
    }
    with_definitions(alloc, outer, blocks.local(block))
}

/// A new scope without definitions, inside another one.
pub(crate) fn empty(alloc: Global, outer: u32) -> Scope
    ensures { row_of_scope result ≡ empty_row outer }
{
    Scope {
        variables: Variables::new(alloc, None),
        definitions: None,
        outer,
        call: None,
    }
}

// A new scope that shares the definitions of a block.
fn with_definitions(
    alloc: Global,
    outer: u32,
    local: &LocalDefinitions<'_>,
) -> Result<Scope, NoMemory>
    ensures { IfOk result (λ s. row_of_scope s ≡ local_row outer (locals_of local.now)) }
{
    let definitions = shared(&local.definitions)?;
    let table = shared(&local.names)?;
    Ok(Scope {
        variables: Variables::new(alloc, table),
        definitions,
        outer,
        call: None,
    })
}

// One owner more of what is shared, where it is there.
fn shared<T: Drop>(owned: &Option<Rc<T>>) -> Result<Option<Rc<T>>, NoMemory>
    ensures { IfOk result (λ copy. option_map (λ rc. rc.value) copy
        ≡ option_map (λ rc. rc.value) owned.now) }
{
    match owned {
        Some(owned) => Ok(Some(owned.clone()?)),
        None => Ok(None),
    }
}
