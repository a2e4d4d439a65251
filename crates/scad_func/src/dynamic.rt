//! Binds special names for the time of a call.

ghost use Rattle.std.specs.Prelude.{IfErr};
ghost use Rattle.scad_func.specs.View.{IsNoMemory, bindings_in};
ghost use Rattle.scad_func.specs.Transitions.{PutsBindings};

use scad_scope::{Scopes, SpecialArgument};
use scad_value::BoundedValue;
use std::alloc::Global;
use text_place::Stop;

/// Gives special names their values, from the first on. `NoMemory` leaves some of them with the older ones as they were.
pub(crate) fn bind_each_special(
    alloc: Global,
    scopes: &mut Scopes,
    dynamic: Vec<SpecialArgument<'_, BoundedValue>>,
) -> Result<(), Stop>
    ensures puts { PutsBindings scopes.old scopes.new result (bindings_in dynamic.entry.items) }
    ensures stop { IfErr result IsNoMemory }
{
    let mut left = dynamic.into_iter();
    'each: while let Some(special) = left.next() {
        if scopes
            .bind_special(alloc, special.name, special.value.value)
            .is_err()
        {
            return Err(Stop::NoMemory);
        }
    }
    Ok(())
}
