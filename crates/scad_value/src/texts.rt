//! Makes the value of a text.

ghost use Rattle.std.specs.Prelude.{◌≡◌, IfOk};
ghost use Rattle.scad_value.specs.Values.{TextVal};
ghost use Rattle.scad_value.specs.BoundedView.{bounded_val};

use crate::{BoundedValue, Value};
use std::alloc::Global;
use text_place::{Bytes, CompactBytes, NoMemory};

/// A copy of a text, as a value.
pub fn text_value(alloc: Global, bytes: &CompactBytes) -> Result<BoundedValue, NoMemory>
    ensures { IfOk result (λ v. bounded_val v ≡ TextVal bytes.now) }
{
    Ok(BoundedValue {
        value: Value::Text(Bytes::of(bytes.items().to_vec(alloc)?)),
    })
}
