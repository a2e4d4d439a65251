//! `len` and `concat`.

ghost use Rattle.std.specs.Prelude.{◌≡◌, ◌++◌, Ok, IfOk, IfErr, OnOk, false};
ghost use Rattle.scad_value.specs.Values.{vals_from, count_of, ListVal};
ghost use Rattle.scad_value.specs.Operators.{value_or_long_list};
ghost use Rattle.scad_value.specs.View.{val_of, vals_of, vals_in, MeetsAnswer};
ghost use Rattle.scad_builtin.specs.Builtins.{length_of, items_as, joined_items, is_list};

use crate::number::count;
use scad_value::{Value, ValueStop, Values, value_or_long_list};
use std::alloc::Global;
use text_place::{FaultKind, NoMemory};

/// How many items a list has, or bytes a text.
pub(crate) fn length(value: &Value) -> Result<Value, ValueStop>
    ensures { MeetsAnswer result (length_of (val_of value.now)) }
{
    match value {
        Value::List(values) => Ok(Value::Number(count(item_count(values))?)),
        Value::Text(bytes) => Ok(Value::Number(count(bytes.items().len() as u64)?)),
        _ => Err(ValueStop::Kind(FaultKind::TypeMismatch)),
    }
}

// How many items a list has.
fn item_count(values: &Values) -> u64
    ensures { result ≡ count_of (vals_from (vals_of values.now)) }
{
    values.items().len() as u64
}

/// The list of the items of each list, and of another value as one item. They are moved.
pub(crate) fn concat(alloc: Global, values: Values) -> Result<Value, ValueStop>
    ensures { MeetsAnswer result (value_or_long_list
        (Ok (ListVal (vals_from (joined_items (vals_from (vals_of values))))))) }
{
    Ok(value_or_long_list(list(joined(alloc, values.into_items())?))?)
}

// The value of a list of these items.
fn list(items: Vec<Value>) -> Value
    ensures { val_of result ≡ ListVal (vals_from (vals_in items.items)) }
{
    Value::List(Values::of(items))
}

// The items of all values, one behind the other.
fn joined(alloc: Global, values: Vec<Value>) -> Result<Vec<Value>, NoMemory>
    ensures { IfOk result (λ items. vals_in items.items ≡ joined_items
        (vals_from (vals_in values.items))) }
{
    let mut items = Vec::new(alloc);
    for value in values {
        append(&mut items, value)?;
    }
    Ok(items)
}

// The items of a value behind those that are there.
fn append(items: &mut Vec<Value>, value: Value) -> Result<(), NoMemory>
    ensures { OnOk result (vals_in items.new.items ≡ vals_in items.old.items ++ items_as
        (val_of value)) }
{
    match into_list(value) {
        Ok(values) => {
            let mut more = values.into_items();
            items.append(&mut more)?;
        }
        Err(value) => items.push(value)?,
    }
    Ok(())
}

// The values of a list, or else the value itself.
fn into_list(value: Value) -> Result<Values, Value>
    ensures list { IfOk result (λ values. val_of value ≡ ListVal (vals_from (vals_of values))) }
    ensures other { IfErr result (λ other. (other ≡ value) × (is_list (val_of value) ≡ false)) }
{
    match value {
        Value::List(values) => Ok(values),
        other => Err(other),
    }
}
