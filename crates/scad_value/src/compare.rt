//! Whether two values are equal.

ghost use Rattle.std.specs.Prelude.{◌≡◌};
ghost use Rattle.scad_value.specs.Values.{are_same, all_same, vals_from};
ghost use Rattle.scad_value.specs.View.{val_of, vals_of};

use crate::value::{Value, Values};

/// Whether two values have equal kind and elements.
#[cycle(same)]
pub(crate) fn same(left: &Value, right: &Value) -> bool
    ensures { result ≡ are_same (val_of left.now) (val_of right.now) }
{
    match (left, right) {
        (Value::Number(a), Value::Number(b)) => *a == *b,
        (Value::Truth(a), Value::Truth(b)) => *a == *b,
        (Value::Text(a), Value::Text(b)) => a.items() == b.items(),
        (Value::List(a), Value::List(b)) => all_same(a, b),
        (
            Value::Range { from, by, upto },
            Value::Range {
                from: other_from,
                by: other_by,
                upto: other_upto,
            },
        ) => *from == *other_from && *by == *other_by && *upto == *other_upto,
        (Value::Undef, Value::Undef) => true,
        _ => false,
    }
}

// Whether two lists are of one length and their items equal.
#[cycle(same)]
fn all_same(left: &Values, right: &Values) -> bool
    ensures { result ≡ all_same (vals_from (vals_of left.now)) (vals_from (vals_of right.now)) }
{
    if left.items.len() != right.items.len() {
        return false;
    }
    for (i, value) in left.items.iter().enumerate() {
        if !same(value, &right.items[i]) {
            return false;
        }
    }
    true
}
