//! The values of the language, and lists of them.

ghost use Rattle.std.specs.Prelude.{◌≡◌, ◌-◌, ◌^◌, min, IfOk};
ghost use Rattle.scad_value.specs.Values.{element_count, element_count_in, nesting_of, nesting_in, truth_of, vals_from, ListVal, is_small, is_bounded, has_small_numbers, have_small_numbers};
ghost use Rattle.scad_value.specs.View.{val_of, vals_of, vals_in};

use crate::limits::{TOO_LARGE, TOO_MANY_PARTS};
use std::alloc::Global;
use text_place::{Bytes, NoMemory};

/// A value.
#[cycle(value)]
#[derive(Drop)]
pub enum Value {
    Number(i64),
    Truth(bool),
    /// Bytes of a text.
    Text(Bytes),
    List(Values),
    /// The numbers from one on, by a step, up to another one.
    Range { from: i64, by: i64, upto: i64 },
    Undef,
}

/// Values, which contracts see as a list.
#[cycle(value)]
#[derive(Drop)]
pub struct Values {
    pub(crate) items: Vec<Value>,
}

impl Values {
    /// The values of a vector.
    pub fn of(items: Vec<Value>) -> Self
        ensures { vals_of result ≡ vals_in items.items }
    {
        Values { items }
    }

    /// The vector of the values, which are moved and not copied.
    pub fn into_items(self) -> Vec<Value>
        ensures { vals_in result.items ≡ vals_of self }
    {
        self.items
    }

    /// The values in order.
    pub fn items(&self) -> &[Value]
        ensures { vals_in result.now ≡ vals_of self.now }
    {
        &self.items
    }

    // Whether there is an item, so that the list counts as true.
    fn is_filled(&self) -> bool
        ensures { result ≡ truth_of (ListVal (vals_from (vals_of self.now))) }
    {
        !self.items.is_empty()
    }

    // Copies of the items in order.
    #[cycle(copy)]
    fn copy(&self, alloc: Global) -> Result<Values, NoMemory>
        ensures { IfOk result (λ vs. vals_of vs ≡ vals_of self.now) }
    {
        let mut items = Vec::new(alloc);
        for value in &self.items {
            items.push(value.copy(alloc)?)?;
        }
        Ok(Values { items })
    }

    // The elements of all items together, up to 2^64 - 1.
    #[cycle(parts)]
    fn parts(&self) -> u64
        ensures { result ≡ min (element_count_in (vals_from (vals_of self.now))) (2 ^ 64 - 1) }
    {
        let mut count: u64 = 0;
        for value in &self.items {
            count = count.saturating_add(value.parts());
        }
        count
    }

    // How deep the deepest item is, up to 2^64 - 1.
    #[cycle(nesting)]
    fn nesting(&self) -> u64
        ensures { result ≡ min (nesting_in (vals_from (vals_of self.now))) (2 ^ 64 - 1) }
    {
        let mut deepest: u64 = 0;
        for value in &self.items {
            deepest = deepest.max(value.nesting());
        }
        deepest
    }

    // Whether all items have only numbers of the profile.
    #[cycle(small)]
    fn have_small_numbers(&self) -> bool
        ensures { result ≡ have_small_numbers (vals_from (vals_of self.now)) }
    {
        for value in &self.items {
            if !value.has_small_numbers() {
                return false;
            }
        }
        true
    }
}

impl Value {
    /// Whether its numbers are at most 2^53 - 1 in size and it has fewer than 2^20 elements, as the
    /// operators want it.
    pub fn is_bounded(&self) -> bool
        ensures { result ≡ is_bounded (val_of self.now) }
    {
        self.has_small_numbers() && self.parts() < TOO_MANY_PARTS
    }

    // Whether it has only numbers of the profile.
    #[cycle(small)]
    fn has_small_numbers(&self) -> bool
        ensures { result ≡ has_small_numbers (val_of self.now) }
    {
        match self {
            Value::Number(n) => small(*n),
            Value::Range { from, by, upto } => small(*from) && small(*by) && small(*upto),
            Value::List(values) => values.have_small_numbers(),
            _ => true,
        }
    }

    /// An equal value.
    #[cycle(copy)]
    pub fn copy(&self, alloc: Global) -> Result<Value, NoMemory>
        ensures { IfOk result (λ v. val_of v ≡ val_of self.now) }
    {
        match self {
            Value::Number(n) => Ok(Value::Number(*n)),
            Value::Truth(truth) => Ok(Value::Truth(*truth)),
            Value::Text(bytes) => Ok(Value::Text(Bytes::of(bytes.items().to_vec(alloc)?))),
            Value::List(values) => Ok(Value::List(values.copy(alloc)?)),
            Value::Range { from, by, upto } => Ok(Value::Range {
                from: *from,
                by: *by,
                upto: *upto,
            }),
            Value::Undef => Ok(Value::Undef),
        }
    }

    /// The number of elements: 1 for itself, and for a list those of its items besides. It stops at 2^64 - 1.
    #[cycle(parts)]
    pub fn parts(&self) -> u64
        ensures { result ≡ min (element_count (val_of self.now)) (2 ^ 64 - 1) }
    {
        match self {
            Value::List(values) => values.parts().saturating_add(1),
            _ => 1,
        }
    }

    /// How many lists are in one another, up to 2^64 - 1.
    #[cycle(nesting)]
    pub(crate) fn nesting(&self) -> u64
        ensures { result ≡ min (nesting_of (val_of self.now)) (2 ^ 64 - 1) }
    {
        match self {
            Value::List(values) => values.nesting().saturating_add(1),
            _ => 0,
        }
    }
}

/// What a value counts as: all are true but `false`, 0, the empty text, the empty list and undef.
pub fn truth(of: &Value) -> bool
    ensures { result ≡ truth_of (val_of of.now) }
{
    match of {
        Value::Number(n) => *n != 0,
        Value::Truth(truth) => *truth,
        Value::Text(bytes) => !bytes.items().is_empty(),
        Value::List(values) => values.is_filled(),
        Value::Range { .. } => true,
        Value::Undef => false,
    }
}

// Whether a number is one of the profile: at most 2^53 - 1 in size.
fn small(n: i64) -> bool
    ensures { result ≡ is_small n }
{
    n.unsigned_abs() < TOO_LARGE
}
