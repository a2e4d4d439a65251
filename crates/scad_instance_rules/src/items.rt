//! What a loop goes through.

ghost use Rattle.std.specs.Prelude.{◌≡◌, ◌<◌, [], ◌∷◌, IsTrue, IfSome, MatchOption, option_map};
ghost use Rattle.scad_value.specs.Values.{is_bounded, is_small, ListVal, RangeVal, no_vals, and_val, vals_from, count_of};
ghost use Rattle.scad_value.specs.View.{val_of, vals_of};
ghost use Rattle.scad_value.specs.BoundedView.{bounded_val};
ghost use Rattle.scad_meaning.specs.Loops.{iterated_values, number_vals, numbers_of_range};
ghost use Rattle.scad_instance_rules.specs.BoundedItems.{all_bounded};
ghost use Rattle.scad_instance_rules.specs.Items.{remaining_in, numbers_left};

use crate::ranges::{count_of_range, number_at};
use scad_value::{BoundedValue, Value, Values};
use std::vec::IntoIter;

/// The numbers of a range that are left, from a place on.
#[derive(Drop)]
pub struct Numbers {
    from: i64,
    by: i64,
    count: u64,
    place: u64,
}

impl Numbers {
    /// The numbers from one on, by a step, up to another one.
    pub(crate) fn of_range(from: i64, by: i64, upto: i64) -> Numbers
        requires from { IsTrue (is_small from) }
        requires upto { IsTrue (is_small upto) }
        ensures { numbers_left result ≡ numbers_of_range from by upto }
    {
        Numbers {
            from,
            by,
            count: count_of_range(from, by, upto),
            place: 0,
        }
    }

    /// The next number, where one is left.
    pub(crate) fn next(&mut self) -> Option<i64>
        requires { IsTrue (all_bounded (number_vals (numbers_left self.old))) }
        ensures { MatchOption result ((numbers_left self.old ≡ []) × (numbers_left self.new ≡ []))
            (λ n. numbers_left self.old ≡ n ∷ numbers_left self.new) }
    {
        if self.place >= self.count {
            return None;
        }
        let number = number_at(self.from, self.by, self.place) as i64;
        self.place += 1;
        Some(number)
    }
}

/// The values that are left of a list, or the numbers that are left of a range.
#[derive(Drop)]
pub enum Remaining {
    Listed(IntoIter<Value>),
    Counted(Numbers),
}

impl Remaining {
    fn next(&mut self) -> Option<Value>
        requires { IsTrue (all_bounded (remaining_in self.old)) }
        ensures { MatchOption result ((remaining_in self.old ≡ no_vals) ×
            (remaining_in self.new ≡ no_vals))
            (λ v. remaining_in self.old ≡ and_val (val_of v) (remaining_in self.new)) }
    {
        match self {
            Remaining::Listed(values) => values.next(),
            Remaining::Counted(numbers) => match numbers.next() {
                Some(number) => Some(Value::Number(number)),
                None => None,
            },
        }
    }
}

/// The items that are left of a value, each of them bounded.
#[derive(Drop)]
pub struct Items {
    pub remaining: Remaining,
    ghost bounded: { IsTrue (all_bounded (remaining_in remaining)) },
}

impl Items {
    /// The items of a list, which are moved and not copied, or the numbers of a range. None where a
    /// value has none.
    pub fn of(value: BoundedValue) -> Option<Items>
        ensures { option_map (λ items. remaining_in items.remaining) result ≡ iterated_values
            (bounded_val value) }
    {
        let BoundedValue { value, .. } = value;
        match value {
            Value::List(items) => Some(Items::listed(items)),
            Value::Range { from, by, upto } => Some(Items::counted(from, by, upto)),
            Value::Number(_) | Value::Truth(_) | Value::Text(_) | Value::Undef => None,
        }
    }

    fn listed(values: Values) -> Items
        requires { IsTrue (is_bounded (ListVal (vals_from (vals_of values)))) }
        ensures { remaining_in result.remaining ≡ vals_from (vals_of values) }
    {
        Items {
            remaining: Remaining::Listed(values.into_items().into_iter()),
        }
    }

    fn counted(from: i64, by: i64, upto: i64) -> Items
        requires { IsTrue (is_bounded (RangeVal from by upto)) }
        ensures { remaining_in result.remaining ≡ number_vals (numbers_of_range from by upto) }
    {
        Items {
            remaining: Remaining::Counted(Numbers::of_range(from, by, upto)),
        }
    }

    /// The next item, where one is left.
    pub fn next(&mut self) -> Option<BoundedValue>
        ensures next { MatchOption result ((remaining_in self.old.remaining ≡ no_vals)
            × (remaining_in self.new.remaining ≡ no_vals))
            (λ v. remaining_in self.old.remaining ≡ and_val (bounded_val v)
            (remaining_in self.new.remaining)) }
        ensures fewer { IfSome result (λ _. count_of (remaining_in self.new.remaining)
            < count_of (remaining_in self.old.remaining)) }
    {
        match self.remaining.next() {
            Some(value) => Some(BoundedValue { value }),
            None => None,
        }
    }
}
