//! Makes ranges of their parts.

ghost use Rattle.scad_value.specs.BoundedView.{bounded_val};
ghost use Rattle.scad_value.specs.Answers.{range_of, stepped_range_of};
ghost use Rattle.scad_value.specs.AnswerView.{MeetsAnswerAt};

use crate::{BoundedValue, Value};
use text_place::{FaultKind, Place, Stop};

/// The range of two values.
#[inline(never)]
pub fn range_value(
    from: BoundedValue,
    upto: BoundedValue,
    place: Place,
) -> Result<BoundedValue, Stop>
    ensures { MeetsAnswerAt result (range_of (bounded_val from) (bounded_val upto)) place }
{
    range_between(&from, &upto, place)
}

// The range of two values, which are lent.
fn range_between(
    from: &BoundedValue,
    upto: &BoundedValue,
    place: Place,
) -> Result<BoundedValue, Stop>
    ensures { MeetsAnswerAt result (range_of (bounded_val from.now) (bounded_val upto.now)) place }
{
    match (&from.value, &upto.value) {
        (Value::Number(a), Value::Number(b)) => {
            if *b < *a {
                return Err(FaultKind::RangeOrder.at(place));
            }
            Ok(BoundedValue {
                value: Value::Range {
                    from: *a,
                    by: 1,
                    upto: *b,
                },
            })
        }
        _ => Err(FaultKind::TypeMismatch.at(place)),
    }
}

/// The range of three values.
#[inline(never)]
pub fn stepped_range_value(
    from: BoundedValue,
    by: BoundedValue,
    upto: BoundedValue,
    place: Place,
) -> Result<BoundedValue, Stop>
    ensures { MeetsAnswerAt result (stepped_range_of (bounded_val from) (bounded_val by)
        (bounded_val upto)) place }
{
    range_by_steps(&from, &by, &upto, place)
}

// The range of three values, which are lent.
fn range_by_steps(
    from: &BoundedValue,
    by: &BoundedValue,
    upto: &BoundedValue,
    place: Place,
) -> Result<BoundedValue, Stop>
    ensures { MeetsAnswerAt result (stepped_range_of (bounded_val from.now) (bounded_val by.now)
        (bounded_val upto.now)) place }
{
    match (&from.value, &by.value, &upto.value) {
        (Value::Number(a), Value::Number(s), Value::Number(b)) => {
            if *s == 0 {
                return Err(FaultKind::RangeOrder.at(place));
            }
            Ok(BoundedValue {
                value: Value::Range {
                    from: *a,
                    by: *s,
                    upto: *b,
                },
            })
        }
        _ => Err(FaultKind::TypeMismatch.at(place)),
    }
}
