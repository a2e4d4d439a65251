//! What is held while something else is made. Where that fails, what is held is dropped: here, for every type alike,
//! and not in each function that holds something.

ghost use Rattle.std.specs.Prelude.{◌≡◌, Ok, Err, IfOk, IfErr};
ghost use Rattle.scad_value.specs.AnswerView.{IsOneItemLonger, IsUnboundedAnswer};

use crate::{BoundedValue, Value};
use text_place::Stop;

/// What was made before, with what is made next.
pub fn with<A: Drop, B>(before: A, next: Result<B, Stop>) -> Result<(A, B), Stop>
    ensures ok { IfOk result (λ both. (both.0 ≡ before) × (next ≡ Ok both.1)) }
    ensures err { IfErr result (λ stop. next ≡ Err stop) }
{
    match next {
        Ok(value) => Ok((before, value)),
        Err(stop) => Err(stop),
    }
}

/// A list with one item more.
pub fn with_next<T: Drop>(items: Vec<T>, next: Result<T, Stop>) -> Result<Vec<T>, Stop>
    ensures { IsOneItemLonger items.items next result }
{
    match next {
        Ok(item) => {
            let mut longer = items;
            match longer.push(item) {
                Ok(()) => Ok(longer),
                Err(_) => Err(Stop::NoMemory),
            }
        }
        Err(stop) => Err(stop),
    }
}

/// The value without the type that keeps it bounded, where there is one.
pub fn value_alone(given: Result<BoundedValue, Stop>) -> Result<Value, Stop>
    ensures { IsUnboundedAnswer given result }
{
    match given {
        Ok(bounded) => Ok(bounded.value),
        Err(stop) => Err(stop),
    }
}
