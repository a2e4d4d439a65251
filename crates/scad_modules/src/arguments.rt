//! The values that a call gives for the parameters of its module.

ghost use Rattle.std.specs.Prelude.{◌≡◌, None, Some, is_some, MatchOption, MatchResult, false};
ghost use Rattle.text_place.specs.declared.fault.FaultKind.TheVariants.{BadArgument};
ghost use Rattle.scad_value.specs.BoundedView.{bounded_val};
ghost use Rattle.scad_modules.specs.Reading.{bound_argument, number_in_value, truth_in, or_default};
ghost use Rattle.scad_modules.specs.ArgumentView.{bound_arguments_in, ReadsArgument};

use crate::vectors::{number, truth_value};
use scad_value::BoundedValue;
use text_place::FaultKind;

/// The value of a parameter, where the call gives one.
pub(crate) fn bound_argument(
    bound: &[Option<BoundedValue>],
    parameter: usize,
) -> Option<&BoundedValue>
    ensures { MatchOption result (bound_argument (bound_arguments_in bound.now) parameter ≡ None)
        (λ v. bound_argument (bound_arguments_in bound.now) parameter ≡ Some (bounded_val v.now)) }
{
    match bound.get(parameter)? {
        Some(value) => Some(value),
        None => None,
    }
}

/// The value of a parameter that has no default, or BadArgument.
pub(crate) fn required_argument(
    bound: &[Option<BoundedValue>],
    parameter: usize,
) -> Result<&BoundedValue, FaultKind>
    ensures { MatchResult result (λ v. bound_argument (bound_arguments_in bound.now) parameter
        ≡ Some (bounded_val v.now))
        (λ kind. (bound_argument (bound_arguments_in bound.now) parameter ≡ None)
        × (kind ≡ BadArgument)) }
{
    match bound_argument(bound, parameter) {
        Some(value) => Ok(value),
        None => Err(FaultKind::BadArgument),
    }
}

/// Whether the call gives a value for a parameter.
pub(crate) fn is_given(bound: &[Option<BoundedValue>], parameter: usize) -> bool
    ensures { result ≡ is_some (bound_argument (bound_arguments_in bound.now) parameter) }
{
    bound_argument(bound, parameter).is_some()
}

/// The number that a parameter has, or its default, or TypeMismatch.
pub(crate) fn found_number(
    bound: &[Option<BoundedValue>],
    parameter: usize,
    default: i64,
) -> Result<i64, FaultKind>
    ensures { ReadsArgument result (or_default default number_in_value
        (bound_argument (bound_arguments_in bound.now) parameter)) }
{
    match bound_argument(bound, parameter) {
        Some(value) => number(&value.value).ok_or(FaultKind::TypeMismatch),
        None => Ok(default),
    }
}

/// Whether a shape is centred: the truth that a parameter has, false where it is missing, or
/// TypeMismatch.
pub(crate) fn is_centered(
    bound: &[Option<BoundedValue>],
    parameter: usize,
) -> Result<bool, FaultKind>
    ensures { ReadsArgument result (or_default false truth_in (bound_argument
        (bound_arguments_in bound.now) parameter)) }
{
    match bound_argument(bound, parameter) {
        Some(value) => truth_value(&value.value).ok_or(FaultKind::TypeMismatch),
        None => Ok(false),
    }
}
