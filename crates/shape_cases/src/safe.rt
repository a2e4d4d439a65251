//! Numbers within the ranges that calls require.

ghost use Rattle.std.specs.Prelude.{◌≤◌, ◌<◌, unsigned_abs, IfOk};

use case_lines::CaseStop;

/// A number that is at most 2^53 - 1 in size.
pub fn safe(number: i64) -> Result<i64, CaseStop>
    ensures { IfOk result (λ n. unsigned_abs n ≤ 9007199254740991) }
{
    if number.unsigned_abs() <= 9_007_199_254_740_991 {
        Ok(number)
    } else {
        Err(CaseStop::Unread)
    }
}

/// A number that is at most 65,535 in size.
pub fn near(number: i64) -> Result<i64, CaseStop>
    ensures { IfOk result (λ n. unsigned_abs n ≤ 65535) }
{
    if number.unsigned_abs() <= 65535 {
        Ok(number)
    } else {
        Err(CaseStop::Unread)
    }
}

/// The number of an axis.
pub fn axis(number: i64) -> Result<u8, CaseStop>
    ensures { IfOk result (λ n. n < 3) }
{
    match number {
        0 => Ok(0),
        1 => Ok(1),
        2 => Ok(2),
        _ => Err(CaseStop::Unread),
    }
}

/// A number of quarter rotations.
pub fn quarters(number: i64) -> Result<u8, CaseStop>
    ensures { IfOk result (λ n. n < 4) }
{
    match number {
        0 => Ok(0),
        1 => Ok(1),
        2 => Ok(2),
        3 => Ok(3),
        _ => Err(CaseStop::Unread),
    }
}
