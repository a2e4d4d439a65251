//! Decimal numerals: reads them and writes them.

ghost use Rattle.std.specs.Prelude.{◌≡◌, ◌^◌, ◌<◌, ◌<ℤ◌, ◌↔◌, ◌++◌, ℕ, List, neg_ℤ, pos, IsSome, IfSome, IsFalse, OnOk, OnErr};
ghost use Rattle.std.specs.Str.Parse.{digits_value};
ghost use Rattle.plain_text.specs.Decimals.{IsShortNumeral, numeral, signed_numeral, begins_with_digit};

use crate::memory::NoMemory;
use itoa::Buffer;
use std::alloc::Global;

/// The number that 1 to 7 decimal digits write, and `None` at any other bytes. Leading zeros are
/// allowed, a sign is not.
pub fn read_decimal(bytes: &[u8]) -> Option<u64>
    ensures some { IsSome result ↔ IsShortNumeral bytes.now }
    ensures value { IfSome result (λ number. number ≡ digits_value 10 bytes.now) }
    ensures small { IfSome result (λ number. number < 10 ^ 7) }
{
    if bytes.is_empty() || bytes.len() > 7 {
        return None;
    }
    let mut number: u64 = 0;
    for byte in bytes {
        if !byte.is_ascii_digit() {
            return None;
        }
        number = number * 10 + u64::from(*byte - b'0');
    }
    Some(number)
}

/// Appends a number in decimal digits: a minus sign where it is negative, and no leading zero. It may
/// be any `i128` but the least. `NoMemory` leaves `out` as it was.
pub fn push_decimal(alloc: Global, out: &mut Vec<u8>, value: i128) -> Result<(), NoMemory>
    requires { neg_ℤ (pos (2 ^ 127)) <ℤ value }
    ensures ok { OnOk result (out.new.items ≡ out.old.items ++ signed_numeral value) }
    ensures err { OnErr result (out.new.items ≡ out.old.items) }
{
    let mut buffer = Buffer::new();
    out.extend_from_slice(buffer.format(value).as_bytes())?;
    Ok(())
}

/// Where no digit follows, a text that begins with a numeral has one number there, and one rest.
pub fn one_numeral()
    ensures { (m n : ℕ) (x y : List ℕ) → IsFalse (begins_with_digit x) →
        IsFalse (begins_with_digit y) →
        numeral m ++ x ≡ numeral n ++ y → (m ≡ n) × (x ≡ y) }
{}
