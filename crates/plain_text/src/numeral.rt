//! The number that a numeral writes.

ghost use Rattle.std.specs.Prelude.{◌≡◌, ◌-◌, ◌^◌, ◌≤◌, MatchOption};

use std::marker::Model;
use std::mem::size_of;

/// The least number that is too large for a numeral.
pub const TOO_LARGE: u64 = 1 << 53;

/// A whole number from 0 to 2^53 - 1, which contracts see as that number. The type keeps the bound, so that a caller
/// that has one need not ask for it.
#[derive(Clone, Copy)]
pub struct Numeral {
    value: u64,
}

const _: () = prove!(size_of::<Numeral>() == 8);

impl Model for Numeral {
    ghost use Rattle.std.specs.Prelude.{ℕ, ◌^◌, ◌<◌};

    ghost Value = { ℕ };

    ghost view = { λ numeral. numeral.value };

    ghost invariant = { λ numeral. numeral.value < 2 ^ 53 };

    ghost inverse = { λ number. record { value = number } };
}

impl Numeral {
    /// The numeral that writes a number: None exactly where the number is past 2^53 - 1.
    pub fn of(number: u64) -> Option<Self>
        ensures { MatchOption result (2 ^ 53 ≤ number)
            (λ numeral. (numeral ≡ number) × (number ≤ 2 ^ 53 - 1)) }
    {
        if number < TOO_LARGE {
            Some(Numeral { value: number })
        } else {
            None
        }
    }

    /// The number.
    pub fn get(self) -> u64
        ensures value { result ≡ self }
        ensures small { result ≤ 2 ^ 53 - 1 }
    {
        self.value
    }
}
