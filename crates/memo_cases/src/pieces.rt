//! What the memo holds, and how keys are named.

ghost use Rattle.std.specs.Prelude.{◌≡◌, ℕ, ◌/◌, ◌%◌, ◌∷◌, nat_eq, replicate};
ghost use Rattle.std.proofs.Common.{rules};

use memo_core::{Fit, NAME_BYTES, Name, Namer};

/// A value with a weight of its own.
#[derive(Drop)]
pub struct Piece {
    pub weight: u64,
}

/// Any piece fits any number.
#[derive(Drop)]
pub struct Pieces;

impl Fit for Pieces {
    type Key = u32;

    type Value = Piece;

    ghost fits = { λ key piece. Unit {0} };

    ghost weighs = { λ piece. piece.weight };

    ghost same_key = { nat_eq };

    fn same(&self, a: &u32, b: &u32) -> bool {
        *a == *b
    }

    ghost same_is = { Prim.search rules };

    ghost same_refl = { Prim.search rules };
}

/// Names a key by its last four digits.
#[derive(Drop)]
pub struct LastDigits;

impl Namer<u32> for LastDigits {
    ghost name_of = { λ key. key % 10000 / 256 % 256 ∷ key % 10000 % 256 ∷ replicate 30 0 };

    fn name(&self, key: &u32) -> Name {
        let digits = *key % 10_000;
        let mut name = [0; NAME_BYTES];
        name[0] = (digits / 256 % 256) as u8;
        name[1] = (digits % 256) as u8;
        name
    }
}
