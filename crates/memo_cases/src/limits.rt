//! The limits of a memo.

use case_lines::Phrase;

/// The budget of a memo, and the share of each caller.
#[derive(Clone, Copy)]
pub struct Limits {
    pub budget: u64,
    pub share: u64,
}

/// The limits that a phrase sets.
pub fn limits_of(phrase: &Phrase) -> Limits {
    Limits {
        budget: phrase.number(0),
        share: phrase.number(1),
    }
}
