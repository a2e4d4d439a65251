//! What a memo is told of its keys and values: which values fit a key, what a value weighs, which keys are equal.

ghost use Rattle.std.specs.Prelude.{◌≡◌, ℕ, Bool, true, List};

/// How many bytes a name has.
pub const NAME_BYTES: usize = 32;

/// The name of a key.
pub type Name = [u8; NAME_BYTES];

/// What a memo may hold: which values fit a key, and what a value weighs.
pub trait Fit: Drop {
    type Key: Drop;

    type Value: Drop;

    /// Which values fit a key.
    ghost fits: { Self.Key → Self.Value → Type 0 };

    /// What a value weighs.
    ghost weighs: { Self.Value → ℕ };

    /// Whether two keys are equal as contracts see them.
    ghost same_key: { Self.Key → Self.Key → Bool };

    /// Whether two keys are equal.
    fn same(&self, a: &Self::Key, b: &Self::Key) -> bool
        ensures { result ≡ same_key a.now b.now };

    /// Keys that pass the test are equal.
    ghost same_is: { (a b : Self.Key) → same_key a b ≡ true → a ≡ b };

    /// Equal keys pass the test.
    ghost same_refl: { (a : Self.Key) → same_key a a ≡ true };
}

/// Names keys. A name is a function of the key as contracts see it; two keys may have one name.
pub trait Namer<K>: Drop {
    ghost name_of: { K → List ℕ };

    /// The name of a key.
    fn name(&self, key: &K) -> Name
        ensures { result ≡ name_of key.now };
}
