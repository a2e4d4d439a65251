//! The memo without its values: each value is its weight alone.

ghost use Rattle.std.specs.Prelude.{◌≡◌};
ghost use Rattle.std.proofs.Common.{rules};

use memo_core::{Fit, Name, Namer};

/// The keys of another fit, each of which every number fits, and weighs itself. A memo over it has the
/// entries without their values.
#[derive(Drop)]
pub struct ByWeight<'a, F: Fit> {
    pub fit: &'a F,
}

impl<'a, F: Fit> Fit for ByWeight<'a, F> {
    type Key = F::Key;

    type Value = u64;

    ghost fits = { λ key value. Unit {0} };

    ghost weighs = { λ value. value };

    ghost same_key = { F.same_key };

    fn same(&self, a: &F::Key, b: &F::Key) -> bool {
        self.fit.same(a, b)
    }

    ghost same_is = { F.same_is };

    ghost same_refl = { F.same_refl };
}

/// Another namer, lent.
#[derive(Drop)]
pub struct ByName<'a, N> {
    pub namer: &'a N,
}

impl<'a, K, N: Namer<K>> Namer<K> for ByName<'a, N> {
    ghost name_of = { N.name_of };

    fn name(&self, key: &K) -> Name {
        self.namer.name(key)
    }
}
