//! The list type of a face's corners.

ghost use Rattle.std.specs.Prelude.{◌≡◌};

use std::marker::Model;

/// The corners of a face, as numbers of points from 0, which contracts see as a list.
#[derive(Drop)]
pub struct Corners {
    items: Vec<u32>,
}

impl Model for Corners {
    ghost use Rattle.std.specs.Prelude.{List, ℕ};

    ghost Value = { List ℕ };

    ghost view = { λ c. c.items.items };
}

impl Corners {
    /// The corners of a vector.
    pub fn of(items: Vec<u32>) -> Self
        ensures { result ≡ items.items }
    {
        Corners { items }
    }

    /// The corners in order.
    pub fn items(&self) -> &[u32]
        ensures { result.now ≡ self.now }
    {
        &self.items
    }
}
