//! The list type of a tree's planes.

ghost use Rattle.std.specs.Prelude.{◌≡◌};

use plane_predicate::Plane;
use std::marker::Model;

/// Planes, which contracts see as a list.
#[derive(Drop)]
pub struct Planes {
    items: Vec<Plane>,
}

impl Model for Planes {
    ghost use Rattle.std.specs.Prelude.{List};
    ghost use Rattle.plane_predicate.specs.Space.{Coefficients};

    ghost Value = { List Coefficients };

    ghost view = { λ p. p.items.items };
}

impl Planes {
    /// The planes of a vector.
    pub fn of(items: Vec<Plane>) -> Self
        ensures { result ≡ items.items }
    {
        Planes { items }
    }

    /// The planes in order.
    pub fn items(&self) -> &[Plane]
        ensures { result.now ≡ self.now }
    {
        &self.items
    }
}
