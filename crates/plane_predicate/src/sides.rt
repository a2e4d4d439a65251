//! The sides of a plane.

ghost use Rattle.std.specs.Prelude.{◌≡◌};
ghost use Rattle.plane_predicate.specs.Sides.{is_side_ahead, is_side_behind};

/// Where a point lies as a plane sees it.
#[derive(Clone, Copy, PartialEq, Eq)]
pub enum Side {
    Behind,
    On,
    Ahead,
}

impl Side {
    /// Whether it is the side behind the plane.
    pub fn is_behind(self) -> bool
        ensures { result ≡ is_side_behind self }
    {
        match self {
            Side::Behind => true,
            Side::On | Side::Ahead => false,
        }
    }

    /// Whether it is the side ahead of the plane.
    pub fn is_ahead(self) -> bool
        ensures { result ≡ is_side_ahead self }
    {
        match self {
            Side::Behind | Side::On => false,
            Side::Ahead => true,
        }
    }
}
