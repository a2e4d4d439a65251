//! The unit of length.

ghost use Rattle.std.specs.Prelude.{◌≡◌};
ghost use Rattle.plane_predicate.specs.Units.{grid_steps_per_unit};

/// How many grid steps one unit of length has.
#[derive(Clone, Copy, Debug, PartialEq, Eq)]
pub enum Unit {
    Whole,
    Half,
}

impl Unit {
    /// The grid steps of one unit: 1 or 2.
    pub fn per(self) -> i64
        ensures { result ≡ grid_steps_per_unit self }
    {
        match self {
            Unit::Whole => 1,
            Unit::Half => 2,
        }
    }
}
