//! Why facets are not cut: too many, or out of memory.

ghost use Rattle.std.specs.Prelude.{◌≡◌};

use plain_text::NoMemory;

/// Why no facets are given.
#[derive(Clone, Copy, Debug)]
pub enum CutStop {
    /// There are more than were allowed.
    TooMany,
    /// Memory ran out.
    NoMemory,
}

impl From<NoMemory> for CutStop {
    ghost use Rattle.facet_cut.specs.declared.stops.CutStop.TheVariants.{NoMemory};

    ghost from_gives = { λ _ stop. stop ≡ NoMemory };

    fn from(_refused: NoMemory) -> CutStop {
        CutStop::NoMemory
    }
}
