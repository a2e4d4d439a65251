//! Why solids are not built.

ghost use Rattle.std.specs.Prelude.{◌≡◌};

use bsp_tree::GrowStop;
use plain_text::NoMemory;

/// Why a solid was not built.
#[derive(Clone, Copy, Debug)]
pub enum BuildStop {
    /// Its size is above the limit.
    TooBig,
    /// Memory ran out.
    NoMemory,
}

impl From<NoMemory> for BuildStop {
    ghost use Rattle.bsp_boolean.specs.declared.leaf_building.BuildStop.TheVariants.{NoMemory};

    ghost from_gives = { λ _ stop. stop ≡ NoMemory };

    fn from(_refused: NoMemory) -> BuildStop {
        BuildStop::NoMemory
    }
}

impl From<GrowStop> for BuildStop {
    ghost use Rattle.bsp_boolean.specs.LeafSolids.{build_stop_of};

    ghost from_gives = { λ given stop. stop ≡ build_stop_of given };

    fn from(given: GrowStop) -> BuildStop {
        match given {
            GrowStop::TooBig => BuildStop::TooBig,
            GrowStop::NoMemory => BuildStop::NoMemory,
        }
    }
}
