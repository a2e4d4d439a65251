//! Puts a fault at its place.

ghost use Rattle.std.specs.Prelude.{◌≡◌};

use text_place::{Fault, FaultKind, Place};

/// A fault of a kind at a place.
pub(crate) fn fault(kind: FaultKind, place: Place) -> Fault
    ensures { result ≡ record { kind = kind; place = place } }
{
    Fault { kind, place }
}
