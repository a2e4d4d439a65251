//! Laws of maps, for the crates above. They are proved, and do nothing when they run.

ghost use Rattle.std.specs.Prelude.{◌≡◌, ◌∷◌, List};
ghost use Rattle.plane_predicate.specs.Space.{Coordinates};
ghost use Rattle.int_transform.specs.declared.affine.Affine.{Affine};
ghost use Rattle.int_transform.specs.Maps.{composition, image, map_of};

/// The product of two maps does the one and then the other, and a list of steps does them in order.
pub fn maps_are_done_in_order()
    ensures both { (n m : Affine) (p : Coordinates) → image (composition n m) p
        ≡ image n (image m p) }
    ensures first { (step : Affine) (steps : List Affine) (p : Coordinates) →
        image (map_of (step ∷ steps)) p ≡ image (map_of steps) (image step p) }
{}
