//! Solids as the values of a memo whose keys are trees.

ghost use Rattle.std.specs.Prelude.{◌≡◌};
ghost use Rattle.csg_tree.specs.Numberings.{is_same_tree};
ghost use Rattle.csg_tree.proofs.lemmas.Sameness.{tree_true, tree_itself};
ghost use Rattle.bsp_tree.specs.Trees.{size};
ghost use Rattle.bsp_tree.specs.Shapes.{tree_of};
ghost use Rattle.bsp_boolean.specs.Solids.{solid_of};

use bsp_tree::Solid;
use csg_tree::TreeKey;
use memo_core::Fit;

/// A memo of solids by trees: a solid fits a key where it is the solid of the key's tree, and it weighs
/// its size. No contract says how many bytes a solid takes, nor that none are left over from its making.
#[derive(Drop)]
pub struct SolidFit;

impl Fit for SolidFit {
    type Key = TreeKey;

    type Value = Solid;

    ghost fits = { λ tree solid. tree_of solid ≡ solid_of tree };

    ghost weighs = { λ solid. size (tree_of solid) };

    ghost same_key = { is_same_tree };

    fn same(&self, a: &TreeKey, b: &TreeKey) -> bool {
        a.is_same(b)
    }

    ghost same_is = { tree_true };

    ghost same_refl = { tree_itself };
}
