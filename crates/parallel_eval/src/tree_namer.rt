//! Names keys of the memo by the SHA-256 of their trees.

ghost use Rattle.csg_tree.specs.TreeKeys.{name_of};

use csg_tree::TreeKey;
use memo_core::{Name, Namer};

/// Names a tree by the SHA-256 of its bytes, which its key keeps.
#[derive(Drop)]
pub struct ShaNamer;

impl Namer<TreeKey> for ShaNamer {
    ghost name_of = { name_of };

    fn name(&self, key: &TreeKey) -> Name {
        key.name()
    }
}
