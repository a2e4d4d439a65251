//! The names of joins, made of the bytes of their trees.

ghost use Rattle.std.specs.Prelude.{◌≡◌, IfOk};
ghost use Rattle.csg_tree.specs.Numberings.{tree_numbered, IsNumberIn};
ghost use Rattle.csg_tree.specs.Fronts.{HoldsFrontIfThere};
ghost use Rattle.csg_tree.specs.JoinNames.{name_of_join};

use crate::front_hash::{hash_of_front, name_from_front};
use crate::{CsgNode, CsgStore, name_of_node};
use plain_text::NoMemory;
use sha2::Sha256;

/// The hash of a node that is a join, behind its front.
pub fn front_made(store: &CsgStore, number: u32) -> Option<Sha256>
    requires { IsNumberIn store.now number }
    ensures { HoldsFrontIfThere (tree_numbered store.now number) result }
{
    match store.node(number) {
        CsgNode::Leaf(_) => None,
        CsgNode::Join(op, left, right) => Some(hash_of_front(store, op, left, right)),
    }
}

/// The name of a node that is a join, made of the bytes of its tree, from where its front left the hash.
#[tactic(auto, using(crate::proofs::Fronts::front_and_end))]
pub fn name_made(
    store: &CsgStore,
    number: u32,
    front: &Option<Sha256>,
) -> Result<Option<[u8; 32]>, NoMemory>
    requires number { IsNumberIn store.now number }
    requires front { HoldsFrontIfThere (tree_numbered store.now number) front.now }
    ensures { IfOk result (λ name. name ≡ name_of_join (tree_numbered store.now number)) }
{
    match (store.node(number), front) {
        (CsgNode::Leaf(_), _) => Ok(None),
        (CsgNode::Join(op, _, right), Some(hasher)) => {
            Ok(Some(name_from_front(hasher, store, op, right)?))
        }
        (CsgNode::Join(_, _, _), None) => Ok(Some(name_of_node(store, number))),
    }
}
