//! Hashes of the front of a join's bytes, from which its name is made.

ghost use Rattle.std.specs.Prelude.{◌≡◌, ℕ, List, [], ◌∷◌, ◌++◌, IfOk, IfSome, IsNone};
ghost use Rattle.sha2.specs.Hashers.{Holds256};
ghost use Rattle.sha2.specs.Sha256.{sha256};
ghost use Rattle.csg_tree.specs.Fronts.{front_of_second, rest_of_second};
ghost use Rattle.csg_tree.specs.Keys.{tree_bytes, op_byte};
ghost use Rattle.csg_tree.specs.Numberings.{tree_numbered, IsNumberIn};

use crate::{CsgNode, CsgStore, Op, byte_of, feed_tree};
use plain_text::NoMemory;
use sha2::{Digest, Sha256};

/// A hash that was fed with the front of a join: its operation and its first tree, and in a difference whose second tree
/// is a join that one's operation and first tree too.
pub fn hash_of_front(store: &CsgStore, op: Op, left: u32, right: u32) -> Sha256
    requires left { IsNumberIn store.now left }
    requires right { IsNumberIn store.now right }
    ensures { Holds256 result
        (op_byte op ∷ tree_bytes (tree_numbered store.now left)
        ++ front_of_second op (tree_numbered store.now right)) }
{
    let mut hasher = Sha256::new();
    hasher.update(&[byte_of(op)]);
    feed_tree(store, left, &mut hasher);
    feed_front_of_second(store, op, right, &mut hasher);
    hasher
}

// Feeds what of a second tree belongs to the front.
fn feed_front_of_second<D: Digest>(store: &CsgStore, op: Op, right: u32, hasher: &mut D)
    requires { IsNumberIn store.now right }
    ensures { (m : List ℕ) → D.holds hasher.old m →
        D.holds hasher.new (m ++ front_of_second op (tree_numbered store.now right)) }
{
    if let Some(join) = second_join(store, op, right) {
        hasher.update(&[byte_of(join.op)]);
        feed_tree(store, join.first, hasher);
    }
}

/// The SHA-256 of what a hash holds and, behind it, what is left of a second tree.
pub fn name_from_front(
    front: &Sha256,
    store: &CsgStore,
    op: Op,
    right: u32,
) -> Result<[u8; 32], NoMemory>
    requires { IsNumberIn store.now right }
    ensures { (m : List ℕ) → Holds256 front.now m → IfOk result (λ name. name
        ≡ sha256 (m ++ rest_of_second op (tree_numbered store.now right))) }
{
    let mut hasher = front.clone()?;
    match second_join(store, op, right) {
        Some(join) => feed_tree(store, join.second, &mut hasher),
        None => feed_tree(store, right, &mut hasher),
    }
    Ok(hasher.finalize())
}

/// A second tree that is a join: its operation and the numbers of its two trees.
#[derive(Clone, Copy)]
pub struct SecondJoin {
    pub op: Op,
    pub first: u32,
    pub second: u32,
}

/// A difference's second tree, where that is a join: its operation and its first tree belong to the front.
pub fn second_join(store: &CsgStore, op: Op, right: u32) -> Option<SecondJoin>
    requires { IsNumberIn store.now right }
    ensures within { IfSome result (λ h. IsNumberIn store.now h.first
        × IsNumberIn store.now h.second) }
    ensures some { IfSome result (λ h.
        (front_of_second op (tree_numbered store.now right)
        ≡ op_byte h.op ∷ tree_bytes (tree_numbered store.now h.first))
        × (rest_of_second op (tree_numbered store.now right)
        ≡ tree_bytes (tree_numbered store.now h.second))) }
    ensures none { IsNone result → (front_of_second op (tree_numbered store.now right) ≡ [])
        × (rest_of_second op (tree_numbered store.now right)
        ≡ tree_bytes (tree_numbered store.now right)) }
{
    match op {
        Op::Union | Op::Intersection => None,
        Op::Difference => match store.node(right) {
            CsgNode::Leaf(_) => None,
            CsgNode::Join(op, first, second) => Some(SecondJoin { op, first, second }),
        },
    }
}
