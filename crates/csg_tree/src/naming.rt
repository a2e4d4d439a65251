//! The names of trees, whose bytes are fed to a hash piece by piece.

ghost use Rattle.std.specs.Prelude.{◌≡◌, ℕ, List, ◌∷◌, ◌++◌};
ghost use Rattle.std.specs.Int.{w64, to_be_bytes};
ghost use Rattle.std.specs.List.{flat_map};
ghost use Rattle.csg_tree.specs.HalfSpaceTrees.{leaf};
ghost use Rattle.csg_tree.specs.Keys.{tree_bytes, plane_bytes};
ghost use Rattle.csg_tree.specs.Numberings.{tree_numbered, IsNumberIn};
ghost use Rattle.csg_tree.specs.TreeKeys.{name_of};

use crate::key::byte_of;
use crate::node::CsgNode;
use crate::store::CsgStore;
use plane_predicate::Plane;
use sha2::{Digest, Sha256};

/// The SHA-256 of the bytes of a node's tree.
pub fn name_of_node(store: &CsgStore, number: u32) -> [u8; 32]
    requires { IsNumberIn store.now number }
    ensures { result ≡ name_of (tree_numbered store.now number) }
{
    let mut hasher = Sha256::new();
    feed_tree(store, number, &mut hasher);
    hasher.finalize()
}

/// Feeds the bytes of a node's tree to a hash.
pub fn feed_tree<D: Digest>(store: &CsgStore, number: u32, hasher: &mut D)
    requires { IsNumberIn store.now number }
    ensures { (m : List ℕ) → D.holds hasher.old m →
        D.holds hasher.new (m ++ tree_bytes (tree_numbered store.now number)) }
{
    match store.node(number) {
        CsgNode::Leaf(planes) => feed_leaf(planes, hasher),
        CsgNode::Join(op, left, right) => {
            hasher.update(&[byte_of(op)]);
            feed_tree(store, left, hasher);
            feed_tree(store, right, hasher);
        }
    }
}

// Feeds the bytes of a leaf.
fn feed_leaf<D: Digest>(planes: &[Plane], hasher: &mut D)
    ensures { (m : List ℕ) → D.holds hasher.old m →
        D.holds hasher.new (m ++ tree_bytes (leaf planes.now)) }
{
    hasher.update(&leaf_head(planes.len() as u64));
    feed_planes(planes, hasher);
}

// The bytes of a leaf in front of its planes, whose number is given.
fn leaf_head(count: u64) -> [u8; 9]
    ensures { result ≡ 1 ∷ to_be_bytes w64 count }
{
    let n = count.to_be_bytes();
    [1, n[0], n[1], n[2], n[3], n[4], n[5], n[6], n[7]]
}

// Feeds the four numbers of each plane.
fn feed_planes<D: Digest>(planes: &[Plane], hasher: &mut D)
    ensures { (m : List ℕ) → D.holds hasher.old m →
        D.holds hasher.new (m ++ flat_map plane_bytes planes.now) }
{
    for plane in planes {
        feed_plane(plane, hasher);
    }
}

// Feeds the four numbers of a plane, in one piece: a piece costs the hash as much as a few bytes do.
fn feed_plane<D: Digest>(plane: &Plane, hasher: &mut D)
    ensures { (m : List ℕ) → D.holds hasher.old m →
        D.holds hasher.new (m ++ plane_bytes plane.now) }
{
    hasher.update(&bytes_of_plane(plane));
}

// The bytes of the four numbers of a plane.
fn bytes_of_plane(plane: &Plane) -> [u8; 32]
    ensures { result ≡ plane_bytes plane.now }
{
    let a = plane.a.to_be_bytes();
    let b = plane.b.to_be_bytes();
    let c = plane.c.to_be_bytes();
    let d = plane.d.to_be_bytes();
    [
        a[0], a[1], a[2], a[3], a[4], a[5], a[6], a[7], b[0], b[1], b[2], b[3], b[4], b[5], b[6],
        b[7], c[0], c[1], c[2], c[3], c[4], c[5], c[6], c[7], d[0], d[1], d[2], d[3], d[4], d[5],
        d[6], d[7],
    ]
}
