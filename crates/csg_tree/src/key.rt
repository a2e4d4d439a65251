//! The bytes of trees.

ghost use Rattle.std.specs.Prelude.{◌≡◌, ◌++◌, IfOk, OnOk};
ghost use Rattle.std.specs.List.{flat_map};
ghost use Rattle.csg_tree.specs.Trees.{plain_tree_of};
ghost use Rattle.csg_tree.specs.Keys.{tree_bytes, number_bytes, op_byte, plane_bytes};

use crate::op::Op;
use crate::tree::CsgTree;
use plain_text::NoMemory;
use plane_predicate::Plane;
use std::alloc::Global;

impl CsgTree {
    /// The bytes of the tree: 0 for Nothing; 1, the number of planes and the four numbers of each for
    /// a leaf; 2 for a union, 3 for an intersection and 4 for a difference, and then the bytes of the
    /// two trees. Numbers have eight bytes, two's complement, with the high byte first.
    pub fn key_bytes(&self, alloc: Global) -> Result<Vec<u8>, NoMemory>
        ensures { IfOk result (λ bytes. bytes.items ≡ tree_bytes (plain_tree_of self.now)) }
    {
        let mut bytes = Vec::new(alloc);
        push_key(self, &mut bytes)?;
        Ok(bytes)
    }
}

// Appends the bytes of a tree.
fn push_key(tree: &CsgTree, bytes: &mut Vec<u8>) -> Result<(), NoMemory>
    ensures { OnOk result (bytes.new.items ≡ bytes.old.items ++ tree_bytes
        (plain_tree_of tree.now)) }
{
    match tree {
        CsgTree::Nothing => bytes.push(0)?,
        CsgTree::Leaf(planes) => {
            bytes.push(1)?;
            let planes = planes.items();
            bytes.extend_from_slice(&(planes.len() as u64).to_be_bytes())?;
            push_planes(planes, bytes)?;
        }
        CsgTree::Join(op, left, right) => {
            bytes.push(byte_of(*op))?;
            push_key(left, bytes)?;
            push_key(right, bytes)?;
        }
    }
    Ok(())
}

// Appends the four numbers of each plane.
fn push_planes(planes: &[Plane], bytes: &mut Vec<u8>) -> Result<(), NoMemory>
    ensures { OnOk result (bytes.new.items ≡ bytes.old.items ++ flat_map plane_bytes planes.now) }
{
    for plane in planes {
        push_plane(plane, bytes)?;
    }
    Ok(())
}

// Appends the four numbers of a plane.
fn push_plane(plane: &Plane, bytes: &mut Vec<u8>) -> Result<(), NoMemory>
    ensures { OnOk result (bytes.new.items ≡ bytes.old.items ++ plane_bytes plane.now) }
{
    push_number(plane.a, bytes)?;
    push_number(plane.b, bytes)?;
    push_number(plane.c, bytes)?;
    push_number(plane.d, bytes)?;
    Ok(())
}

// Appends a number in eight bytes.
#[tactic(auto, unfolding(crate::specs::Keys::number_bytes))]
fn push_number(number: i64, bytes: &mut Vec<u8>) -> Result<(), NoMemory>
    ensures { OnOk result (bytes.new.items ≡ bytes.old.items ++ number_bytes number) }
{
    bytes.extend_from_slice(&number.to_be_bytes())?;
    Ok(())
}

/// The byte of an operation.
pub fn byte_of(op: Op) -> u8
    ensures { result ≡ op_byte op }
{
    match op {
        Op::Union => 2,
        Op::Intersection => 3,
        Op::Difference => 4,
    }
}
