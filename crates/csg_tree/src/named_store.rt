//! Stores with the names of their joins.

ghost use Rattle.std.specs.Prelude.{◌≡◌, ◌≤◌, ◌∷◌, ◌++◌, List, length, All, IfOk, IfSome};
ghost use Rattle.std.specs.Bool.{OnTrue};
ghost use Rattle.std.specs.Arc.{arc_value};
ghost use Rattle.sha2.specs.Hashers.{Holds256};
ghost use Rattle.csg_tree.specs.Fronts.{front_of_second, HoldsFrontIfThere, IsFrontOfSecond};
ghost use Rattle.csg_tree.specs.HalfSpaceTrees.{Tree};
ghost use Rattle.csg_tree.specs.Keys.{tree_bytes, op_byte};
ghost use Rattle.csg_tree.specs.Numberings.{tree_numbered, IsNumberIn};
ghost use Rattle.csg_tree.specs.JoinNames.{name_of_join};
ghost use Rattle.csg_tree.specs.Earlier.{IsNumberOf, AreAllNumbersIn};

use crate::front_hash::{hash_of_front, second_join};
use crate::join_names::{front_made, name_made};
use crate::{CsgNode, CsgStore, Op, TreeKey};
use plain_text::NoMemory;
use sha2::Sha256;
use std::alloc::Global;
use std::marker::Model;
use std::sync::Arc;

/// A shared store with the SHA-256 of the bytes of each of its joins, which contracts see as the store is
/// seen. It also keeps each hash as it was behind the join's front: where a later store has another join with the same
/// front, that one is named from there.
#[derive(Drop)]
pub struct NamedStore {
    store: Arc<CsgStore>,
    names: Vec<Option<[u8; 32]>>,
    fronts: Vec<Option<Sha256>>,
}

impl Model for NamedStore {
    ghost use Rattle.std.specs.Prelude.{List};
    ghost use Rattle.std.specs.Coded.{coded_list};
    ghost use Rattle.csg_tree.specs.HalfSpaceTrees.{Tree};
    ghost use Rattle.csg_tree.specs.Codes.{coded_tree};

    ghost Value = { List Tree };

    ghost coded = { coded_list coded_tree };

    ghost use Rattle.std.specs.Prelude.{◌≡◌, map};
    ghost use Rattle.std.specs.Arc.{arc_value};
    ghost use Rattle.csg_tree.specs.JoinNames.{name_of_join};
    ghost use Rattle.csg_tree.specs.Fronts.{HoldFronts};

    ghost view = { λ s. arc_value s.store };

    ghost invariant = { λ s. (s.names.items ≡ map name_of_join (arc_value s.store))
        × HoldFronts (arc_value s.store) s.fronts.items };
}

impl NamedStore {
    /// A store with the names of its joins.
    pub fn new(alloc: Global, store: Arc<CsgStore>) -> Result<NamedStore, NoMemory>
        ensures { IfOk result (λ named. named ≡ arc_value store) }
    {
        let mut names = Vec::with_capacity(alloc, store.len() as usize)?;
        let mut fronts = Vec::with_capacity(alloc, store.len() as usize)?;
        for before in 0..store.len() {
            let hasher = front_made(&store, before + 1);
            names.push(name_made(&store, before + 1, &hasher)?)?;
            fronts.push(hasher)?;
        }
        Ok(NamedStore {
            store,
            names,
            fronts,
        })
    }

    /// A store with the names of its joins, of which those that an earlier store has are taken from it.
    pub fn over(
        alloc: Global,
        store: Arc<CsgStore>,
        earlier: &NamedStore,
        numbers: &[Option<u32>],
    ) -> Result<NamedStore, NoMemory>
        requires { AreAllNumbersIn earlier.now (arc_value store) numbers.now }
        ensures { IfOk result (λ named. named ≡ arc_value store) }
    {
        let joins = joins_by_left(alloc, earlier.store())?;
        let mut names = Vec::with_capacity(alloc, store.len() as usize)?;
        let mut fronts = Vec::with_capacity(alloc, store.len() as usize)?;
        for before in 0..store.len() {
            let hasher = front_over(&store, before + 1, earlier, numbers, &joins)?;
            let found = numbers[before as usize];
            names.push(name_over(&store, before + 1, earlier, found, &hasher)?)?;
            fronts.push(hasher)?;
        }
        Ok(NamedStore {
            store,
            names,
            fronts,
        })
    }

    /// The store.
    pub fn store(&self) -> &CsgStore
        ensures { result.now ≡ self.now }
    {
        &self.store
    }

    /// The key of a node. `NoMemory` is a store that cannot be shared once more.
    pub fn key(&self, number: u32) -> Result<TreeKey, NoMemory>
        requires { IsNumberIn self.now number }
        ensures { IfOk result (λ key. key ≡ tree_numbered self.now number) }
    {
        match self.name(number) {
            Some(name) => TreeKey::with_name(&self.store, number, name),
            None => TreeKey::of(&self.store, number),
        }
    }

    // The name of a node that is a join.
    fn name(&self, number: u32) -> Option<[u8; 32]>
        requires { IsNumberIn self.now number }
        ensures { result ≡ name_of_join (tree_numbered self.now number) }
    {
        self.names[number as usize - 1]
    }

    // The hash of a join behind its front, where it is kept.
    fn front(&self, number: u32) -> Result<Option<Sha256>, NoMemory>
        requires { IsNumberIn self.now number }
        ensures { IfOk result (HoldsFrontIfThere (tree_numbered self.now number)) }
    {
        match self.fronts.get(number as usize - 1) {
            Some(Some(hasher)) => Ok(Some(hasher.clone()?)),
            _ => Ok(None),
        }
    }

    // The hash of a join behind its front, where one is kept whose front has this operation, a first tree of this number
    // and this part of a second tree.
    fn front_with(
        &self,
        joins: &[u32],
        op: Op,
        left: Option<u32>,
        second_front: Option<(Op, Option<u32>)>,
    ) -> Result<Option<Sha256>, NoMemory>
        requires left { IfSome left (IsNumberIn self.now) }
        requires joins { (length joins.now ≡ length self.now)
            × All (λ n. n ≤ length self.now) joins.now }
        ensures { (first right : Tree) → IsNumberOf self.now first left →
            IsFrontOfSecond self.now op right second_front →
            IfOk result (λ front. IfSome front (λ hasher. Holds256 hasher
            (op_byte op ∷ tree_bytes first ++ front_of_second op right))) }
    {
        let Some(left) = left else {
            return Ok(None);
        };
        let join = joins[left as usize - 1];
        if join == 0 {
            return Ok(None);
        }
        match self.store.node(join) {
            CsgNode::Join(by, first, right)
                if by == op && first == left && self.has_front_of_second(op, right, second_front) =>
                { self.front(join) }
            _ => Ok(None),
        }
    }

    // Whether this is what of a second tree belongs to the front.
    fn has_front_of_second(
        &self,
        op: Op,
        right: u32,
        second_front: Option<(Op, Option<u32>)>,
    ) -> bool
        requires { IsNumberIn self.now right }
        ensures { (other : Tree) → IsFrontOfSecond self.now op other second_front →
            OnTrue result (front_of_second op (tree_numbered self.now right)
            ≡ front_of_second op other) }
    {
        match (second_join(&self.store, op, right), second_front) {
            (None, None) => true,
            (Some(join), Some((by, Some(first)))) => join.op == by && join.first == first,
            _ => false,
        }
    }
}

// What of a second tree belongs to the front, with the number of its tree in an earlier store.
fn second_front_in(
    store: &CsgStore,
    op: Op,
    right: u32,
    numbers: &[Option<u32>],
) -> Option<(Op, Option<u32>)>
    requires right { IsNumberIn store.now right }
    requires numbers { length numbers.now ≡ length store.now }
    ensures { (earlier : List Tree) → AreAllNumbersIn earlier store.now numbers.now →
        IsFrontOfSecond earlier op (tree_numbered store.now right) result }
{
    match second_join(store, op, right) {
        Some(join) => Some((join.op, numbers[join.first as usize - 1])),
        None => None,
    }
}

// For each number the number of a join whose first tree has it, or 0. It is where a hash is looked for, and who reads it looks
// at the join again.
fn joins_by_left(alloc: Global, store: &CsgStore) -> Result<Vec<u32>, NoMemory>
    ensures many { IfOk result (λ v. length v.items ≡ length store.now) }
    ensures within { IfOk result (λ v. All (λ n. n ≤ length store.now) v.items) }
{
    let mut joins = vec![in alloc; 0; store.len() as usize]?;
    for before in 0..store.len() {
        if let CsgNode::Join(_, left, _) = store.node(before + 1) {
            joins[left as usize - 1] = before + 1;
        }
    }
    Ok(joins)
}

// The hash of a node that is a join, behind its front, taken from an earlier store where that has the join, or one with the
// same front.
fn front_over(
    store: &CsgStore,
    number: u32,
    earlier: &NamedStore,
    numbers: &[Option<u32>],
    joins: &[u32],
) -> Result<Option<Sha256>, NoMemory>
    requires number { IsNumberIn store.now number }
    requires numbers { AreAllNumbersIn earlier.now store.now numbers.now }
    requires joins { (length joins.now ≡ length earlier.now)
        × All (λ n. n ≤ length earlier.now) joins.now }
    ensures { IfOk result (HoldsFrontIfThere (tree_numbered store.now number)) }
{
    if let Some(known) = numbers[number as usize - 1] {
        return earlier.front(known);
    }
    match store.node(number) {
        CsgNode::Leaf(_) => Ok(None),
        CsgNode::Join(op, left, right) => {
            let second_front = second_front_in(store, op, right, numbers);
            let kept = earlier.front_with(joins, op, numbers[left as usize - 1], second_front)?;
            match kept {
                Some(hasher) => Ok(Some(hasher)),
                None => Ok(Some(hash_of_front(store, op, left, right))),
            }
        }
    }
}

// The name of a node that is a join: that of its number in an earlier store, where it has one.
fn name_over(
    store: &CsgStore,
    number: u32,
    earlier: &NamedStore,
    found: Option<u32>,
    front: &Option<Sha256>,
) -> Result<Option<[u8; 32]>, NoMemory>
    requires number { IsNumberIn store.now number }
    requires found { IsNumberOf earlier.now (tree_numbered store.now number) found }
    requires front { HoldsFrontIfThere (tree_numbered store.now number) front.now }
    ensures { IfOk result (λ name. name ≡ name_of_join (tree_numbered store.now number)) }
{
    let name = match found {
        Some(known) => earlier.name(known),
        None => name_made(store, number, front)?,
    };
    Ok(name)
}
