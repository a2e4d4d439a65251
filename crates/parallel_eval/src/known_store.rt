//! Stores with what is known of them from earlier ones.

ghost use Rattle.std.specs.Prelude.{◌≡◌, ◌+◌, ◌≤◌, map, Some, IfSome, IfOk};
ghost use Rattle.std.specs.Arc.{arc_value};
ghost use Rattle.csg_tree.specs.Earlier.{IsNumberOf};
ghost use Rattle.csg_tree.specs.HalfSpaceTrees.{Tree};
ghost use Rattle.csg_tree.specs.Numberings.{tree_numbered, IsNumberIn};
ghost use Rattle.bsp_boolean.specs.Solids.{solid_of};
ghost use Rattle.bsp_boolean.specs.TreeSolids.{AreWithinSizeLimits};
ghost use Rattle.parallel_eval.specs.Known.{shared_solids, IsKnown, AreAllKnown, known_size, most_known};

use bsp_tree::Solid;
use csg_tree::{CsgNode, CsgStore, NamedStore, TreeKey};
use plain_text::NoMemory;
use std::alloc::Global;
use std::marker::Model;
use std::sync::Arc;

// The most that the solids of leaves which are known may be in size together: 2 MiB at 64 bytes each.
const MOST_KNOWN: u64 = 32_768;

/// A store with the names of its joins and the solids of leaves, which contracts see as the store is seen. The solids that it
/// knows come to at most 32,768 in size, which is 2 MiB at 64 bytes each: no contract says how many bytes they take.
#[derive(Drop)]
pub struct KnownStore {
    named: NamedStore,
    leaves: Vec<Option<Arc<Solid>>>,
}

impl Model for KnownStore {
    ghost use Rattle.std.specs.Prelude.{List};
    ghost use Rattle.std.specs.Coded.{coded_list};
    ghost use Rattle.csg_tree.specs.HalfSpaceTrees.{Tree};
    ghost use Rattle.csg_tree.specs.Codes.{coded_tree};

    ghost Value = { List Tree };

    ghost coded = { coded_list coded_tree };

    ghost use Rattle.parallel_eval.specs.Known.{AreAllKnown};

    ghost view = { λ s. s.named };

    ghost invariant = { λ s. AreAllKnown s.named s.leaves.items };
}

impl KnownStore {
    /// A store with the names of its joins. No solid of a leaf is known.
    pub fn new(alloc: Global, store: Arc<CsgStore>) -> Result<KnownStore, NoMemory>
        ensures { IfOk result (λ known. known ≡ arc_value store) }
    {
        let mut leaves = Vec::new(alloc);
        for _number in 0..store.len() {
            leaves.push(None)?;
        }
        let named = NamedStore::new(alloc, store)?;
        Ok(KnownStore { named, leaves })
    }

    /// A store with the names of its joins. What an earlier store knows of its trees is taken from it, as far as there is room.
    pub fn over(
        alloc: Global,
        store: Arc<CsgStore>,
        earlier: &KnownStore,
    ) -> Result<KnownStore, NoMemory>
        ensures { IfOk result (λ known. known ≡ arc_value store) }
    {
        let numbers = store.numbers_in(alloc, earlier.store())?;
        let mut leaves = Vec::new(alloc);
        let mut room = MOST_KNOWN;
        for before in 0..store.len() {
            let leaf = earlier.leaf_in(numbers[before as usize])?;
            leaves.push(with_room(leaf, &mut room))?;
        }
        let named = NamedStore::over(alloc, store, &earlier.named, &numbers)?;
        Ok(KnownStore { named, leaves })
    }

    /// The store.
    pub fn store(&self) -> &CsgStore
        ensures { result.now ≡ self.now }
    {
        self.named.store()
    }

    /// The key of a node. `NoMemory` is a store that cannot be shared once more.
    pub fn key(&self, number: u32) -> Result<TreeKey, NoMemory>
        requires { IsNumberIn self.now number }
        ensures { IfOk result (λ key. key ≡ tree_numbered self.now number) }
    {
        self.named.key(number)
    }

    /// The solid of a node, where it is known. `NoMemory` is a solid that cannot be shared once more.
    pub fn leaf(&self, number: u32) -> Result<Option<Arc<Solid>>, NoMemory>
        requires { IsNumberIn self.now number }
        ensures { IfOk result (IsKnown (tree_numbered self.now number)) }
    {
        match &self.leaves[number as usize - 1] {
            Some(solid) => Ok(Some(Arc::try_clone(solid)?)),
            None => Ok(None),
        }
    }

    // The solid of a tree by its number here, where it has one and the solid is known.
    fn leaf_in(&self, number: Option<u32>) -> Result<Option<Arc<Solid>>, NoMemory>
        requires { IfSome number (IsNumberIn self.now) }
        ensures { (tree : Tree) → IsNumberOf self.now tree number → IfOk result (IsKnown tree) }
    {
        match number {
            Some(number) => self.leaf(number),
            None => Ok(None),
        }
    }

    /// Keeps the solids of leaves, where these are the solids of all nodes, as far as there is room: they come to at most
    /// 32,768 in size. Where memory runs out, what was known stays.
    pub fn keep(&mut self, alloc: Global, solids: &[Arc<Solid>])
        requires solids { shared_solids solids.now ≡ map solid_of self.old }
        requires within { AreWithinSizeLimits self.old }
        ensures { self.new ≡ self.old }
    {
        if let Ok(leaves) = leaves_of(alloc, self.named.store(), solids) {
            self.leaves = leaves;
        }
    }
}

// The solids of the leaves of a store among those of its nodes, as far as there is room.
fn leaves_of(
    alloc: Global,
    store: &CsgStore,
    solids: &[Arc<Solid>],
) -> Result<Vec<Option<Arc<Solid>>>, NoMemory>
    requires solids { shared_solids solids.now ≡ map solid_of store.now }
    requires within { AreWithinSizeLimits store.now }
    ensures { IfOk result (λ v. AreAllKnown store.now v.items) }
{
    let mut leaves = Vec::new(alloc);
    let mut room = MOST_KNOWN;
    for before in 0..store.len() {
        let leaf = leaf_within(store.node(before + 1), &solids[before as usize], &mut room)?;
        leaves.push(leaf)?;
    }
    Ok(leaves)
}

// The solid of a node, where that is a leaf and there is room for it.
fn leaf_within(
    node: CsgNode<'_>,
    solid: &Arc<Solid>,
    room: &mut u64,
) -> Result<Option<Arc<Solid>>, NoMemory>
    requires { room.old ≤ most_known }
    ensures known { (tree : Tree) → IsKnown tree (Some solid.now) → IfOk result (IsKnown tree) }
    ensures room { IfOk result (λ leaf. room.new + known_size leaf ≡ room.old) }
{
    match node {
        CsgNode::Leaf(_) => Ok(with_room(Some(Arc::try_clone(solid)?), room)),
        CsgNode::Join(..) => Ok(None),
    }
}

// What is known of a node, where there is room for it.
fn with_room(leaf: Option<Arc<Solid>>, room: &mut u64) -> Option<Arc<Solid>>
    requires { room.old ≤ most_known }
    ensures known { (tree : Tree) → IsKnown tree leaf → IsKnown tree result }
    ensures room { room.new + known_size result ≡ room.old }
{
    let solid = leaf?;
    let size = solid.count();
    if size > *room {
        return None;
    }
    *room -= size;
    Some(solid)
}
