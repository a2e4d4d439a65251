//! Binary trees in one list: nodes are linked by number and never changed.

ghost use Rattle.std.specs.Prelude.{◌≡◌, ◌+◌, ◌-◌, ◌<◌, ◌≤◌, ◌==◌, [], ◌++◌, ◌∷◌, length, take, IsOk, IfOk, OnOk, OnErr};

use crate::link::{Link, NodeId};
use plain_text::NoMemory;
use std::alloc::Global;
use std::marker::Model;

/// A node: its payload and where its two branches go on.
#[derive(Drop)]
pub struct Entry<T> {
    pub payload: T,
    pub behind: Link,
    pub ahead: Link,
}

/// Binary trees whose nodes are linked by number. The links of a node stand before it, so that a
/// node is never changed: whatever is added or cut off behind it, its tree stays.
///
/// Contracts see the list of nodes in order of number, and for how many more nodes there is room.
#[derive(Drop)]
pub struct Forest<T> {
    entries: Vec<Entry<T>>,
}

impl<T> Model for Forest<T> {
    ghost use Rattle.std.specs.Prelude.{◌-◌, vec_len, vec_capacity};
    ghost use Rattle.link_forest.specs.Forests.{StoredForest, AreLinked};

    ghost Value = { StoredForest T };

    ghost view = { λ f. record {
      nodes = f.entries.items;
      spare = vec_capacity f.entries - vec_len
          f.entries;
    } };

    ghost invariant = { λ f. AreLinked f.entries.items };
}

impl<T: Drop> Forest<T> {
    ghost use Rattle.std.specs.Prelude.{List};
    ghost use Rattle.link_forest.specs.declared.forest.Entry.{Entry};
    ghost use Rattle.link_forest.specs.Forests.{AddsNode, AreLinked, Extends, IsLinkOf, IsNode};

    /// No nodes.
    pub fn new(alloc: Global) -> Self
        ensures { result.nodes ≡ [] }
    {
        Forest {
            entries: Vec::new(alloc),
        }
    }

    /// Adds a node, whose links are of this forest. Without memory the forest stays as it was.
    pub fn add(&mut self, payload: T, behind: Link, ahead: Link) -> Result<NodeId, NoMemory>
        requires behind { IsLinkOf self.old.nodes behind }
        requires ahead { IsLinkOf self.old.nodes ahead }
        ensures ok { IfOk result (AddsNode self.old.nodes self.new.nodes payload behind ahead) }
        ensures spare { OnOk result (self.old.spare ≤ self.new.spare + 1) }
        ensures err { OnErr result (self.new ≡ self.old) }
        ensures succeeds { 0 < self.old.spare → IsOk result }
    {
        self.reserve(1)?;
        Ok(self.add_reserved(payload, behind, ahead))
    }

    /// Makes room for `n` more nodes. Without memory the forest stays as it was.
    pub fn reserve(&mut self, n: usize) -> Result<(), NoMemory>
        ensures ok { OnOk result (n ≤ self.new.spare) }
        ensures spare { self.old.spare ≤ self.new.spare }
        ensures nodes { self.new.nodes ≡ self.old.nodes }
        ensures err { OnErr result (self.new ≡ self.old) }
        ensures succeeds { n ≤ self.old.spare → IsOk result }
    {
        self.entries.try_reserve(n)?;
        Ok(())
    }

    /// Adds a node, whose links are of this forest, in room that is there.
    pub fn add_reserved(&mut self, payload: T, behind: Link, ahead: Link) -> NodeId
        requires spare { 0 < self.old.spare }
        requires behind { IsLinkOf self.old.nodes behind }
        requires ahead { IsLinkOf self.old.nodes ahead }
        ensures adds { AddsNode self.old.nodes self.new.nodes payload behind ahead result }
        ensures spare { self.new.spare + 1 ≡ self.old.spare }
    {
        let index = self.entries.len();
        self.entries.push_reserved(Entry {
            payload,
            behind,
            ahead,
        });
        NodeId { index }
    }

    /// The payload and the links of a node.
    pub fn at(&self, id: NodeId) -> (&T, Link, Link)
        requires { id.index < length self.now.nodes }
        ensures { IsNode self.now.nodes id result.0.now result.1 result.2 }
    {
        let entry = &self.entries[id.index];
        (&entry.payload, entry.behind, entry.ahead)
    }

    /// The number of nodes.
    pub fn len(&self) -> usize
        ensures len { result ≡ length self.now.nodes }
        ensures linked { AreLinked self.now.nodes }
    {
        self.entries.len()
    }

    /// Whether there is no node.
    pub fn is_empty(&self) -> bool
        ensures { result ≡ (length self.now.nodes == 0) }
    {
        self.entries.is_empty()
    }

    /// For how many more nodes there is room.
    pub fn spare(&self) -> usize
        ensures { result ≡ self.now.spare }
    {
        self.entries.capacity() - self.entries.len()
    }

    /// Keeps the first `len` nodes, and the room of the others.
    pub fn cut_back(&mut self, len: usize)
        ensures nodes { self.new.nodes ≡ take len self.old.nodes }
        ensures kept { Extends self.new.nodes self.old.nodes }
        ensures again { (nodes : List (Entry T)) → Extends nodes self.old.nodes →
            length nodes ≡ len → self.new.nodes ≡ nodes }
        ensures spare { self.new.spare ≡ self.old.spare + (length self.old.nodes - len) }
        ensures linked { AreLinked self.new.nodes }
    {
        self.entries.truncate(len);
    }

    /// Gives back the room that no node takes.
    pub fn shrink_to_fit(&mut self)
        ensures nodes { self.new.nodes ≡ self.old.nodes }
        ensures spare { self.new.spare ≤ self.old.spare }
    {
        self.entries.shrink_to_fit();
    }
}
