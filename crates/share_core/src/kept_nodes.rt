//! The nodes of the command that a client is at, each with its state.

ghost use Rattle.std.specs.Prelude.{◌≡◌, map, option_map, MatchOption, false, slice_get, Some};
ghost use Rattle.std.specs.Arc.{arc_value};
ghost use Rattle.share_core.specs.Views.{Built};
ghost use Rattle.share_core.specs.KeptNodes.{are_values, state_of, is_waiting};
ghost use Rattle.share_core.specs.Steps.{is_at, is_unasked, is_missed, is_built};

use plain_text::NoMemory;
use std::alloc::Global;
use std::marker::Model;
use std::sync::Arc;

/// How far a node is that is not there. Where the node is there, this says nothing.
#[derive(Drop)]
pub enum NodeState<V> {
    Unasked,
    Missed,
    Built(Arc<V>, u64),
}

/// The nodes of the command that a client is at. The values that are there are kept in a list of their
/// own, as a work asks for them, so that no event builds that list anew.
#[derive(Drop)]
pub struct Nodes<V> {
    states: Vec<NodeState<V>>,
    have: Vec<Option<Arc<V>>>,
}

impl<V> Model for Nodes<V> {
    ghost use Rattle.std.specs.Prelude.{◌≡◌, List, map, length, option_map};
    ghost use Rattle.std.specs.Arc.{arc_value};
    ghost use Rattle.share_core.specs.Views.{NodeProgress};

    ghost Value = { List (NodeProgress V) };

    ghost use Rattle.share_core.specs.KeptNodes.{client_nodes};

    ghost view = { λ n. client_nodes n.states.items
        (map (λ x. option_map arc_value x) n.have.items) };

    ghost invariant = { λ n. length n.have.items ≡ length n.states.items };
}

impl<V: Drop> Nodes<V> {
    ghost use Rattle.std.specs.Prelude.{◌≡◌, ◌<◌, map, length, IfOk, MatchOption, option_map};
    ghost use Rattle.std.specs.Prelude.{replicate, false, slice_get, Some, slice_set};
    ghost use Rattle.std.specs.Arc.{arc_value};
    ghost use Rattle.share_core.specs.Views.{Unasked, Built};
    ghost use Rattle.share_core.specs.KeptNodes.{client_node};
    ghost use Rattle.share_core.specs.Fields.{values_of};
    ghost use Rattle.share_core.specs.Steps.{all_there, is_at, is_unasked, is_missed, is_built};

    /// The given number of nodes that are not yet probed.
    pub fn new(alloc: Global, count: u32) -> Result<Self, NoMemory>
        ensures { IfOk result (λ n. n ≡ replicate count Unasked) }
    {
        let mut states = Vec::new(alloc);
        let mut have = Vec::new(alloc);
        for _index in 0..count {
            states.push(NodeState::Unasked)?;
            have.push(None)?;
        }
        Ok(Nodes { states, have })
    }

    /// The values that are there.
    pub fn have(&self) -> &[Option<Arc<V>>]
        ensures { map (λ x. option_map arc_value x) result.now ≡ values_of self.now }
    {
        self.have.as_slice()
    }

    /// Whether all nodes are there.
    pub fn are_there(&self) -> bool
        ensures { result ≡ all_there self.now }
    {
        are_some(self.have.as_slice())
    }

    /// Whether there is such a node, and it was not probed.
    pub fn is_unasked_at(&self, node: u32) -> bool
        ensures { result ≡ is_at is_unasked self.now node }
    {
        waits(self.have.as_slice(), node) && is_unasked_in(self.states.as_slice(), node)
    }

    /// Whether there is such a node, and it was missed.
    pub fn is_missed_at(&self, node: u32) -> bool
        ensures { result ≡ is_at is_missed self.now node }
    {
        waits(self.have.as_slice(), node) && is_missed_in(self.states.as_slice(), node)
    }

    /// What was built for a node, and its weight.
    pub fn built_at(&self, node: u32) -> Option<(&Arc<V>, u64)>
        ensures { MatchOption result (is_at is_built self.now node ≡ false)
            (λ r. slice_get self.now node ≡ Some (Built (arc_value r.0.now) r.1)) }
    {
        if !waits(self.have.as_slice(), node) {
            return None;
        }
        built_in(self.states.as_slice(), node)
    }

    /// A node is there with this value, or else in this state.
    pub fn put(&mut self, node: u32, state: NodeState<V>, value: Option<Arc<V>>)
        requires { node < length self.old }
        ensures { self.new ≡ slice_set self.old node
            (client_node state (option_map arc_value value)) }
    {
        let node = node as usize;
        self.states[node] = state;
        self.have[node] = value;
    }
}

// Whether each place has a value.
fn are_some<V>(have: &[Option<Arc<V>>]) -> bool
    ensures { result ≡ are_values (map (λ x. option_map arc_value x) have.now) }
{
    for value in have {
        if value.is_none() {
            return false;
        }
    }
    true
}

// Whether there is such a node, and it is not there.
fn waits<V>(have: &[Option<Arc<V>>], node: u32) -> bool
    ensures { result ≡ is_waiting (map (λ x. option_map arc_value x) have.now) node }
{
    let Some(value) = have.get(node as usize) else {
        return false;
    };
    value.is_none()
}

// Whether such a state is that of a node that was not probed.
fn is_unasked_in<V>(states: &[NodeState<V>], node: u32) -> bool
    ensures { result ≡ is_at is_unasked (map state_of states.now) node }
{
    let Some(NodeState::Unasked) = states.get(node as usize) else {
        return false;
    };
    true
}

// Whether such a state is that of a node that was missed.
fn is_missed_in<V>(states: &[NodeState<V>], node: u32) -> bool
    ensures { result ≡ is_at is_missed (map state_of states.now) node }
{
    let Some(NodeState::Missed) = states.get(node as usize) else {
        return false;
    };
    true
}

// What was built for a node, and its weight.
fn built_in<V>(states: &[NodeState<V>], node: u32) -> Option<(&Arc<V>, u64)>
    ensures { MatchOption result (is_at is_built (map state_of states.now) node ≡ false)
        (λ r. slice_get (map state_of states.now) node ≡ Some (Built (arc_value r.0.now) r.1)) }
{
    let Some(NodeState::Built(value, weight)) = states.get(node as usize) else {
        return None;
    };
    Some((value, *weight))
}
