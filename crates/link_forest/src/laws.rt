//! Laws of forests, for the crates above. They are proved, and do nothing when they run.

ghost use Rattle.std.specs.Prelude.{◌≡◌, ◌<◌, ◌↔◌, ◌⊎◌, ◌++◌, ◌∷◌, [], ℕ, Bool, List, length, slice_get, take, Some};
ghost use Rattle.link_forest.specs.declared.link.NodeId.{NodeId};
ghost use Rattle.link_forest.specs.declared.link.Link.{Link};
ghost use Rattle.link_forest.specs.declared.link.Link.TheVariants.{End, To};
ghost use Rattle.link_forest.specs.declared.forest.Entry.{Entry};
ghost use Rattle.link_forest.specs.Forests.{end, entry, node_id, tree_at, AreLinked, IsLinkOf, IsNode, Extends, AddsNode, IsReached, AreReachedFrom};

/// An end has itself for a tree, and reaches no node.
pub fn ends_have_no_nodes<T: Drop>()
    ensures tree { (nodes : List (Entry T)) (side : Bool) → tree_at nodes (End side) ≡ end side }
    ensures reach { (nodes : List (Entry T)) (side : Bool) (id : NodeId) →
        IsReached nodes (End side) id → ⊥ }
{}

/// A list with more nodes behind it: its links stay links, with the trees that they have.
pub fn longer_forests_keep_trees<T: Drop>()
    ensures append { (nodes more : List (Entry T)) → Extends nodes (nodes ++ more) }
    ensures same { (nodes : List (Entry T)) → Extends nodes nodes }
    ensures twice { (first second third : List (Entry T)) → Extends first second →
        Extends second third → Extends first third }
    ensures back { (old new : List (Entry T)) → Extends old new → take (length old) new ≡ old }
    ensures linked { (old new : List (Entry T)) → Extends old new → AreLinked new → AreLinked old }
{}

/// A node behind the others, and the node of a number.
pub fn nodes_are_over_their_links<T: Drop>()
    ensures none { AreLinked {A = T} [] }
    ensures added { (nodes : List (Entry T)) (payload : T) (behind ahead : Link) → AreLinked nodes →
        IsLinkOf nodes behind → IsLinkOf nodes ahead →
        AddsNode nodes (nodes ++ entry payload behind ahead ∷ []) payload behind ahead
        (node_id (length nodes)) }
    ensures node { (nodes : List (Entry T)) (id : NodeId) (payload : T) (behind ahead : Link) →
        AreLinked nodes → slice_get nodes id.index ≡ Some (entry payload behind ahead) →
        IsNode nodes id payload behind ahead }
{}

/// What is reached from a link: it stays as it is behind more nodes, a node reaches itself and what its links reach, and
/// a node over two links reaches all nodes that were added for the one and then for the other.
pub fn links_reach_nodes<T: Drop>()
    ensures kept { (old new : List (Entry T)) (link : Link) (id : NodeId) → Extends old new →
        AreLinked old → IsLinkOf old link → IsReached old link id ↔ IsReached new link id }
    ensures by_node { (nodes : List (Entry T)) (from id : NodeId) (payload : T)
        (behind ahead : Link) → slice_get nodes from.index ≡ Some (entry payload behind ahead) →
        IsReached nodes (To from) id ↔
        ((id ≡ from) ⊎ (IsReached nodes behind id ⊎ IsReached nodes ahead id)) }
    ensures is_node { (nodes : List (Entry T)) (link : Link) (id : NodeId) → AreLinked nodes →
        IsLinkOf nodes link → IsReached nodes link id → id.index < length nodes }
    ensures added { (start : ℕ) (first second new : List (Entry T)) (payload : T)
        (behind ahead : Link) (id : NodeId) → Extends first second →
        AreReachedFrom start first behind → AreReachedFrom (length first) second ahead →
        AddsNode second new payload behind ahead id → AreReachedFrom start new (To id) }
{}
