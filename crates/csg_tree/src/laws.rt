//! Laws of trees, for the crates above. They are proved, and do nothing when they run.

ghost use Rattle.std.specs.Prelude.{◌≡◌, ℕ, ◌+◌, ◌/◌, ◌^◌, ◌<◌, ◌≤◌, List, length, take, drop, map};
ghost use Rattle.std.specs.List.{list_any};
ghost use Rattle.csg_tree.specs.declared.op.Op.{Op};
ghost use Rattle.csg_tree.specs.declared.op.Op.TheVariants.{Union};
ghost use Rattle.csg_tree.specs.HalfSpaceTrees.{SideAssignment, Tree, holds, tree_join};
ghost use Rattle.csg_tree.specs.Joins.{balanced_of, join_of};
ghost use Rattle.csg_tree.specs.ProperTrees.{IsProper, subtree_count};
ghost use Rattle.csg_tree.specs.Reach.{KeepsWithinReach, LeavesKeepWithinReach};

/// The join of two trees means the operation on them.
pub fn joins_keep_the_meaning()
    ensures { (op : Op) (left right : Tree) (sides : SideAssignment) →
        holds (join_of op left right) sides ≡ holds (tree_join op left right) sides }
{}

/// More than one tree are joined by halves: the first half, rounded down, with the rest. What a list
/// of trees gives as a union holds where one of them does.
pub fn balanced_by_halves()
    ensures halves { (op : Op) (trees : List Tree) → 2 ≤ length trees →
        balanced_of op trees ≡ join_of op (balanced_of op (take (length trees / 2) trees))
        (balanced_of op (drop (length trees / 2) trees)) }
    ensures union { (trees : List Tree) (sides : SideAssignment) →
        holds (balanced_of Union trees) sides ≡ list_any (λ tree. holds tree sides) trees }
{}

/// The join of two proper trees is proper while it has few enough subtrees.
pub fn joins_are_proper()
    ensures { (op : Op) (left right : Tree) → IsProper left → IsProper right →
        1 + subtree_count left + subtree_count right < 2 ^ 32 → IsProper (join_of op left right) }
{}

/// A tree holds only within reach where each of its leaves does, since a join holds nowhere but
/// where one of its two sides does.
pub fn joins_keep_within_reach()
    ensures { (f : Tree) → LeavesKeepWithinReach f → KeepsWithinReach f }
{}
