//! Laws of solids, for the crates above. They are proved, and do nothing when they run.

ghost use Rattle.std.specs.Prelude.{◌≡◌, ℕ, ◌+◌, ◌-◌, ◌≤◌, ◌++◌, ◌∷◌, [], List, map, take, length, get_or};
ghost use Rattle.csg_tree.specs.declared.op.Op.{Op};
ghost use Rattle.csg_tree.specs.HalfSpaceTrees.{Tree};
ghost use Rattle.csg_tree.specs.ProperTrees.{IsProper};
ghost use Rattle.csg_tree.specs.Numberings.{tree_numbered, IsNumberIn};
ghost use Rattle.bsp_tree.specs.Trees.{BspTree, outside};
ghost use Rattle.bsp_boolean.specs.Merges.{merge_of, IsOperationOn};
ghost use Rattle.bsp_boolean.specs.LeafSolids.{IsSolidOf};
ghost use Rattle.bsp_boolean.specs.Solids.{solid_of};
ghost use Rattle.bsp_boolean.specs.TreeSolids.{most_solid_size, most_total_size, solid_size, total_size, AreWithinSizeLimits, one_if_join, join_count};

/// The merge of two solids is the operation on them, at each point of a cell that both are of off
/// all their planes; it is of that cell, and none of its planes is new.
pub fn merges_are_operations()
    ensures { (op : Op) (left right : BspTree) →
        IsOperationOn op left right (merge_of op left right) }
{}

/// The solid of a proper tree is of the world box, has no other planes than the tree, and holds at
/// each point strictly inside the world box and off all planes of the tree exactly where the tree
/// does.
pub fn solids_are_their_trees()
    ensures { (f : Tree) → IsProper f → IsSolidOf f (solid_of f) }
{}

/// What one tree more adds to the first ones of a list: its solid, its size, its join where it is one,
/// and that they stay within both limits where its size and the sum are.
pub fn one_tree_more()
    ensures solids { (trees : List Tree) (n : ℕ) → IsNumberIn trees n →
        map solid_of (take n trees) ≡ map solid_of (take (n - 1) trees)
        ++ solid_of (tree_numbered trees n) ∷ [] }
    ensures sizes { (trees : List Tree) (n : ℕ) → IsNumberIn trees n →
        total_size (take n trees)
        ≡ total_size (take (n - 1) trees) + solid_size (tree_numbered trees n) }
    ensures joins { (trees : List Tree) (n : ℕ) → IsNumberIn trees n →
        join_count (take n trees) ≡ join_count (take (n - 1) trees) + one_if_join (tree_numbered trees n) }
    ensures within { (trees : List Tree) (n : ℕ) → IsNumberIn trees n →
        AreWithinSizeLimits (take (n - 1) trees) →
        solid_size (tree_numbered trees n) ≤ most_solid_size →
        total_size (take n trees) ≤ most_total_size → AreWithinSizeLimits (take n trees) }
    ensures numbered { (trees : List Tree) (n m : ℕ) → 1 ≤ m → m ≤ n →
        get_or (map solid_of (take n trees)) (m - 1) outside ≡ solid_of (tree_numbered trees m) }
    ensures few { (trees : List Tree) (n : ℕ) → join_count (take n trees) ≤ length trees }
{}
