//! Laws of designs, for the crates above. They are proved, and do nothing when they run.

ghost use Rattle.std.specs.Prelude.{◌≡◌, ◌+◌, ◌*◌, ◌^◌, ◌<◌, ◌≤◌, List, All, map};
ghost use Rattle.std.specs.List.{AllZip, sum_by};
ghost use Rattle.plane_predicate.specs.Space.{Coefficients};
ghost use Rattle.int_transform.specs.declared.affine.Affine.{Affine};
ghost use Rattle.csg_tree.specs.declared.op.Op.{Op};
ghost use Rattle.csg_tree.specs.HalfSpaceTrees.{Tree};
ghost use Rattle.csg_tree.specs.Joins.{balanced_of, join_of};
ghost use Rattle.csg_tree.specs.ProperTrees.{IsProper};
ghost use Rattle.scad_design.specs.Designs.{DesignTree, balanced_join, join_children, join, moved_design_tree};
ghost use Rattle.scad_design.specs.Placing.{PlacingOutcome, placing_tree, PlacesDesign};
ghost use Rattle.scad_design.specs.Trees.{leaf_count, tree_size, IsPlacedAs, IsSoundDesign, IsTreeOf, IsTrim};

use csg_tree::joins_are_proper;

/// The tree of designs that are joined is the join of their trees, by halves as well. Moving keeps
/// the joins. A design that is placed has its tree.
pub fn joins_of_designs_are_joins_of_trees()
    ensures tree { (design : DesignTree) (known now : List Coefficients) (tree : Tree) →
        PlacesDesign design known (placing_tree tree now) → IsTreeOf design tree }
    ensures joins { (op : Op) (left right : DesignTree) (first second : Tree) →
        IsTreeOf left first → IsTreeOf right second →
        IsTreeOf (join op left right) (join_of op first second) }
    ensures halves { (op : Op) (designs : List DesignTree) (trees : List Tree) →
        AllZip IsTreeOf designs trees → IsTreeOf (balanced_join op designs) (balanced_of op trees) }
    ensures moves { (steps : List Affine) (op : Op) (designs : List DesignTree) →
        moved_design_tree steps (balanced_join op designs) ≡ balanced_join op
        (map (moved_design_tree steps) designs) }
{}

/// A design has at most one placing.
pub fn one_placing()
    ensures { (design : DesignTree) (known : List Coefficients) (out other : PlacingOutcome) →
        PlacesDesign design known out → PlacesDesign design known other → out ≡ other }
{}

/// A design of shapes, moved by steps that are not singular, has a placing: a tree, or a first fault.
pub fn some_placing()
    ensures { (design : DesignTree) (known : List Coefficients) → IsSoundDesign design →
        (out : PlacingOutcome)
        × PlacesDesign design known out }
{}

/// A placed design of shapes has a proper tree, where it has fewer than 2^32 pieces: each leaf has planes, which have the
/// numbers of a plane and come in reach, and no join has an empty side.
pub fn placed_trees_are_proper()
    ensures { (design : DesignTree) (tree : Tree) → IsSoundDesign design →
        tree_size design < 2 ^ 32 →
        IsPlacedAs design tree → IsProper tree }
{
    // Called for its law; does nothing when it runs: joins of proper trees are proper.
    joins_are_proper();
}

/// Grouping and moving leave no empty side in a join, and add no leaf. So a design has at most about
/// twice as many pieces as leaves.
pub fn designs_stay_trim()
    ensures grouped_trim { (op : Op) (designs : List DesignTree) → All IsTrim designs →
        IsTrim (join_children op designs) }
    ensures grouped_parts { (op : Op) (designs : List DesignTree) →
        leaf_count (join_children op designs) ≤ sum_by leaf_count designs }
    ensures moved_trim { (steps : List Affine) (design : DesignTree) → IsTrim design →
        IsTrim (moved_design_tree steps design) }
    ensures moved_parts { (steps : List Affine) (design : DesignTree) →
        leaf_count (moved_design_tree steps design) ≡ leaf_count design }
    ensures pieces { (design : DesignTree) → IsTrim design →
        tree_size design ≤ 1 + 2 * leaf_count design }
{}
