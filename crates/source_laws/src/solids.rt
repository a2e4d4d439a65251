//! Laws of the solids of programs. They are proved, and do nothing when they run.

ghost use Rattle.std.specs.Prelude.{◌≡◌, ℕ, List};
ghost use Rattle.plane_predicate.specs.declared.unit.Unit.{Unit as LengthUnit};
ghost use Rattle.csg_tree.specs.HalfSpaceTrees.{Tree};
ghost use Rattle.csg_tree.specs.Reach.{KeepsWithinReach, LeavesKeepWithinReach};
ghost use Rattle.scad_ast.specs.Terms.{StatementTerm, statements_from};
ghost use Rattle.scad_scope.specs.Names.{first_bindings};
ghost use Rattle.scad_func.specs.Meaning.{Gives};
ghost use Rattle.scad_design.specs.Designs.{DesignTree};
ghost use Rattle.scad_design.specs.Trees.{IsPlacedAs};
ghost use Rattle.scad_meaning.specs.Verdicts.{Judge, IsRightJudge};
ghost use Rattle.scad_meaning.specs.Meaning.{design_of};
ghost use Rattle.scad_meaning.specs.Sources.{a_tree, IsMeaning};
ghost use Rattle.source_laws.specs.SourceHulls.{AreHullShapes};

use csg_tree::joins_keep_within_reach;
use scad_meaning::shapes_have_one_verdict;
use shape_hulls::{
    cubes_are_hulls_of_their_points, cylinders_are_hulls_of_their_points,
    extrusions_are_hulls_of_their_points, hulls_are_hulls_of_their_points,
    placed_shapes_are_hulls_of_their_corners, placed_shapes_are_hulls_of_their_points,
    polyhedra_are_hulls_of_their_corners,
};

/// Each shape of the design of a program is the hull of its points, or, as a polyhedron, of those that are corners of its
/// faces.
pub fn designs_are_of_hulls()
    ensures { (unit : LengthUnit) (program : List StatementTerm) (judge : Judge) (turns : ℕ)
        (design : DesignTree) → IsRightJudge judge →
        design_of unit judge first_bindings (statements_from program) ≡ Gives turns design →
        AreHullShapes design }
{
    // Each call is for its law, and does nothing when it runs: each kind of shape is the hull of its points.
    cubes_are_hulls_of_their_points();
    cylinders_are_hulls_of_their_points();
    extrusions_are_hulls_of_their_points();
    hulls_are_hulls_of_their_points();
    polyhedra_are_hulls_of_their_corners();
}

/// Where each shape of a design is a hull, each leaf of the tree that it is placed as holds only within reach.
pub fn placed_hulls_keep_within_reach()
    ensures { (design : DesignTree) (tree : Tree) → AreHullShapes design → IsPlacedAs design tree →
        LeavesKeepWithinReach tree }
{
    // Each call is for its law, and does nothing when it runs: what is behind all planes of a placed hull is within
    // reach where its points are.
    placed_shapes_are_hulls_of_their_points();
    placed_shapes_are_hulls_of_their_corners();
}

/// The solid of a program keeps off the walls of the world box: the tree that the program means holds only within reach.
pub fn programs_keep_within_reach()
    ensures { (unit : LengthUnit) (program : List StatementTerm) (tree : Tree) →
        IsMeaning unit program (a_tree tree) → KeepsWithinReach tree }
{
    // Each call is for its law, and does nothing when it runs: some judge is right, the leaves of the tree hold only
    // within reach, and so does it.
    shapes_have_one_verdict();
    designs_are_of_hulls();
    placed_hulls_keep_within_reach();
    joins_keep_within_reach();
}
