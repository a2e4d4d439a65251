//! Laws of the meaning of sources, on functions that do nothing.

ghost use Rattle.std.specs.Prelude.{◌≡◌, ◌↔◌, ℤ, ◌<ℤ◌, pos, Bool, true, List, None};
ghost use Rattle.std.specs.List.{AllByRecursion};
ghost use Rattle.plain_text.specs.declared.place.Place.{Place};
ghost use Rattle.text_place.specs.declared.fault.FaultKind.{FaultKind};
ghost use Rattle.scad_ast.specs.Terms.{StatementTerm, StatementTerms};
ghost use Rattle.scad_ast.specs.Places.{HoldsPlace};
ghost use Rattle.scad_definitions.specs.Blocks.{assignments_in, assignments_of};
ghost use Rattle.scad_meaning.specs.Bodies.{StandsForAll, HaveDistinctNames, is_named_in};
ghost use Rattle.plane_predicate.specs.declared.unit.Unit.{Unit as LengthUnit};
ghost use Rattle.plane_predicate.specs.Space.{Coordinates};
ghost use Rattle.primitives.specs.Shapes.{IsInside};
ghost use Rattle.scad_hull.specs.Combinations.{IsInnerCombination};
ghost use Rattle.scad_hull.specs.Hulls.{points_in_order};
ghost use Rattle.scad_meaning.specs.Hulls.{hull_mesh, points_of};
ghost use Rattle.scad_modules.specs.Effects.{SolidCall, FlatCall};
ghost use Rattle.csg_tree.specs.HalfSpaceTrees.{Tree};
ghost use Rattle.csg_tree.specs.ProperTrees.{IsProper};
ghost use Rattle.scad_design.specs.Designs.{DesignTree};
ghost use Rattle.scad_meaning.specs.Verdicts.{Verdict, Judge, IsRightJudge, IsSolidVerdict, IsFlatVerdict, IsHeightVerdict, IsHullVerdict};
ghost use Rattle.scad_meaning.specs.Sources.{Meaning, a_fault, a_tree, IsMeaning};

use scad_design::{designs_stay_trim, one_placing, placed_trees_are_proper, some_placing};
use scad_hull::hulls_hold_inner_combinations;

/// The last assignment of a name in a scope counts everywhere in it (OpenSCAD User Manual, "Variables"): of all
/// assignments of a body, those that are evaluated have each name once, with its last expression, in the place of its
/// first.
pub fn last_assignments_count()
    ensures counts { (statements : StatementTerms) →
        AllByRecursion (StandsForAll (assignments_in statements))
        (assignments_of statements) }
    ensures once { (statements : StatementTerms) → HaveDistinctNames (assignments_of statements) }
    ensures all { (statements : StatementTerms) → AllByRecursion
        (λ a. is_named_in (assignments_of statements) a ≡ true)
        (assignments_in statements) }
{}

/// What is wrong with a shape, with the height of an extrusion or with a hull is one thing: some judge is always right, and
/// no two verdicts are.
pub fn shapes_have_one_verdict()
    ensures some { (judge : Judge) × IsRightJudge judge }
    ensures solids { (unit : LengthUnit) (call : SolidCall) (v w : Verdict) →
        IsSolidVerdict unit call v → IsSolidVerdict unit call w → v ≡ w }
    ensures flats { (unit : LengthUnit) (call : FlatCall) (v w : Verdict) →
        IsFlatVerdict unit call v → IsFlatVerdict unit call w → v ≡ w }
    ensures heights { (unit : LengthUnit) (center : Bool) (height : ℤ) (v w : Verdict) →
        IsHeightVerdict unit center height v → IsHeightVerdict unit center height w → v ≡ w }
    ensures hulls { (design : DesignTree) (v w : Verdict) → IsHullVerdict design v →
        IsHullVerdict design w → v ≡ w }
{}

/// Where nothing is wrong with the hull of what children give, a point is strictly behind all of its faces exactly where it is
/// a combination, with weights above 0, of the points of their leaves, each moved by its leaf's steps.
pub fn hulls_in_programs_hold_inner_combinations()
    ensures { (judge : Judge) → IsRightJudge judge → (design : DesignTree) →
        judge.hull design ≡ None →
        (q : Coordinates) →
        pos 0 <ℤ q.w →
        IsInside (hull_mesh design) q ↔ IsInnerCombination (points_in_order (points_of design)) q }
{
    // Called for its law; does nothing when it runs: the same of the hull of points.
    hulls_hold_inner_combinations();
}

/// A program has one meaning at most in each unit: one tree, or one first fault.
pub fn one_meaning()
    ensures { (unit : LengthUnit) (program : List StatementTerm) (m n : Meaning) →
        IsMeaning unit program m →
        IsMeaning unit program n → m ≡ n }
{
    // Each call is for its law, and does nothing when it runs: right judges say the same, and a design has one placing at most.
    shapes_have_one_verdict();
    one_placing();
}

/// A program has a meaning in each unit: a tree, or a first fault.
pub fn some_meaning()
    ensures { (unit : LengthUnit) (program : List StatementTerm) →
        (meaning : Meaning) × IsMeaning unit program meaning }
{
    // Each call is for its law, and does nothing when it runs: right judges say the same, and a design has a placing.
    shapes_have_one_verdict();
    some_placing();
}

/// The tree that a program means is proper: its leaves have planes, which have the numbers of a plane and come in reach, no
/// join of it has an empty side, and it has fewer than 2^32 subtrees.
pub fn programs_mean_proper_trees()
    ensures { (unit : LengthUnit) (program : List StatementTerm) (tree : Tree) →
        IsMeaning unit program (a_tree tree) →
        IsProper tree }
{
    // Each call is for its law, and does nothing when it runs: right judges say the same, designs stay trim, and what is
    // placed of a trim one is proper.
    shapes_have_one_verdict();
    designs_stay_trim();
    placed_trees_are_proper();
}

/// A fault can be shown in its program: where a program means a fault, it stands at one of the program's places, that of
/// a form, a name, an operator, a `?`, a `.` or the `[` of an index.
pub fn faults_stand_in_their_program()
    ensures { (unit : LengthUnit) (program : List StatementTerm) (kind : FaultKind) (at : Place) →
        IsMeaning unit program (a_fault kind at) → HoldsPlace program at }
{}
