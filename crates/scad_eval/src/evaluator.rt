//! The state of an evaluation of instances.

ghost use Rattle.std.specs.Prelude.{◌≡◌, ◌+◌, ◌≤◌};
ghost use Rattle.scad_func.specs.Evaluations.{scopes_there};
ghost use Rattle.scad_meaning.specs.Meaning.{most_leaves};

use plane_predicate::Unit;
use scad_func::Evaluation;

/// The evaluation of instances under way: that of their expressions, the unit of lengths, and the leaves
/// so far. The type keeps the limit of leaves, and that the current scope is the newest.
#[derive(Drop)]
pub struct InstanceEvaluator<'a, 's> {
    pub evaluation: Evaluation<'a, 's>,
    pub unit: Unit,
    pub leaves: u32,
    ghost few_leaves: { leaves ≤ most_leaves },
    ghost newest: { evaluation.scope + 1 ≡ scopes_there evaluation },
}
