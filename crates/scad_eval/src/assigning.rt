//! The assignments of a block.

ghost use Rattle.scad_definitions.specs.Blocks.{assignments_of};
ghost use Rattle.scad_definitions.specs.TextView.{source_assignment_of};
ghost use Rattle.scad_func.specs.Meaning.{Gives, then_with};
ghost use Rattle.scad_func.specs.View.{table_in};
ghost use Rattle.scad_func.specs.Definitions.{statements_at, IsWholeTable};
ghost use Rattle.scad_meaning.specs.Meaning.{assigned_value, with_assignment, each_assignment};
ghost use Rattle.scad_eval.specs.Keeping.{AssignsAnywhere};

use crate::evaluator::InstanceEvaluator;
use scad_func::evaluate;
use scad_scope::Assignment;
use text_place::Stop;

impl InstanceEvaluator<'_, '_> {
    /// Gives the names of a block's assignments their values, from the first on.
    pub(crate) fn assign_all(&mut self, block: u32) -> Result<(), Stop>
        requires { IsWholeTable (table_in self.old.evaluation.source.now) }
        ensures { let statements = statements_at (table_in self.old.evaluation.source.now) block in
            AssignsAnywhere self.old self.new result (λ evaluator here turns leaves.
            each_assignment evaluator.evaluations here (assignments_of statements) turns) }
    {
        let assignments = self.evaluation.assignments(block);
        'each: for assignment in assignments {
            self.assign(assignment)?;
        }
        Ok(())
    }

    // Gives a name its value: its statement is one evaluation deeper, and its expression one more.
    fn assign(&mut self, assignment: &Assignment<'_>) -> Result<(), Stop>
        ensures { AssignsAnywhere self.old self.new result (λ evaluator here turns leaves.
            then_with (assigned_value evaluator.evaluations here (source_assignment_of assignment.now) turns)
            (λ turns value. Gives turns (with_assignment
            (source_assignment_of assignment.now) value here))) }
    {
        self.evaluation.begin_evaluation(assignment.place)?;
        let value = evaluate(&mut self.evaluation, assignment.value)?;
        self.evaluation.end_evaluation();
        if assignment.special {
            self.evaluation.bind_special(assignment.name, value)?;
        } else {
            self.evaluation.bind(assignment.name, value)?;
        }
        Ok(())
    }
}
