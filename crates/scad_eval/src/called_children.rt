//! Calls of children.

ghost use Rattle.scad_func.specs.Meaning.{activation_in};
ghost use Rattle.scad_modules.specs.Bounds.{IsSafeChoice};
ghost use Rattle.scad_modules.specs.View.{chosen_of};
ghost use Rattle.scad_meaning.specs.Meaning.{children_design, chosen_children, counted_children};
ghost use Rattle.scad_instance_rules.specs.Seen.{instance_design_of};
ghost use Rattle.scad_eval.specs.Keeping.{IsPosition, EvaluatesAt};

use crate::evaluator::InstanceEvaluator;
use csg_tree::Op;
use scad_instance_rules::{InstanceResult, Position, join_members, nothing_made};
use scad_modules::Chosen;
use text_place::{Place, Stop};

impl InstanceEvaluator<'_, '_> {
    /// A call of `children`, whose arguments were evaluated before. Where nothing was counted and no leaf was evaluated
    /// meanwhile, it counts one turn when it ends.
    #[cycle(instances)]
    pub(crate) fn children_called(
        &mut self,
        position: Position<'_, '_>,
        place: Place,
        chosen: &Chosen,
    ) -> Result<InstanceResult, Stop>
        requires position { IsPosition self.old position }
        requires safe { IsSafeChoice (chosen_of chosen.now) }
        ensures { EvaluatesAt instance_design_of self.old self.new position.entry result
            (λ evaluator. counted_children evaluator place (chosen_of chosen.now)) }
    {
        let turns = self.evaluation.turns;
        let leaves = self.leaves;
        let made = self.children_chosen(position, place, chosen)?;
        if self.evaluation.turns == turns && self.leaves == leaves {
            self.evaluation.turn(place)?;
        }
        Ok(made)
    }

    // The chosen children of the enclosing call, one call deeper.
    #[cycle(instances)]
    fn children_chosen(
        &mut self,
        position: Position<'_, '_>,
        place: Place,
        chosen: &Chosen,
    ) -> Result<InstanceResult, Stop>
        requires position { IsPosition self.old position }
        requires safe { IsSafeChoice (chosen_of chosen.now) }
        ensures { EvaluatesAt instance_design_of self.old self.new position.entry result
            (λ evaluator. chosen_children evaluator place (chosen_of chosen.now)) }
    {
        self.evaluation.begin_call(place)?;
        let made = self.children_made(position, chosen)?;
        self.evaluation.end_call();
        Ok(made)
    }

    // The chosen children of the enclosing call, in a new scope inside its caller's, or nothing where none encloses.
    #[cycle(instances)]
    fn children_made(
        &mut self,
        position: Position<'_, '_>,
        chosen: &Chosen,
    ) -> Result<InstanceResult, Stop>
        requires position { IsPosition self.old position }
        requires safe { IsSafeChoice (chosen_of chosen.now) }
        ensures { EvaluatesAt instance_design_of self.old self.new position.entry result
            (λ evaluator here. children_design evaluator here (activation_in here.env)
            (chosen_of chosen.now)) }
    {
        match self.evaluation.enclosing_activation() {
            None => Ok(nothing_made()),
            Some(call) => {
                let before = self.evaluation.enter_body(call.caller, call.children)?;
                let members = self.members_in_scope(position, call.children, Some(chosen))?;
                self.evaluation.leave(before);
                Ok(join_members(self.evaluation.alloc, Op::Union, members)?)
            }
        }
    }
}
