//! Loops.

ghost use Rattle.std.specs.Prelude.{[], map};
ghost use Rattle.csg_tree.specs.declared.op.Op.TheVariants.{Union};
ghost use Rattle.scad_ast.specs.StatementView.{binder_of, binders_of};
ghost use Rattle.scad_meaning.specs.Meaning.{loop_design, each_iteration};
ghost use Rattle.scad_instance_rules.specs.Seen.{instance_design_of, member_designs_of};
ghost use Rattle.scad_eval.specs.Keeping.{EvaluatesAt};
ghost use Rattle.scad_eval.specs.Variables.{GoesInside, TakesStep};
ghost use Rattle.scad_eval.specs.Within.{body_seen, IsBodyAt};

use crate::evaluator::InstanceEvaluator;
use crate::open_variable::{Inside, OpenVariable};
use csg_tree::Op;
use scad_ast::{Binder, Binders};
use scad_instance_rules::{
    InstanceResult, MemberResults, NumberedBody, Position, join_members, no_members, with_made,
};
use text_place::{Place, Stop};

impl InstanceEvaluator<'_, '_> {
    /// The members of a loop's iterations, joined by an operation.
    #[cycle(instances)]
    pub(crate) fn looped(
        &mut self,
        op: Op,
        position: Position<'_, '_>,
        place: Place,
        binders: &Binders,
        body: NumberedBody<'_>,
    ) -> Result<InstanceResult, Stop>
        requires { IsBodyAt self.old position body }
        ensures { EvaluatesAt instance_design_of self.old self.new position.entry result
            (λ evaluator here. loop_design evaluator op here place (binders_of binders.now)
            (body_seen body.entry)) }
    {
        let members = self.iterations(position, place, &binders.items, body)?;
        Ok(join_members(self.evaluation.alloc, op, members)?)
    }

    // The iterations of a loop: one for each choice of a value for every variable, the first one slowest. The variables that
    // have values wait in a list, however many they are, and not on the stack.
    #[cycle(instances)]
    fn iterations(
        &mut self,
        position: Position<'_, '_>,
        place: Place,
        binders: &[Binder],
        body: NumberedBody<'_>,
    ) -> Result<MemberResults, Stop>
        requires { IsBodyAt self.old position body }
        ensures { EvaluatesAt member_designs_of self.old self.new position.entry result
            (λ evaluator. each_iteration evaluator place (map binder_of binders.now)
            (body_seen body.entry)) }
    {
        let mut outer = Vec::new(self.evaluation.alloc);
        let mut inside = self.inside(position, place, binders, body)?;
        'each: loop {
            inside = match inside {
                Inside::Variable(variable) => {
                    self.next_step(position, place, body, variable, &mut outer)?
                }
                Inside::Members(members) => match outer.pop() {
                    None => return Ok(members),
                    Some(variable) => {
                        Inside::Variable(variable.with_step(&mut self.evaluation, place, members)?)
                    }
                },
            };
        }
    }

    // The next step of a variable: what stands inside its next value, while it waits, or what its steps gave where it has
    // none.
    #[cycle(instances)]
    fn next_step<'b>(
        &mut self,
        position: Position<'_, '_>,
        place: Place,
        body: NumberedBody<'_>,
        mut variable: OpenVariable<'b>,
        outer: &mut Vec<OpenVariable<'b>>,
    ) -> Result<Inside<'b>, Stop>
        requires { IsBodyAt self.old position body }
        ensures { TakesStep self.old self.new position.entry place (body_seen body.entry) variable.entry
            outer.old.items outer.new.items result }
    {
        match variable.items.next() {
            None => Ok(Inside::Members(variable.members)),
            Some(value) => {
                variable.enter(&mut self.evaluation, value)?;
                let rest = variable.rest;
                variable.wait(outer)?;
                self.inside(position, place, rest, body)
            }
        }
    }

    // What stands inside the variables so far: the next variable, with all its values, or an iteration where none is left.
    #[cycle(instances)]
    fn inside<'b>(
        &mut self,
        position: Position<'_, '_>,
        place: Place,
        binders: &'b [Binder],
        body: NumberedBody<'_>,
    ) -> Result<Inside<'b>, Stop>
        requires { IsBodyAt self.old position body }
        ensures { GoesInside self.old self.new position.entry place (map binder_of binders.now)
            (body_seen body.entry) result }
    {
        match binders.split_first() {
            None => Ok(Inside::Members(self.one_iteration(position, place, body)?)),
            Some((binder, rest)) => {
                let variable = OpenVariable::of(&mut self.evaluation, place, binder, rest)?;
                Ok(Inside::Variable(variable))
            }
        }
    }

    // One iteration gives the union of the loop's body.
    #[cycle(instances)]
    fn one_iteration(
        &mut self,
        position: Position<'_, '_>,
        place: Place,
        body: NumberedBody<'_>,
    ) -> Result<MemberResults, Stop>
        requires { IsBodyAt self.old position body }
        ensures { EvaluatesAt member_designs_of self.old self.new position.entry result
            (λ evaluator. each_iteration evaluator place [] (body_seen body.entry)) }
    {
        self.evaluation.turn(place)?;
        let made = self.body(Op::Union, position, body);
        with_made(no_members(self.evaluation.alloc), true, made)
    }
}
