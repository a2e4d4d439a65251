//! Instances and their modifiers.

ghost use Rattle.std.specs.Prelude.{All, true, map, if◌then◌else◌};
ghost use Rattle.csg_tree.specs.declared.op.Op.TheVariants.{Union};
ghost use Rattle.scad_ast.specs.ExprView.{term_of};
ghost use Rattle.scad_value.specs.Values.{truth_of};
ghost use Rattle.scad_func.specs.Meaning.{Gives, then_with, value_at_next_depth};
ghost use Rattle.scad_func.specs.View.{table_in};
ghost use Rattle.scad_meaning.specs.Meaning.{expression_context, body_design, no_design, each_member, core_of_instance, core_design, instance_design};
ghost use Rattle.scad_instance_rules.specs.Positions.{term_of_numbered};
ghost use Rattle.scad_instance_rules.specs.Seen.{instance_design_of, member_designs_of};
ghost use Rattle.scad_eval.specs.Keeping.{EvaluatesAt};
ghost use Rattle.scad_eval.specs.Within.{body_seen, IsInBlock, IsInstanceAt, IsBodyAt};

use crate::evaluator::InstanceEvaluator;
use csg_tree::Op;
use scad_ast::{Core, Expr};
use scad_func::evaluate;
use scad_instance_rules::{
    InstanceResult, MemberResults, NumberedBody, NumberedInstance, Position, as_root,
    has_root_modifier, is_child, no_members, nothing_made, with_made,
};
use scad_value::truth;
use text_place::{FaultKind, Stop};

impl InstanceEvaluator<'_, '_> {
    /// What an instance gives, one evaluation deeper.
    #[cycle(instances)]
    pub(crate) fn instance(
        &mut self,
        position: Position<'_, '_>,
        instance: NumberedInstance<'_>,
    ) -> Result<InstanceResult, Stop>
        requires { IsInstanceAt self.old position instance }
        ensures { EvaluatesAt instance_design_of self.old self.new position.entry result
            (λ evaluator here. evaluator.at_next_depth here (term_of_numbered instance.entry)) }
    {
        self.evaluation.begin_evaluation(instance.instance.place())?;
        let made = self.by_root_modifier(position, instance)?;
        self.evaluation.end_evaluation();
        Ok(made)
    }

    // What an instance gives at its own depth. Of modifiers `!` in one another the outermost one counts.
    #[cycle(instances)]
    fn by_root_modifier(
        &mut self,
        position: Position<'_, '_>,
        instance: NumberedInstance<'_>,
    ) -> Result<InstanceResult, Stop>
        requires { IsInstanceAt self.old position instance }
        ensures { EvaluatesAt instance_design_of self.old self.new position.entry result
            (λ evaluator here. instance_design evaluator here (term_of_numbered instance.entry)) }
    {
        if !has_root_modifier(instance.instance) {
            return self.core(position, instance);
        }
        if position.inside.is_some() {
            return Err(FaultKind::WrongDimension.at(instance.instance.core.place()));
        }
        if position.under_root {
            return self.core(position, instance);
        }
        let made = self.core(position.inside_root(), instance)?;
        Ok(as_root(self.evaluation.alloc, made)?)
    }

    // What an instance gives, whatever its modifiers are.
    #[cycle(instances)]
    fn core(
        &mut self,
        position: Position<'_, '_>,
        instance: NumberedInstance<'_>,
    ) -> Result<InstanceResult, Stop>
        requires { IsInstanceAt self.old position instance }
        ensures { EvaluatesAt instance_design_of self.old self.new position.entry result
            (λ evaluator here. core_design evaluator here
            (core_of_instance (term_of_numbered instance.entry))) }
    {
        let NumberedInstance {
            instance,
            block,
            other,
        } = instance;
        match &instance.core {
            Core::If(_, test, body) => {
                self.one_or_nothing(position, test, NumberedBody { body, block })
            }
            Core::IfElse(_, test, body, behind) => {
                let behind = NumberedBody {
                    body: behind,
                    block: other,
                };
                self.one_or_other(position, test, NumberedBody { body, block }, behind)
            }
            Core::For(place, binders, body) => {
                self.looped(
                    Op::Union,
                    position,
                    *place,
                    binders,
                    NumberedBody { body, block },
                )
            }
            Core::IntersectionFor(place, binders, body) => {
                let body = NumberedBody { body, block };
                self.looped(Op::Intersection, position, *place, binders, body)
            }
            Core::Call(place, name, args, body) => {
                let body = NumberedBody { body, block };
                self.called(position, *place, name.items(), args, body)
            }
        }
    }

    // A body, where a test holds.
    #[cycle(instances)]
    fn one_or_nothing(
        &mut self,
        position: Position<'_, '_>,
        test: &Expr,
        body: NumberedBody<'_>,
    ) -> Result<InstanceResult, Stop>
        requires { IsBodyAt self.old position body }
        ensures { EvaluatesAt instance_design_of self.old self.new position.entry result
            (λ evaluator here turns leaves. then_with
            (value_at_next_depth (expression_context evaluator.evaluations here) true
            (term_of test.now) turns) (λ turns value.
            if truth_of value then body_design evaluator Union here
            (body_seen body.entry) turns leaves
            else Gives turns (no_design leaves))) }
    {
        let value = evaluate(&mut self.evaluation, test)?;
        if truth(&value.value) {
            return self.body(Op::Union, position, body);
        }
        Ok(nothing_made())
    }

    // One of two bodies, by a test.
    #[cycle(instances)]
    fn one_or_other(
        &mut self,
        position: Position<'_, '_>,
        test: &Expr,
        body: NumberedBody<'_>,
        other: NumberedBody<'_>,
    ) -> Result<InstanceResult, Stop>
        requires stands { IsBodyAt self.old position body }
        requires other { IsInBlock (table_in self.old.evaluation.source.now) other }
        ensures { EvaluatesAt instance_design_of self.old self.new position.entry result
            (λ evaluator here turns leaves. then_with
            (value_at_next_depth (expression_context evaluator.evaluations here) true
            (term_of test.now) turns) (λ turns value.
            body_design evaluator Union here (if truth_of value then body_seen body.entry
            else body_seen other.entry) turns leaves)) }
    {
        let value = evaluate(&mut self.evaluation, test)?;
        if truth(&value.value) {
            return self.body(Op::Union, position, body);
        }
        self.body(Op::Union, position, other)
    }

    /// What instances give, from the first on. Those that have no geometry are no members.
    #[cycle(instances)]
    pub(crate) fn members(
        &mut self,
        position: Position<'_, '_>,
        instances: &[NumberedInstance<'_>],
    ) -> Result<MemberResults, Stop>
        requires { All (IsInstanceAt self.old position) instances.now }
        ensures { EvaluatesAt member_designs_of self.old self.new position.entry result
            (λ evaluator here. each_member evaluator here (map term_of_numbered instances.now)) }
    {
        let mut members = no_members(self.evaluation.alloc);
        'each: for instance in instances {
            let is_member = is_child(&self.evaluation, instance.instance);
            let next = self.instance(position, *instance);
            members = with_made(members, is_member, next)?;
        }
        Ok(members)
    }
}
