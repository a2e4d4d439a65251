//! Bodies, in scopes of their own.

ghost use Rattle.std.specs.Prelude.{OnOk};
ghost use Rattle.scad_func.specs.View.{table_in};
ghost use Rattle.scad_func.specs.Definitions.{statements_at};
ghost use Rattle.scad_meaning.specs.Meaning.{body_design, block_members};
ghost use Rattle.scad_instance_rules.specs.Seen.{instance_design_of, member_designs_of};
ghost use Rattle.scad_eval.specs.Keeping.{IsPosition, Binds, EvaluatesKeeping, EvaluatesAt};
ghost use Rattle.scad_instance_rules.specs.Choosing.{chosen_seen, IsSafeChosen};
ghost use Rattle.scad_eval.specs.Within.{body_seen, IsBodyAt};

use crate::evaluator::InstanceEvaluator;
use csg_tree::Op;
use scad_instance_rules::{
    InstanceResult, MemberResults, NumberedBody, Position, chosen_instances, join_members,
};
use scad_modules::Chosen;
use text_place::Stop;

impl InstanceEvaluator<'_, '_> {
    /// A body's members, in a new scope inside where it stands, joined by an operation.
    #[cycle(instances)]
    pub(crate) fn body(
        &mut self,
        op: Op,
        position: Position<'_, '_>,
        body: NumberedBody<'_>,
    ) -> Result<InstanceResult, Stop>
        requires { IsBodyAt self.old position body }
        ensures { EvaluatesAt instance_design_of self.old self.new position.entry result
            (λ evaluator here. body_design evaluator op here (body_seen body.entry)) }
    {
        let outer = self.evaluation.scope;
        let before = self.evaluation.enter_body(outer, body.block)?;
        let members = self.members_in_scope(position, body.block, None)?;
        self.evaluation.leave(before);
        Ok(join_members(self.evaluation.alloc, op, members)?)
    }

    /// The members of a block in whose scope is evaluated, the newest one: its assignments, then its instances, or of
    /// its children those that are chosen. Its special names are among the dynamic bindings meanwhile.
    #[cycle(instances)]
    pub(crate) fn members_in_scope(
        &mut self,
        position: Position<'_, '_>,
        block: u32,
        chosen: Option<&Chosen>,
    ) -> Result<MemberResults, Stop>
        requires position { IsPosition self.old position }
        requires safe { IsSafeChosen chosen }
        ensures { let statements = statements_at (table_in self.old.evaluation.source.now) block in
            EvaluatesKeeping member_designs_of self.old self.new position.entry result
            (OnOk result (Binds self.old self.new))
            (λ evaluator. block_members evaluator (chosen_seen chosen.entry) statements) }
    {
        let length = self.evaluation.count_bindings()?;
        self.assign_all(block)?;
        let instances = chosen_instances(&self.evaluation, position.instances, block, chosen)?;
        let members = self.members(position, &instances)?;
        self.evaluation.pop_bindings(length);
        Ok(members)
    }
}
