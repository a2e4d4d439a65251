//! Calls of modules of the source.

ghost use Rattle.std.specs.Prelude.{◌≡◌, length};
ghost use Rattle.scad_ast.specs.ExprView.{args_of};
ghost use Rattle.scad_ast.specs.StatementView.{params_of};
ghost use Rattle.scad_definitions.specs.TextView.{module_of};
ghost use Rattle.scad_func.specs.Meaning.{visible_module};
ghost use Rattle.scad_func.specs.View.{arguments_of, values_seen};
ghost use Rattle.scad_meaning.specs.Meaning.{call_design, module_design, module_with_values, module_with_arguments};
ghost use Rattle.scad_instance_rules.specs.Seen.{instance_design_of};
ghost use Rattle.scad_eval.specs.Keeping.{env_at, EvaluatesAt};
ghost use Rattle.scad_eval.specs.Within.{body_seen, IsBodyAt, IsCallAt};

use crate::evaluator::InstanceEvaluator;
use csg_tree::Op;
use scad_ast::Args;
use scad_func::{BoundedValues, arguments, parameters_in, with};
use scad_instance_rules::{InstanceResult, NumberedBody, Position, join_members};
use scad_scope::{CallArguments, Module};
use scad_value::BoundedValue;
use text_place::{Place, Stop};

impl InstanceEvaluator<'_, '_> {
    /// A call of a module: the source's go before built-in ones.
    #[cycle(instances)]
    pub(crate) fn called(
        &mut self,
        position: Position<'_, '_>,
        place: Place,
        name: &[u8],
        args: &Args,
        body: NumberedBody<'_>,
    ) -> Result<InstanceResult, Stop>
        requires { IsBodyAt self.old position body }
        ensures { EvaluatesAt instance_design_of self.old self.new position.entry result
            (λ evaluator here.
            call_design evaluator here place name.now (args_of args.now) (body_seen body.entry)
            (visible_module here.env name.now)) }
    {
        match self.evaluation.module(name) {
            Some((defined, defining_scope, names)) => {
                let given = arguments(&mut self.evaluation, names, args)?;
                self.module_called(position, place, defined, defining_scope, given, body)
            }
            None => self.built_in_called(position, place, name, args, body),
        }
    }

    // A module of the source, one call deeper.
    #[cycle(instances)]
    fn module_called(
        &mut self,
        position: Position<'_, '_>,
        place: Place,
        defined: Module<'_>,
        defining_scope: u32,
        given: CallArguments<'_, BoundedValue>,
        body: NumberedBody<'_>,
    ) -> Result<InstanceResult, Stop>
        requires called { IsCallAt self.old position defined defining_scope body }
        requires given { length given.bound.items ≡ length (params_of defined.params.now) }
        ensures { EvaluatesAt instance_design_of self.old self.new position.entry result
            (λ evaluator here.
            module_design evaluator here place
            (module_of defined.entry, env_at self.old defining_scope)
            (arguments_of given.entry) (body_seen body.entry)) }
    {
        let begun = self.evaluation.begin_counted_call(place);
        let (given, ()) = with(given, begun)?;
        let made = self.module_with_bindings(position, defined, defining_scope, given, body)?;
        self.evaluation.end_call();
        Ok(made)
    }

    // A module of the source, with its special arguments among the dynamic bindings.
    #[cycle(instances)]
    fn module_with_bindings(
        &mut self,
        position: Position<'_, '_>,
        defined: Module<'_>,
        defining_scope: u32,
        given: CallArguments<'_, BoundedValue>,
        body: NumberedBody<'_>,
    ) -> Result<InstanceResult, Stop>
        requires called { IsCallAt self.old position defined defining_scope body }
        requires given { length given.bound.items ≡ length (params_of defined.params.now) }
        ensures { EvaluatesAt instance_design_of self.old self.new position.entry result (λ evaluator.
            module_with_arguments evaluator (
              module_of defined.entry,
              env_at self.old
                  defining_scope,
            )
            (arguments_of given.entry)
            (body_seen body.entry)) }
    {
        let CallArguments { bound, dynamic } = given;
        let begun = self.evaluation.push_bindings(dynamic);
        let (bound, length) = with(bound, begun)?;
        let values = parameters_in(&mut self.evaluation, defining_scope, defined.params, bound)?;
        let made = self.module_made(position, defined, defining_scope, values, body)?;
        self.evaluation.pop_bindings(length);
        Ok(made)
    }

    // A module's body in a scope of its own, with the values of its parameters and the number of its
    // call's children.
    #[cycle(instances)]
    fn module_made(
        &mut self,
        position: Position<'_, '_>,
        defined: Module<'_>,
        defining_scope: u32,
        values: BoundedValues,
        body: NumberedBody<'_>,
    ) -> Result<InstanceResult, Stop>
        requires called { IsCallAt self.old position defined defining_scope body }
        requires values { length values.items.items ≡ length defined.params.now.items.items }
        ensures { EvaluatesAt instance_design_of self.old self.new position.entry result
            (λ evaluator. module_with_values evaluator
            (module_of defined.entry, env_at self.old defining_scope)
            (values_seen values) (body_seen body.entry)) }
    {
        let before = self.enter_module(position.instances, defined, defining_scope, values, body)?;
        let members = self.members_in_scope(position, defined.block, None)?;
        self.evaluation.leave(before);
        Ok(join_members(self.evaluation.alloc, Op::Union, members)?)
    }
}
