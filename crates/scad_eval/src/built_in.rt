//! Calls of built-in modules.

ghost use Rattle.csg_tree.specs.declared.op.Op.TheVariants.{Union};
ghost use Rattle.primitives.specs.Sizes.{IsSafe};
ghost use Rattle.scad_ast.specs.ExprView.{args_of};
ghost use Rattle.scad_func.specs.Meaning.{Gives, then_with};
ghost use Rattle.scad_func.specs.View.{arguments_of};
ghost use Rattle.scad_modules.specs.Bounds.{IsSafeCall};
ghost use Rattle.scad_modules.specs.Effects.{an_extrusion};
ghost use Rattle.scad_modules.specs.Table.{builtin_module_of};
ghost use Rattle.scad_modules.specs.View.{effect_call_of};
ghost use Rattle.scad_design.specs.Designs.{moved_design_tree};
ghost use Rattle.scad_meaning.specs.Meaning.{built_in_design, effect_design, body_design, moved_design, built_in_with_arguments};
ghost use Rattle.scad_instance_rules.specs.Seen.{instance_design_of};
ghost use Rattle.scad_eval.specs.Keeping.{EvaluatesAt};
ghost use Rattle.scad_eval.specs.Within.{body_seen, IsBodyAt};

use crate::evaluator::InstanceEvaluator;
use csg_tree::Op;
use int_transform::Step;
use primitives::size_fault;
use scad_ast::Args;
use scad_func::with;
use scad_instance_rules::{
    InstanceResult, NumberedBody, Position, arguments_for, effect_of, unknown_module,
    without_geometry,
};
use scad_meaning::Extrusion;
use scad_modules::{BuiltinModule, Effect, builtin_module};
use scad_scope::CallArguments;
use scad_value::BoundedValue;
use text_place::{Place, Stop};

impl InstanceEvaluator<'_, '_> {
    /// A call of a built-in module.
    #[cycle(instances)]
    pub(crate) fn built_in_called(
        &mut self,
        position: Position<'_, '_>,
        place: Place,
        name: &[u8],
        args: &Args,
        body: NumberedBody<'_>,
    ) -> Result<InstanceResult, Stop>
        requires { IsBodyAt self.old position body }
        ensures { EvaluatesAt instance_design_of self.old self.new position.entry result
            (λ evaluator here.
            built_in_design evaluator here place name.now (args_of args.now) (body_seen body.entry)
            (builtin_module_of name.now)) }
    {
        match builtin_module(name) {
            None => Err(unknown_module(name).at(place)),
            Some(built_in) => {
                let given = arguments_for(&mut self.evaluation, built_in, args)?;
                self.built_in_made(position, place, built_in, given, body)
            }
        }
    }

    // What a call of a built-in module does, with its special arguments among the dynamic bindings.
    #[cycle(instances)]
    fn built_in_made(
        &mut self,
        position: Position<'_, '_>,
        place: Place,
        built_in: BuiltinModule,
        given: CallArguments<'_, BoundedValue>,
        body: NumberedBody<'_>,
    ) -> Result<InstanceResult, Stop>
        requires { IsBodyAt self.old position body }
        ensures { EvaluatesAt instance_design_of self.old self.new position.entry result (λ evaluator.
            built_in_with_arguments evaluator place built_in (arguments_of given.entry)
            (body_seen body.entry)) }
    {
        let CallArguments { bound, dynamic } = given;
        let begun = self.evaluation.push_bindings(dynamic);
        let (bound, length) = with(bound, begun)?;
        let effect = effect_of(
            &self.evaluation,
            self.unit,
            position,
            place,
            built_in,
            bound,
        )?;
        let made = self.effect_made(position, place, effect, body)?;
        self.evaluation.pop_bindings(length);
        Ok(made)
    }

    // What an effect gives.
    #[cycle(instances)]
    fn effect_made(
        &mut self,
        position: Position<'_, '_>,
        place: Place,
        effect: Effect,
        body: NumberedBody<'_>,
    ) -> Result<InstanceResult, Stop>
        requires stands { IsBodyAt self.old position body }
        requires safe { IsSafeCall (effect_call_of effect) }
        ensures { EvaluatesAt instance_design_of self.old self.new position.entry result
            (λ evaluator here.
            effect_design evaluator here place (effect_call_of effect) (body_seen body.entry)) }
    {
        match effect {
            Effect::Solid(shape) => self.solid(place, &shape),
            Effect::Flat(shape) => self.flat(position, place, &shape),
            Effect::Move(steps) => self.moved(position, &steps, body),
            Effect::Join(op) => self.body(op, position, body),
            Effect::Hull => {
                let made = self.body(Op::Union, position, body)?;
                self.hull(place, made)
            }
            Effect::Extrusion { height, center } => {
                self.extruded(position, place, Extrusion { center, height }, body)
            }
            Effect::Nothing => without_geometry(place, body.body),
            Effect::Children(chosen) => self.children_called(position, place, &chosen),
        }
    }

    // The union of a body, moved by steps.
    #[cycle(instances)]
    fn moved(
        &mut self,
        position: Position<'_, '_>,
        steps: &[Step],
        body: NumberedBody<'_>,
    ) -> Result<InstanceResult, Stop>
        requires { IsBodyAt self.old position body }
        ensures { EvaluatesAt instance_design_of self.old self.new position.entry result
            (λ evaluator here turns leaves.
            then_with (body_design evaluator Union here (body_seen body.entry) turns leaves)
            (λ turns made. Gives turns (moved_design (moved_design_tree steps.now) made))) }
    {
        let InstanceResult { design, root } = self.body(Op::Union, position, body)?;
        match design.moved_by(self.evaluation.alloc, steps) {
            Ok(design) => Ok(InstanceResult { design, root }),
            Err(_) => Err(Stop::NoMemory),
        }
    }

    // The union of a body inside an extrusion.
    #[cycle(instances)]
    fn extruded(
        &mut self,
        position: Position<'_, '_>,
        place: Place,
        through: Extrusion,
        body: NumberedBody<'_>,
    ) -> Result<InstanceResult, Stop>
        requires stands { IsBodyAt self.old position body }
        requires safe { IsSafe through.height }
        ensures { EvaluatesAt instance_design_of self.old self.new position.entry result
            (λ evaluator here. effect_design evaluator here place
            (an_extrusion through.center through.height)
            (body_seen body.entry)) }
    {
        match size_fault(&[through.height], through.center, self.unit) {
            Some(kind) => Err(kind.at(place)),
            None => self.body(Op::Union, position.inside_extrusion(through), body),
        }
    }
}
