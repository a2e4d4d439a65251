//! The scopes of modules.

ghost use Rattle.std.specs.Prelude.{◌≡◌, length};
ghost use Rattle.scad_definitions.specs.Blocks.{statements_of_body};
ghost use Rattle.scad_definitions.specs.TextView.{module_of};
ghost use Rattle.scad_func.specs.View.{values_seen};
ghost use Rattle.scad_func.specs.Evaluations.{env_here};
ghost use Rattle.scad_meaning.specs.Meaning.{module_scope};
ghost use Rattle.scad_eval.specs.Keeping.{env_at, EntersModule};
ghost use Rattle.scad_eval.specs.Within.{body_seen, IsModuleCall};

use crate::evaluator::InstanceEvaluator;
use scad_func::BoundedValues;
use scad_instance_rules::{InstanceTable, NumberedBody, count_children};
use scad_scope::Module;
use text_place::NoMemory;

impl InstanceEvaluator<'_, '_> {
    /// Enters a new scope of a module's body, with the values of its parameters and the number of its call's children,
    /// and answers the caller's.
    pub(crate) fn enter_module(
        &mut self,
        instances: &InstanceTable<'_>,
        defined: Module<'_>,
        defining_scope: u32,
        values: BoundedValues,
        body: NumberedBody<'_>,
    ) -> Result<u32, NoMemory>
        requires called { IsModuleCall self.old instances.now defined defining_scope body }
        requires values { length values.items.items ≡ length defined.params.now.items.items }
        ensures { EntersModule self.old self.new result
            (module_scope (env_at self.old defining_scope) (module_of defined.entry)
            (values_seen values)
            (statements_of_body (body_seen body.entry)) (env_here self.old.evaluation)) }
    {
        let count = count_children(&mut self.evaluation, instances, body.block)?;
        let caller = self
            .evaluation
            .enter_activation(defining_scope, defined.block, body.block)?;
        self.evaluation.bind_parameters(defined.params, values)?;
        self.evaluation.bind(b"$children", count)?;
        Ok(caller)
    }
}
