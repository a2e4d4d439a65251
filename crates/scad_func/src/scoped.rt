//! What a caller evaluates in another scope.

ghost use Rattle.std.specs.Prelude.{◌≡◌, ◌<◌, length};
ghost use Rattle.scad_func.specs.Evaluations.{scopes_there, expression_context_in};
ghost use Rattle.scad_func.specs.Transitions.{EvaluatesParameters};

use crate::evaluator::parameters;
use crate::{BoundedValues, Evaluation};
use scad_ast::Params;
use scad_value::BoundedValue;
use text_place::Stop;

/// The values of parameters, as `parameters` gives them in another scope.
pub fn parameters_in(
    evaluation: &mut Evaluation<'_, '_>,
    scope: u32,
    params: &Params,
    bound: Vec<Option<BoundedValue>>,
) -> Result<BoundedValues, Stop>
    requires scope { scope < scopes_there evaluation.old }
    requires count { length bound.items ≡ length params.now.items.items }
    ensures { EvaluatesParameters evaluation.old evaluation.new result
        (expression_context_in evaluation.old scope) params.now bound.items }
{
    let before = evaluation.scope;
    evaluation.scope = scope;
    let values = parameters(evaluation, params, bound);
    evaluation.scope = before;
    values
}
