//! Laws of scopes and arguments, for the crates that evaluate instances.

ghost use Rattle.std.specs.Prelude.{◌≡◌, ℕ, List, length};
ghost use Rattle.scad_ast.specs.Terms.{StatementTerm, ArgTerm, args_from};
ghost use Rattle.scad_value.specs.Values.{Vals};
ghost use Rattle.scad_definitions.specs.Arguments.{match_arguments, no_arguments_of};
ghost use Rattle.scad_definitions.specs.Blocks.{block_table};
ghost use Rattle.scad_func.specs.Meaning.{Env, Activation, ExpressionContext, Gives, Arguments, entered_scope, each_value, each_argument};
ghost use Rattle.scad_func.specs.Definitions.{statements_at, block_scope};
ghost use Rattle.scad_func.specs.Steps.{all_values};
ghost use Rattle.scad_func.specs.View.{outcome_of_matching};

/// The law that the scope of a block of a program, by the numbers of its definitions, is that of the
/// statements that stand in the block.
pub fn enter_what_stands()
    ensures { (program : List StatementTerm) (number : ℕ) (call : Activation) (outer : Env) →
        block_scope (block_table program) number call outer
        ≡ entered_scope (statements_at (block_table program) number) call outer }
{}

/// The law that arguments are evaluated as `arguments` of `scad_scope` matches them: where those of a call give values, each of
/// them gave one; and where each gives one, what takes an argument has its value, or the first that nothing takes is the fault.
pub fn arguments_are_evaluated_as_matched()
    ensures values { (here : ExpressionContext) (names : List (List ℕ)) (args : List ArgTerm)
        (turns after : ℕ) (given : Arguments) →
        each_argument here names 0 (args_from args) (no_arguments_of (length names)) turns
        ≡ Gives after given →
        (values : Vals) × (each_value here (all_values (args_from args)) turns
        ≡ Gives after values) }
    ensures matched { (here : ExpressionContext) (names : List (List ℕ)) (args : List ArgTerm)
        (turns after : ℕ) (values : Vals) →
        each_value here (all_values (args_from args)) turns ≡ Gives after values →
        each_argument here names 0 (args_from args) (no_arguments_of (length names)) turns
        ≡ outcome_of_matching values after
        (match_arguments names 0 0 args (no_arguments_of (length names))) }
{}
