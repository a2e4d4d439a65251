//! Laws of how many evaluations a source takes. They are proved, and do nothing when they run.

ghost use Rattle.std.specs.Prelude.{◌≡◌, ◌≤◌, ◌<◌, ℕ, ◌+◌, ◌*◌, Bool, List, length};
ghost use Rattle.plane_predicate.specs.declared.unit.Unit.{Unit as LengthUnit};
ghost use Rattle.scad_lexer.specs.declared.token.Token.{Token};
ghost use Rattle.scad_ast.specs.Terms.{Term, StatementTerm, StatementTerms, statements_from};
ghost use Rattle.scad_grammar.specs.Grammar.{WholeProgram};
ghost use Rattle.scad_value.specs.Values.{Val};
ghost use Rattle.scad_scope.specs.Names.{Pairs};
ghost use Rattle.scad_func.specs.Limits.{most_turns};
ghost use Rattle.scad_func.specs.Meaning.{Gives, then_with, Env, value_within};
ghost use Rattle.scad_meaning.specs.Verdicts.{Judge};
ghost use Rattle.scad_meaning.specs.Meaning.{MemberDesigns, most_leaves, root_or_union, design_of};
ghost use Rattle.source_laws.specs.Sizes.{size_of_term, size_of_statements, HoldsTextsUpTo};
ghost use Rattle.source_laws.specs.EvaluationCosts.{HasFewEvaluations};
ghost use Rattle.source_laws.specs.CostsOfExpressions.{cost_within};
ghost use Rattle.source_laws.specs.CostsOfInstances.{members_of_program, cost_of_program};
ghost use Rattle.source_laws.specs.WorkedRuns.{loop_of_three};

/// The evaluations of an expression are at most its size, and once for each turn that it counts the size of the largest text
/// that its scopes hold. Those turns are its meaning's, or where it faults those before the fault.
pub fn expressions_take_few_evaluations()
    ensures evaluations { (size depth_left calls : ℕ) (env : Env) (bindings : Pairs Val)
        (counts : Bool) (expression : Term) (turns : ℕ) → HoldsTextsUpTo size env → turns ≤ most_turns →
        let taken = cost_within depth_left counts calls env bindings expression turns in
        taken.evaluations ≤ size_of_term expression + size * taken.counted }
    ensures counted { (size depth_left calls : ℕ) (env : Env) (bindings : Pairs Val)
        (counts : Bool) (expression : Term) (turns : ℕ) → HoldsTextsUpTo size env → turns ≤ most_turns →
        (after : ℕ) (value : Val) →
        value_within depth_left counts calls env bindings expression turns ≡ Gives after value →
        after ≡ turns + (cost_within depth_left counts calls env bindings expression turns).counted }
{}

/// The evaluations of a run are at most the size of its program, times the turns and leaves that it counts and one, times 66:
/// 64 calls may stand in one another. Where it faults, what it counts is what comes before the fault.
pub fn runs_take_few_evaluations()
    ensures run { (unit : LengthUnit) (judge : Judge) (bindings : Pairs Val)
        (statements : StatementTerms) →
        design_of unit judge bindings statements
        ≡ then_with (members_of_program unit judge bindings statements) (λ turns members.
        Gives turns (root_or_union members.root members.designs)) }
    ensures counted { (unit : LengthUnit) (judge : Judge) (bindings : Pairs Val)
        (statements : StatementTerms) (turns : ℕ) (members : MemberDesigns) →
        members_of_program unit judge bindings statements ≡ Gives turns members →
        (cost_of_program unit judge bindings statements).counted ≡ turns + members.leaves }
    ensures most { (unit : LengthUnit) (judge : Judge) (bindings : Pairs Val)
        (statements : StatementTerms) →
        (cost_of_program unit judge bindings statements).counted ≤ most_turns + most_leaves }
    ensures evaluations { (unit : LengthUnit) (judge : Judge) (bindings : Pairs Val)
        (statements : StatementTerms) →
        HasFewEvaluations (size_of_statements statements) (cost_of_program unit judge bindings statements) }
{}

/// A program's size is below the number of its tokens. So the evaluations of its run are at most its tokens, times the turns
/// and leaves that it counts and one, times 66.
pub fn programs_take_few_evaluations()
    ensures size { (depth : ℕ) (program : List StatementTerm) (tokens : List Token) →
        WholeProgram depth program tokens →
        size_of_statements (statements_from program) < length tokens }
    ensures evaluations { (depth : ℕ) (unit : LengthUnit) (judge : Judge) (bindings : Pairs Val)
        (program : List StatementTerm) (tokens : List Token) →
        WholeProgram depth program tokens →
        HasFewEvaluations (length tokens) (cost_of_program unit judge bindings (statements_from program)) }
{}

/// The bound has to have the calls that may stand in one another: some program takes more evaluations than its size, times the
/// turns and leaves that it counts and one.
pub fn calls_in_one_another_take_more()
    ensures { (unit : LengthUnit) (judge : Judge) (bindings : Pairs Val) →
        (statements : StatementTerms)
        × (size_of_statements statements * ((cost_of_program unit judge bindings statements).counted + 1)
        < (cost_of_program unit judge bindings statements).evaluations) }
{}

/// A worked run: `for (i = [0 : 2]);` takes four evaluations, of the loop, its range and the range's ends, and counts three
/// turns.
pub fn a_loop_of_three_takes_four_evaluations()
    ensures { (unit : LengthUnit) (judge : Judge) (bindings : Pairs Val) →
        cost_of_program unit judge bindings loop_of_three ≡ record { evaluations = 4; counted = 3 } }
{}
