//! The grammar of the language as a relation between tokens and programs, and how deep tokens stand.
#![tactic(auto)]

ghost use Rattle.std.specs.Prelude.{◌≡◌, ◌≤◌, ℕ, suc, List, length, true, ◌⊎◌};
ghost use Rattle.scad_lexer.specs.declared.token.Token.{Token};
ghost use Rattle.scad_lexer.specs.Tokens.{ends_once};
ghost use Rattle.scad_ast.specs.Terms.{StatementTerm};
ghost use Rattle.scad_ast.specs.Counts.{count_begun_by_program};
ghost use Rattle.scad_grammar.specs.Grammar.{WholeProgram};
ghost use Rattle.scad_grammar.specs.Depths.{HasDepths, AllBelow, IsProgramPrefixBelow};
ghost use Rattle.scad_grammar.specs.FirstFault.{IsShallowProgramPrefix, IsFirstFault};

/// Why tokens are no program.
#[derive(Clone, Copy, Debug, PartialEq, Eq)]
pub enum SyntaxFault {
    /// A token with which no program goes on.
    Expected,
    /// A token with which programs go on, but only such in which it is more than 64 deep.
    Nested,
    /// A token with which no program goes on, of a form that this profile leaves out there.
    NotInProfile,
}

/// No list of tokens has two programs, however deep they may be.
pub fn one_program_each()
    ensures { (d k : ℕ) (x y : List StatementTerm) (s : List Token) → WholeProgram d x s →
        WholeProgram k y s → x ≡ y }
{}

/// Tokens that end with their only end are a program in which each is less deep than so much, or have a first fault.
pub fn program_or_fault()
    ensures { (d : ℕ) (s : List Token) → ends_once s ≡ true →
        ((x : List StatementTerm) × WholeProgram d x s) ⊎
        ((fault : SyntaxFault) × (at : List Token) × IsFirstFault d s fault at) }
{}

/// A program in which each token is less deep than so much has no fault.
pub fn no_program_has_a_fault()
    ensures { (d : ℕ) (x : List StatementTerm) (s : List Token) (fault : SyntaxFault)
        (at : List Token) → WholeProgram d x s → IsFirstFault d s fault at → ⊥ }
{}

/// No list of tokens has two first faults, neither of two kinds nor at two places.
pub fn one_fault_each()
    ensures { (d : ℕ) (s : List Token) (fault other : SyntaxFault) (at at_other : List Token) →
        IsFirstFault d s fault at → IsFirstFault d s other at_other → (fault ≡ other) ×
        (at ≡ at_other) }
{}

/// A program has no more blocks, functions and modules than tokens.
pub fn few_definitions()
    ensures { (d : ℕ) (x : List StatementTerm) (s : List Token) → WholeProgram d x s →
        count_begun_by_program x ≤ length s }
{}

/// Each token of a program has a depth.
pub fn one_depth_each()
    ensures { (x : List StatementTerm) (s : List Token) (depths : List ℕ) → HasDepths x s depths →
        length depths ≡ length s }
{}

/// A program's tokens are less deep than so much exactly where each of their depths is less.
pub fn programs_by_depth()
    ensures depths { (d : ℕ) (x : List StatementTerm) (s : List Token) → WholeProgram (suc d) x s →
        (depths : List ℕ) × HasDepths x s depths × AllBelow (suc d) depths }
    ensures program { (d : ℕ) (x : List StatementTerm) (s : List Token) (depths : List ℕ) →
        HasDepths x s depths → AllBelow (suc d) depths → WholeProgram (suc d) x s }
{}

/// An outline begins with some tokens exactly where a program does in which each of them is less deep than so much:
/// so `Nested` stands at the first token with which programs go on, but only such in which it is too deep.
pub fn outlines_by_depth()
    ensures outline { (d : ℕ) (s : List Token) → IsShallowProgramPrefix (suc d) s →
        IsProgramPrefixBelow (suc d) s }
    ensures shallow { (d : ℕ) (s : List Token) → IsProgramPrefixBelow (suc d) s →
        IsShallowProgramPrefix (suc d) s }
{}

/// A token of a program has one depth.
pub fn one_depth_only()
    ensures { (x y : List StatementTerm) (s : List Token) (depths others : List ℕ) →
        HasDepths x s depths → HasDepths y s others → depths ≡ others }
{}
