//! The parser: from tokens to the program that they write, or to their first fault.

ghost use Rattle.std.specs.Prelude.{◌≡◌, ◌<◌, ◌≤◌, ◌^◌, List, length, true, IfOk, IfErr};
ghost use Rattle.scad_lexer.specs.declared.token.Token.{Token};
ghost use Rattle.scad_lexer.specs.Tokens.{ends_once};
ghost use Rattle.scad_ast.specs.Terms.{StatementTerm};
ghost use Rattle.scad_ast.specs.Counts.{count_begun_by_program};
ghost use Rattle.scad_ast.specs.ProgramView.{program_of};
ghost use Rattle.scad_ast.specs.StatementView.{statements_of};
ghost use Rattle.scad_grammar.specs.declared.SyntaxFault.{SyntaxFault};
ghost use Rattle.scad_grammar.specs.Grammar.{least_too_deep, WholeProgram};
ghost use Rattle.scad_grammar.specs.FirstFault.{IsFirstFault};
ghost use Rattle.scad_parser.specs.Parsing.{ends_with_end, whole_read, IsSyntaxStop, StandsAtToken, AnswersProgram, AnswersFault, IsRead, kind_of, place_of_first};
ghost use Rattle.scad_expressions.specs.Views.{GivesRead};

use crate::statement::statements;
use scad_ast::{Program, Statements};
use scad_expressions::{Parsed, Stopped, TokenClass, not_expected, take};
use scad_grammar::SyntaxFault;
use scad_lexer::Token;
use std::alloc::Global;
use text_place::{FaultKind, Place, Stop};

// The least depth that no token may have.
const TOO_DEEP: u32 = 65;

/// The program that fewer than 2^32 tokens write, none of which is more than 64 deep, or their first
/// fault: `Expected`, `Nested` or `NotInProfile`.
pub fn parse(alloc: Global, tokens: &[Token]) -> Result<Program, Stop>
    requires { length tokens.now < 2 ^ 32 }
    // What is given is a program that the tokens write.
    ensures found { IfOk result (λ p. WholeProgram least_too_deep (program_of p) tokens.now) }
    // The program that the tokens write is given, unless memory runs out.
    ensures program { (x : List StatementTerm) → WholeProgram least_too_deep x tokens.now →
        AnswersProgram result x }
    // A fault of tokens that end with an end is their first one, at its token's place.
    ensures fault { ends_with_end tokens.now ≡ true →
        IfErr result (λ stop. IsSyntaxStop least_too_deep tokens.now stop) }
    // The place of such a fault is that of one of the tokens, which may be the end.
    ensures place { ends_with_end tokens.now ≡ true →
        IfErr result (λ stop. StandsAtToken tokens.now stop) }
    // The tokens' first fault is given, unless memory runs out.
    ensures only { (fault : SyntaxFault) (at : List Token) →
        IsFirstFault least_too_deep tokens.now fault at → AnswersFault result fault at }
    // A program has no more blocks, functions and modules than tokens.
    ensures few { IfOk result (λ p. count_begun_by_program (program_of p) ≤ length tokens.now) }
{
    read_program(alloc, tokens)
}

/// Tokens whose only end is the last of them end with an end.
pub fn an_only_end_is_last()
    ensures { (ts : List Token) → ends_once ts ≡ true → ends_with_end ts ≡ true }
{}

#[tactic(auto, using(crate::proofs::Parsed::few_read))]
fn read_program(alloc: Global, tokens: &[Token]) -> Result<Program, Stop>
    requires { length tokens.now < 2 ^ 32 }
    ensures { IsRead result (whole_read least_too_deep tokens.now) }
{
    match program(alloc, tokens) {
        Ok((statements, _)) => Ok(Program { statements }),
        Err(Stopped::Fault(fault, at)) => Err(kind_of(fault).at(place_of(at))),
        Err(Stopped::NoMemory) => Err(Stop::NoMemory),
    }
}

// A program's statements and its end, behind which nothing stands.
fn program<'a>(alloc: Global, tokens: &'a [Token]) -> Parsed<'a, Statements>
    ensures { GivesRead (λ p. (statements_of p.0, p.1.now)) result
        (whole_read least_too_deep tokens.now) }
{
    let (statements, rest) = statements(alloc, tokens, TOO_DEEP)?;
    let (_, rest) = take(TokenClass::End, rest)?;
    match rest {
        [] => Ok((statements, rest)),
        [_, ..] => Err(not_expected(rest)),
    }
}

// The place of the first token.
fn place_of(tokens: &[Token]) -> Place
    ensures { result ≡ place_of_first tokens.now }
{
    match tokens {
        [] => Place { line: 1, column: 1 },
        [token, ..] => token.place,
    }
}

// The fault's word.
fn kind_of(fault: SyntaxFault) -> FaultKind
    ensures { result ≡ kind_of fault }
{
    match fault {
        SyntaxFault::Expected => FaultKind::Expected,
        SyntaxFault::Nested => FaultKind::Nested,
        SyntaxFault::NotInProfile => FaultKind::NotInProfile,
    }
}
