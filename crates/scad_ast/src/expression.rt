//! Expressions, as the parser gives them.

ghost use Rattle.std.specs.Prelude.{◌≡◌};
ghost use Rattle.scad_ast.specs.Terms.{place_of_term};
ghost use Rattle.scad_ast.specs.ExprView.{term_of};

use crate::operator::{BinaryOp, UnaryOp};
use plain_text::{CompactBytes, Numeral, Place};
use std::mem::size_of;

/// An expression. The first place of each form is that of its first token. What has no room beside the place lies in one
/// box, so that an expression takes 32 bytes.
#[cycle(expression)]
#[derive(Drop)]
pub enum Expr {
    Number(Place, Numeral),
    Text(Place, CompactBytes),
    Truth(Place, bool),
    Undef(Place),
    /// `$children`
    ChildCount(Place),
    /// Another special name, without its `$`.
    Special(Place, CompactBytes),
    Name(Place, CompactBytes),
    Call(Place, Box<Call>),
    /// What stands in parentheses.
    Paren(Place, Box<Expr>),
    List(Place, Box<Exprs>),
    Range(Place, Box<Range>),
    SteppedRange(Place, Box<SteppedRange>),
    Postfix(Place, Box<Postfix>),
    Unary(Place, UnaryOp, Box<Expr>),
    Chain(Place, Box<Chain>),
    Choice(Place, Box<Choice>),
}

const _: () = prove!(size_of::<Expr>() == 32);

/// A list of expressions.
#[cycle(expression)]
#[derive(Drop)]
pub struct Exprs {
    pub items: Vec<Expr>,
}

/// A function's name and its arguments.
#[cycle(expression)]
#[derive(Drop)]
pub struct Call {
    pub name: CompactBytes,
    pub args: Args,
}

/// `[from : to]`
#[cycle(expression)]
#[derive(Drop)]
pub struct Range {
    pub from: Expr,
    pub to: Expr,
}

/// `[from : step : to]`
#[cycle(expression)]
#[derive(Drop)]
pub struct SteppedRange {
    pub from: Expr,
    pub step: Expr,
    pub to: Expr,
}

/// An expression with indexes and members behind it.
#[cycle(expression)]
#[derive(Drop)]
pub struct Postfix {
    pub of: Expr,
    pub suffixes: Suffixes,
}

/// Operators of one level and what stands between them; they group to the left.
#[cycle(expression)]
#[derive(Drop)]
pub struct Chain {
    pub first: Expr,
    pub links: Links,
}

/// `test ? yes : no`, with the place of the `?`.
#[cycle(expression)]
#[derive(Drop)]
pub struct Choice {
    pub test: Expr,
    pub mark: Place,
    pub yes: Expr,
    pub no: Expr,
}

/// An operator, its place and its right side.
#[cycle(expression)]
#[derive(Drop)]
pub struct Link {
    pub op: BinaryOp,
    pub place: Place,
    pub right: Expr,
}

/// The rest of a chain of operators, at least one. Most have one, and then the list of more needs no allocation.
#[cycle(expression)]
#[derive(Drop)]
pub struct Links {
    pub first: Link,
    pub more: Vec<Link>,
}

/// What stands behind an expression.
#[cycle(expression)]
#[derive(Drop)]
pub enum Suffix {
    /// An index, with the place of its `[`.
    Index(Place, Expr),
    /// A member: the place of the `.`, and the name with its place.
    Member(Place, CompactBytes, Place),
}

/// The indexes and members behind an expression, at least one. Most have one, and then the list of more needs no
/// allocation.
#[cycle(expression)]
#[derive(Drop)]
pub struct Suffixes {
    pub first: Suffix,
    pub more: Vec<Suffix>,
}

/// An argument.
#[cycle(expression)]
#[derive(Drop)]
pub enum Arg {
    /// A name, its place and its value.
    Named(Place, CompactBytes, Expr),
    /// A special name other than `$children`, without its `$`, its place and its value.
    Special(Place, CompactBytes, Expr),
    Positional(Expr),
}

/// A list of arguments.
#[cycle(expression)]
#[derive(Drop)]
pub struct Args {
    pub items: Vec<Arg>,
}

impl Expr {
    /// The place of the first token.
    pub fn place(&self) -> Place
        ensures { result ≡ place_of_term (term_of self.now) }
    {
        match self {
            Expr::Number(place, _)
            | Expr::Text(place, _)
            | Expr::Truth(place, _)
            | Expr::Undef(place)
            | Expr::ChildCount(place)
            | Expr::Special(place, _)
            | Expr::Name(place, _)
            | Expr::Call(place, _)
            | Expr::Paren(place, _)
            | Expr::List(place, _)
            | Expr::Range(place, _)
            | Expr::SteppedRange(place, _)
            | Expr::Postfix(place, _)
            | Expr::Unary(place, _, _)
            | Expr::Chain(place, _)
            | Expr::Choice(place, _) => *place,
        }
    }
}
