//! Statements, instances, definitions, parameters and arguments, as the parser gives them.

ghost use Rattle.std.specs.Prelude.{◌≡◌};
ghost use Rattle.scad_ast.specs.Terms.{place_of_statement, place_of_instance, place_of_core, place_of_body};
ghost use Rattle.scad_ast.specs.StatementView.{statement_of, instance_of, core_of, body_of};

use crate::expression::{Args, Expr};
use crate::operator::Modifier;
use plain_text::{CompactBytes, Place};

/// A parameter: its name with its place, and its default where it has one.
#[derive(Drop)]
pub enum Param {
    Plain(Place, CompactBytes),
    WithDefault(Place, CompactBytes, Expr),
}

/// A list of parameters.
#[derive(Drop)]
pub struct Params {
    pub items: Vec<Param>,
}

/// A variable of a loop, with its place, and what it goes over.
#[derive(Drop)]
pub struct Binder {
    pub place: Place,
    pub name: CompactBytes,
    pub values: Expr,
}

/// The variables of a loop, at least one.
#[derive(Drop)]
pub struct Binders {
    pub items: Vec<Binder>,
}

/// A modifier with its place.
#[derive(Clone, Copy)]
pub struct PlacedModifier {
    pub place: Place,
    pub modifier: Modifier,
}

/// The modifiers before an instance.
#[derive(Drop)]
pub struct PlacedModifiers {
    pub items: Vec<PlacedModifier>,
}

/// A statement. The first place of each form is that of its first token.
#[cycle(statement)]
#[derive(Drop)]
pub enum Statement {
    /// `;`
    Empty(Place),
    /// A bare block, which stands as if its braces were not there.
    Block(Place, Statements),
    /// `name = value;`
    Assignment(Place, CompactBytes, Expr),
    /// `$name = value;`, of a special name other than `$children`, without its `$`.
    SpecialAssignment(Place, CompactBytes, Expr),
    /// A module: its name with its place, its parameters and its body.
    Module(Place, CompactBytes, Place, Params, Body),
    /// A function: its name with its place, its parameters and its value.
    Function(Place, CompactBytes, Place, Params, Expr),
    Instantiation(Instance),
}

/// A list of statements.
#[cycle(statement)]
#[derive(Drop)]
pub struct Statements {
    pub items: Vec<Statement>,
}

/// An instance of a module, a choice or a loop, behind its modifiers.
#[cycle(statement)]
#[derive(Drop)]
pub struct Instance {
    /// The place of its first token.
    pub place: Place,
    pub modifiers: PlacedModifiers,
    pub core: Core,
}

/// An instance without its modifiers. The place is that of its first token.
#[cycle(statement)]
#[derive(Drop)]
pub enum Core {
    If(Place, Expr, Box<Body>),
    IfElse(Place, Expr, Box<Body>, Box<Body>),
    For(Place, Binders, Box<Body>),
    IntersectionFor(Place, Binders, Box<Body>),
    /// A module's name, its arguments and its body.
    Call(Place, CompactBytes, Args, Box<Body>),
}

/// The body of a module, a choice, a loop or an instance.
#[cycle(statement)]
#[derive(Drop)]
pub enum Body {
    /// `;`
    Semicolon(Place),
    /// Statements in braces.
    Braces(Place, Statements),
    Single(Box<Instance>),
}

impl Statement {
    /// The place of the first token.
    pub fn place(&self) -> Place
        ensures { result ≡ place_of_statement (statement_of self.now) }
    {
        match self {
            Statement::Empty(place)
            | Statement::Block(place, _)
            | Statement::Assignment(place, _, _)
            | Statement::SpecialAssignment(place, _, _)
            | Statement::Module(place, _, _, _, _)
            | Statement::Function(place, _, _, _, _) => *place,
            Statement::Instantiation(instance) => instance.place(),
        }
    }
}

impl Instance {
    /// The place of the first token.
    pub fn place(&self) -> Place
        ensures { result ≡ place_of_instance (instance_of self.now) }
    {
        self.place
    }
}

impl Core {
    /// The place of the first token.
    pub fn place(&self) -> Place
        ensures { result ≡ place_of_core (core_of self.now) }
    {
        match self {
            Core::If(place, _, _)
            | Core::IfElse(place, _, _, _)
            | Core::For(place, _, _)
            | Core::IntersectionFor(place, _, _)
            | Core::Call(place, _, _, _) => *place,
        }
    }
}

impl Body {
    /// The place of the first token.
    pub fn place(&self) -> Place
        ensures { result ≡ place_of_body (body_of self.now) }
    {
        match self {
            Body::Semicolon(place) | Body::Braces(place, _) => *place,
            Body::Single(instance) => instance.place(),
        }
    }
}
