//! Bodies in which nothing stands.

ghost use Rattle.std.specs.Prelude.{◌≡◌};
ghost use Rattle.scad_ast.specs.StatementView.{statements_of, body_of};
ghost use Rattle.scad_meaning.specs.Bodies.{is_bare, has_no_items};

use scad_ast::{Body, Statements};

/// Whether a body is `;` or `{ }`, with no token between its braces.
pub(crate) fn is_bare(body: &Body) -> bool
    ensures { result ≡ is_bare (body_of body.now) }
{
    match body {
        Body::Semicolon(_) => true,
        Body::Braces(_, statements) => has_none(statements),
        Body::Single(_) => false,
    }
}

fn has_none(statements: &Statements) -> bool
    ensures { result ≡ has_no_items (statements_of statements.now) }
{
    statements.items.is_empty()
}
