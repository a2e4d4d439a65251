//! The modifiers of instances.

ghost use Rattle.std.specs.Prelude.{◌≡◌};
ghost use Rattle.std.specs.List.{list_any};
ghost use Rattle.scad_ast.specs.StatementView.{modifiers_of, instance_of};
ghost use Rattle.scad_meaning.specs.Bodies.{switches_off, is_root, is_switched_on, has_root_modifier};

use scad_ast::{Instance, Modifier, PlacedModifiers};

/// Whether an instance is evaluated: one marked `*` or `%` counts as not written.
pub(crate) fn is_on(instance: &Instance) -> bool
    ensures { result ≡ is_switched_on (instance_of instance.now) }
{
    !any_off(&instance.modifiers)
}

/// Whether an instance is marked `!`.
pub fn has_root_modifier(instance: &Instance) -> bool
    ensures { result ≡ has_root_modifier (instance_of instance.now) }
{
    any_root(&instance.modifiers)
}

fn any_off(modifiers: &PlacedModifiers) -> bool
    ensures { result ≡ list_any (λ m. switches_off m.modifier) (modifiers_of modifiers.now) }
{
    for placed in &modifiers.items {
        if switches_off(placed.modifier) {
            return true;
        }
    }
    false
}

fn any_root(modifiers: &PlacedModifiers) -> bool
    ensures { result ≡ list_any (λ m. is_root m.modifier) (modifiers_of modifiers.now) }
{
    for placed in &modifiers.items {
        if is_root(placed.modifier) {
            return true;
        }
    }
    false
}

fn switches_off(modifier: Modifier) -> bool
    ensures { result ≡ switches_off modifier }
{
    match modifier {
        Modifier::Disable | Modifier::Background => true,
        Modifier::Highlight | Modifier::Root => false,
    }
}

fn is_root(modifier: Modifier) -> bool
    ensures { result ≡ is_root modifier }
{
    match modifier {
        Modifier::Root => true,
        Modifier::Disable | Modifier::Background | Modifier::Highlight => false,
    }
}
