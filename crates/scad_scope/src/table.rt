//! One scope: its variables, its block's definitions, and the scope outside it.

ghost use Rattle.std.specs.Prelude.{◌≡◌, ◌<◌, ◌∷◌, ℕ, IsTrue, OnOk, OnErr, IfOk, IfSome};
ghost use Rattle.scad_value.specs.Values.{NumberVal, is_bounded};
ghost use Rattle.scad_value.specs.View.{val_of};
ghost use Rattle.scad_scope.specs.Names.{find_in, with_variable, NumberedEnv, activation_from, activation_row, first_bindings};
ghost use Rattle.scad_scope.specs.Table.{numbered_activation_of};
ghost use Rattle.scad_scope.specs.View.{variables_of, IsValueFound, newest_defined, pairs_of, row_of_scope};

use crate::variables::Variables;
use scad_definitions::{Definitions, NameList};
use scad_value::{BoundedValue, Value};
use std::alloc::Global;
use std::rc::Rc;
use text_place::{Bytes, NoMemory};

/// A call of a module of the source.
#[derive(Clone, Copy, PartialEq, Eq)]
pub struct ModuleActivation {
    /// The number of the block of its children.
    pub children: u32,
    /// The number of the scope of its caller.
    pub caller: u32,
}

/// A scope: its variables, the newest last, the definitions of its block, which all scopes of that block share, the
/// number of the scope outside it, and the call whose scope it is, where it is one's.
#[derive(Drop)]
pub(crate) struct Scope {
    pub(crate) variables: Variables,
    pub(crate) definitions: Option<Rc<Definitions>>,
    pub(crate) outer: u32,
    pub(crate) call: Option<ModuleActivation>,
}

impl Scope {
    /// Gives a name a value, as the newest of its name. `NoMemory` leaves the scope as it was.
    pub(crate) fn bind(
        &mut self,
        alloc: Global,
        name: &[u8],
        value: BoundedValue,
    ) -> Result<(), NoMemory>
        ensures bound { OnOk result (row_of_scope self.new
            ≡ with_variable name.now (val_of value.value) (row_of_scope self.old)) }
        ensures unchanged { OnErr result (row_of_scope self.new ≡ row_of_scope self.old) }
    {
        self.variables.bind(alloc, name, value)
    }

    /// The same as the scope of a call.
    pub(crate) fn of_activation(self, call: ModuleActivation) -> Scope
        ensures { row_of_scope result ≡ activation_row call.children call.caller
            (row_of_scope self) }
    {
        Scope {
            variables: self.variables,
            definitions: self.definitions,
            outer: self.outer,
            call: Some(call),
        }
    }
}

/// The two name spaces of definitions.
#[derive(Clone, Copy, Debug, PartialEq, Eq)]
pub(crate) enum NameSpace {
    Functions,
    Modules,
}

/// Where a definition was found.
#[derive(Clone, Copy, PartialEq, Eq)]
pub struct Found {
    /// The number of the scope in which it stands.
    pub scope: u32,
    /// Its number: functions and modules are counted from 0 through the program's text, each by
    /// themselves.
    pub definition: u32,
}

/// The newest value of a name among the dynamic bindings, or among variables that have names of their own.
pub(crate) fn find_variable<'a>(
    variables: &'a NameList<BoundedValue>,
    name: &[u8],
) -> Option<&'a BoundedValue>
    ensures { IsValueFound (find_in (variables_of variables.now) name.now) result }
{
    variables.find(name)
}

/// The number of the newest definition of a name in a scope, of one kind.
pub(crate) fn find_definition(name_space: NameSpace, scope: &Scope, name: &[u8]) -> Option<u32>
    ensures { result ≡ find_in (pairs_of name_space (row_of_scope scope.now)) name.now }
{
    match &scope.definitions {
        Some(definitions) => find_among(name_space, definitions, name),
        None => None,
    }
}

// The number of the newest definition of a name among those of a block, of one kind.
fn find_among(name_space: NameSpace, definitions: &Definitions, name: &[u8]) -> Option<u32>
    ensures { result ≡ find_in (newest_defined name_space definitions.now) name.now }
{
    match name_space {
        NameSpace::Functions => definitions.functions.find(name).copied(),
        NameSpace::Modules => definitions.modules.find(name).copied(),
    }
}

/// The first dynamic bindings.
pub(crate) fn new_bindings(alloc: Global) -> Result<NameList<BoundedValue>, NoMemory>
    ensures { IfOk result (λ bindings. variables_of bindings ≡ first_bindings) }
{
    let none = NameList::new(alloc);
    let one = with_number(alloc, none, b"fn", 0)?;
    let two = with_number(alloc, one, b"fa", 12)?;
    with_number(alloc, two, b"fs", 2)
}

// Dynamic bindings with one name more, whose value is a number.
fn with_number(
    alloc: Global,
    bindings: NameList<BoundedValue>,
    name: &[u8],
    number: i64,
) -> Result<NameList<BoundedValue>, NoMemory>
    requires { IsTrue (is_bounded (NumberVal number)) }
    ensures { IfOk result (λ after. variables_of after
        ≡ (name.now, NumberVal number) ∷ variables_of bindings) }
{
    let name = Bytes::copy_of(alloc, name)?;
    let mut longer = bindings;
    let value = Value::Number(number);
    longer.push(alloc, name, BoundedValue { value })?;
    Ok(longer)
}

/// The call of a scope of this number, where the caller's scope comes before it.
pub(crate) fn activation_before(scope: &Scope, number: u32) -> Option<ModuleActivation>
    ensures told { (look : ℕ → NumberedEnv)
        → activation_from look number (row_of_scope scope.now).call
        ≡ numbered_activation_of look result }
    ensures before { IfSome result (λ c. c.caller < number) }
{
    match scope.call {
        Some(call) if call.caller < number => Some(call),
        _ => None,
    }
}
