//! All scopes of an evaluation by number, and the dynamic bindings of special names.

use crate::fault::fault;
use crate::local::{empty, scope_of_block};
use crate::table::{
    Found, ModuleActivation, NameSpace, Scope, activation_before, find_definition, find_variable,
    new_bindings,
};
use scad_definitions::{Blocks, NameList};
use scad_value::{BoundedValue, Value};
use std::alloc::Global;
use text_place::{Bytes, Fault, FaultKind, NoMemory, Place};

/// Scopes by number. The first one, 0, is outside all others; each other one is entered inside one
/// that is there. Beside them stands the dynamic bindings of special variables, which belong to no scope: a name
/// stands for its newest value. Each value in them is bounded, which its own type keeps.
#[derive(Drop)]
pub struct Scopes {
    pub(crate) scopes: Vec<Scope>,
    /// The dynamic bindings, the newest last.
    pub(crate) bindings: NameList<BoundedValue>,
}

impl Scopes {
    ghost use Rattle.std.specs.Prelude.{◌≡◌, ◌<◌, ℕ, List, [], ◌∷◌, ◌++◌, length, take, IfOk, OnOk, OnErr, MatchResult, IsTrue, MatchOption, Some, None, IfSome, ◌≤◌, ◌-◌};
    ghost use Rattle.text_place.specs.declared.fault.FaultKind.TheVariants.{UnknownName, UnknownFunction, UnknownModule};
    ghost use Rattle.scad_value.specs.Values.{Val, is_bounded};
    ghost use Rattle.scad_value.specs.View.{val_of};
    ghost use Rattle.scad_scope.specs.Names.{Pairs, find_in, env_of, variable_in, function_in, module_in, first_row, empty_row, rows_with_variable, with_pair, NumberedScope, no_numbered_activation, numbered_activation, enclosing_activation, activation_row, first_bindings, oldest_pairs, ScopeRow};
    ghost use Rattle.scad_scope.specs.Rows.{row_of_block};
    ghost use Rattle.scad_definitions.specs.Tables.{block_table_in, source_functions_in, source_modules_in};
    ghost use Rattle.scad_scope.specs.Numbered.{functions_below, modules_below, StaysBelow, StaysNumbered};
    ghost use Rattle.scad_scope.specs.View.{definition_in, row_of_scope};
    ghost use Rattle.scad_scope.specs.Table.{rows_of, bindings_of, numbered_activation_of, IsDefinitionFound, IsMissing, IsVariable, KeepsScopes};

    /// One empty scope, number 0, outside all others, and the dynamic bindings with `$fn` 0, `$fa` 12 and `$fs` 2.
    pub fn new(alloc: Global) -> Result<Scopes, NoMemory>
        ensures rows { IfOk result (λ s. rows_of s ≡ first_row ∷ []) }
        ensures bindings { IfOk result (λ s. bindings_of s ≡ first_bindings) }
        ensures functions { IfOk result (λ s. (n : ℕ) → IsTrue (functions_below n (rows_of s))) }
        ensures modules { IfOk result (λ s. (n : ℕ) → IsTrue (modules_below n (rows_of s))) }
    {
        let mut scopes = Vec::new(alloc);
        scopes.push(empty(alloc, u32::MAX))?;
        let bindings = new_bindings(alloc)?;
        Ok(Scopes { scopes, bindings })
    }

    /// A new scope of a block of a program, inside another scope, and its number. Its time is that of
    /// the block's own definitions. A block that isn't there has no definitions. `NoMemory` leaves all scopes
    /// as they were; it also comes where a number would be past 2^32 - 1.
    ///
    /// Functions and modules have numbers below the program's counts of them, where those of the
    /// scopes before have.
    pub fn enter(
        &mut self,
        alloc: Global,
        outer: u32,
        blocks: &Blocks<'_>,
        block: u32,
    ) -> Result<u32, NoMemory>
        requires { outer < length (rows_of self.old) }
        ensures number { IfOk result (λ n. n ≡ length (rows_of self.old)) }
        ensures entered { OnOk result (rows_of self.new ≡
            rows_of self.old ++ row_of_block outer (block_table_in blocks.now) block ∷ []) }
        ensures unchanged { OnErr result (rows_of self.new ≡ rows_of self.old) }
        ensures inside { IfOk result (λ n. env_of (rows_of self.new) n ≡
            NumberedScope n (row_of_block outer (block_table_in blocks.now) block)
            no_numbered_activation (env_of (rows_of self.old) outer)) }
        ensures kept { KeepsScopes self.old self.new }
        ensures numbered { StaysBelow (length (source_functions_in blocks.now))
            (length (source_modules_in blocks.now)) (rows_of self.old) (rows_of self.new) }
    {
        let scope = scope_of_block(alloc, outer, blocks, block)?;
        self.add(scope)
    }

    /// A new scope of a block of a program, as `enter` makes it, which is that of a call of a module
    /// of the source: the call encloses what is evaluated in this scope or in a scope inside.
    pub fn enter_activation(
        &mut self,
        alloc: Global,
        outer: u32,
        blocks: &Blocks<'_>,
        block: u32,
        call: ModuleActivation,
    ) -> Result<u32, NoMemory>
        requires outer { outer < length (rows_of self.old) }
        requires caller { call.caller < length (rows_of self.old) }
        ensures number { IfOk result (λ n. n ≡ length (rows_of self.old)) }
        ensures entered { OnOk result (rows_of self.new ≡ rows_of self.old ++
            activation_row call.children call.caller
            (row_of_block outer (block_table_in blocks.now) block) ∷ []) }
        ensures unchanged { OnErr result (rows_of self.new ≡ rows_of self.old) }
        ensures inside { IfOk result (λ n. env_of (rows_of self.new) n ≡ NumberedScope n
            (activation_row call.children call.caller
            (row_of_block outer (block_table_in blocks.now) block))
            (numbered_activation call.children (env_of (rows_of self.old) call.caller))
            (env_of (rows_of self.old) outer)) }
        ensures kept { KeepsScopes self.old self.new }
        ensures numbered { StaysBelow (length (source_functions_in blocks.now))
            (length (source_modules_in blocks.now)) (rows_of self.old) (rows_of self.new) }
    {
        let entered = scope_of_block(alloc, outer, blocks, block)?;
        self.add(entered.of_activation(call))
    }

    /// A new scope without definitions, inside another scope, and its number: what the expression of
    /// a function is as a block. Its time does not depend on the program. `NoMemory` leaves all
    /// scopes as they were; it also comes where a number would be past 2^32 - 1.
    pub fn enter_empty(&mut self, alloc: Global, outer: u32) -> Result<u32, NoMemory>
        requires { outer < length (rows_of self.old) }
        ensures number { IfOk result (λ n. n ≡ length (rows_of self.old)) }
        ensures entered { OnOk result (rows_of self.new
            ≡ rows_of self.old ++ empty_row outer ∷ []) }
        ensures unchanged { OnErr result (rows_of self.new ≡ rows_of self.old) }
        ensures inside { IfOk result (λ n. env_of (rows_of self.new) n ≡
            NumberedScope n (empty_row outer) no_numbered_activation
            (env_of (rows_of self.old) outer)) }
        ensures kept { KeepsScopes self.old self.new }
        ensures numbered { StaysNumbered (rows_of self.old) (rows_of self.new) }
    {
        self.add(empty(alloc, outer))
    }

    // One scope more, and its number.
    fn add(&mut self, scope: Scope) -> Result<u32, NoMemory>
        ensures number { IfOk result (λ n. n ≡ length (rows_of self.old)) }
        ensures added { OnOk result (rows_of self.new
            ≡ rows_of self.old ++ row_of_scope scope ∷ []) }
        ensures unchanged { OnErr result (rows_of self.new ≡ rows_of self.old) }
        ensures bindings { bindings_of self.new ≡ bindings_of self.old }
    {
        let number = self.scopes.len();
        if number > u32::MAX as usize {
            return Err(NoMemory);
        }
        self.scopes.push(scope)?;
        Ok(number as u32)
    }

    /// Cuts the table to the given number of its first scopes.
    pub fn leave(&mut self, to: u32)
        requires some { 1 ≤ to }
        requires there { to ≤ length (rows_of self.old) }
        ensures rows { rows_of self.new ≡ take to (rows_of self.old) }
        ensures back { (front behind : List ScopeRow) → rows_of self.old ≡ front ++ behind
            → length front ≡ to → rows_of self.new ≡ front }
        ensures kept { (k : ℕ) → k < to → env_of (rows_of self.new) k
            ≡ env_of (rows_of self.old) k }
        ensures bindings { bindings_of self.new ≡ bindings_of self.old }
        ensures numbered { StaysNumbered (rows_of self.old) (rows_of self.new) }
    {
        self.scopes.truncate(to as usize);
    }

    /// How many scopes there are.
    pub fn count(&self) -> usize
        ensures { result ≡ length (rows_of self.now) }
    {
        self.scopes.len()
    }

    /// The innermost call, from a scope outward, whose scope is one of them: the call that encloses
    /// what is evaluated in the scope. None where there is no such call.
    pub fn activation_of(&self, scope: u32) -> Option<ModuleActivation>
        requires { scope < length (rows_of self.now) }
        ensures value { enclosing_activation (env_of (rows_of self.now) scope)
            ≡ numbered_activation_of (env_of (rows_of self.now)) result }
        ensures there { IfSome result (λ c. c.caller < length (rows_of self.now)) }
    {
        let mut at = scope;
        'outward: loop {
            let here = &self.scopes[at as usize];
            if let Some(call) = activation_before(here, at) {
                return Some(call);
            }
            if here.outer >= at {
                return None;
            }
            at = here.outer;
        }
    }

    /// Gives a name a value in a scope, where it is the newest of its name. `NoMemory` leaves all
    /// scopes as they were.
    pub fn bind(
        &mut self,
        alloc: Global,
        scope: u32,
        name: &[u8],
        value: Value,
    ) -> Result<(), NoMemory>
        requires scope { scope < length (rows_of self.old) }
        requires bounded { IsTrue (is_bounded (val_of value)) }
        ensures bound { OnOk result (rows_of self.new
            ≡ rows_with_variable (rows_of self.old) scope name.now (val_of value)) }
        ensures unchanged { OnErr result (rows_of self.new ≡ rows_of self.old) }
        ensures here { OnOk result (env_of (rows_of self.new) scope ≡
            with_pair name.now (val_of value) (env_of (rows_of self.old) scope)) }
        ensures kept { (k : ℕ) → k < scope → env_of (rows_of self.new) k
            ≡ env_of (rows_of self.old) k }
        ensures bindings { bindings_of self.new ≡ bindings_of self.old }
        ensures numbered { StaysNumbered (rows_of self.old) (rows_of self.new) }
    {
        self.add_variable(alloc, scope, name, BoundedValue { value })
    }

    // One variable more in a scope. What it changes of other scopes follows from that.
    fn add_variable(
        &mut self,
        alloc: Global,
        scope: u32,
        name: &[u8],
        value: BoundedValue,
    ) -> Result<(), NoMemory>
        requires { scope < length (rows_of self.old) }
        ensures bound { OnOk result (rows_of self.new
            ≡ rows_with_variable (rows_of self.old) scope name.now (val_of value.value)) }
        ensures unchanged { OnErr result (rows_of self.new ≡ rows_of self.old) }
        ensures bindings { bindings_of self.new ≡ bindings_of self.old }
    {
        self.scopes[scope as usize].bind(alloc, name, value)
    }

    /// The value of a name, from a scope outward, which is bounded. UnknownName exactly where no
    /// scope outward has it.
    pub fn variable(&self, scope: u32, name: &[u8], place: Place) -> Result<&Value, Fault>
        requires { scope < length (rows_of self.now) }
        ensures { MatchResult result (λ v.
            IsVariable (variable_in (env_of (rows_of self.now) scope) name.now) v.now)
            (IsMissing UnknownName place (variable_in (env_of (rows_of self.now) scope) name.now)) }
    {
        let mut at = scope;
        'outward: loop {
            let here = &self.scopes[at as usize];
            if let Some(found) = here.variables.find(name) {
                return Ok(&found.value);
            }
            if here.outer >= at {
                return Err(fault(FaultKind::UnknownName, place));
            }
            at = here.outer;
        }
    }

    /// Gives a special name, without its `$`, a value, as the newest of the dynamic bindings, and answers how long
    /// the dynamic bindings was before. `NoMemory` leaves them as they were; it also comes where there are
    /// 2^32 pairs long.
    pub fn bind_special(
        &mut self,
        alloc: Global,
        name: &[u8],
        value: Value,
    ) -> Result<u32, NoMemory>
        requires { IsTrue (is_bounded (val_of value)) }
        ensures length { IfOk result (λ n. n ≡ length (bindings_of self.old)) }
        ensures bound { OnOk result (bindings_of self.new
            ≡ (name.now, val_of value) ∷ bindings_of self.old) }
        ensures unchanged { OnErr result (bindings_of self.new ≡ bindings_of self.old) }
        ensures rows { rows_of self.new ≡ rows_of self.old }
    {
        let before = self.bindings.len();
        if before > u32::MAX as usize {
            return Err(NoMemory);
        }
        let name = Bytes::copy_of(alloc, name)?;
        self.bindings.push(alloc, name, BoundedValue { value })?;
        Ok(before as u32)
    }

    /// The newest value of a special name, given without its `$`; it is bounded. UnknownName at the
    /// place exactly where no dynamic binding has the name.
    pub fn special(&self, name: &[u8], place: Place) -> Result<&Value, Fault>
        ensures { MatchResult result (λ v.
            IsVariable (find_in (bindings_of self.now) name.now) v.now)
            (IsMissing UnknownName place (find_in (bindings_of self.now) name.now)) }
    {
        match find_variable(&self.bindings, name) {
            Some(found) => Ok(&found.value),
            None => Err(fault(FaultKind::UnknownName, place)),
        }
    }

    /// How many dynamic bindings there are.
    pub fn count_bindings(&self) -> usize
        ensures { result ≡ length (bindings_of self.now) }
    {
        self.bindings.len()
    }

    /// Cuts the dynamic bindings to the given number of the oldest ones.
    pub fn unwind(&mut self, to: u32)
        requires { to ≤ length (bindings_of self.old) }
        ensures bindings { bindings_of self.new ≡ oldest_pairs to (bindings_of self.old) }
        ensures back { (newer older : Pairs Val) → bindings_of self.old ≡ newer ++ older
            → length older ≡ to → bindings_of self.new ≡ older }
        ensures rows { rows_of self.new ≡ rows_of self.old }
    {
        self.bindings.truncate(to as usize);
    }

    /// The function of a name, from a scope outward. UnknownFunction exactly where no scope outward
    /// has one.
    pub fn function(&self, scope: u32, name: &[u8], place: Place) -> Result<Found, Fault>
        requires { scope < length (rows_of self.now) }
        ensures { MatchResult result
            (IsDefinitionFound (rows_of self.now)
            (function_in (env_of (rows_of self.now) scope) name.now))
            (IsMissing UnknownFunction place
            (function_in (env_of (rows_of self.now) scope) name.now)) }
    {
        match self.definition(NameSpace::Functions, scope, name) {
            Some(found) => Ok(found),
            None => Err(fault(FaultKind::UnknownFunction, place)),
        }
    }

    /// The module of a name, from a scope outward. UnknownModule exactly where no scope outward has
    /// one.
    pub fn module(&self, scope: u32, name: &[u8], place: Place) -> Result<Found, Fault>
        requires { scope < length (rows_of self.now) }
        ensures { MatchResult result
            (IsDefinitionFound (rows_of self.now)
            (module_in (env_of (rows_of self.now) scope) name.now))
            (IsMissing UnknownModule place (module_in (env_of (rows_of self.now) scope) name.now)) }
    {
        match self.definition(NameSpace::Modules, scope, name) {
            Some(found) => Ok(found),
            None => Err(fault(FaultKind::UnknownModule, place)),
        }
    }

    // The function or the module of a name, from a scope outward, or none.
    fn definition(&self, name_space: NameSpace, scope: u32, name: &[u8]) -> Option<Found>
        requires { scope < length (rows_of self.now) }
        ensures { MatchOption result
            (definition_in name_space (env_of (rows_of self.now) scope) name.now ≡ None)
            (IsDefinitionFound (rows_of self.now)
            (definition_in name_space (env_of (rows_of self.now) scope) name.now)) }
    {
        let mut at = scope;
        'outward: loop {
            let here = &self.scopes[at as usize];
            if let Some(definition) = find_definition(name_space, here, name) {
                return Some(Found {
                    scope: at,
                    definition,
                });
            }
            if here.outer >= at {
                return None;
            }
            at = here.outer;
        }
    }
}
