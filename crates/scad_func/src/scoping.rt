//! Enters and leaves scopes, and lists a block's assignments.

ghost use Rattle.std.specs.Prelude.{◌≡◌, ◌<◌, ◌≤◌, ◌+◌, [], ◌∷◌, length, map, IfOk, IfErr, IfSome, OnErr};
ghost use Rattle.scad_ast.specs.StatementView.{params_of};
ghost use Rattle.scad_value.specs.BoundedView.{bounded_val};
ghost use Rattle.scad_definitions.specs.Arguments.{parameter_names};
ghost use Rattle.scad_scope.specs.Table.{rows_of, bindings_of};
ghost use Rattle.scad_definitions.specs.Blocks.{assignments_of};
ghost use Rattle.scad_definitions.specs.TextView.{source_assignment_of};
ghost use Rattle.scad_func.specs.Meaning.{InnerScope, activation_in, no_activation, activation, with_value, with_values};
ghost use Rattle.scad_func.specs.View.{IsActivationFound, IsNoMemory, bindings_in, values_seen, env_seen, table_in};
ghost use Rattle.scad_func.specs.Definitions.{statements_at, block_scope, IsWholeTable};
ghost use Rattle.scad_func.specs.Evaluations.{KeepsEvaluation, scopes_there, env_here};
ghost use Rattle.scad_func.specs.Transitions.{PushesBindings, BindsVariables, PopsBindings, EntersScope, LeavesScope};

use crate::bind::bind_all;
use crate::dynamic::bind_each_special;
use crate::evaluation::Evaluation;
use crate::values::BoundedValues;
use scad_ast::Params;
use scad_scope::{Assignment, ModuleActivation, SpecialArgument};
use scad_value::BoundedValue;
use text_place::{NoMemory, Stop};

impl<'a> Evaluation<'a, '_> {
    /// The assignments of a block, each name once, in the order of the text: a name that is assigned more than
    /// once has the place of its first assignment and the expression of its last. A block that isn't there has
    /// none.
    pub fn assignments(&self, block: u32) -> &'a [Assignment<'a>]
        ensures { IsWholeTable (table_in self.now.source.now) →
            map source_assignment_of result.now
            ≡ assignments_of (statements_at (table_in self.now.source.now) block) }
    {
        let blocks = &self.source.blocks;
        if (block as usize) < blocks.count() {
            return blocks.assignments(block);
        }
        &[]
    }

    /// Enters a new scope of a block inside an outer scope, and answers the scope that was current before.
    /// `NoMemory` leaves all as it was.
    pub fn enter_body(&mut self, outer: u32, block: u32) -> Result<u32, NoMemory>
        requires { outer < scopes_there self.old }
        ensures { EntersScope self.old self.new result
            (block_scope (table_in self.old.source.now) block no_activation
            (env_seen self.old.source.now (rows_of self.old.scopes.now) outer)) }
    {
        let source = self.source;
        let before = self.scope;
        self.scope = self.scopes.enter(self.alloc, outer, &source.blocks, block)?;
        Ok(before)
    }

    /// Enters a new scope without definitions inside the one in which is evaluated, and answers that one: a scope in
    /// which a loop binds a variable. `NoMemory` leaves all as it was.
    pub fn enter_empty(&mut self) -> Result<u32, NoMemory>
        ensures { EntersScope self.old self.new result
            (InnerScope [] [] [] no_activation (env_here self.old)) }
    {
        let before = self.scope;
        self.scope = self.scopes.enter_empty(self.alloc, before)?;
        Ok(before)
    }

    /// Enters a new scope of a module's body inside the scope of the definition, as the scope of a call with its
    /// children's block, and answers the scope that was current before, the caller's. `NoMemory` leaves all
    /// as it was.
    pub fn enter_activation(
        &mut self,
        defining_scope: u32,
        block: u32,
        children: u32,
    ) -> Result<u32, NoMemory>
        requires { defining_scope < scopes_there self.old }
        ensures { EntersScope self.old self.new result
            (block_scope (table_in self.old.source.now) block
            (activation (statements_at (table_in self.old.source.now) children) (env_here self.old))
            (env_seen self.old.source.now (rows_of self.old.scopes.now) defining_scope)) }
    {
        let source = self.source;
        let caller = self.scope;
        let call = ModuleActivation { children, caller };
        self.scope = self
            .scopes
            .enter_activation(self.alloc, defining_scope, &source.blocks, block, call)?;
        Ok(caller)
    }

    /// Leaves the current scope, which was entered and is the newest, to the one that was current
    /// before.
    pub fn leave(&mut self, before: u32)
        requires { before < self.old.scope }
        ensures { LeavesScope self.old self.new before }
    {
        let newest = self.scope;
        self.scope = before;
        self.scopes.leave(newest);
    }

    /// Gives a name a value in the current scope, which is the newest. `NoMemory` leaves all as it was.
    #[tactic(auto, using(crate::proofs::Growth::front_kept, crate::proofs::Growth::bound_length))]
    pub fn bind(&mut self, name: &[u8], value: BoundedValue) -> Result<(), NoMemory>
        requires { self.old.scope + 1 ≡ scopes_there self.old }
        ensures binds { BindsVariables self.old self.new result
            (with_value name.now (bounded_val value) (env_here self.old)) }
        ensures kept { OnErr result (KeepsEvaluation self.old self.new) }
    {
        self.scopes.bind(self.alloc, self.scope, name, value.value)
    }

    /// Gives parameters their values in the current scope, which is the newest. `NoMemory` leaves some of
    /// them.
    pub fn bind_parameters(
        &mut self,
        params: &Params,
        values: BoundedValues,
    ) -> Result<(), NoMemory>
        requires newest { self.old.scope + 1 ≡ scopes_there self.old }
        requires count { length values.items.items ≡ length params.now.items.items }
        ensures binds { BindsVariables self.old self.new result
            (with_values (parameter_names (params_of params.now)) (values_seen values)
            (env_here self.old)) }
    {
        bind_all(self.alloc, self.scopes, self.scope, params, values)
    }

    /// Puts special arguments among the dynamic bindings, and answers how many there were before. `NoMemory` leaves all as it
    /// was.
    pub fn push_bindings(
        &mut self,
        dynamic: Vec<SpecialArgument<'_, BoundedValue>>,
    ) -> Result<u32, Stop>
        ensures begins { PushesBindings self.old self.new result (bindings_in dynamic.entry.items) }
        ensures stop { IfErr result IsNoMemory }
    {
        let length = self.scopes.count_bindings();
        if length > u32::MAX as usize {
            return Err(Stop::NoMemory);
        }
        let length = length as u32;
        match bind_each_special(self.alloc, self.scopes, dynamic) {
            Ok(()) => Ok(length),
            Err(stop) => {
                self.scopes.unwind(length);
                Err(stop)
            }
        }
    }

    /// Gives a special name a value, as the newest of the dynamic bindings, and answers how many there were before. `NoMemory`
    /// leaves all as it was.
    pub fn bind_special(&mut self, name: &[u8], value: BoundedValue) -> Result<u32, NoMemory>
        ensures { PushesBindings self.old self.new result ((name.now, bounded_val value) ∷ []) }
    {
        self.scopes.bind_special(self.alloc, name, value.value)
    }

    /// How many special names there are. `NoMemory` where they are 2^32 or more.
    pub fn count_bindings(&self) -> Result<u32, NoMemory>
        ensures { IfOk result (λ n. n ≡ length (bindings_of self.now.scopes.now)) }
    {
        let length = self.scopes.count_bindings();
        if length > u32::MAX as usize {
            return Err(NoMemory);
        }
        Ok(length as u32)
    }

    /// Takes special names from the dynamic bindings, to where they were put on it.
    pub fn pop_bindings(&mut self, to: u32)
        requires { to ≤ length (bindings_of self.old.scopes.now) }
        ensures { PopsBindings self.old self.new to }
    {
        self.scopes.unwind(to);
    }

    /// The innermost call of a module whose scope is the one in which is evaluated or stands around it, with the block of
    /// its children and the scope of its caller.
    pub fn enclosing_activation(&self) -> Option<ModuleActivation>
        ensures value { IsActivationFound (table_in self.now.source.now)
            (rows_of self.now.scopes.now) (activation_in (env_here self.now)) result }
        ensures there { IfSome result (λ call. call.caller < scopes_there self.now) }
    {
        self.scopes.activation_of(self.scope)
    }
}
