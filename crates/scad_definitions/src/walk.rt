//! The one walk through a program that numbers its blocks, functions and modules.

ghost use Rattle.std.specs.Prelude.{◌≡◌, ◌<◌, ◌+◌, ◌^◌, ◌++◌, [], ◌∷◌, length, IfOk, OnOk};
ghost use Rattle.scad_ast.specs.Terms.{statements_from, no_statements, and_statement, InstanceStatement};
ghost use Rattle.scad_ast.specs.ExprView.{term_of};
ghost use Rattle.scad_ast.specs.StatementView.{params_of, statement_of, statements_of, instance_of, core_of, body_of};
ghost use Rattle.scad_definitions.specs.Blocks.{entities_of, entities_in, entities_of_core, entities_of_body, entities_of_instance, a_block, a_function, a_module, entities_of_program};
ghost use Rattle.scad_definitions.specs.Walk.{table_so_far, count_numbered, with_entities, with_entity, empty_block_table, locals_with, locals_by, locals_with_assignment, with_block_begun, with_block_ended};
ghost use Rattle.scad_definitions.specs.TextView.{locals_of, locals_under_way, statements_of_text};

use crate::NameTable;
use crate::assigned::LocalsSoFar;
use crate::text::{Assignment, BlockText, Entry, Function, LocalDefinitions, Module, define};
use scad_ast::{Body, Core, Expr, Instance, Param, Params, Program, Statement, Statements};
use std::alloc::Global;
use std::rc::Rc;
use text_place::{CompactBytes, NoMemory, Place};

/// A walk through a program's text: the blocks, functions and modules so far, each by number.
#[derive(Drop)]
pub(crate) struct Walk<'a> {
    pub(crate) alloc: Global,
    pub(crate) entries: Vec<Entry<'a>>,
    pub(crate) functions: Vec<Function<'a>>,
    pub(crate) modules: Vec<Module<'a>>,
}

/// The blocks, functions and modules of a program.
pub(crate) fn walk_program<'a>(alloc: Global, program: &'a Program) -> Result<Walk<'a>, NoMemory>
    ensures { IfOk result (λ w.
        table_so_far w ≡ with_entities empty_block_table
        (entities_of_program (statements_of program.now.statements))) }
{
    let mut walk = Walk::new(alloc);
    walk.braces(&program.statements)?;
    Ok(walk)
}

impl<'a> Walk<'a> {
    // A walk that has begun with nothing.
    fn new(alloc: Global) -> Walk<'a>
        ensures { table_so_far result ≡ empty_block_table }
    {
        Walk {
            alloc,
            entries: Vec::new(alloc),
            functions: Vec::new(alloc),
            modules: Vec::new(alloc),
        }
    }

    // Goes on through statements of a block whose local definitions and assignments these are.
    #[cycle(walk)]
    fn statements(
        &mut self,
        statements: &'a Statements,
        so_far: &mut LocalsSoFar<'a>,
    ) -> Result<(), NoMemory>
        requires { count_numbered (table_so_far self.old) + length
            (entities_in (statements_from (statements_of statements.now))) < 2 ^ 32 }
        ensures walked { OnOk result (table_so_far self.new
            ≡ with_entities (table_so_far self.old)
            (entities_in (statements_from (statements_of statements.now)))) }
        ensures local { OnOk result (locals_under_way so_far.new.local
            ≡ locals_with (locals_under_way so_far.old.local)
            (length (table_so_far self.old).functions)
            (length (table_so_far self.old).modules)
            (statements_from (statements_of statements.now))) }
    {
        'each: for statement in &statements.items {
            self.statement(statement, so_far)?;
        }
        Ok(())
    }

    // Goes on through one statement of a block.
    #[cycle(walk)]
    #[tactic(auto, using(crate::proofs::Begun::numbered_entity))]
    fn statement(
        &mut self,
        statement: &'a Statement,
        so_far: &mut LocalsSoFar<'a>,
    ) -> Result<(), NoMemory>
        requires { count_numbered (table_so_far self.old) + length
            (entities_of (statement_of statement.now)) < 2 ^ 32 }
        ensures walked { OnOk result (table_so_far self.new
            ≡ with_entities (table_so_far self.old) (entities_of (statement_of statement.now))) }
        ensures local { OnOk result (locals_under_way so_far.new.local
            ≡ locals_by (locals_under_way so_far.old.local)
            (length (table_so_far self.old).functions)
            (length (table_so_far self.old).modules) (statement_of statement.now)) }
    {
        match statement {
            Statement::Empty(_) => Ok(()),
            Statement::Block(_, statements) => self.statements(statements, so_far),
            Statement::Assignment(place, name, value) => {
                assign(self.alloc, so_far, *place, false, name, value)
            }
            Statement::SpecialAssignment(place, name, value) => {
                assign(self.alloc, so_far, *place, true, name, value)
            }
            Statement::Module(_, name, _, params, body) => {
                let number = self.module(params, body)?;
                define(
                    &mut so_far.local.definitions.modules,
                    self.alloc,
                    name,
                    number,
                )?;
                self.module_body(&params.items, body)
            }
            Statement::Function(_, name, _, params, value) => {
                let number = self.function(params, value)?;
                define(
                    &mut so_far.local.definitions.functions,
                    self.alloc,
                    name,
                    number,
                )?;
                self.nothing()
            }
            Statement::Instantiation(instance) => self.core(&instance.core),
        }
    }

    // Goes on through the body of a module with parameters of these names.
    #[cycle(walk)]
    fn module_body(&mut self, params: &'a [Param], body: &'a Body) -> Result<(), NoMemory>
        requires { count_numbered (table_so_far self.old) + length
            (entities_of_body (body_of body.now)) < 2 ^ 32 }
        ensures { OnOk result (table_so_far self.new ≡ with_entities (table_so_far self.old)
            (entities_of_body (body_of body.now))) }
    {
        let block = self.entries.len();
        self.body(body)?;
        self.expect(block, params)
    }

    // A scope of a module's body is expected to bind the parameters first.
    fn expect(&mut self, block: usize, params: &[Param]) -> Result<(), NoMemory>
        ensures { table_so_far self.new ≡ table_so_far self.old }
    {
        if block >= self.entries.len() {
            return Ok(());
        }
        let assignments = &self.entries[block].local.assignments;
        let names = NameTable::of_module(self.alloc, params, assignments)?;
        let names = Rc::new(self.alloc, names)?;
        self.entries[block].local.names = Some(names);
        Ok(())
    }

    // Goes on through the bodies of an instance.
    #[cycle(walk)]
    fn core(&mut self, core: &'a Core) -> Result<(), NoMemory>
        requires { count_numbered (table_so_far self.old) + length
            (entities_of_core (core_of core.now)) < 2 ^ 32 }
        ensures { OnOk result (table_so_far self.new ≡ with_entities (table_so_far self.old)
            (entities_of_core (core_of core.now))) }
    {
        match core {
            Core::If(_, _, body) => self.body(body),
            Core::IfElse(_, _, body, other) => self.two(body, other),
            Core::For(_, _, body) => self.body(body),
            Core::IntersectionFor(_, _, body) => self.body(body),
            Core::Call(_, _, _, body) => self.body(body),
        }
    }

    // Goes on through two bodies one after another.
    #[cycle(walk)]
    #[tactic(auto, using(crate::proofs::Begun::numbered_after))]
    fn two(&mut self, body: &'a Body, other: &'a Body) -> Result<(), NoMemory>
        requires { count_numbered (table_so_far self.old) + length
            (entities_of_body (body_of body.now)) + length
            (entities_of_body (body_of other.now)) < 2 ^ 32 }
        ensures { OnOk result (table_so_far self.new ≡ with_entities (table_so_far self.old)
            (entities_of_body (body_of body.now) ++ entities_of_body (body_of other.now))) }
    {
        self.body(body)?;
        self.body(other)
    }

    // Goes on through a body, which is a block.
    #[cycle(walk)]
    fn body(&mut self, body: &'a Body) -> Result<(), NoMemory>
        requires { count_numbered (table_so_far self.old) + length
            (entities_of_body (body_of body.now)) < 2 ^ 32 }
        ensures { OnOk result (table_so_far self.new ≡ with_entities (table_so_far self.old)
            (entities_of_body (body_of body.now))) }
    {
        match body {
            Body::Semicolon(_) => self.nothing(),
            Body::Braces(_, statements) => self.braces(statements),
            Body::Single(instance) => self.single(instance),
        }
    }

    // A block that is one instance.
    #[cycle(walk)]
    #[tactic(auto, using(crate::proofs::Begun::numbered_begun, crate::proofs::Begun::numbered_after))]
    fn single(&mut self, instance: &'a Instance) -> Result<(), NoMemory>
        requires { count_numbered (table_so_far self.old) + length
            (entities_of_instance (instance_of instance.now)) + 1 < 2 ^ 32 }
        ensures { OnOk result (table_so_far self.new ≡ with_entities (table_so_far self.old)
            (a_block (and_statement (InstanceStatement (instance_of instance.now)) no_statements)
            ∷ entities_of_instance (instance_of instance.now))) }
    {
        let number = self.begin(BlockText::Single(instance))?;
        self.core(&instance.core)?;
        self.end(number, LocalDefinitions::new(self.alloc));
        Ok(())
    }

    // A block of statements in braces.
    #[cycle(walk)]
    #[tactic(auto, using(crate::proofs::Begun::numbered_begun, crate::proofs::Begun::numbered_after))]
    fn braces(&mut self, statements: &'a Statements) -> Result<(), NoMemory>
        requires { count_numbered (table_so_far self.old) + length
            (entities_in (statements_from (statements_of statements.now))) + 1 < 2 ^ 32 }
        ensures { OnOk result (table_so_far self.new ≡ with_entities (table_so_far self.old)
            (a_block (statements_from (statements_of statements.now))
            ∷ entities_in (statements_from (statements_of statements.now)))) }
    {
        let number = self.begin(BlockText::Statements(statements))?;
        let mut so_far = LocalsSoFar::new(self.alloc);
        self.statements(statements, &mut so_far)?;
        let LocalsSoFar { local, .. } = so_far;
        let local = local.shared(self.alloc)?;
        self.end(number, local);
        Ok(())
    }

    // A block in which nothing stands.
    #[tactic(auto, using(crate::proofs::Begun::numbered_begun))]
    fn nothing(&mut self) -> Result<(), NoMemory>
        requires { count_numbered (table_so_far self.old) + 1 < 2 ^ 32 }
        ensures { OnOk result (table_so_far self.new ≡ with_entities (table_so_far self.old)
            (a_block no_statements ∷ [])) }
    {
        let number = self.begin(BlockText::Nothing)?;
        self.end(number, LocalDefinitions::new(self.alloc));
        Ok(())
    }

    // A block begins: its number. Its local definitions come when it ends.
    #[tactic(auto, using(crate::proofs::Held::mapped_length))]
    fn begin(&mut self, text: BlockText<'a>) -> Result<u32, NoMemory>
        requires { count_numbered (table_so_far self.old) < 2 ^ 32 }
        ensures walked { OnOk result (table_so_far self.new
            ≡ with_block_begun (table_so_far self.old) (statements_of_text text.entry)) }
        ensures number { IfOk result (λ n. n ≡ length (table_so_far self.old).entries) }
    {
        let number = self.entries.len() as u32;
        let local = LocalDefinitions::new(self.alloc);
        self.entries.push(Entry {
            text,
            local,
            block_end: 0,
        })?;
        Ok(number)
    }

    // A block ends: it gets what stands in it and the number of the first block behind it.
    #[tactic(auto, using(crate::proofs::Held::mapped_length))]
    fn end(&mut self, number: u32, local: LocalDefinitions<'a>)
        requires begun { number < length (table_so_far self.old).entries }
        requires few { count_numbered (table_so_far self.old) < 2 ^ 32 }
        ensures { table_so_far self.new ≡ with_block_ended (table_so_far self.old) number
            (locals_of local.entry) }
    {
        let block_end = self.entries.len() as u32;
        let entry = &mut self.entries[number as usize];
        entry.local = local;
        entry.block_end = block_end;
    }

    // A function begins: its number.
    #[tactic(auto, using(crate::proofs::Held::mapped_length))]
    fn function(&mut self, params: &'a Params, value: &'a Expr) -> Result<u32, NoMemory>
        requires { count_numbered (table_so_far self.old) < 2 ^ 32 }
        ensures walked { OnOk result (table_so_far self.new ≡ with_entity (table_so_far self.old)
            (a_function (record { params = params_of params.now; value = term_of value.now }))) }
        ensures number { IfOk result (λ n. n ≡ length (table_so_far self.old).functions) }
    {
        let number = self.functions.len() as u32;
        self.functions.push(Function { params, value })?;
        Ok(number)
    }

    // A module begins: its number. Its body is the next block.
    #[tactic(auto, using(crate::proofs::Held::mapped_length))]
    fn module(&mut self, params: &'a Params, body: &'a Body) -> Result<u32, NoMemory>
        requires { count_numbered (table_so_far self.old) < 2 ^ 32 }
        ensures walked { OnOk result (table_so_far self.new ≡ with_entity (table_so_far self.old)
            (a_module (record { params = params_of params.now; body = body_of body.now }))) }
        ensures number { IfOk result (λ n. n ≡ length (table_so_far self.old).modules) }
    {
        let number = self.modules.len() as u32;
        let block = self.entries.len() as u32;
        self.modules.push(Module {
            params,
            body,
            block,
        })?;
        Ok(number)
    }
}

// One assignment more of a block.
fn assign<'a>(
    alloc: Global,
    so_far: &mut LocalsSoFar<'a>,
    place: Place,
    special: bool,
    name: &'a CompactBytes,
    value: &'a Expr,
) -> Result<(), NoMemory>
    ensures { OnOk result (locals_under_way so_far.new.local
        ≡ locals_with_assignment (locals_under_way so_far.old.local)
        (record { at = place; special = special; name = name.now; value = term_of value.now })) }
{
    let name = name.items();
    so_far.assign(
        alloc,
        Assignment {
            place,
            special,
            name,
            value,
        },
    )
}
