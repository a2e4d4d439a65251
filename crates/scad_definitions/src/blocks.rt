//! The blocks, functions and modules of a program by number.

ghost use Rattle.std.specs.Prelude.{◌≡◌, IsTrue, IfOk, length, map};
ghost use Rattle.scad_definitions.specs.Numbered.{are_entries_below};
ghost use Rattle.scad_definitions.specs.TextView.{block_of_entry, names_of_function, names_of_module};
ghost use Rattle.scad_definitions.specs.ArgumentsView.{names_of_params};

use crate::lookup::ParameterNames;
use crate::parameters::Names;
use crate::text::{Assignment, BlockText, Entry, Function, LocalDefinitions, Module};
use crate::walk::walk_program;
use scad_ast::Program;
use std::alloc::Global;
use text_place::NoMemory;

/// The blocks, functions and modules of a program by number. Block 0 is the program itself; the bodies
/// and the expressions of functions are numbered from 1 in the order in which they begin, functions
/// and modules from 0, each by themselves. The type keeps that each block's local definitions are among
/// them.
#[derive(Drop)]
pub struct Blocks<'a> {
    pub(crate) entries: Vec<Entry<'a>>,
    pub(crate) functions: Vec<Function<'a>>,
    pub(crate) modules: Vec<Module<'a>>,
    /// The names of each function's parameters.
    function_names: Vec<ParameterNames<'a>>,
    /// The names of each module's parameters.
    module_names: Vec<ParameterNames<'a>>,
    ghost numbered: { IsTrue (are_entries_below (length functions.items) (length modules.items)
        (map block_of_entry entries.items)) },
    ghost functions_named: { map names_of_params function_names.items
        ≡ map names_of_function functions.items },
    ghost modules_named: { map names_of_params module_names.items
        ≡ map names_of_module modules.items },
}

impl<'a> Blocks<'a> {
    ghost use Rattle.std.specs.Prelude.{◌<◌, slice_index_or};
    ghost use Rattle.scad_ast.specs.ProgramView.{program_of};
    ghost use Rattle.scad_definitions.specs.Blocks.{block_table, nothing_there, StandsInOrder, SourceFunction, SourceModule};
    ghost use Rattle.scad_definitions.specs.Arguments.{parameter_names};
    ghost use Rattle.scad_definitions.specs.ArgumentsView.{names_in};
    ghost use Rattle.scad_definitions.specs.Numbered.{count_of_functions, count_of_modules};
    ghost use Rattle.scad_definitions.specs.Tables.{block_table_in, source_functions_in, source_modules_in};
    ghost use Rattle.scad_definitions.specs.TextView.{function_of, module_of, source_assignment_of, locals_of, statements_of_text};

    /// The blocks, functions and modules of a program, by one walk through its text.
    pub fn of(alloc: Global, program: &'a Program) -> Result<Blocks<'a>, NoMemory>
        ensures text { IfOk result (λ blocks. block_table_in blocks
            ≡ block_table (program_of program.now)) }
        ensures order { IfOk result (λ blocks. StandsInOrder (block_table_in blocks)) }
        ensures functions { IfOk result (λ blocks. length (source_functions_in blocks)
            ≡ count_of_functions (program_of program.now)) }
        ensures modules { IfOk result (λ blocks. length (source_modules_in blocks)
            ≡ count_of_modules (program_of program.now)) }
    {
        let walk = walk_program(alloc, program)?;
        let function_names = names_of_functions(alloc, &walk.functions)?;
        let module_names = names_of_modules(alloc, &walk.modules)?;
        Ok(Blocks {
            entries: walk.entries,
            functions: walk.functions,
            modules: walk.modules,
            function_names,
            module_names,
        })
    }

    /// How many blocks there are.
    pub fn count(&self) -> usize
        ensures { result ≡ length (block_table_in self.now).entries }
    {
        self.entries.len()
    }

    /// The function of a number.
    pub fn function(&self, number: u32) -> Function<'a>
        requires { number < length (source_functions_in self.now) }
        ensures same { function_of result ≡ slice_index_or (source_functions_in self.now) number
            (function_of result) }
        ensures item { result ≡ slice_index_or self.now.functions.items number result }
    {
        self.functions[number as usize]
    }

    /// The module of a number, with the number of its body's block.
    pub fn module(&self, number: u32) -> Module<'a>
        requires { number < length (source_modules_in self.now) }
        ensures same { module_of result ≡ slice_index_or (source_modules_in self.now) number
            (module_of result) }
        ensures item { result ≡ slice_index_or self.now.modules.items number result }
        ensures block { result.block
            ≡ slice_index_or (block_table_in self.now).bodies number result.block }
    {
        self.modules[number as usize]
    }

    /// The names of the parameters of a function of a number.
    pub fn function_names(&self, number: u32) -> Names<'_>
        requires { number < length (source_functions_in self.now) }
        ensures { (other : SourceFunction) → names_in result ≡ parameter_names
            (slice_index_or (source_functions_in self.now) number other).params }
    {
        Names::Params(&self.function_names[number as usize])
    }

    /// The names of the parameters of a module of a number.
    pub fn module_names(&self, number: u32) -> Names<'_>
        requires { number < length (source_modules_in self.now) }
        ensures { (other : SourceModule) → names_in result ≡ parameter_names
            (slice_index_or (source_modules_in self.now) number other).params }
    {
        Names::Params(&self.module_names[number as usize])
    }

    /// What stands in a block.
    pub fn text(&self, number: u32) -> BlockText<'a>
        requires { number < length (block_table_in self.now).entries }
        ensures { statements_of_text result
            ≡ (slice_index_or (block_table_in self.now).entries number nothing_there).statements }
    {
        self.entries[number as usize].text
    }

    /// What stands in a block and in no block inside it.
    pub fn local(&self, number: u32) -> &LocalDefinitions<'a>
        requires { number < length (block_table_in self.now).entries }
        ensures { locals_of result.now
            ≡ (slice_index_or (block_table_in self.now).entries number nothing_there).local }
    {
        &self.entries[number as usize].local
    }

    /// The number of the first block behind a block and all that stands in it.
    pub fn block_end(&self, number: u32) -> u32
        requires { number < length (block_table_in self.now).entries }
        ensures { result
            ≡ (slice_index_or (block_table_in self.now).entries number nothing_there).block_end }
    {
        self.entries[number as usize].block_end
    }

    /// A block's assignments, each name once, in the order of the text: a name that is assigned more than
    /// once has the place of its first assignment and the expression of its last.
    pub fn assignments(&self, number: u32) -> &[Assignment<'a>]
        requires { number < length (block_table_in self.now).entries }
        ensures { map source_assignment_of result.now
            ≡ (slice_index_or (block_table_in self.now).entries number
            nothing_there).local.assignments }
    {
        &self.entries[number as usize].local.assignments
    }
}

// The names of the parameters of each function.
fn names_of_functions<'a>(
    alloc: Global,
    functions: &[Function<'a>],
) -> Result<Vec<ParameterNames<'a>>, NoMemory>
    ensures { IfOk result (λ names. map names_of_params names.items
        ≡ map names_of_function functions.now) }
{
    let mut names = Vec::new(alloc);
    for function in functions {
        names.push(ParameterNames::of(alloc, &function.params.items)?)?;
    }
    Ok(names)
}

// The names of the parameters of each module.
fn names_of_modules<'a>(
    alloc: Global,
    modules: &[Module<'a>],
) -> Result<Vec<ParameterNames<'a>>, NoMemory>
    ensures { IfOk result (λ names. map names_of_params names.items
        ≡ map names_of_module modules.now) }
{
    let mut names = Vec::new(alloc);
    for defined in modules {
        names.push(ParameterNames::of(alloc, &defined.params.items)?)?;
    }
    Ok(names)
}
