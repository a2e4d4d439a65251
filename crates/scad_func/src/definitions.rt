//! Finds the function or module that a name stands for, from the current scope outward.

ghost use Rattle.std.specs.Prelude.{◌≡◌, ◌<◌, IfSome};
ghost use Rattle.std.specs.List.{Contains};
ghost use Rattle.scad_ast.specs.StatementView.{params_of, body_of};
ghost use Rattle.scad_definitions.specs.Arguments.{parameter_names};
ghost use Rattle.scad_definitions.specs.ArgumentsView.{names_in};
ghost use Rattle.scad_scope.specs.Table.{rows_of};
ghost use Rattle.scad_func.specs.Meaning.{visible_function, visible_module};
ghost use Rattle.scad_func.specs.View.{IsFunctionFound, IsModuleFound, table_in};
ghost use Rattle.scad_func.specs.Definitions.{IsBlockOf, IsWholeTable};
ghost use Rattle.scad_func.specs.Evaluations.{env_here, scopes_there, expression_context_here};

use crate::evaluation::Evaluation;
use scad_scope::{Function, Module, Names};
use text_place::Place;

impl<'a> Evaluation<'a, '_> {
    /// The function that a name stands for, the newest of its name from the scope outward, the
    /// number of the scope in which it stands, and the names of its parameters. None where no scope outward has one.
    pub fn function(&self, name: &[u8]) -> Option<(Function<'a>, u32, Names<'a>)>
        ensures found { IsFunctionFound self.now.source.now (rows_of self.now.scopes.now)
            (visible_function (expression_context_here self.now).env name.now) result }
        ensures there { IfSome result (λ found. found.1 < scopes_there self.now) }
        ensures among { IfSome result (λ found.
            Contains self.now.source.now.blocks.functions.items found.0) }
        ensures named { IfSome result (λ found.
            names_in found.2 ≡ parameter_names (params_of found.0.params.now)) }
    {
        // The fault is dropped: a name that the source doesn't define may still be a built-in function's.
        let nowhere = Place { line: 1, column: 1 };
        let source = self.source;
        match self.scopes.function(self.scope, name, nowhere) {
            Ok(found) => {
                let number = found.definition;
                let names = source.blocks.function_names(number);
                Some((source.blocks.function(number), found.scope, names))
            }
            Err(_) => None,
        }
    }

    /// The module that a name stands for, the newest of its name from the scope outward, with its body's block,
    /// the number of the scope in which it stands, and the names of its parameters. None where no scope outward has one.
    pub fn module(&self, name: &[u8]) -> Option<(Module<'a>, u32, Names<'a>)>
        ensures found { IsModuleFound self.now.source.now (rows_of self.now.scopes.now)
            (visible_module (env_here self.now) name.now) result }
        ensures there { IfSome result (λ found. found.1 < scopes_there self.now) }
        ensures body { IsWholeTable (table_in self.now.source.now) →
            IfSome result (λ found. IsBlockOf (table_in self.now.source.now) found.0.block
            (body_of found.0.body.now)) }
        ensures named { IfSome result (λ found.
            names_in found.2 ≡ parameter_names (params_of found.0.params.now)) }
    {
        // The fault is dropped: a name that the source doesn't define may still be a built-in module's.
        let nowhere = Place { line: 1, column: 1 };
        let source = self.source;
        match self.scopes.module(self.scope, name, nowhere) {
            Ok(found) => {
                let number = found.definition;
                let names = source.blocks.module_names(number);
                Some((source.blocks.module(number), found.scope, names))
            }
            Err(_) => None,
        }
    }
}
