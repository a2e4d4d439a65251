//! The blocks and definitions of a program by number, the newest definition of a name, and the arguments of a call by
//! parameter.
#![tactic(auto)]

mod assigned;
mod blocks;
mod index;
mod list;
mod lookup;
mod name_table;
mod parameters;
mod so_far;
mod text;
mod walk;

pub use blocks::Blocks;
pub use list::NameList;
pub use lookup::ParameterNames;
pub use name_table::NameTable;
pub use parameters::{
    CallArguments, Destination, Matching, Names, SpecialArgument, arguments, parameter_name,
    positional_after,
};
pub use so_far::ArgumentsSoFar;
pub use text::{Assignment, BlockText, Definitions, Function, LocalDefinitions, Module};
