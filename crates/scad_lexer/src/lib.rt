//! The lexer of the modelling language: the tokens of a source, each as long as possible, or its first fault.
#![tactic(auto)]

mod class;
mod meaning;
mod scan;
mod token;
mod tokens;
mod word;

pub use token::{Reserved, Symbol, Token, TokenKind};
pub use tokens::{lex, one_outcome, some_outcome};
