//! The text of a set file: its tokens and its syntax tree, with their places.
//!
//! `tokens_of_sets` gives the tokens of the one cut of a text, by `specs/Rules` and `specs/Cuts`. `parse_sets` gives
//! the tree of a list of tokens by `specs/SetGrammar`, or its first fault by `specs/Verdict`.
#![tactic(auto)]

mod exprs;
mod fault;
mod front;
mod items;
mod laws;
mod lexeme;
mod lexemes;
mod lexer;
mod list;
mod mark;
mod parse_fault;
mod parser;
mod reader;
mod scalars;
mod scan;
mod terms;
#[cfg(test)]
mod tests;
mod token;
mod tree;
#[cfg(test)]
mod tree_tests;
mod words;

pub use fault::SetLexFault;
pub use laws::{set_cuts, set_trees, short_trees, tree_numbers};
pub use lexer::tokens_of_sets;
pub use list::SetTokens;
pub use parse_fault::SetParseFault;
pub use parser::parse_sets;
pub use token::{SetClass, SetKind, SetSymbol, SetToken};
pub use tree::{
    SetCase, SetCoef, SetCond, SetExpr, SetFactor, SetInt, SetItem, SetPart, SetPower, SetScalar,
    SetTerm, SetTree, SetTurn, SetWord,
};
