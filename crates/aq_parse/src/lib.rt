//! The syntax tree of a program, by the grammar of OpenQASM 3.0 cut to the statements that are taken.
#![tactic(auto)]

mod fault;
mod laws;
mod lexeme;
mod lexemes;
mod mark;
mod parser;
mod parts;
mod reader;
mod simple;
mod statements;
#[cfg(test)]
mod tests;
mod tree;
mod words;

pub use fault::ParseFault;
pub use laws::programs;
pub use parser::parse;
pub use tree::{Angle, Item, Node, Note, Spot, Test, Tree, Word};
