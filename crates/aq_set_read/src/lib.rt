//! What a set file means: its sets and claims, or the first fault of its text.
//!
//! `read_sets` reads a whole file. The meaning of a tree is in `specs/Meaning`, what its items mean directly, with no list
//! of expressions, in `specs/Direct`, and what a text says in `specs/Texts`.
#![tactic(auto)]

mod amplitudes;
mod brackets;
mod claims;
mod collector;
mod kets;
mod laws;
mod made;
mod make_exprs;
mod meaning;
#[cfg(test)]
mod meaning_tests;
mod operators;
mod read;
#[cfg(test)]
mod read_tests;
mod set_fault;

pub use aq_set_parse::{SetLexFault, SetParseFault};
pub use aq_sets::{Case, Cond, Expr, NamedClaim, NamedSet, Sets, Term, qubits, qubits_of_all};
pub use laws::{set_files, set_meaning};
pub use read::read_sets;
pub use set_fault::SetFault;
