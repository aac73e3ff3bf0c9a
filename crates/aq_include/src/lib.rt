//! The search that decides whether each nonzero vector of an automaton has a proportional one in others.
//! docs/AUTOMATA.md tells how it goes.
#![tactic(auto)]

mod end;
mod hopeless;
mod inclusion;
mod own;
mod pay;
mod places;
mod search;
mod step;
mod table;
#[cfg(test)]
mod tests;

pub use inclusion::{Answer, include};
