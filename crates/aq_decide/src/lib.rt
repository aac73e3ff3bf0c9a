//! The decision of an obligation, over automata: whether each world of its assumption has vectors alone that are zero
//! or nonzero multiples of a vector of its goal.
//!
//! The definitions are in `specs/`: `Kept` says which world of the definitions a kept one is, `Goals` which automata a
//! world is compared with, and `Deciding` what is decided.
#![tactic(auto)]

mod building;
mod case;
mod certified;
mod decision;
mod goals;
mod judge;
mod known;
mod reading;
mod split;
mod spread;
mod start;
mod verdict;

pub use building::automata;
pub use case::worlds_of_case;
pub use decision::Decision;
pub use judge::judge_worlds;
pub use spread::all_worlds;
pub use verdict::decide;
