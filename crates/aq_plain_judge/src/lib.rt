//! The judge of an obligation, over plain lists of vectors: whether each world of its assumption has vectors alone that
//! are zero or nonzero multiples of a vector of its goal.
//!
//! The definitions are in `specs/`: `Listing` has the cases with their vectors, `Finding` what is found of a vector and
//! of a world, and `Refuting` what is shown of the first world that has another vector.
#![tactic(auto)]

mod compare;
mod find;
mod listing;
mod refute;
#[cfg(test)]
mod tests;
mod verdict;
mod worlds;

pub use verdict::{judge, judge_by_sizes};
