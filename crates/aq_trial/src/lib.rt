//! The texts of trials: a program of drawn gates that undoes all of them but the first, and its sets.
//!
//! `specs/Trials` says which gates are drawn, and what the texts are.
#![tactic(auto)]

mod draws;
mod gates;
mod texts;

pub use texts::{TrialTexts, trial_texts};

#[cfg(test)]
mod tests;
