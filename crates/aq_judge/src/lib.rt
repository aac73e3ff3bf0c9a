//! The judge of an obligation, over automata: a verdict that is justified, and where it is that the obligation is true,
//! certificates of that.
//!
//! The definitions are in `specs/`: `Certified` says which certificates come with a verdict, and `Refuting` what is
//! known of the run that a refutation shows.
#![tactic(auto)]

mod judged;
mod refute;
#[cfg(test)]
mod tests;
mod verdict;

pub use judged::Judged;
pub use verdict::judge;
