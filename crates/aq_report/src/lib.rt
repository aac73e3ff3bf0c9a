//! Verdicts, when they are justified, and the report of them; and what is refused, with its lines.
#![tactic(auto)]

mod laws;
mod print;
mod refusal;
#[cfg(test)]
mod tests;
mod verdict;

pub use laws::{reports, verdicts};
pub use print::{print_replay, print_summary, print_verdict};
pub use refusal::{Refusal, print_refusal};
pub use verdict::{Refutation, Verdict, Why};
