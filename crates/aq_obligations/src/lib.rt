//! What an annotated program owes: its obligations, when one is true, when one is wide, which refutation it has, how
//! many steps are enough for it, and when the program is correct.
//!
//! The definitions are in `specs/`. `Obligations` has what an obligation means, over `Claims`, `Wide`, `Worlds` and
//! `Correct`. `Owing` says which obligations a program has, `Asking` what one means by its set file, and `Enough` how
//! many steps are enough.
#![tactic(auto)]

mod bound;
mod kind;
mod steps;

pub use bound::{BoundCase, Goal, Obligation};
pub use kind::Kind;
pub use steps::{enough_steps, statements_in};
