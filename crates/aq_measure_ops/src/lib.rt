//! Operations on level-synchronized tree automata that measure and join them.
#![tactic(auto)]

mod blank;
mod joining;
mod padding;
mod projection;
#[cfg(test)]
mod tests;

pub use joining::{Joined, union, union_of};
pub use padding::pad;
pub use projection::{Projecting, project, project_with};
