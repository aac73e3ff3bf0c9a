//! Programs from their syntax trees: names, broadcasting, angles, annotations and limits.
#![tactic(auto)]

mod angle;
mod calls;
mod elaborator;
mod fault;
mod gates;
mod laws;
mod notes;
mod program;
mod recipe;
mod scope;
mod simple;
mod statements;
#[cfg(test)]
mod tests;

pub use elaborator::elaborate;
pub use fault::ElabFault;
pub use laws::{elaborations, program_texts};
pub use program::{ProgramFault, read_program};
