//! Plain state vectors: what gates and measurements do to them, the vectors that an expression lists, and one run
//! played by hand.
#![tactic(auto)]

mod apply;
mod listing;
mod near;
mod numerator;
mod parts;
mod places;
mod player;
mod project;
mod replay_stop;
mod replaying;
mod row;
mod rows;
mod small;
mod stop;
mod tensors;
#[cfg(test)]
mod tests;
mod vector;

pub use apply::apply_plain;
pub use listing::{vectors, vectors_by_sizes};
pub use project::project_plain;
pub use replay_stop::{Played, ReplayStop};
pub use replaying::replay;
pub use row::WideSum;
pub use stop::VectorStop;
pub use vector::Vector;
