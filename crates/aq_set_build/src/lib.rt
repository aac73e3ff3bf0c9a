//! Level-synchronized tree automata of the expressions of set files.
#![tactic(auto)]

mod basis;
mod bracket;
mod building;
mod built;
pub mod laws;
mod places;
mod powers;
mod scaling;
mod tensors;
#[cfg(test)]
mod tests;
mod unions;

pub use basis::all;
pub use bracket::kets;
pub use building::{build, build_with};
pub use built::Built;
pub use places::place_of_word;
pub use powers::power;
pub use tensors::tensor;
