//! The worlds of an obligation, played over plain lists of vectors.
//!
//! `specs/Playing` says which world of the definitions one is, and `specs/Starting` what is done at the start and the
//! end of a case.
#![tactic(auto)]

mod case;
mod decide;
mod several;
mod spread;
mod start;
mod stop;
#[cfg(test)]
mod tests;
mod vectors;
mod world;

pub use case::worlds_of_case;
pub use several::{alive, assume, measure, play_gate, reset, split_world};
pub use spread::play;
pub use stop::Stop;
pub use world::PlainWorld;
