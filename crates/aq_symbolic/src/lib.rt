//! Worlds whose states are kept as automata, played through a fragment.
//!
//! `specs/Worlds` says which worlds of the definitions a kept one is, `specs/Moves` what is played, and `specs/Playing`
//! what comes of it.
#![tactic(auto)]

#[cfg(test)]
mod drawn;
mod fragment;
mod kept;
mod memos;
mod several;
mod spread;
mod stock;
#[cfg(test)]
mod tests;

pub use fragment::{go, split};
pub use kept::World;
pub use memos::Memos;
pub use several::{alive, measure, pay, play_gate, reset};
