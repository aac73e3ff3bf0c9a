//! Certificates of inclusion, and what they show. docs/AUTOMATA.md tells what they are.
#![tactic(auto)]

mod cert;
mod copied;
mod index;
pub mod laws;
mod placed;

pub use cert::{Cert, Edge, End, Macro, Rel};
pub use placed::with_places;
