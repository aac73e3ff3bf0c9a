//! What a program owes between the claims of a set file: its obligations in order.
//!
//! `specs/Asking` has which claims are asked and how the names of their bits are looked up, `specs/Made` which
//! obligations these and the program make, and how many there may be.
#![tactic(auto)]

mod asked;
mod bind;
mod counting;
mod making;
mod owe;
mod part;
mod place;
#[cfg(test)]
mod tests;

pub use asked::{AskedClaims, ObligationFault};
pub use bind::ask;
pub use making::{count, make};
