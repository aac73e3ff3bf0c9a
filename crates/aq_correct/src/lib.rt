//! What obligations come to: the worlds of one decide it, and a program is correct where all of its obligations are
//! true.
//!
//! The statements are in `specs/`: `WorldLaws` of the worlds of one obligation, and `OwingLaws` of those of a program.
#![tactic(auto)]

pub mod laws;
