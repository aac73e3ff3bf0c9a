//! What every crate of the checker shares: its limits, and computations with checks.
//!
//! Each limit is a constant here, and `specs/Limits` gives it the name that definitions use. `specs/Checks` has
//! computations that go on or stop with the first fault, and says what it is for a function of the program to give
//! one.
#![tactic(auto)]

mod limits;

pub use limits::{
    MOST_ANGLE_FACTOR, MOST_BITS, MOST_FRAGMENT_STATEMENTS, MOST_NAMES, MOST_NESTED, MOST_NODES,
    MOST_OBLIGATIONS, MOST_PLAIN_QUBITS, MOST_PROGRAM_BYTES, MOST_QUBITS, MOST_SETS_BYTES,
    MOST_STATEMENTS, MOST_STEPS, MOST_STEPS_ASKED,
};
