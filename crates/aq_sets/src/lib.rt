//! Named sets of states and claims: their types, the vectors that an expression lists, and how large it is.
//!
//! The definitions are in `specs/`: `Vectors` lists what an expression stands for, `Sizes` has its qubits, shape,
//! words, nodes and the place to which a word leads, and `Valid` says when sets are well put together.
#![tactic(auto)]

pub mod laws;
mod qubit_counts;
mod sets;
mod sizes;

pub use qubit_counts::{qubits, qubits_of_all};
pub use sets::{Case, Cond, Expr, NamedClaim, NamedSet, Sets, Term};
pub use sizes::{Size, capped_product, capped_sum, expr_sizes, sizes_of};
