//! Programs of gates, measurements, branches and loops, and what their runs are.
#![tactic(auto)]

mod copy;
mod cuts;
mod gate;
pub mod laws;
mod program;
mod stmt;
mod table;

pub use copy::copy_body;
pub use cuts::{has_cut, has_loop};
pub use gate::{Entry, Gate, Matrix};
pub use program::{BitRegister, Program};
pub use stmt::{Guard, Stmt};
pub use table::{Rows, gate_named};
