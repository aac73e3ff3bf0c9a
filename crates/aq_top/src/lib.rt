//! The top call: it does what the words say, over a shelf of files and a sink for the output. Each command has a file
//! here and one in `specs/`.
#![tactic(auto)]

mod check;
mod honest;
mod judging;
mod outcomes;
mod read;
mod replay;
mod say;
mod state;
mod status;
mod top;
mod trial;

pub use honest::run_honest;
pub use say::say_memory;
pub use status::Status;
pub use top::run;

#[cfg(test)]
mod tests;
