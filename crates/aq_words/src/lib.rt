//! A command line: the first word names a command, and one simple command of `clap` reads the words of each.
//!
//! `specs/Parsers` has these commands as `clap` sees them, `specs/Entries` what it finds in words, and `specs/Commands`
//! what the words of a command line ask for.
#![tactic(auto)]

mod arguments;
mod command;
mod entries;
mod parsers;

pub use arguments::MOST_TRIAL;
pub use command::{CheckWords, Command, ReplayWords, WordsFault, read_words};

#[cfg(test)]
mod tests;
