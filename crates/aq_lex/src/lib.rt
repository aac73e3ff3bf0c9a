//! The tokens of a program in a subset of OpenQASM 3.0, with their places; and what readers of other
//! texts share with it: `Place`, `Text`, `Cursor`, the runs of bytes in `scan`, and comments by
//! `slash_front`.
#![tactic(auto)]

mod cursor;
mod fault;
mod front;
mod laws;
mod lexer;
mod list;
mod note;
mod place;
pub mod scan;
#[cfg(test)]
mod tests;
mod text;
mod token;

pub use cursor::Cursor;
pub use fault::LexFault;
pub use front::slash_front;
pub use laws::cuts;
pub use lexer::tokens;
pub use list::Tokens;
pub use note::{NoteParts, note_parts};
pub use place::Place;
pub use text::Text;
pub use token::{Class, Found, Kind, Symbol, Token};
