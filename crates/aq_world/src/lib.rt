//! The outside: a shelf of files and a sink for what is printed, as traits whose contracts say what is
//! known of files and output, with the files and the standard output of the runtime, and with files
//! and output in memory. Printing goes by `put_pieces`.
#![tactic(auto)]

mod file_shelf;
mod honest;
mod line;
mod memory;
mod out_sink;
mod pieces;
mod reading;
mod shelf;
mod sink;
#[cfg(test)]
mod tests;

pub use file_shelf::FileShelf;
pub use honest::{HonestShelf, HonestSink, Named};
pub use memory::{MemoryShelf, MemorySink};
pub use out_sink::OutSink;
pub use pieces::{Piece, put_pieces};
pub use shelf::{KeepFault, ReadFault, Shelf};
pub use sink::{Sink, SinkFault, put_text};
