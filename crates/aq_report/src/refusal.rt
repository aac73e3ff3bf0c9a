//! What is refused by name, and what could not be had, with their lines.
ghost use Rattle.std.specs.Prelude.{◌++◌, codes};
ghost use Rattle.aq_world.specs.Prints.{Prints};
ghost use Rattle.aq_report.specs.Refusals.{
  program_line,
  sets_line,
  claim_line,
  set_line,
  replay_line,
  read_fault_line,
  refusal_text,
};

use aq_lex::{Place, Text};
use aq_world::{Piece, Sink, SinkFault, put_pieces, put_text};

/// What is refused by name, and what could not be had.
#[derive(Debug, Drop)]
pub enum Refusal<'a> {
    /// The program's text has this fault.
    Program {
        /// Where it stands.
        at: Place,
        /// Its name.
        name: &'a str,
    },
    /// What begins here in the program's text is OpenQASM that isn't taken.
    NotTaken {
        /// Where it stands.
        at: Place,
        /// Its first token.
        word: Text,
    },
    /// The program's file is too long.
    ProgramTooLong,
    /// The sets' text has this fault.
    Sets {
        /// Where it stands.
        at: Place,
        /// Its name.
        name: &'a str,
    },
    /// The sets' file is too long.
    SetsTooLong,
    /// A claim can't be judged of the program.
    Claim {
        /// The claim's name.
        claim: Text,
        /// The fault's name.
        name: &'a str,
    },
    /// The program owes too many obligations.
    TooManyObligations,
    /// A state can't be had of the set.
    Set {
        /// The set's name.
        set: &'a str,
        /// The fault's name.
        name: &'a str,
    },
    /// A run isn't replayed to its end.
    Replay {
        /// The fault's name.
        name: &'a str,
    },
    /// This file could not be read.
    ReadFault {
        /// Its name.
        file: &'a str,
    },
    /// Memory ran out.
    OutOfMemory,
}

/// A line of the program: its place, and the fault's name with the word that belongs to it.
#[tactic(auto, unfolding(crate::specs::Refusals::program_line))]
fn print_program<'a, K: Sink>(
    out: &mut K,
    at: Place,
    name: &'a [u8],
    word: &'a [u8],
) -> Result<(), SinkFault>
    ensures { Prints K.meaning out.old out.new result (program_line at (name.entry.now ++ word.entry.now)) }
{
    put_pieces(
        out,
        &[
            Piece::Text(b"refused: program "),
            Piece::Number(u64::from(at.line)),
            Piece::Text(b":"),
            Piece::Number(u64::from(at.column)),
            Piece::Text(b": "),
            Piece::Text(name),
            Piece::Text(word),
            Piece::Text(b"\n"),
        ],
    )
}

/// A line of the sets: its place, and the fault's name.
#[tactic(auto, unfolding(crate::specs::Refusals::sets_line))]
fn print_sets<K: Sink>(out: &mut K, at: Place, name: &[u8]) -> Result<(), SinkFault>
    ensures { Prints K.meaning out.old out.new result (sets_line at name.now) }
{
    put_pieces(
        out,
        &[
            Piece::Text(b"refused: sets "),
            Piece::Number(u64::from(at.line)),
            Piece::Text(b":"),
            Piece::Number(u64::from(at.column)),
            Piece::Text(b": "),
            Piece::Text(name),
            Piece::Text(b"\n"),
        ],
    )
}

/// A line of a claim: its name, and the fault's.
#[tactic(auto, unfolding(crate::specs::Refusals::claim_line))]
fn print_claim<'a, K: Sink>(out: &mut K, claim: &'a [u8], name: &'a [u8]) -> Result<(), SinkFault>
    ensures { Prints K.meaning out.old out.new result (claim_line claim.entry.now name.entry.now) }
{
    put_pieces(
        out,
        &[
            Piece::Text(b"refused: claim "),
            Piece::Text(claim),
            Piece::Text(b": "),
            Piece::Text(name),
            Piece::Text(b"\n"),
        ],
    )
}

/// A line of a set: its name, and the fault's.
#[tactic(auto, unfolding(crate::specs::Refusals::set_line))]
fn print_set<'a, K: Sink>(out: &mut K, set: &'a [u8], name: &'a [u8]) -> Result<(), SinkFault>
    ensures { Prints K.meaning out.old out.new result (set_line set.entry.now name.entry.now) }
{
    put_pieces(
        out,
        &[
            Piece::Text(b"refused: set "),
            Piece::Text(set),
            Piece::Text(b": "),
            Piece::Text(name),
            Piece::Text(b"\n"),
        ],
    )
}

/// The line of a run that isn't replayed: the fault's name.
#[tactic(auto, unfolding(crate::specs::Refusals::replay_line))]
fn print_replay_refusal<K: Sink>(out: &mut K, name: &[u8]) -> Result<(), SinkFault>
    ensures { Prints K.meaning out.old out.new result (replay_line name.now) }
{
    put_pieces(
        out,
        &[
            Piece::Text(b"refused: replay: "),
            Piece::Text(name),
            Piece::Text(b"\n"),
        ],
    )
}

/// The line of a file that could not be read.
#[tactic(auto, unfolding(crate::specs::Refusals::read_fault_line))]
fn print_read_fault<K: Sink>(out: &mut K, file: &[u8]) -> Result<(), SinkFault>
    ensures { Prints K.meaning out.old out.new result (read_fault_line file.now) }
{
    put_pieces(
        out,
        &[
            Piece::Text(b"read fault: "),
            Piece::Text(file),
            Piece::Text(b"\n"),
        ],
    )
}

/// Prints the line of a refusal.
///
/// `Failed` and `Memory` are the sink's own, and what was put is then a front of the line.
#[tactic(auto, unfolding(crate::specs::Refusals::refusal_text))]
pub fn print_refusal<K: Sink>(out: &mut K, refusal: &Refusal<'_>) -> Result<(), SinkFault>
    ensures { Prints K.meaning out.old out.new result (refusal_text refusal.now) }
{
    match refusal {
        Refusal::Program { at, name } => print_program(out, *at, name.as_bytes(), b""),
        Refusal::NotTaken { at, word } => print_program(out, *at, b"NotTaken ", word.as_slice()),
        Refusal::ProgramTooLong => put_text(out, b"refused: program: TooLong\n"),
        Refusal::Sets { at, name } => print_sets(out, *at, name.as_bytes()),
        Refusal::SetsTooLong => put_text(out, b"refused: sets: TooLong\n"),
        Refusal::Claim { claim, name } => print_claim(out, claim.as_slice(), name.as_bytes()),
        Refusal::TooManyObligations => put_text(out, b"refused: TooManyObligations\n"),
        Refusal::Set { set, name } => print_set(out, set.as_bytes(), name.as_bytes()),
        Refusal::Replay { name } => print_replay_refusal(out, name.as_bytes()),
        Refusal::ReadFault { file } => print_read_fault(out, file.as_bytes()),
        Refusal::OutOfMemory => put_text(out, b"out of memory\n"),
    }
}
