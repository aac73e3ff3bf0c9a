ghost use Rattle.aq_world.specs.Prints.{Prints};
ghost use Rattle.aq_world.specs.Pieces.{pieces_text};

use crate::line::{Line, add_piece};
use crate::sink::{Sink, SinkFault, put_text};

/// A part of a line.
#[derive(Clone, Copy, Debug)]
pub enum Piece<'a> {
    /// These bytes.
    Text(&'a [u8]),
    /// A number in decimal digits, without leading zeros.
    Number(u64),
    /// The same with a `-` before a negative number.
    Signed(i128),
    /// A digit `0` or `1` for each bit, in order, or `-` where there is none.
    Bits(&'a [bool]),
    /// The ket of a basis state, as `|0101>`: the index in binary, a digit for each qubit, the first
    /// qubit's in front.
    Ket {
        /// How many digits there are.
        qubits: u32,
        /// The number whose digits they are.
        index: u64,
    },
}

/// Puts the texts of the pieces one after the other. It takes no memory, hands no empty piece to the
/// sink, and puts a line of at most 256 bytes by one call where the sink takes all of it. `Failed` and
/// `Memory` are the sink's own; a front of the text is then put.
pub fn put_pieces<K: Sink>(out: &mut K, pieces: &[Piece<'_>]) -> Result<(), SinkFault>
    ensures { Prints K.meaning out.old out.new result (pieces_text pieces.now) }
{
    let mut line = Line::new();
    for piece in pieces {
        add_piece(out, &mut line, piece)?;
    }
    put_text(out, line.as_slice())
}
