//! A line that is put together before it is put: a sink gets few pieces of many bytes in place of
//! many pieces of few. It takes no memory.
ghost use Rattle.std.specs.Prelude.{◌≡◌, ◌+◌, ◌<◌, ◌++◌, ◌∷◌, [], OnOk, map};
ghost use Rattle.std.specs.Fmt.{decimal, signed_decimal};
ghost use Rattle.std.specs.Int.{bit_at};
ghost use Rattle.arrayvec.specs.ArrayVec.{array_vec_len};
ghost use Rattle.aq_world.specs.Lines.{Adds};
ghost use Rattle.aq_world.specs.Pieces.{bit_digit, bits_text, binary_digits, ket_text, piece_text};

use crate::pieces::Piece;
use crate::sink::{Sink, SinkFault, put_text};
use arrayvec::ArrayVec;

/// The bytes that were added and not yet put.
pub(crate) type Line = ArrayVec<u8, 256>;

/// Puts what a full line holds.
fn make_room<K: Sink>(out: &mut K, line: &mut Line) -> Result<(), SinkFault>
    ensures adds { Adds K.meaning out.old out.new line.old.items line.new.items result [] }
    ensures room { OnOk result (array_vec_len line.new < 256) }
{
    if line.is_full() {
        put_text(out, line.as_slice())?;
        line.clear();
    }
    Ok(())
}

fn add_byte<K: Sink>(out: &mut K, line: &mut Line, byte: u8) -> Result<(), SinkFault>
    ensures { Adds K.meaning out.old out.new line.old.items line.new.items result (byte ∷ []) }
{
    make_room(out, line)?;
    line.push(byte);
    Ok(())
}

fn add_text<K: Sink>(out: &mut K, line: &mut Line, text: &[u8]) -> Result<(), SinkFault>
    ensures { Adds K.meaning out.old out.new line.old.items line.new.items result text.now }
{
    for byte in text {
        add_byte(out, line, *byte)?;
    }
    Ok(())
}

fn add_number<K: Sink>(out: &mut K, line: &mut Line, number: u128) -> Result<(), SinkFault>
    ensures { Adds K.meaning out.old out.new line.old.items line.new.items result (decimal number) }
{
    if number < 10 {
        add_byte(out, line, b'0' + number as u8)
    } else {
        add_number(out, line, number / 10)?;
        add_byte(out, line, b'0' + (number % 10) as u8)
    }
}

fn add_signed<K: Sink>(out: &mut K, line: &mut Line, number: i128) -> Result<(), SinkFault>
    ensures { Adds K.meaning out.old out.new line.old.items line.new.items result (signed_decimal number) }
{
    let size = number.unsigned_abs();
    if number < 0 {
        add_byte(out, line, b'-')?;
        add_number(out, line, size)
    } else {
        add_number(out, line, size)
    }
}

fn bit_digit(bit: bool) -> u8
    ensures { result ≡ bit_digit bit }
{
    if bit { b'1' } else { b'0' }
}

fn add_digits<K: Sink>(out: &mut K, line: &mut Line, bits: &[bool]) -> Result<(), SinkFault>
    ensures { Adds K.meaning out.old out.new line.old.items line.new.items result (map bit_digit bits.now) }
{
    for bit in bits {
        add_byte(out, line, bit_digit(*bit))?;
    }
    Ok(())
}

fn add_bits<K: Sink>(out: &mut K, line: &mut Line, bits: &[bool]) -> Result<(), SinkFault>
    ensures { Adds K.meaning out.old out.new line.old.items line.new.items result (bits_text bits.now) }
{
    match bits {
        [] => add_byte(out, line, b'-'),
        _ => add_digits(out, line, bits),
    }
}

/// The binary digit of a number at a place, counted from 0 at the weight 1.
fn binary_digit(number: u64, place: u32) -> u8
    ensures { result ≡ 48 + bit_at number place }
{
    if place < 64 {
        b'0' + ((number >> place) % 2) as u8
    } else {
        b'0'
    }
}

fn add_binary<K: Sink>(
    out: &mut K,
    line: &mut Line,
    places: u32,
    number: u64,
) -> Result<(), SinkFault>
    ensures { Adds K.meaning out.old out.new line.old.items line.new.items result (binary_digits places number) }
{
    for place in (0..places).rev() {
        add_byte(out, line, binary_digit(number, place))?;
    }
    Ok(())
}

fn add_ket<K: Sink>(out: &mut K, line: &mut Line, qubits: u32, index: u64) -> Result<(), SinkFault>
    ensures { Adds K.meaning out.old out.new line.old.items line.new.items result (ket_text qubits index) }
{
    add_byte(out, line, b'|')?;
    add_binary(out, line, qubits, index)?;
    add_byte(out, line, b'>')
}

/// Adds the text of a piece to the line.
pub(crate) fn add_piece<K: Sink>(
    out: &mut K,
    line: &mut Line,
    piece: &Piece<'_>,
) -> Result<(), SinkFault>
    ensures { Adds K.meaning out.old out.new line.old.items line.new.items result (piece_text piece.now) }
{
    match piece {
        Piece::Text(text) => add_text(out, line, text),
        Piece::Number(number) => add_number(out, line, u128::from(*number)),
        Piece::Signed(number) => add_signed(out, line, *number),
        Piece::Bits(bits) => add_bits(out, line, bits),
        Piece::Ket { qubits, index } => add_ket(out, line, *qubits, *index),
    }
}
