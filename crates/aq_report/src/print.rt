ghost use Rattle.std.specs.Prelude.{◌≡◌, ◌++◌, [], ◌∷◌, ℕ, List, codes};
ghost use Rattle.std.specs.Fmt.{decimal};
ghost use Rattle.aq_world.specs.Prints.{Prints};
ghost use Rattle.aq_report.specs.Texts.{
  kind_text,
  located,
  state_text,
  ending_text,
  entry_line,
  entry_text,
  entries_text,
  bits_line,
  refutation_text,
  replay_text,
  why_text,
  outcome_text,
  verdict_text,
  summary_text,
  refuted_line,
  newline,
};

use crate::verdict::{Refutation, Verdict, Why};
use aq_obligations::{Goal, Kind};
use aq_plain::{Played, Vector};
use aq_ring::Amp;
use aq_world::{Piece, Sink, SinkFault, put_pieces, put_text};

fn print_located<K: Sink>(out: &mut K, number: u32, word: &[u8], line: u32) -> Result<(), SinkFault>
    ensures { Prints K.meaning out.old out.new result (decimal number ++ located word.now line) }
{
    put_pieces(
        out,
        &[
            Piece::Number(u64::from(number)),
            Piece::Text(word),
            Piece::Number(u64::from(line)),
            Piece::Text(b": "),
        ],
    )
}

fn print_head<K: Sink>(out: &mut K, number: u32, kind: Kind, line: u32) -> Result<(), SinkFault>
    ensures { Prints K.meaning out.old out.new result (decimal number ++ kind_text kind line) }
{
    match kind {
        Kind::Post => put_pieces(
            out,
            &[Piece::Number(u64::from(number)), Piece::Text(b" post: ")],
        ),
        Kind::Assert => print_located(out, number, b" assert line ", line),
        Kind::Entry => print_located(out, number, b" entry line ", line),
        Kind::Keep => print_located(out, number, b" keep line ", line),
    }
}

fn print_entry<K: Sink>(
    out: &mut K,
    label: &[u8],
    qubits: u32,
    index: usize,
    amp: Amp,
) -> Result<(), SinkFault>
    ensures { Prints K.meaning out.old out.new result (entry_line label.now qubits index amp) }
{
    let [a, b, c, d] = amp.coefs();
    put_pieces(
        out,
        &[
            Piece::Text(label),
            Piece::Ket {
                qubits,
                index: index as u64,
            },
            Piece::Text(b" "),
            Piece::Text(b"("),
            Piece::Signed(a),
            Piece::Text(b","),
            Piece::Signed(b),
            Piece::Text(b","),
            Piece::Signed(c),
            Piece::Text(b","),
            Piece::Signed(d),
            Piece::Text(b")/"),
            Piece::Number(u64::from(amp.power())),
            Piece::Text(b"\n"),
        ],
    )
}

/// A line for an entry, if it isn't zero.
fn print_nonzero<K: Sink>(
    out: &mut K,
    label: &[u8],
    qubits: u32,
    index: usize,
    amp: &Amp,
) -> Result<(), SinkFault>
    ensures { Prints K.meaning out.old out.new result (entry_text label.now qubits index amp.now) }
{
    if amp.is_zero() {
        return Ok(());
    }
    print_entry(out, label, qubits, index, *amp)
}

/// A line for each entry that isn't zero.
fn print_entries<K: Sink>(out: &mut K, label: &[u8], vector: &Vector) -> Result<(), SinkFault>
    ensures { Prints K.meaning out.old out.new result (entries_text label.now vector.now) }
{
    let qubits = vector.qubits();
    for (index, amp) in vector.amps().iter().enumerate() {
        print_nonzero(out, label, qubits, index, amp)?;
    }
    Ok(())
}

#[tactic(auto, unfolding(crate::specs::Texts::bits_line))]
fn print_bits<'a, K: Sink>(out: &mut K, label: &'a [u8], bits: &'a [bool]) -> Result<(), SinkFault>
    ensures { Prints K.meaning out.old out.new result (bits_line label.entry.now bits.entry.now) }
{
    put_pieces(
        out,
        &[Piece::Text(label), Piece::Bits(bits), Piece::Text(b"\n")],
    )
}

#[tactic(auto, unfolding(crate::specs::Texts::state_text))]
fn print_start<K: Sink>(out: &mut K, refutation: &Refutation) -> Result<(), SinkFault>
    ensures { Prints K.meaning out.old out.new result
        (state_text (codes "  bits ") (codes "  state ") refutation.now.bits refutation.now.state) }
{
    print_bits(out, b"  bits ", refutation.bits.as_slice())?;
    print_entries(out, b"  state ", &refutation.state)
}

#[tactic(auto, unfolding(crate::specs::Texts::state_text))]
fn print_end<K: Sink>(out: &mut K, refutation: &Refutation) -> Result<(), SinkFault>
    ensures { Prints K.meaning out.old out.new result
        (state_text (codes "  end bits ") (codes "  end ") refutation.now.end_bits refutation.now.end) }
{
    print_bits(out, b"  end bits ", refutation.end_bits.as_slice())?;
    print_entries(out, b"  end ", &refutation.end)
}

#[tactic(auto, unfolding(crate::specs::Texts::ending_text))]
fn print_ending<K: Sink>(out: &mut K, refutation: &Refutation) -> Result<(), SinkFault>
    ensures { Prints K.meaning out.old out.new result (ending_text refutation.now) }
{
    print_bits(out, b"  outcomes ", refutation.outcomes.as_slice())?;
    print_end(out, refutation)
}

#[tactic(auto, unfolding(crate::specs::Texts::refutation_text))]
fn print_refutation<K: Sink>(out: &mut K, refutation: &Refutation) -> Result<(), SinkFault>
    ensures { Prints K.meaning out.old out.new result (refutation_text refutation.now) }
{
    print_start(out, refutation)?;
    print_ending(out, refutation)
}

#[tactic(auto, unfolding(crate::specs::Texts::refuted_line))]
fn print_refuted_line<K: Sink>(out: &mut K) -> Result<(), SinkFault>
    ensures { Prints K.meaning out.old out.new result refuted_line }
{
    put_text(out, b"refuted\n")
}

fn print_refuted<K: Sink>(out: &mut K, refutation: &Refutation) -> Result<(), SinkFault>
    ensures { Prints K.meaning out.old out.new result (refuted_line ++ refutation_text refutation.now) }
{
    print_refuted_line(out)?;
    print_refutation(out, refutation)
}

fn print_gave_up<K: Sink>(out: &mut K, why: Why) -> Result<(), SinkFault>
    ensures { Prints K.meaning out.old out.new result (codes "gave up " ++ (why_text why ++ newline)) }
{
    match why {
        Why::Width => put_text(out, b"gave up width\n"),
        Why::Steps => put_text(out, b"gave up steps\n"),
        Why::Memory => put_text(out, b"gave up memory\n"),
    }
}

fn print_outcome<K: Sink>(out: &mut K, verdict: &Verdict) -> Result<(), SinkFault>
    ensures { Prints K.meaning out.old out.new result (outcome_text verdict.now) }
{
    match verdict {
        Verdict::Verified => put_text(out, b"verified\n"),
        Verdict::GaveUp(why) => print_gave_up(out, *why),
        Verdict::Refuted(refutation) => print_refuted(out, refutation),
    }
}

/// Prints the lines of a verdict on obligation number `number`, which has this goal. A postcondition prints no line of
/// the program.
///
/// The first line is `1 post: `, `2 assert line 3: `, `3 entry line 7: ` or `4 keep line 7: ` with `verified`,
/// `refuted`, `gave up width`, `gave up steps` or `gave up memory` behind it. Behind `refuted` come lines that begin
/// with two blanks: `bits` with the bits at the start, a line `state` for each entry of the vector there that isn't
/// zero, `outcomes`, `end bits`, and a line `end` for each such entry at the end. No bits are `-`, and an entry is
/// `|01> (1,0,0,-2)/3`: its ket, its coefficients, and the power of `sqrt(2)` that divides them.
///
/// `Failed` and `Memory` are the sink's own, and what was put is then a front of these lines.
pub fn print_verdict<K: Sink>(
    out: &mut K,
    number: u32,
    goal: &Goal,
    verdict: &Verdict,
) -> Result<(), SinkFault>
    ensures { Prints K.meaning out.old out.new result (verdict_text number goal.now verdict.now) }
{
    print_head(out, number, goal.kind, goal.line)?;
    print_outcome(out, verdict)
}

/// Prints the counts of verdicts as the line `verified 3, refuted 1, gave up 0`.
///
/// `Failed` and `Memory` are the sink's own, and what was put is then a front of the line.
pub fn print_summary<K: Sink>(
    out: &mut K,
    verified: u32,
    refuted: u32,
    gave_up: u32,
) -> Result<(), SinkFault>
    ensures { Prints K.meaning out.old out.new result (summary_text verified refuted gave_up) }
{
    put_pieces(
        out,
        &[
            Piece::Text(b"verified "),
            Piece::Number(u64::from(verified)),
            Piece::Text(b", refuted "),
            Piece::Number(u64::from(refuted)),
            Piece::Text(b", gave up "),
            Piece::Number(u64::from(gave_up)),
            Piece::Text(b"\n"),
        ],
    )
}

/// Prints the end of a replayed run: the line `bits 01` with its bits, and a line `end |01> (1,0,0,-2)/3` for each
/// entry of its vector that isn't zero. No bits are `-`.
///
/// `Failed` and `Memory` are the sink's own, and what was put is then a front of these lines.
#[tactic(auto, unfolding(crate::specs::Texts::state_text))]
pub fn print_replay<K: Sink>(out: &mut K, end: &Played) -> Result<(), SinkFault>
    ensures { Prints K.meaning out.old out.new result (replay_text end.now.bits end.now.vector) }
{
    print_bits(out, b"bits ", end.bits.as_slice())?;
    print_entries(out, b"end ", &end.vector)
}
