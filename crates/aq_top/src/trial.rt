//! The command `trial N`.
ghost use Rattle.std.specs.Prelude.{◌≡◌, ◌≤◌, All, IfErr, IfOk, List};
ghost use Rattle.aq_prog.specs.Programs.{IsValidProgram};
ghost use Rattle.aq_sets.specs.Valid.{IsValidSets};
ghost use Rattle.aq_elab.specs.Texts.{SaysProgram};
ghost use Rattle.aq_set_read.specs.Texts.{SaysSets};
ghost use Rattle.aq_obligations.specs.Bound.{IsBoundObligation};
ghost use Rattle.aq_report.specs.declared.verdict.Verdict.{Verdict as VerdictValue};
ghost use Rattle.aq_world.specs.Prints.{Prints};
ghost use Rattle.aq_words.specs.Parsers.{most_trial};
ghost use Rattle.aq_top.specs.Ends.{Ends, IsText};
ghost use Rattle.aq_top.specs.Judging.{IsTally, verdicts_status};
ghost use Rattle.aq_top.specs.Trial.{
  OwesBetween,
  ProgramTextCause,
  SetsTextCause,
  TextsCause,
  TrialCause,
  TrialEnd,
  line_text,
  trial_line,
  trial_program,
  trial_sets,
};

use crate::check::refused_obligations;
use crate::judging::{Loaded, Tally, count_verdicts, tally_status};
use crate::read::{refused_program, refused_sets};
use crate::say::{say_refusal, status_after};
use crate::status::Status;
use aq_base::{MOST_PROGRAM_BYTES, MOST_SETS_BYTES, MOST_STEPS};
use aq_correct::laws::worlds;
use aq_elab::read_program;
use aq_owing::make;
use aq_prog::Program;
use aq_report::Refusal;
use aq_set_read::read_sets;
use aq_sets::Sets;
use aq_trial::{TrialTexts, trial_texts};
use aq_world::{Piece, Sink, SinkFault, put_pieces};
use std::alloc::Global;

/// The program that a text says.
fn program_in<'a>(alloc: Global, text: &[u8]) -> Result<Program, Refusal<'a>>
    ensures says { IfOk result (SaysProgram text.now) }
    ensures valid { IfOk result IsValidProgram }
    ensures cause { IfErr result (ProgramTextCause text.now) }
{
    if text.len() as u64 > MOST_PROGRAM_BYTES {
        return Err(Refusal::ProgramTooLong);
    }
    match read_program(alloc, text) {
        Ok(program) => Ok(program),
        Err(fault) => Err(refused_program(fault)),
    }
}

/// The sets that a text says.
fn sets_in<'a>(alloc: Global, text: &[u8]) -> Result<Sets, Refusal<'a>>
    ensures says { IfOk result (SaysSets text.now) }
    ensures valid { IfOk result IsValidSets }
    ensures cause { IfErr result (SetsTextCause text.now) }
{
    if text.len() as u64 > MOST_SETS_BYTES {
        return Err(Refusal::SetsTooLong);
    }
    match read_sets(alloc, text) {
        Ok(sets) => Ok(sets),
        Err(fault) => Err(refused_sets(&fault)),
    }
}

/// Reads the texts of a trial, and makes the obligations.
fn load_texts<'a>(alloc: Global, texts: &TrialTexts) -> Result<Loaded, Refusal<'a>>
    ensures read { IfOk result (λ l. OwesBetween texts.now.program texts.now.sets l.program l.sets l.obligations) }
    ensures program { IfOk result (λ l. IsValidProgram l.program) }
    ensures sets { IfOk result (λ l. IsValidSets l.sets) }
    ensures bound { IfOk result (λ l. All (IsBoundObligation l.program l.sets) l.obligations) }
    ensures cause { IfErr result (TextsCause texts.now.program texts.now.sets) }
{
    let program = program_in(alloc, texts.program.as_slice())?;
    let sets = sets_in(alloc, texts.sets.as_slice())?;
    match make(alloc, &program, &sets, b"pre", b"post") {
        Ok(obligations) => Ok(Loaded {
            program,
            sets,
            obligations,
        }),
        Err(fault) => Err(refused_obligations(fault)),
    }
}

/// Makes the texts of a trial and reads them.
fn load_trial<'a>(alloc: Global, number: u32) -> Result<Loaded, Refusal<'a>>
    requires { (1 ≤ number) × (number ≤ most_trial) }
    ensures read { IfOk result (λ l. OwesBetween (trial_program number) (trial_sets number) l.program l.sets
        l.obligations) }
    ensures program { IfOk result (λ l. IsValidProgram l.program) }
    ensures sets { IfOk result (λ l. IsValidSets l.sets) }
    ensures bound { IfOk result (λ l. All (IsBoundObligation l.program l.sets) l.obligations) }
    ensures cause { IfErr result (TrialCause number) }
{
    match trial_texts(alloc, number) {
        Ok(texts) => load_texts(alloc, &texts),
        Err(_) => Err(Refusal::OutOfMemory),
    }
}

/// Prints the line of a trial, with so many qubits and gates.
fn print_line<K: Sink>(
    out: &mut K,
    number: u32,
    qubits: u32,
    gates: u32,
    tally: Tally,
) -> Result<(), SinkFault>
    ensures { Prints K.meaning out.old out.new result
        (line_text number qubits gates tally.verified tally.refuted tally.gave_up) }
{
    put_pieces(
        out,
        &[
            Piece::Text(b"trial "),
            Piece::Number(u64::from(number)),
            Piece::Text(b": "),
            Piece::Number(u64::from(qubits)),
            Piece::Text(b" qubits, "),
            Piece::Number(u64::from(gates)),
            Piece::Text(b" gates, verified "),
            Piece::Number(u64::from(tally.verified)),
            Piece::Text(b", refuted "),
            Piece::Number(u64::from(tally.refuted)),
            Piece::Text(b", gave up "),
            Piece::Number(u64::from(tally.gave_up)),
            Piece::Text(b"\n"),
        ],
    )
}

/// Says the line of a trial with these verdicts.
fn say_trial<K: Sink>(out: &mut K, number: u32, tally: Tally) -> Status
    requires { number ≤ most_trial }
    ensures { (vs : List VerdictValue) → IsTally tally vs
        → Ends K.meaning out.old out.new (IsText (verdicts_status vs) (trial_line number vs)) result }
{
    let qubits = number + 3;
    let printed = print_line(out, number, qubits, 40 * qubits - 1, tally);
    status_after(printed, tally_status(tally))
}

/// Checks the texts of a trial, with the limit of steps that a check has by itself.
pub(crate) fn trial<K: Sink>(alloc: Global, number: u32, out: &mut K) -> Status
    requires { (1 ≤ number) × (number ≤ most_trial) }
    ensures { Ends K.meaning out.old out.new (TrialEnd number) result }
{
    worlds();
    match load_trial(alloc, number) {
        Ok(loaded) => say_trial(out, number, count_verdicts(alloc, &loaded, MOST_STEPS)),
        Err(refusal) => say_refusal(out, &refusal),
    }
}
