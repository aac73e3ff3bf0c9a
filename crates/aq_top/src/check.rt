//! The command `check PROGRAM SETS`.
ghost use Rattle.std.specs.Prelude.{◌≡◌, ◌≤◌, All, IfOk, IfErr};
ghost use Rattle.aq_base.specs.Limits.{most_steps_asked};
ghost use Rattle.aq_prog.specs.Programs.{IsValidProgram};
ghost use Rattle.aq_sets.specs.Valid.{IsValidSets};
ghost use Rattle.aq_obligations.specs.Bound.{IsBoundObligation};
ghost use Rattle.aq_owing.specs.Made.{are_too_many, made_obligations, owed_by};
ghost use Rattle.aq_top.specs.Check.{
  CheckCause,
  CheckEnd,
  ObligationFaultOf,
  ReadsObligations,
  TellsObligationFault,
};
ghost use Rattle.aq_words.specs.Commands.{check_of};
ghost use Rattle.aq_top.specs.Ends.{Ends};
ghost use Rattle.aq_top.specs.Reads.{ReadFailedOf};

use crate::judging::{Loaded, say_report};
use crate::read::{load_program, load_sets};
use crate::say::say_refusal;
use crate::status::Status;
use aq_correct::laws::worlds;
use aq_owing::{ObligationFault, make};
use aq_report::Refusal;
use aq_words::CheckWords;
use aq_world::{Shelf, Sink};
use std::alloc::Global;

/// Tells why a program has no obligations.
pub(crate) fn refused_obligations<'a>(fault: ObligationFault) -> Refusal<'a>
    ensures { TellsObligationFault fault result }
{
    let name = fault.name();
    match fault {
        ObligationFault::TooManyObligations => Refusal::TooManyObligations,
        ObligationFault::Memory => Refusal::OutOfMemory,
        fault => match fault.into_claim() {
            Some(claim) => Refusal::Claim { claim, name },
            None => unreachable!(),
        },
    }
}

/// Reads the program, then the sets, and makes the obligations.
fn load<'a, S: Shelf>(
    alloc: Global,
    words: &'a CheckWords,
    shelf: &mut S,
) -> Result<Loaded, Refusal<'a>>
    ensures read { IfOk result (λ l. ReadsObligations (S.meaning.holds shelf.old) (check_of words.entry.now) l.program
        l.sets l.obligations) }
    ensures program { IfOk result (λ l. IsValidProgram l.program) }
    ensures sets { IfOk result (λ l. IsValidSets l.sets) }
    ensures bound { IfOk result (λ l. All (IsBoundObligation l.program l.sets) l.obligations) }
    ensures cause { IfErr result (CheckCause (S.meaning.holds shelf.old) (ReadFailedOf S.meaning shelf.old shelf.new)
        (check_of words.entry.now)) }
    ensures held { S.meaning.holds shelf.new ≡ S.meaning.holds shelf.old }
{
    let program = load_program(alloc, words.program.as_str(), shelf)?;
    let sets = load_sets(alloc, words.sets.as_str(), shelf)?;
    match make(
        alloc,
        &program,
        &sets,
        words.pre.as_str().as_bytes(),
        words.post.as_str().as_bytes(),
    ) {
        Ok(obligations) => Ok(Loaded {
            program,
            sets,
            obligations,
        }),
        Err(fault) => Err(refused_obligations(fault)),
    }
}

/// Checks a program against its sets.
pub(crate) fn check<S: Shelf, K: Sink>(
    alloc: Global,
    words: &CheckWords,
    shelf: &mut S,
    out: &mut K,
) -> Status
    requires { words.now.steps ≤ most_steps_asked }
    ensures ends { Ends K.meaning out.old out.new (CheckEnd (S.meaning.holds shelf.old)
        (ReadFailedOf S.meaning shelf.old shelf.new) (check_of words.now)) result }
    ensures held { S.meaning.holds shelf.new ≡ S.meaning.holds shelf.old }
{
    worlds();
    match load(alloc, words, shelf) {
        Ok(loaded) => say_report(alloc, &loaded, words.steps, out),
        Err(refusal) => say_refusal(out, &refusal),
    }
}
