ghost use Rattle.std.specs.Prelude.{◌≡◌, map, None, Some};
ghost use Rattle.std.specs.String.{string_bytes};
ghost use Rattle.aq_world.specs.Causes.{Rose};
ghost use Rattle.aq_words.specs.Commands.{IsInRange, command_asked, command_of};
ghost use Rattle.aq_top.specs.Clauses.{
  AsksToCheck,
  IsAnswer,
  IsJudged,
  ReadsFailed,
  Reports,
  TellsTheRun,
  ToldIsCorrect,
};
ghost use Rattle.aq_top.specs.Commands.{CommandEnd, RunEnd};
ghost use Rattle.aq_top.specs.Ends.{Ends};
ghost use Rattle.aq_top.specs.Reads.{ReadFailedOf};

use crate::check::check;
use crate::replay::replay;
use crate::say::{say_memory, say_usage};
use crate::status::Status;
use crate::trial::trial;
use aq_correct::laws::obligations;
use aq_elab::program_texts;
use aq_set_read::set_files;
use aq_words::{Command, WordsFault, read_words};
use aq_world::{Shelf, Sink};
use std::alloc::Global;

/// Does what a command says.
fn obey<S: Shelf, K: Sink>(alloc: Global, command: &Command, shelf: &mut S, out: &mut K) -> Status
    requires { IsInRange command.now }
    ensures ends { Ends K.meaning out.old out.new (CommandEnd (S.meaning.holds shelf.old)
        (ReadFailedOf S.meaning shelf.old shelf.new) (Some (command_of command.now))) result }
    ensures held { S.meaning.holds shelf.new ≡ S.meaning.holds shelf.old }
{
    match command {
        Command::Check(words) => check(alloc, words, shelf, out),
        Command::Replay(words) => replay(alloc, words, shelf, out),
        Command::Trial(number) => trial(alloc, *number, out),
    }
}

/// Does what the words say, or says how the program is used.
fn answer<S: Shelf, K: Sink>(alloc: Global, words: &[String], shelf: &mut S, out: &mut K) -> Status
    ensures ends { Ends K.meaning out.old out.new (RunEnd (S.meaning.holds shelf.old)
        (ReadFailedOf S.meaning shelf.old shelf.new) (command_asked (map string_bytes words.now))) result }
    ensures held { S.meaning.holds shelf.new ≡ S.meaning.holds shelf.old }
{
    match read_words(alloc, words) {
        Ok(command) => obey(alloc, &command, shelf, out),
        Err(WordsFault::Usage) => say_usage(out),
        Err(WordsFault::Memory) => say_memory(out),
    }
}

/// Does what the words after the program's name say, over the shelf's files, and writes the answer to the sink.
///
/// The words are `check PROGRAM SETS` with the options `--pre NAME`, `--post NAME` and `--steps N`,
/// `replay PROGRAM SETS --state NAME` with the option `--outcomes TEXT`, or `trial N`, the options in any order; other
/// words are answered by the usage text. The status says how it ended: see `Status`. `Memory` may come at any input,
/// and where memory is wanting while an obligation is judged, that obligation is given up.
pub fn run<S: Shelf, K: Sink>(alloc: Global, words: &[String], shelf: &mut S, out: &mut K) -> Status
    // With Good, Refuted and GaveUp, a whole report was written, and its verdicts are justified; or a trial's line,
    // which counts justified verdicts; or a replay's end, which goes with Good.
    ensures report_is_justified { IsAnswer result → Reports (S.meaning.holds shelf.old)
        (command_asked (map string_bytes words.now)) (K.meaning.told out.old) (K.meaning.told out.new) result }

    // With Good, the program that the files say is correct.
    ensures all_verified_implies_correct { result ≡ Status.Good
        → ToldIsCorrect (S.meaning.holds shelf.old) (command_asked (map string_bytes words.now)) }

    // Where both files are told and accepted and neither a read nor a write fails, the answer is a report, or memory
    // ran out.
    ensures accepted_files_are_judged { AsksToCheck (S.meaning.holds shelf.old)
        (command_asked (map string_bytes words.now))
        → (Rose (S.meaning.faults shelf.old) (S.meaning.faults shelf.new) → ⊥)
        → (Rose (K.meaning.faults out.old) (K.meaning.faults out.new) → ⊥) → IsJudged result }

    // With Good, a replay wrote the end of the run.
    ensures replay_is_the_run { result ≡ Status.Good → TellsTheRun (S.meaning.holds shelf.old)
        (command_asked (map string_bytes words.now)) (K.meaning.told out.old) (K.meaning.told out.new) }

    // Whatever the status, what was written is a whole output that goes with it, or a front of one after a failed
    // write or where the sink wanted memory.
    ensures other_ends { Ends K.meaning out.old out.new (RunEnd (S.meaning.holds shelf.old)
        (ReadFailedOf S.meaning shelf.old shelf.new) (command_asked (map string_bytes words.now))) result }
    ensures usage_has_its_cause { result ≡ Status.Usage → command_asked (map string_bytes words.now) ≡ None }
    ensures read_has_its_cause { result ≡ Status.Read → ReadsFailed (ReadFailedOf S.meaning shelf.old shelf.new)
        (command_asked (map string_bytes words.now)) }
    ensures write_has_its_cause { result ≡ Status.Write → Rose (K.meaning.faults out.old) (K.meaning.faults out.new) }

    // No file changes.
    ensures shelf_stays { S.meaning.holds shelf.new ≡ S.meaning.holds shelf.old }
{
    program_texts();
    set_files();
    obligations();
    answer(alloc, words, shelf, out)
}
