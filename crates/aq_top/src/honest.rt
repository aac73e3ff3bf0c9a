ghost use Rattle.std.specs.Prelude.{◌≡◌, ◌≢◌, None, Some, map};
ghost use Rattle.std.specs.String.{string_bytes};
ghost use Rattle.aq_world.specs.Files.{first_of};
ghost use Rattle.aq_top.specs.Clauses.{IsAnswer, Reports, TellsTheRun, ToldIsCorrect};
ghost use Rattle.aq_words.specs.Commands.{command_asked};
ghost use Rattle.aq_top.specs.Commands.{RunEnd};
ghost use Rattle.aq_top.specs.Ends.{Ends};
ghost use Rattle.aq_top.specs.Reads.{ReadFailedOf};

use crate::status::Status;
use crate::top::run;
use aq_world::{HonestShelf, HonestSink, Shelf, Sink};
use std::alloc::Global;

/// A run over files and a sink in memory of which no call fails: neither `Read` nor `Write` comes, and what is said of
/// the told files and the told output holds without a premise.
pub fn run_honest(
    alloc: Global,
    words: &[String],
    shelf: &mut HonestShelf,
    out: &mut HonestSink,
) -> Status
    ensures no_read { result ≢ Status.Read }
    ensures no_write { result ≢ Status.Write }
    ensures report_is_justified { IsAnswer result → Reports (Some (first_of shelf.old.files))
        (command_asked (map string_bytes words.now)) (Some out.old.bytes) (Some out.new.bytes) result }
    ensures all_verified_implies_correct { result ≡ Status.Good
        → ToldIsCorrect (Some (first_of shelf.old.files)) (command_asked (map string_bytes words.now)) }
    ensures replay_is_the_run { result ≡ Status.Good → TellsTheRun (Some (first_of shelf.old.files))
        (command_asked (map string_bytes words.now)) (Some out.old.bytes) (Some out.new.bytes) }
    // The counts of faults stay 0, so that no end has a failed read or write for its cause.
    ensures other_ends { Ends ⟦<HonestSink as Sink>⟧.meaning out.old out.new
        (RunEnd (Some (first_of shelf.old.files)) (ReadFailedOf ⟦<HonestShelf as Shelf>⟧.meaning shelf.old shelf.new)
        (command_asked (map string_bytes words.now))) result }
    ensures usage_has_its_cause { result ≡ Status.Usage → command_asked (map string_bytes words.now) ≡ None }
    ensures shelf_stays { first_of shelf.new.files ≡ first_of shelf.old.files }
{
    run(alloc, words, shelf, out)
}
