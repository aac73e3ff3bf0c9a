//! The command `replay PROGRAM SETS --state NAME [--outcomes TEXT]`.
ghost use Rattle.std.specs.Prelude.{◌≡◌, IfErr, IfOk, Err, Ok};
ghost use Rattle.std.specs.Option.{option_map};
ghost use Rattle.aq_prog.specs.Programs.{IsValidProgram};
ghost use Rattle.aq_plain.specs.Replaying.{Replays};
ghost use Rattle.aq_obligations.specs.Correct.{zeros};
ghost use Rattle.aq_report.specs.Texts.{replay_text};
ghost use Rattle.aq_words.specs.Commands.{replay_of};
ghost use Rattle.aq_top.specs.Ends.{Ends, IsText};
ghost use Rattle.aq_top.specs.Reads.{ReadFailedOf};
ghost use Rattle.aq_top.specs.Replay.{
  ReadsStart,
  ReplayCause,
  ReplayEnd,
  TellsOfReplay,
  TellsOfSet,
  begins,
  stop_name,
};

use crate::outcomes::outcomes_of;
use crate::read::{load_program, load_sets};
use crate::say::{say_refusal, status_after};
use crate::state::{StateFault, state_of};
use crate::status::Status;
use aq_plain::{Played, ReplayStop, Vector};
use aq_prog::Program;
use aq_report::{Refusal, print_replay};
use aq_words::ReplayWords;
use aq_world::{Shelf, Sink};
use sqlite_items::Items;
use std::alloc::{AllocError, Global};

/// A program, the vector at its start, and the outcomes of its measurements and resets.
#[derive(Debug, Drop)]
struct Start {
    program: Program,
    vector: Vector,
    outcomes: Items<bool>,
}

/// Tells a fault of the set.
fn refused_state<'a>(set: &'a str, name: Option<&'static str>) -> Refusal<'a>
    ensures { TellsOfSet set.entry.now (option_map (λ n. n.now) name.entry) result }
{
    match name {
        Some(name) => Refusal::Set { set, name },
        None => Refusal::OutOfMemory,
    }
}

/// Tells a fault of the replay.
fn refused_replay<'a>(name: Option<&'static str>) -> Refusal<'a>
    ensures { TellsOfReplay (option_map (λ n. n.now) name.entry) result }
{
    match name {
        Some(name) => Refusal::Replay { name },
        None => Refusal::OutOfMemory,
    }
}

/// The name of a stop. None: memory ran out.
fn stop_name(stop: ReplayStop) -> Option<&'static str>
    ensures { option_map (λ name. name.now) result ≡ stop_name stop }
{
    match stop {
        ReplayStop::NotLoopFree => Some("NotLoopFree"),
        ReplayStop::ShortOutcomes => Some("ShortOutcomes"),
        ReplayStop::Impossible { .. } => Some("Impossible"),
        ReplayStop::Blocked => Some("Blocked"),
        ReplayStop::Wide { .. } => Some("Wide"),
        ReplayStop::LongOutcomes { .. } => Some("LongOutcomes"),
        ReplayStop::Memory => None,
    }
}

/// Reads the program, then the sets, finds the one vector of the set, and then reads the outcomes.
fn load_start<'a, S: Shelf>(
    alloc: Global,
    words: &'a ReplayWords,
    shelf: &mut S,
) -> Result<Start, Refusal<'a>>
    ensures read { IfOk result (λ s. ReadsStart (S.meaning.holds shelf.old) (replay_of words.entry.now)
        s.program s.vector.amps s.outcomes) }
    ensures program { IfOk result (λ s. IsValidProgram s.program) }
    ensures qubits { IfOk result (λ s. s.vector.qubits ≡ s.program.qubits) }
    ensures cause { IfErr result (ReplayCause (S.meaning.holds shelf.old)
        (ReadFailedOf S.meaning shelf.old shelf.new) (replay_of words.entry.now)) }
    ensures held { S.meaning.holds shelf.new ≡ S.meaning.holds shelf.old }
{
    let program = load_program(alloc, words.program.as_str(), shelf)?;
    let sets = load_sets(alloc, words.sets.as_str(), shelf)?;
    match state_of(alloc, &program, &sets, words.state.as_str().as_bytes()) {
        Ok(vector) => match outcomes_of(alloc, words.outcomes.as_str().as_bytes()) {
            Ok(outcomes) => Ok(Start {
                program,
                vector,
                outcomes,
            }),
            Err(fault) => Err(refused_replay(fault.name())),
        },
        Err(fault) => Err(refused_state(words.state.as_str(), fault.name())),
    }
}

/// So many bits, each 0.
fn zero_bits(alloc: Global, count: u32) -> Result<Items<bool>, AllocError>
    ensures { IfOk result (λ bits. bits ≡ zeros count) }
{
    let mut bits = Items::new(alloc);
    for _ in 0..count {
        bits.push(false)?;
    }
    Ok(bits)
}

/// Plays the run from the start, each bit 0.
fn play(alloc: Global, start: Start) -> Result<Played, ReplayStop>
    requires program { IsValidProgram start.program }
    requires qubits { start.vector.qubits ≡ start.program.qubits }
    ensures { Replays start.program.qubits start.program.body
        (begins start.program start.vector.amps start.outcomes) result }
{
    let Start {
        program,
        vector,
        outcomes,
    } = start;
    let bits = zero_bits(alloc, program.bits)?;
    aq_plain::replay(
        alloc,
        program.body.as_slice(),
        bits.as_slice(),
        vector,
        outcomes.as_slice(),
    )
}

/// Says the end of a replay.
fn say_end<K: Sink>(out: &mut K, end: &Played) -> Status
    ensures { Ends K.meaning out.old out.new (IsText Status.Good (replay_text end.now.bits end.now.vector)) result }
{
    status_after(print_replay(out, end), Status::Good)
}

/// Replays a program from a state of its sets.
pub(crate) fn replay<S: Shelf, K: Sink>(
    alloc: Global,
    words: &ReplayWords,
    shelf: &mut S,
    out: &mut K,
) -> Status
    ensures ends { Ends K.meaning out.old out.new (ReplayEnd (S.meaning.holds shelf.old)
        (ReadFailedOf S.meaning shelf.old shelf.new) (replay_of words.now)) result }
    ensures held { S.meaning.holds shelf.new ≡ S.meaning.holds shelf.old }
{
    match load_start(alloc, words, shelf) {
        Ok(start) => match play(alloc, start) {
            Ok(end) => say_end(out, &end),
            Err(stop) => say_refusal(out, &refused_replay(stop_name(stop))),
        },
        Err(refusal) => say_refusal(out, &refusal),
    }
}
