//! What is shown of the first world that has a vector which escapes the goal.
ghost use Rattle.std.specs.Prelude.{◌≡◌, IfErr, IfOk, length};
ghost use Rattle.aq_plain.specs.Replaying.{ArePlayable, start_of};
ghost use Rattle.aq_obligations.specs.Asking.{meaning_of};
ghost use Rattle.aq_obligations.specs.Wide.{IsWide};
ghost use Rattle.aq_obligations.specs.Worlds.{filled};
ghost use Rattle.aq_report.specs.Verdicts.{IsRefutedBy};
ghost use Rattle.aq_decide.specs.Asked.{CanBeDecided};
ghost use Rattle.aq_judge.specs.Refuting.{EndsAlive, HasWideStep, IsEndOf, IsShownBy, StopsFor};

use aq_correct::laws;
use aq_obligations::Obligation;
use aq_plain::{Played, ReplayStop, Vector, replay};
use aq_prog::{Program, Stmt};
use aq_report::{Refutation, Why};
use aq_ring::Amp;
use aq_sets::{Sets, laws as set_laws};
use aq_symbolic::World;
use sqlite_items::Items;
use std::alloc::{AllocError, Global};

/// The bits, 0 where they aren't known.
fn filled(alloc: Global, bits: &[Option<bool>]) -> Result<Items<bool>, AllocError>
    ensures { IfOk result (λ list. list ≡ filled bits.now) }
{
    let mut list = Items::new(alloc);
    for bit in bits {
        list.push(bit.unwrap_or(false))?;
    }
    Ok(list)
}

/// The end of a run that has one, at which no outcome is left and the vector isn't zero.
fn end_of_run(
    alloc: Global,
    body: &[Stmt],
    bits: &[bool],
    state: &Vector,
    outcomes: &[bool],
) -> Result<Played, Why>
    requires playable { ArePlayable state.now.qubits (length bits.now) body.now }
    requires ends { EndsAlive state.now.qubits body.now (start_of bits.now state.now.amps outcomes.now) }
    ensures ok { IfOk result (λ end. IsEndOf state.now.qubits body.now
        (start_of bits.now state.now.amps outcomes.now) end) }
    ensures err { IfErr result (StopsFor (HasWideStep state.now.qubits body.now
        (start_of bits.now state.now.amps outcomes.now))) }
{
    let Ok(start) = state.copy(alloc) else {
        return Err(Why::Memory);
    };
    match replay(alloc, body, bits, start, outcomes) {
        Ok(end) => Ok(end),
        Err(ReplayStop::Wide { .. }) => Err(Why::Width),
        Err(ReplayStop::Memory) => Err(Why::Memory),
        Err(ReplayStop::NotLoopFree) => unreachable!(),
        Err(ReplayStop::ShortOutcomes) => unreachable!(),
        Err(ReplayStop::Impossible { .. }) => unreachable!(),
        Err(ReplayStop::Blocked) => unreachable!(),
        Err(ReplayStop::LongOutcomes { .. }) => unreachable!(),
    }
}

/// Shows the run to the first vector of the world that escapes. `state` has the amplitudes from which it comes.
pub(crate) fn refutation(
    alloc: Global,
    program: &Program,
    sets: &Sets,
    obligation: &Obligation,
    world: World,
    state: Vec<Amp>,
) -> Result<Refutation, Why>
    requires asked { CanBeDecided program.now sets.now obligation.now }
    requires escapes { IsShownBy program.now sets.now obligation.now world state.items }
    ensures ok { IfOk result (IsRefutedBy (meaning_of program.now sets.now obligation.now)) }
    ensures err { IfErr result (StopsFor (IsWide (meaning_of program.now sets.now obligation.now))) }
{
    laws::worlds();
    set_laws::expressions();
    let Ok(bits) = filled(alloc, world.start.as_slice()) else {
        return Err(Why::Memory);
    };
    let state = Vector::from_amps(program.qubits, state);
    let outcomes = world.outcomes;
    let body = obligation.fragment.as_slice();
    let end = end_of_run(alloc, body, bits.as_slice(), &state, outcomes.as_slice())?;
    Ok(Refutation {
        bits,
        state,
        outcomes,
        end_bits: end.bits,
        end: end.vector,
    })
}
