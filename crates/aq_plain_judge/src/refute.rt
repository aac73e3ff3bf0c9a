//! What is shown of a world that has a vector which escapes the goal.
ghost use Rattle.std.specs.Prelude.{◌≡◌, ◌<◌, Contains, IfErr, IfOk, Some, length, slice_get};
ghost use Rattle.aq_sets.specs.Caps.{capped_sizes};
ghost use Rattle.aq_sets.specs.Valid.{IsValidSets};
ghost use Rattle.aq_sets.specs.Vectors.{products_of, vectors_of};
ghost use Rattle.aq_plain.specs.Replaying.{ArePlayable, start_of};
ghost use Rattle.aq_obligations.specs.Asking.{case_of, meaning_of};
ghost use Rattle.aq_obligations.specs.Wide.{IsWide};
ghost use Rattle.aq_obligations.specs.Worlds.{filled, worlds};
ghost use Rattle.aq_worlds.specs.Asked.{CanBeJudged};
ghost use Rattle.aq_worlds.specs.Playing.{StopsFor, world_of};
ghost use Rattle.aq_plain_judge.specs.Listing.{HasWide, case_states};
ghost use Rattle.aq_plain_judge.specs.Refuting.{EndsAlive, HasWideStep, IsAliveAt, IsEndOf, Shows};

use crate::listing::case_states;
use aq_obligations::{BoundCase, Obligation};
use aq_plain::{Played, ReplayStop, Vector, replay};
use aq_prog::{Program, Stmt};
use aq_report::Refutation;
use aq_sets::{Sets, Size};
use aq_worlds::{PlainWorld, Stop};
use sqlite_items::Items;
use std::alloc::{AllocError, Global};

/// The bits, 0 where they aren't known.
fn filled(alloc: Global, bits: &[Option<bool>]) -> Result<Items<bool>, AllocError>
    ensures { IfOk result (λ list. list ≡ filled bits.now) }
{
    let mut list = Items::new(alloc);
    for bit in bits {
        list.push(bit.unwrap_or(false))?;
    }
    Ok(list)
}

/// The vector that the case lists at a place.
fn state_at(
    alloc: Global,
    sets: &Sets,
    sizes: &[Size],
    case: &BoundCase,
    place: usize,
) -> Result<Vector, Stop>
    requires sets { IsValidSets sets.now }
    requires told { sizes.now ≡ capped_sizes sets.now.exprs }
    requires there { case.now.set < length sets.now.exprs }
    requires within { place < length (vectors_of sets.now.exprs case.now.set) }
    ensures ok { IfOk result (λ v. slice_get (case_states sets.now case.now) place ≡ Some v) }
    ensures err { IfErr result (λ e. StopsFor (HasWide (products_of sets.now.exprs case.now.set)) e) }
{
    let mut list = case_states(alloc, sets, sizes, case)?;
    Ok(list.remove(place))
}

/// The end of a run that has one, at which no outcome is left and the vector isn't zero.
fn end_of_run(
    alloc: Global,
    body: &[Stmt],
    bits: &[bool],
    state: &Vector,
    outcomes: &[bool],
) -> Result<Played, Stop>
    requires playable { ArePlayable state.now.qubits (length bits.now) body.now }
    requires ends { EndsAlive state.now.qubits body.now (start_of bits.now state.now.amps outcomes.now) }
    ensures ok { IfOk result (λ end. IsEndOf state.now.qubits body.now
        (start_of bits.now state.now.amps outcomes.now) end) }
    ensures err { IfErr result (λ e. StopsFor (HasWideStep state.now.qubits body.now
        (start_of bits.now state.now.amps outcomes.now)) e) }
{
    let start = state.copy(alloc)?;
    match replay(alloc, body, bits, start, outcomes) {
        Ok(end) => Ok(end),
        Err(ReplayStop::Wide { .. }) => Err(Stop::Width),
        Err(ReplayStop::Memory) => Err(Stop::Memory),
        Err(ReplayStop::NotLoopFree) => unreachable!(),
        Err(ReplayStop::ShortOutcomes) => unreachable!(),
        Err(ReplayStop::Impossible { .. }) => unreachable!(),
        Err(ReplayStop::Blocked) => unreachable!(),
        Err(ReplayStop::LongOutcomes { .. }) => unreachable!(),
    }
}

/// Shows the run to the vector of the world at a place, which isn't zero. The world is one of the case's.
pub(crate) fn refutation(
    alloc: Global,
    program: &Program,
    sets: &Sets,
    sizes: &[Size],
    obligation: &Obligation,
    case: &BoundCase,
    world: &PlainWorld,
    place: usize,
) -> Result<Refutation, Stop>
    requires asked { CanBeJudged program.now sets.now obligation.now }
    requires told { sizes.now ≡ capped_sizes sets.now.exprs }
    requires listed { Contains obligation.now.from case.now }
    requires played { Contains (worlds (meaning_of program.now sets.now obligation.now))
        (world_of (case_of sets.now case.now) world.now) }
    requires bits { length world.now.start ≡ program.now.bits }
    requires alive { IsAliveAt (world_of (case_of sets.now case.now) world.now) place }
    ensures ok { IfOk result (λ r. Shows (meaning_of program.now sets.now obligation.now)
        (world_of (case_of sets.now case.now) world.now) place r) }
    ensures err { IfErr result (λ e. StopsFor (IsWide (meaning_of program.now sets.now obligation.now)) e) }
{
    let bits = filled(alloc, world.start.as_slice())?;
    let state = state_at(alloc, sets, sizes, case, place)?;
    let outcomes = Items::from_slice(alloc, world.outcomes.as_slice())?;
    let body = obligation.fragment.as_slice();
    let end = end_of_run(alloc, body, bits.as_slice(), &state, outcomes.as_slice())?;
    Ok(Refutation {
        bits,
        state,
        outcomes,
        end_bits: end.bits,
        end: end.vector,
    })
}
