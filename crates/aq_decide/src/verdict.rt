//! The decision of an obligation.
ghost use Rattle.std.specs.Prelude.{◌≡◌, ◌≤◌, ◌+◌, length, IfErr, IfOk};
ghost use Rattle.aq_obligations.specs.Asking.{meaning_of};
ghost use Rattle.aq_obligations.specs.Enough.{enough};
ghost use Rattle.aq_obligations.specs.Wide.{IsWide};
ghost use Rattle.aq_decide.specs.Asked.{CanBeDecided};
ghost use Rattle.aq_decide.specs.Deciding.{Decides, IsShort};
ghost use Rattle.aq_decide.specs.Stops.{GivesUpFor};

use crate::building::automata;
use crate::decision::Decision;
use crate::judge::judge_worlds;
use crate::spread::all_worlds;
use aq_obligations::Obligation;
use aq_prog::Program;
use aq_ring::Amp;
use aq_set_build::Built;
use aq_sets::Sets;
use aq_store::{Steps, Stop, Store};
use std::alloc::Global;

/// Decides whether the obligation is true. Either each vector of each of its worlds is zero or a nonzero multiple of
/// one that the goal allows, with a valid certificate for each world, in order; or there is a first world with a vector
/// that isn't, a word of it whose vector isn't and whose place is the least of such vectors, and the state from which
/// that vector comes.
///
/// `Spent` comes only where `enough` is more steps than are left. `Wide` and `WideParts` come only where the obligation
/// is wide, and an obligation that holds has neither a wide gate nor a wide product in its sets. `Memory` may come at
/// any time.
pub fn decide(
    alloc: Global,
    program: &Program,
    sets: &Sets,
    obligation: &Obligation,
    steps: &mut Steps,
) -> Result<Decision, Stop<Amp>>
    requires asked { CanBeDecided program.now sets.now obligation.now }
    ensures decides { IfOk result (λ d. Decides program.now sets.now obligation.now d) }
    ensures short { IfOk result (λ d. IsShort (length obligation.now.goal.cases) steps.new d) }
    ensures steps { steps.new.taken ≤ steps.old.taken + enough program.now sets.now obligation.now }
    ensures limit { steps.new.limit ≡ steps.old.limit }
    ensures stops { let most = enough program.now sets.now obligation.now in
        IfErr result (GivesUpFor (IsWide (meaning_of program.now sets.now obligation.now)) most steps.old) }
{
    let cases = obligation.goal.cases.as_slice();
    let Ok(_few) = u32::try_from(cases.len()) else {
        return Err(Stop::Memory);
    };
    let mut store = Store::new(alloc);
    let mut memo = Built::new(alloc);
    let goals = automata(alloc, &mut store, &mut memo, sets, cases, steps)?;
    let sources = automata(
        alloc,
        &mut store,
        &mut memo,
        sets,
        obligation.from.as_slice(),
        steps,
    )?;
    let worlds = all_worlds(
        alloc,
        &mut store,
        program,
        sets,
        obligation,
        sources.as_slice(),
        steps,
    )?;
    judge_worlds(
        alloc,
        &store,
        program,
        sets,
        obligation,
        goals.as_slice(),
        sources.as_slice(),
        worlds,
        steps,
    )
}
