//! The worlds of an obligation.
ghost use Rattle.std.specs.Prelude.{◌≤◌, IfErr, IfOk};
ghost use Rattle.aq_store.specs.Nodes.{total_cost};
ghost use Rattle.aq_obligations.specs.Asking.{meaning_of};
ghost use Rattle.aq_obligations.specs.Wide.{WideGate};
ghost use Rattle.aq_obligations.specs.Worlds.{worlds};
ghost use Rattle.aq_decide.specs.Asked.{CanBeDecided};
ghost use Rattle.aq_set_build.specs.Growth.{Grows};
ghost use Rattle.aq_decide.specs.Budgets.{play_all, prices, spread_all};
ghost use Rattle.aq_decide.specs.Goals.{AreBuilt};
ghost use Rattle.aq_decide.specs.Kept.{AreWorlds};
ghost use Rattle.aq_decide.specs.Stops.{GivesUpFor};

use crate::case::worlds_of_case;
use aq_correct::laws;
use aq_obligations::Obligation;
use aq_prog::Program;
use aq_ring::Amp;
use aq_sets::Sets;
use aq_store::{Lsta, Steps, Stop, Store};
use aq_symbolic::World;
use std::alloc::Global;

/// The worlds of the obligation, in order. `sources` are the automata of the cases of its assumption. No gate was wide.
///
/// `Wide` comes only where a gate on a run from a state of the assumption doesn't fit, `WideParts` never, and `Spent`
/// only where `play_all` is more steps than were left.
pub fn all_worlds(
    alloc: Global,
    store: &mut Store<Amp>,
    program: &Program,
    sets: &Sets,
    obligation: &Obligation,
    sources: &[Lsta],
    steps: &mut Steps,
) -> Result<Vec<World>, Stop<Amp>>
    requires asked { CanBeDecided program.now sets.now obligation.now }
    requires built { AreBuilt sets.now obligation.now.from store.old sources.now }
    requires paid { total_cost store.old ≤ steps.old.taken }
    ensures worlds { let those = worlds (meaning_of program.now sets.now obligation.now) in
        IfOk result (λ list. AreWorlds sets.now obligation.now.from store.new list.items those) }
    ensures fits { IfOk result (λ list. WideGate (meaning_of program.now sets.now obligation.now) → ⊥) }
    ensures few { let most = spread_all program.now sets.now obligation.now obligation.now.from in
        IfOk result (λ list. prices list.items ≤ most) }
    ensures grows { let most = play_all program.now sets.now obligation.now obligation.now.from in
        Grows most store.old store.new steps.old steps.new }
    ensures stops { let most = play_all program.now sets.now obligation.now obligation.now.from in
        IfErr result (GivesUpFor (WideGate (meaning_of program.now sets.now obligation.now)) most steps.old) }
{
    laws::worlds();
    let cases = obligation.from.as_slice();
    let mut list = Vec::new(alloc);
    for index in 0..sources.len() {
        let Ok(number) = u32::try_from(index) else {
            return Err(Stop::Memory);
        };
        let mut more = worlds_of_case(
            alloc,
            store,
            program,
            sets,
            obligation,
            &cases[index],
            number,
            &sources[index],
            steps,
        )?;
        let Ok(()) = list.append(&mut more) else {
            return Err(Stop::Memory);
        };
    }
    Ok(list)
}
