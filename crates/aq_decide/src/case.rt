//! The worlds of a case of an obligation.
ghost use Rattle.std.specs.Prelude.{◌≡◌, ◌≤◌, Some, slice_get, IfErr, IfOk};
ghost use Rattle.aq_store.specs.Nodes.{total_cost};
ghost use Rattle.aq_correct.specs.WorldLaws.{worlds_of};
ghost use Rattle.aq_obligations.specs.Asking.{case_of, meaning_of};
ghost use Rattle.aq_obligations.specs.Wide.{WideGate};
ghost use Rattle.aq_decide.specs.Asked.{CanBeDecided};
ghost use Rattle.aq_set_build.specs.Growth.{Grows};
ghost use Rattle.aq_set_build.specs.Listing.{IsBuilt};
ghost use Rattle.aq_decide.specs.Budgets.{play_budget, prices, spread_weight};
ghost use Rattle.aq_decide.specs.Kept.{AreWorlds};
ghost use Rattle.aq_decide.specs.Playing.{CaseFits};
ghost use Rattle.aq_decide.specs.Stops.{GivesUpFor};

use crate::split::split_all;
use crate::start::start;
use aq_obligations::{BoundCase, Obligation};
use aq_prog::Program;
use aq_ring::Amp;
use aq_sets::Sets;
use aq_store::{Lsta, Steps, Stop, Store};
use aq_symbolic::{World, go};
use std::alloc::Global;

/// The worlds that come of a case of the obligation's assumption, in order, but for those whose every vector is zero.
/// `number` is the case's, and `lsta` is the automaton of its expression. Each gate that was met fits.
///
/// `Wide` comes only where a gate on a run from a state of the assumption doesn't fit, `WideParts` never, and `Spent`
/// only where `play_budget` is more steps than were left.
pub fn worlds_of_case(
    alloc: Global,
    store: &mut Store<Amp>,
    program: &Program,
    sets: &Sets,
    obligation: &Obligation,
    case: &BoundCase,
    number: u32,
    lsta: &Lsta,
    steps: &mut Steps,
) -> Result<Vec<World>, Stop<Amp>>
    requires asked { CanBeDecided program.now sets.now obligation.now }
    requires listed { slice_get obligation.now.from number ≡ Some case.now }
    requires built { IsBuilt sets.now.exprs case.now.set store.old lsta.now }
    requires paid { total_cost store.old ≤ steps.old.taken }
    ensures worlds { let meaning = meaning_of program.now sets.now obligation.now in
        let those = worlds_of meaning (case_of sets.now case.now) in
        IfOk result (λ list. AreWorlds sets.now obligation.now.from store.new list.items those) }
    ensures fits { IfOk result (λ list. CaseFits program.now sets.now obligation.now case.now) }
    ensures few { IfOk result (λ list. prices list.items ≤ spread_weight program.now sets.now obligation.now case.now) }
    ensures grows { let most = play_budget program.now sets.now obligation.now case.now in
        Grows most store.old store.new steps.old steps.new }
    ensures stops { let most = play_budget program.now sets.now obligation.now case.now in
        IfErr result (GivesUpFor (WideGate (meaning_of program.now sets.now obligation.now)) most steps.old) }
{
    let Ok(first) = start(alloc, program.bits, obligation, case, number, lsta) else {
        return Err(Stop::Memory);
    };
    let ends = go(alloc, store, first, obligation.fragment.as_slice(), steps)?;
    let list = split_all(
        alloc,
        ends,
        obligation.goal.cases.as_slice(),
        program.bits,
        steps,
    )?;
    Ok(list)
}
