//! The judgement of worlds.
ghost use Rattle.std.specs.Prelude.{◌<◌, ◌^◌, ◌∷◌, [], Contains, length, IfErr, IfOk};
ghost use Rattle.aq_obligations.specs.Asking.{meaning_of};
ghost use Rattle.aq_obligations.specs.Wide.{WideComparison};
ghost use Rattle.aq_obligations.specs.Worlds.{worlds};
ghost use Rattle.aq_obligations.specs.Worlds as meant;
ghost use Rattle.aq_decide.specs.Asked.{CanBeDecided};
ghost use Rattle.aq_include.specs.Costs.{Takes};
ghost use Rattle.aq_decide.specs.Budgets.{judge_budget};
ghost use Rattle.aq_decide.specs.Certified.{AreCertified, AreCertifiedAfter};
ghost use Rattle.aq_decide.specs.Goals.{AreBuilt};
ghost use Rattle.aq_decide.specs.Judging.{IsPaidFor, IsPaidWithin, Judges, Tells};
ghost use Rattle.aq_decide.specs.Kept.{AreWorlds, IsWorld};
ghost use Rattle.aq_decide.specs.Stops.{GivesUpFor};

use crate::certified::{Findings, include_once};
use crate::decision::Decision;
use crate::goals::goals_in;
use crate::reading::vector_of;
use aq_cert::Cert;
use aq_correct::laws;
use aq_include::Answer;
use aq_obligations::Obligation;
use aq_prog::Program;
use aq_ring::Amp;
use aq_sets::Sets;
use aq_store::{Lsta, Steps, Stop, Store};
use aq_symbolic::World;
use sqlite_items::Items;
use std::alloc::Global;

/// Whether each vector of the world that isn't zero is a nonzero multiple of one that the goal allows for its bits.
/// `certs` are the certificates of the worlds before, and `known` what they show.
fn judge_world(
    alloc: Global,
    store: &Store<Amp>,
    program: &Program,
    sets: &Sets,
    obligation: &Obligation,
    goals: &[Lsta],
    world: &World,
    known: &mut Findings,
    certs: &Items<Cert>,
    steps: &mut Steps,
) -> Result<Answer, Stop<Amp>>
    requires asked { CanBeDecided program.now sets.now obligation.now }
    requires few { length goals.now < 2 ^ 32 }
    requires built { AreBuilt sets.now obligation.now.goal.cases store.now goals.now }
    requires world { (u : meant.World) × Contains (worlds (meaning_of program.now sets.now obligation.now)) u
        × IsWorld sets.now obligation.now.from store.now world.now u }
    requires known { AreCertified store.now certs.now known.old }
    ensures answer { let all = worlds (meaning_of program.now sets.now obligation.now) in
        let is_world = IsWorld sets.now obligation.now.from store.now world.now in
        IfOk result (λ a. (u : meant.World) → Contains all u → (is : is_world u)
        → Tells program.now sets.now obligation.now is.bound u a) }
    ensures known { IfOk result (λ a. AreCertifiedAfter store.now certs.now known.new a) }
    ensures paid { IfOk result (λ a. IsPaidWithin (length obligation.now.goal.cases) steps.old steps.new a) }
    ensures takes { Takes (judge_budget sets.now obligation.now (world.now ∷ [])) steps.old steps.new }
    ensures stops { let wide = WideComparison (meaning_of program.now sets.now obligation.now) in
        let most = judge_budget sets.now obligation.now (world.now ∷ []) in
        IfErr result (GivesUpFor wide most steps.old) }
{
    laws::worlds();
    let cases = obligation.goal.cases.as_slice();
    let Ok(met) = goals_in(alloc, cases, goals, world.bits.as_slice()) else {
        return Err(Stop::Memory);
    };
    include_once(
        alloc,
        store,
        known,
        certs,
        &world.lsta,
        met.as_slice(),
        steps,
    )
}

/// Judges the obligation's worlds, in order: either none of their vectors escapes, with a certificate for each world;
/// or there is a first world with a vector that does, its least word whose vector does, and the state from which that
/// comes. `goals` are the automata of the goal's cases, and `sources` those of the assumption's.
///
/// `WideParts` comes only where an entry of an end and one of a goal's vector for its bits have a product that doesn't
/// fit, `Wide` never, and `Spent` only where `judge_budget` is more steps than were left.
pub fn judge_worlds(
    alloc: Global,
    store: &Store<Amp>,
    program: &Program,
    sets: &Sets,
    obligation: &Obligation,
    goals: &[Lsta],
    sources: &[Lsta],
    worlds: Vec<World>,
    steps: &mut Steps,
) -> Result<Decision, Stop<Amp>>
    requires asked { CanBeDecided program.now sets.now obligation.now }
    requires few { length goals.now < 2 ^ 32 }
    requires built { AreBuilt sets.now obligation.now.goal.cases store.now goals.now }
    requires sources { AreBuilt sets.now obligation.now.from store.now sources.now }
    requires worlds { let those = meant.worlds (meaning_of program.now sets.now obligation.now) in
        AreWorlds sets.now obligation.now.from store.now worlds.items those }
    ensures judges { IfOk result (λ d. Judges program.now sets.now obligation.now d) }
    ensures paid { IfOk result (λ d. IsPaidFor (length obligation.now.goal.cases) steps.old steps.new d) }
    ensures takes { Takes (judge_budget sets.now obligation.now worlds.items) steps.old steps.new }
    ensures stops { let wide = WideComparison (meaning_of program.now sets.now obligation.now) in
        let most = judge_budget sets.now obligation.now worlds.items in
        IfErr result (GivesUpFor wide most steps.old) }
{
    let _taken = steps.taken();
    let mut certs = Items::new(alloc);
    let mut known = Findings::new(alloc);
    for world in worlds {
        match judge_world(
            alloc, store, program, sets, obligation, goals, &world, &mut known, &certs, steps,
        )? {
            Answer::Included(cert) => {
                let Ok(()) = certs.push(cert) else {
                    return Err(Stop::Memory);
                };
            }
            Answer::Escapes(word) => {
                let source = &sources[world.case as usize];
                let Ok(state) = vector_of(alloc, store, source, word.as_slice()) else {
                    return Err(Stop::Memory);
                };
                return Ok(Decision::Escapes { world, word, state });
            }
        }
    }
    Ok(Decision::Holds(certs))
}
