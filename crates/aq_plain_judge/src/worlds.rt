//! The worlds of an obligation, one after the other.
ghost use Rattle.std.specs.Prelude.{◌≡◌, Contains, IfErr, IfOk, map};
ghost use Rattle.std.specs.List.{flat_map};
ghost use Rattle.aq_sets.specs.Caps.{capped_sizes};
ghost use Rattle.aq_correct.specs.WorldLaws.{worlds_of};
ghost use Rattle.aq_obligations.specs.Asking.{case_of, meaning_of};
ghost use Rattle.aq_obligations.specs.Wide.{IsWide};
ghost use Rattle.aq_obligations.specs.Worlds.{worlds};
ghost use Rattle.aq_worlds.specs.Asked.{CanBeJudged};
ghost use Rattle.aq_worlds.specs.Playing.{AreSized, StopsFor, world_of};
ghost use Rattle.aq_plain_judge.specs.Listing.{AreGoal};
ghost use Rattle.aq_plain_judge.specs.Refuting.{Judges};

use crate::find::{Place, first_lost};
use crate::listing::{GoalCase, case_states, into_vec};
use crate::refute::refutation;
use aq_obligations::{BoundCase, Obligation};
use aq_prog::Program;
use aq_report::Refutation;
use aq_sets::{Sets, Size};
use aq_worlds::{PlainWorld, Stop, worlds_of_case};
use std::alloc::Global;

/// Judges the worlds of a case, up to the first that has a vector which isn't kept.
fn judge_worlds(
    alloc: Global,
    program: &Program,
    sets: &Sets,
    sizes: &[Size],
    obligation: &Obligation,
    case: &BoundCase,
    goal: &[GoalCase],
    worlds: &[PlainWorld],
) -> Result<Option<Refutation>, Stop>
    requires asked { CanBeJudged program.now sets.now obligation.now }
    requires told { sizes.now ≡ capped_sizes sets.now.exprs }
    requires listed { Contains obligation.now.from case.now }
    requires goal { AreGoal program.now sets.now obligation.now.goal.cases goal.now }
    requires played { map (world_of (case_of sets.now case.now)) worlds.now
        ≡ worlds_of (meaning_of program.now sets.now obligation.now) (case_of sets.now case.now) }
    requires sized { AreSized program.now.qubits program.now.bits worlds.now }
    ensures ok { IfOk result (λ r. Judges (meaning_of program.now sets.now obligation.now)
        (worlds_of (meaning_of program.now sets.now obligation.now) (case_of sets.now case.now)) r) }
    ensures err { IfErr result (λ e. StopsFor (IsWide (meaning_of program.now sets.now obligation.now)) e) }
{
    for world in worlds {
        match first_lost(world, goal) {
            Place::Kept => {}
            Place::Unclear => return Err(Stop::Width),
            Place::Lost(place) => {
                let shown = refutation(
                    alloc, program, sets, sizes, obligation, case, world, place,
                )?;
                return Ok(Some(shown));
            }
        }
    }
    Ok(None)
}

/// Judges the worlds of a case.
fn judge_case(
    alloc: Global,
    program: &Program,
    sets: &Sets,
    sizes: &[Size],
    obligation: &Obligation,
    case: &BoundCase,
    goal: &[GoalCase],
) -> Result<Option<Refutation>, Stop>
    requires asked { CanBeJudged program.now sets.now obligation.now }
    requires told { sizes.now ≡ capped_sizes sets.now.exprs }
    requires listed { Contains obligation.now.from case.now }
    requires goal { AreGoal program.now sets.now obligation.now.goal.cases goal.now }
    ensures ok { IfOk result (λ r. Judges (meaning_of program.now sets.now obligation.now)
        (worlds_of (meaning_of program.now sets.now obligation.now) (case_of sets.now case.now)) r) }
    ensures err { IfErr result (λ e. StopsFor (IsWide (meaning_of program.now sets.now obligation.now)) e) }
{
    let list = case_states(alloc, sets, sizes, case)?;
    let vectors = into_vec(alloc, list)?;
    let worlds = worlds_of_case(alloc, program, sets, obligation, case, vectors)?;
    judge_worlds(
        alloc,
        program,
        sets,
        sizes,
        obligation,
        case,
        goal,
        worlds.as_slice(),
    )
}

/// Judges the worlds of all cases, in order.
pub(crate) fn judge_cases(
    alloc: Global,
    program: &Program,
    sets: &Sets,
    sizes: &[Size],
    obligation: &Obligation,
    goal: &[GoalCase],
) -> Result<Option<Refutation>, Stop>
    requires asked { CanBeJudged program.now sets.now obligation.now }
    requires told { sizes.now ≡ capped_sizes sets.now.exprs }
    requires goal { AreGoal program.now sets.now obligation.now.goal.cases goal.now }
    ensures ok { IfOk result (λ r. Judges (meaning_of program.now sets.now obligation.now)
        (worlds (meaning_of program.now sets.now obligation.now)) r) }
    ensures err { IfErr result (λ e. StopsFor (IsWide (meaning_of program.now sets.now obligation.now)) e) }
{
    for case in obligation.from.as_slice() {
        let shown = judge_case(alloc, program, sets, sizes, obligation, case, goal)?;
        if shown.is_some() {
            return Ok(shown);
        }
    }
    Ok(None)
}
