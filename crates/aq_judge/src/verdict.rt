//! The judge.
ghost use Rattle.std.specs.Prelude.{◌≤◌, IfErr, IfOk};
ghost use Rattle.aq_obligations.specs.Asking.{meaning_of};
ghost use Rattle.aq_obligations.specs.Enough.{enough};
ghost use Rattle.aq_report.specs.Verdicts.{IsJustified};
ghost use Rattle.aq_report.specs.declared.verdict.Verdict.TheVariants as verdict;
ghost use Rattle.aq_decide.specs.Asked.{CanBeDecided};
ghost use Rattle.aq_judge.specs.Certified.{HasItsCerts};

use crate::judged::Judged;
use crate::refute::refutation;
use aq_correct::laws;
use aq_decide::{Decision, decide};
use aq_obligations::Obligation;
use aq_prog::Program;
use aq_report::{Verdict, Why};
use aq_sets::Sets;
use aq_store::{Steps, Stop};
use sqlite_items::Items;
use std::alloc::Global;

/// Judges the obligation, unless it is given up.
#[tactic(auto, using(crate::proofs::VerdictLaws::certs_within, crate::proofs::VerdictLaws::shown, crate::proofs::VerdictLaws::gives_up))]
fn try_judge(
    alloc: Global,
    program: &Program,
    sets: &Sets,
    obligation: &Obligation,
    limit: u64,
) -> Result<Judged, Why>
    requires asked { CanBeDecided program.now sets.now obligation.now }
    requires limit { limit ≤ 1000000000 }
    ensures justified { let enough = enough program.now sets.now obligation.now in
        let meaning = meaning_of program.now sets.now obligation.now in
        IfOk result (λ j. IsJustified limit enough meaning j.verdict) }
    ensures certified { IfOk result (HasItsCerts limit program.now sets.now obligation.now) }
    ensures gives_up { let enough = enough program.now sets.now obligation.now in
        let meaning = meaning_of program.now sets.now obligation.now in
        IfErr result (λ why. IsJustified limit enough meaning (verdict.GaveUp why)) }
{
    laws::worlds();
    let mut steps = Steps::new(limit);
    let decided = decide(alloc, program, sets, obligation, &mut steps);
    let _taken = steps.taken();
    match decided {
        Ok(Decision::Holds(certs)) => Ok(Judged {
            verdict: Verdict::Verified,
            certs,
        }),
        Ok(Decision::Escapes { world, state, .. }) => {
            let refutation = refutation(alloc, program, sets, obligation, world, state)?;
            Ok(Judged {
                verdict: Verdict::Refuted(refutation),
                certs: Items::new(alloc),
            })
        }
        Err(Stop::Spent) => Err(Why::Steps),
        Err(Stop::Wide { .. }) => Err(Why::Width),
        Err(Stop::WideParts { .. }) => Err(Why::Width),
        Err(Stop::Memory) => Err(Why::Memory),
    }
}

/// Judges an obligation of the program: whether each run of its statements, from a state of one of its cases, ends in
/// zero or in a nonzero multiple of a vector of a case of the goal whose conditions hold there.
///
/// The verdict is justified. Verified: there is a valid certificate for each world, in order, and neither a gate nor a
/// product of a set was wide. A refutation is that of the first vector which isn't kept, of the first world that has
/// one. `GaveUp(Steps)`: only where the limit is below the number of steps that are enough. `GaveUp(Width)`: a number
/// that is needed doesn't fit. `GaveUp(Memory)`: memory ran out, which may come anywhere.
pub fn judge(
    alloc: Global,
    program: &Program,
    sets: &Sets,
    obligation: &Obligation,
    limit: u64,
) -> Judged
    requires asked { CanBeDecided program.now sets.now obligation.now }
    requires limit { limit ≤ 1000000000 }
    ensures justified { IsJustified limit (enough program.now sets.now obligation.now)
        (meaning_of program.now sets.now obligation.now) result.verdict }
    ensures certified { HasItsCerts limit program.now sets.now obligation.now result }
{
    match try_judge(alloc, program, sets, obligation, limit) {
        Ok(judged) => judged,
        Err(why) => Judged {
            verdict: Verdict::GaveUp(why),
            certs: Items::new(alloc),
        },
    }
}
