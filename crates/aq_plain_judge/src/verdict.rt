//! The judge.
ghost use Rattle.std.specs.Prelude.{◌≡◌, ◌≤◌, ◌<◌, ◌⊎◌, ℕ, IfErr, IfOk};
ghost use Rattle.aq_sets.specs.Caps.{capped_sizes};
ghost use Rattle.aq_obligations.specs.Asking.{meaning_of};
ghost use Rattle.aq_obligations.specs.Enough.{enough};
ghost use Rattle.aq_obligations.specs.Wide.{IsWide};
ghost use Rattle.aq_report.specs.Verdicts.{IsJustified};
ghost use Rattle.aq_report.specs.declared.verdict.Verdict.TheVariants as verdict;
ghost use Rattle.aq_report.specs.declared.verdict.Why.TheVariants as why;
ghost use Rattle.aq_worlds.specs.Asked.{CanBeJudged};
ghost use Rattle.aq_worlds.specs.Playing.{StopsFor};

use crate::listing::goal_cases;
use crate::worlds::judge_cases;
use aq_obligations::{Obligation, enough_steps};
use aq_prog::Program;
use aq_report::{Verdict, Why};
use aq_sets::{Sets, Size, sizes_of};
use aq_worlds::Stop;
use std::alloc::Global;

/// Judges the obligation, however many steps that takes.
fn try_judge(
    alloc: Global,
    program: &Program,
    sets: &Sets,
    sizes: &[Size],
    obligation: &Obligation,
) -> Result<Verdict, Stop>
    requires asked { CanBeJudged program.now sets.now obligation.now }
    requires told { sizes.now ≡ capped_sizes sets.now.exprs }
    ensures ok { IfOk result (λ v. (limit enough : ℕ) → IsJustified limit enough
        (meaning_of program.now sets.now obligation.now) v) }
    ensures err { IfErr result (λ e. StopsFor (IsWide (meaning_of program.now sets.now obligation.now)) e) }
{
    let cases = obligation.goal.cases.as_slice();
    let goal = goal_cases(alloc, program, sets, sizes, cases)?;
    match judge_cases(alloc, program, sets, sizes, obligation, goal.as_slice())? {
        None => Ok(Verdict::Verified),
        Some(refutation) => Ok(Verdict::Refuted(refutation)),
    }
}

/// Judges an obligation of the program: whether each run of its statements, from a state of one of its cases, ends in
/// zero or in a nonzero multiple of a vector of a case of the goal whose conditions hold there.
///
/// The verdict is justified. A refutation is that of the first vector which isn't kept, of the first world that has
/// one. `GaveUp(Steps)`: exactly where the limit is below the number of steps that are enough, which is told before
/// any vector is made. `GaveUp(Width)`: a number that is needed doesn't fit. `GaveUp(Memory)`: memory ran out, which
/// may come anywhere.
pub fn judge(
    alloc: Global,
    program: &Program,
    sets: &Sets,
    obligation: &Obligation,
    limit: u64,
) -> Verdict
    requires asked { CanBeJudged program.now sets.now obligation.now }
    requires limit { limit ≤ 1000000000 }
    ensures justified { IsJustified limit (enough program.now sets.now obligation.now)
        (meaning_of program.now sets.now obligation.now) result }
    ensures steps { limit < enough program.now sets.now obligation.now → (result ≡ verdict.GaveUp why.Steps) ⊎
        (result ≡ verdict.GaveUp why.Memory) }
{
    let Ok(sizes) = sizes_of(alloc, sets) else {
        return Verdict::GaveUp(Why::Memory);
    };
    judge_by_sizes(alloc, program, sets, sizes.as_slice(), obligation, limit)
}

/// The same, where the sizes of all expressions are told: for who has several obligations judged.
pub fn judge_by_sizes(
    alloc: Global,
    program: &Program,
    sets: &Sets,
    sizes: &[Size],
    obligation: &Obligation,
    limit: u64,
) -> Verdict
    requires asked { CanBeJudged program.now sets.now obligation.now }
    requires told { sizes.now ≡ capped_sizes sets.now.exprs }
    requires limit { limit ≤ 1000000000 }
    ensures justified { IsJustified limit (enough program.now sets.now obligation.now)
        (meaning_of program.now sets.now obligation.now) result }
    ensures steps { limit < enough program.now sets.now obligation.now → (result ≡ verdict.GaveUp why.Steps) ⊎
        (result ≡ verdict.GaveUp why.Memory) }
{
    let enough = enough_steps(program, sets, sizes, obligation);
    if u128::from(limit) < enough {
        return Verdict::GaveUp(Why::Steps);
    }
    match try_judge(alloc, program, sets, sizes, obligation) {
        Ok(verdict) => verdict,
        Err(Stop::Width) => Verdict::GaveUp(Why::Width),
        Err(Stop::Memory) => Verdict::GaveUp(Why::Memory),
    }
}
