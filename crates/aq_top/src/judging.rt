//! Obligations judged in order, each verdict written before the next obligation is judged.
ghost use Rattle.std.specs.Prelude.{◌≡◌, ◌≤◌, ◌++◌, ◌∷◌, [], All, IfOk, List, length};
ghost use Rattle.aq_base.specs.Limits.{most_obligations, most_steps_asked};
ghost use Rattle.aq_prog.specs.Programs.{IsValidProgram};
ghost use Rattle.aq_sets.specs.Valid.{IsValidSets};
ghost use Rattle.aq_obligations.specs.Asking.{meaning_of};
ghost use Rattle.aq_obligations.specs.Bound.{IsBoundObligation};
ghost use Rattle.aq_obligations.specs.Enough.{enough};
ghost use Rattle.aq_world.specs.Prints.{Prints};
ghost use Rattle.aq_report.specs.Texts.{counts_text, lines_from, report};
ghost use Rattle.aq_report.specs.Verdicts.{IsJustified};
ghost use Rattle.aq_report.specs.declared.verdict.Verdict.{Verdict as VerdictValue};
ghost use Rattle.aq_top.specs.Ends.{status_of};
ghost use Rattle.aq_top.specs.Judging.{CountsVerdicts, EndsWithVerdicts, IsTally, PrintsVerdicts, verdicts_status};

use crate::status::Status;
use aq_judge::{Judged, judge};
use aq_obligations::Obligation;
use aq_prog::Program;
use aq_report::{Verdict, print_summary, print_verdict};
use aq_sets::Sets;
use aq_world::{Sink, SinkFault};
use sqlite_items::Items;
use std::alloc::Global;

/// A program with its sets and its obligations.
#[derive(Debug, Drop)]
pub(crate) struct Loaded {
    pub(crate) program: Program,
    pub(crate) sets: Sets,
    pub(crate) obligations: Items<Obligation>,
}

/// How many verdicts there were of each kind.
#[derive(Clone, Copy, Debug)]
pub(crate) struct Tally {
    pub(crate) verified: u32,
    pub(crate) refuted: u32,
    pub(crate) gave_up: u32,
}

/// With one verdict more.
fn counted(tally: Tally, verdict: &Verdict) -> Tally
    ensures { (vs : List VerdictValue) → length vs ≤ most_obligations → IsTally tally vs
        → IsTally result (vs ++ verdict.now ∷ []) }
{
    let Tally {
        verified,
        refuted,
        gave_up,
    } = tally;
    match verdict {
        Verdict::Verified => Tally {
            verified: verified.saturating_add(1),
            refuted,
            gave_up,
        },
        Verdict::Refuted(_) => Tally {
            verified,
            refuted: refuted.saturating_add(1),
            gave_up,
        },
        Verdict::GaveUp(_) => Tally {
            verified,
            refuted,
            gave_up: gave_up.saturating_add(1),
        },
    }
}

/// The status of a report with so many verdicts.
pub(crate) fn tally_status(tally: Tally) -> Status
    ensures { (vs : List VerdictValue) → IsTally tally vs → result ≡ verdicts_status vs }
{
    if tally.refuted > 0 {
        Status::Refuted
    } else if tally.gave_up > 0 {
        Status::GaveUp
    } else {
        Status::Good
    }
}

/// No verdict.
fn no_verdicts() -> Tally
    ensures { IsTally result [] }
{
    Tally {
        verified: 0,
        refuted: 0,
        gave_up: 0,
    }
}

/// The verdict on one of the obligations.
fn verdict_on(alloc: Global, loaded: &Loaded, obligation: &Obligation, limit: u64) -> Verdict
    requires program { IsValidProgram loaded.now.program }
    requires sets { IsValidSets loaded.now.sets }
    requires bound { IsBoundObligation loaded.now.program loaded.now.sets obligation.now }
    requires limit { limit ≤ most_steps_asked }
    ensures { IsJustified limit (enough loaded.now.program loaded.now.sets obligation.now)
        (meaning_of loaded.now.program loaded.now.sets obligation.now) result }
{
    let Judged {
        verdict,
        certs: _certs,
    } = judge(alloc, &loaded.program, &loaded.sets, obligation, limit);
    verdict
}

/// Judges the obligations in order, and counts the verdicts.
pub(crate) fn count_verdicts(alloc: Global, loaded: &Loaded, limit: u64) -> Tally
    requires program { IsValidProgram loaded.now.program }
    requires sets { IsValidSets loaded.now.sets }
    requires bound { All (IsBoundObligation loaded.now.program loaded.now.sets) loaded.now.obligations }
    requires few { length loaded.now.obligations ≤ most_obligations }
    requires limit { limit ≤ most_steps_asked }
    ensures { CountsVerdicts limit loaded.now.program loaded.now.sets loaded.now.obligations result }
{
    let mut counts = no_verdicts();
    for owed in loaded.obligations.as_slice() {
        let verdict = verdict_on(alloc, loaded, owed, limit);
        counts = counted(counts, &verdict);
    }
    counts
}

/// Judges the obligations in order, and prints the lines of each verdict before the next is judged.
fn print_verdicts<K: Sink>(
    alloc: Global,
    loaded: &Loaded,
    steps: u64,
    out: &mut K,
) -> Result<Tally, SinkFault>
    requires program { IsValidProgram loaded.now.program }
    requires sets { IsValidSets loaded.now.sets }
    requires bound { All (IsBoundObligation loaded.now.program loaded.now.sets) loaded.now.obligations }
    requires few { length loaded.now.obligations ≤ most_obligations }
    requires steps { steps ≤ most_steps_asked }
    ensures { PrintsVerdicts K.meaning out.old out.new steps loaded.now.program loaded.now.sets loaded.now.obligations
        (lines_from 1 loaded.now.obligations) result }
{
    let mut tally = Tally {
        verified: 0,
        refuted: 0,
        gave_up: 0,
    };
    for (index, obligation) in loaded.obligations.as_slice().iter().enumerate() {
        let verdict = verdict_on(alloc, loaded, obligation, steps);
        print_verdict(out, index as u32 + 1, &obligation.goal, &verdict)?;
        tally = counted(tally, &verdict);
    }
    Ok(tally)
}

/// Prints the counts.
fn print_counts<K: Sink>(out: &mut K, tally: Tally) -> Result<Tally, SinkFault>
    ensures prints { (vs : List VerdictValue) → IsTally tally vs
        → Prints K.meaning out.old out.new result (counts_text vs) }
    ensures same { IfOk result (λ t. t ≡ tally) }
{
    print_summary(out, tally.verified, tally.refuted, tally.gave_up)?;
    Ok(tally)
}

/// Prints the report.
fn print_report<K: Sink>(
    alloc: Global,
    loaded: &Loaded,
    steps: u64,
    out: &mut K,
) -> Result<Tally, SinkFault>
    requires program { IsValidProgram loaded.now.program }
    requires sets { IsValidSets loaded.now.sets }
    requires bound { All (IsBoundObligation loaded.now.program loaded.now.sets) loaded.now.obligations }
    requires few { length loaded.now.obligations ≤ most_obligations }
    requires steps { steps ≤ most_steps_asked }
    ensures { PrintsVerdicts K.meaning out.old out.new steps loaded.now.program loaded.now.sets loaded.now.obligations
        (report loaded.now.obligations) result }
{
    let tally = print_verdicts(alloc, loaded, steps, out)?;
    print_counts(out, tally)
}

/// The status after the report was printed.
fn report_status(printed: Result<Tally, SinkFault>) -> Status
    ensures { (vs : List VerdictValue) → IfOk printed (λ t. IsTally t vs)
        → result ≡ status_of printed (verdicts_status vs) }
{
    match printed {
        Ok(tally) => tally_status(tally),
        Err(SinkFault::Failed) => Status::Write,
        Err(SinkFault::Memory) => Status::Memory,
    }
}

/// Judges the obligations in order and says the report.
pub(crate) fn say_report<K: Sink>(alloc: Global, loaded: &Loaded, steps: u64, out: &mut K) -> Status
    requires program { IsValidProgram loaded.now.program }
    requires sets { IsValidSets loaded.now.sets }
    requires bound { All (IsBoundObligation loaded.now.program loaded.now.sets) loaded.now.obligations }
    requires few { length loaded.now.obligations ≤ most_obligations }
    requires steps { steps ≤ most_steps_asked }
    ensures { EndsWithVerdicts K.meaning out.old out.new steps loaded.now.program loaded.now.sets
        loaded.now.obligations (report loaded.now.obligations) result }
{
    report_status(print_report(alloc, loaded, steps, out))
}
