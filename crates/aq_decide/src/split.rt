//! Decisions on the bits that the goal asks for.
ghost use Rattle.std.specs.Prelude.{◌≡◌, ◌==◌, ◌<◌, ◌≤◌, ◌+◌, All, filter, [], ◌∷◌, length, IfErr, IfOk};
ghost use Rattle.std.specs.List.{list_any};
ghost use Rattle.aq_store.specs.Stops.{GivesUp};
ghost use Rattle.aq_decide.specs.Budgets.{split_budget};
ghost use Rattle.aq_decide.specs.Splitting.{asked_bits, is_asked};
ghost use Rattle.aq_decide.specs.Splitting.{AreDecided, HaveBits};

use aq_obligations::BoundCase;
use aq_ring::Amp;
use aq_store::{Steps, Stop};
use aq_symbolic::{World, pay, split};
use std::alloc::Global;

fn asks(case: &BoundCase, bit: u32) -> bool
    ensures { result ≡ list_any (λ g. g.bit == bit) case.now.when }
{
    case.when.as_slice().iter().any(|guard| guard.bit == bit)
}

/// Whether a condition of one of the cases is on the bit.
fn any_asks(cases: &[BoundCase], bit: u32) -> bool
    ensures { result ≡ is_asked cases.now bit }
{
    cases.iter().any(|case| asks(case, bit))
}

/// The worlds, split at the bit if a condition is on it. `Spent`: more worlds are added than steps were left.
fn split_asked(
    alloc: Global,
    worlds: Vec<World>,
    cases: &[BoundCase],
    bit: u32,
    bits: u32,
    steps: &mut Steps,
) -> Result<Vec<World>, Stop<Amp>>
    requires sized { HaveBits bits worlds.items }
    requires within { bit < bits }
    ensures decided { let asked = filter (is_asked cases.now) (bit ∷ []) in
        IfOk result (λ list. AreDecided asked worlds.items list.items) }
    ensures left { let most = split_budget cases.now in
        IfOk result (λ list. steps.new.taken + most list.items ≤ steps.old.taken + most worlds.items) }
    ensures later { steps.old.taken ≤ steps.new.taken }
    ensures limit { steps.new.limit ≡ steps.old.limit }
    ensures cheap { steps.new.taken ≤ steps.old.taken + split_budget cases.now worlds.items }
    ensures stops { IfErr result (GivesUp (split_budget cases.now worlds.items) steps.old steps.new) }
{
    if any_asks(cases, bit) {
        let before = worlds.len();
        let Ok(list) = split(alloc, worlds, bit) else {
            return Err(Stop::Memory);
        };
        pay(steps, list.len() - before)?;
        return Ok(list);
    }
    Ok(worlds)
}

/// The worlds, split at each bit that a condition of the cases is on, from bit 0 on. `bits` is the number of their
/// bits. `Spent`: `split_budget` is more steps than were left. It is never `Wide`.
pub(crate) fn split_all(
    alloc: Global,
    worlds: Vec<World>,
    cases: &[BoundCase],
    bits: u32,
    steps: &mut Steps,
) -> Result<Vec<World>, Stop<Amp>>
    requires { HaveBits bits worlds.items }
    ensures decided { IfOk result (λ list. AreDecided (asked_bits cases.now bits) worlds.items list.items) }
    ensures later { steps.old.taken ≤ steps.new.taken }
    ensures limit { steps.new.limit ≡ steps.old.limit }
    ensures cheap { steps.new.taken ≤ steps.old.taken + split_budget cases.now worlds.items }
    ensures stops { IfErr result (GivesUp (split_budget cases.now worlds.items) steps.old steps.new) }
{
    let mut left = worlds;
    for bit in 0..bits {
        left = split_asked(alloc, left, cases, bit, bits, steps)?;
    }
    Ok(left)
}
