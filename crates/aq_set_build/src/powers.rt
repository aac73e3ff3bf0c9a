//! Powers of automata.
ghost use Rattle.std.specs.Prelude.{◌≡◌, ℕ, ◌+◌, ◌-◌, ◌*◌, ◌<◌, ◌≤◌, IfOk, IfErr};
ghost use Rattle.std.specs.List.{repeat};
ghost use Rattle.aq_store.specs.Nodes.{FitsStore, total_cost};
ghost use Rattle.aq_set_build.specs.Growth.{Grows, StopsFor};
ghost use Rattle.aq_set_build.specs.Budgets.{weight};
ghost use Rattle.aq_set_build.specs.Powers.{IsPower, IsPowerCause};

use crate::tensors::tensor;
use aq_ring::Amp;
use aq_store::{Lsta, Steps, Stop, Store};
use std::alloc::Global;

/// The tensor product of so many times an automaton, at least two, from the left to the right. Nodes of the store keep
/// their meaning, also where the call gives up.
///
/// `WideParts` has an entry of a vector of fewer times the base and one of the base whose product doesn't fit, and `Ok`
/// comes only where each such product fits.
pub fn power(
    alloc: Global,
    store: &mut Store<Amp>,
    base: &Lsta,
    times: u32,
    steps: &mut Steps,
) -> Result<Lsta, Stop<Amp>>
    requires fits { FitsStore store.old base.now }
    requires some { 2 ≤ times }
    requires paid { total_cost store.old ≤ steps.old.taken }
    ensures made { IfOk result (IsPower times store.old store.new base.now) }
    ensures grows { let most = (times - 1) * (2 * weight (repeat times base.now.shape.items)) in
        Grows most store.old store.new steps.old steps.new }
    ensures stops { let most = (times - 1) * (2 * weight (repeat times base.now.shape.items)) in
        IfErr result (StopsFor (IsPowerCause times store.old base.now) most steps.old steps.new) }
{
    let mut made = tensor(alloc, store, base, base, steps)?;
    for done in 2..times {
        made = tensor(alloc, store, &made, base, steps)?;
    }
    Ok(made)
}
