//! The automata of cases.
ghost use Rattle.std.specs.Prelude.{◌≤◌, ◌<◌, All, length, IfOk, IfErr, OnOk};
ghost use Rattle.aq_sets.specs.Valid.{IsValidSets};
ghost use Rattle.aq_store.specs.Nodes.{total_cost};
ghost use Rattle.aq_obligations.specs.Asking.{products_in};
ghost use Rattle.aq_set_build.specs.Built.{IsBuildMemo, built_at};
ghost use Rattle.aq_set_build.specs.Growth.{Grows, StopsFor};
ghost use Rattle.aq_set_build.specs.Products.{IsWideAmong};
ghost use Rattle.aq_decide.specs.Budgets.{build_all};
ghost use Rattle.aq_decide.specs.Goals.{AreMade};

use aq_obligations::BoundCase;
use aq_ring::Amp;
use aq_set_build::{Built, build_with};
use aq_sets::Sets;
use aq_store::{Lsta, Steps, Stop, Store};
use std::alloc::Global;

/// The automata of the cases' expressions, in order. What several cases name is made once, and what the memo has isn't
/// made again. Nodes of the store keep their meaning, also where the call gives up.
///
/// `WideParts` has operands of a product that a tensor or a power of one of the expressions takes and that doesn't fit,
/// and `Ok` comes only where each such product fits. `Spent`: `build_all` is more steps than were left.
pub fn automata(
    alloc: Global,
    store: &mut Store<Amp>,
    memo: &mut Built,
    sets: &Sets,
    cases: &[BoundCase],
    steps: &mut Steps,
) -> Result<Vec<Lsta>, Stop<Amp>>
    requires valid { IsValidSets sets.now }
    requires there { All (λ c. c.set < length sets.now.exprs) cases.now }
    requires memo { IsBuildMemo sets.now.exprs store.old (built_at memo.old) }
    requires paid { total_cost store.old ≤ steps.old.taken }
    ensures made { IfOk result (λ list. AreMade sets.now cases.now store.new list.items) }
    ensures memo { OnOk result (IsBuildMemo sets.now.exprs store.new (built_at memo.new)) }
    ensures grows { Grows (build_all sets.now cases.now) store.old store.new steps.old steps.new }
    ensures stops { IfErr result (StopsFor (IsWideAmong (products_in sets.now cases.now)) (build_all sets.now cases.now)
        steps.old steps.new) }
{
    let mut list = Vec::new(alloc);
    for case in cases {
        let made = build_with(alloc, store, memo, sets, case.set, steps)?;
        let Ok(()) = list.push(made) else {
            return Err(Stop::Memory);
        };
    }
    Ok(list)
}
