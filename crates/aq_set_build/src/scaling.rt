//! Trees whose amplitudes are all multiplied by one.
ghost use Rattle.std.specs.Prelude.{◌≡◌, ℕ, ◌+◌, ◌-◌, ◌*◌, ◌<◌, ◌≤◌, ◌++◌, [], length, drop, IfOk, IfErr, OnOk};
ghost use Rattle.aq_store.specs.Means.{Means, of_place};
ghost use Rattle.aq_store.specs.Memos.{memo_at};
ghost use Rattle.aq_store.specs.Nodes.{HasShape, IsLeaf, total_cost};
ghost use Rattle.aq_set_build.specs.Growth.{Grows, StopsFor};
ghost use Rattle.aq_set_build.specs.Budgets.{walk_budget};
ghost use Rattle.aq_set_build.specs.Products.{IsScaled};
ghost use Rattle.aq_set_build.specs.Tensors.{IsScaleMemo, IsScaleCause};

use aq_ring::Amp;
use aq_store::{Id, Memo, Pairs, Steps, Stop, Store};
use std::alloc::Global;

/// The leaf with the product of the factor and a leaf's amplitude.
fn scale_leaf(
    store: &mut Store<Amp>,
    factor: Amp,
    id: Id,
    steps: &mut Steps,
) -> Result<Id, Stop<Amp>>
    requires leaf { IsLeaf store.old id }
    requires paid { total_cost store.old ≤ steps.old.taken }
    ensures made { IfOk result (Means (of_place (IsScaled factor) store.old id) store.new []) }
    ensures grows { Grows 1 store.old store.new steps.old steps.new }
    ensures stops { IfErr result (StopsFor (IsScaleCause factor store.old id) 1 steps.old steps.new) }
{
    let amp = store.label(id);
    let Some(product) = factor.product(amp) else {
        return Err(Stop::WideParts {
            left: factor,
            right: amp,
        });
    };
    let made = store.leaf(product, steps)?;
    Ok(made)
}

/// A node at a depth, with each amplitude multiplied by the factor. The memo has nodes that were met before.
#[cycle(scale)]
pub(crate) fn scale_at(
    alloc: Global,
    store: &mut Store<Amp>,
    memo: &mut Memo,
    factor: Amp,
    shape: &[u32],
    depth: usize,
    id: Id,
    steps: &mut Steps,
) -> Result<Id, Stop<Amp>>
    requires shape { HasShape store.old (drop depth shape.now) id }
    requires deep { depth ≤ length shape.now }
    requires memo { IsScaleMemo factor store.old (memo_at memo.old) }
    requires paid { total_cost store.old ≤ steps.old.taken }
    ensures made { IfOk result (Means (of_place (IsScaled factor) store.old id) store.new (drop depth shape.now)) }
    ensures memo { OnOk result (IsScaleMemo factor store.new (memo_at memo.new)) }
    ensures grows { Grows (walk_budget 1 (drop depth shape.now)) store.old store.new steps.old steps.new }
    ensures stops { let cause = IsScaleCause factor store.old id in
        IfErr result (StopsFor cause (walk_budget 1 (drop depth shape.now)) steps.old steps.new) }
{
    if depth == shape.len() {
        let made = scale_leaf(store, factor, id, steps)?;
        return Ok(made);
    }
    if let Some(made) = memo.get(id) {
        return Ok(made);
    }
    let made = scale_node(alloc, store, memo, factor, shape, depth, id, steps)?;
    memo.put(id, made, steps)?;
    Ok(made)
}

/// The same of a node that isn't a leaf, and that the memo hasn't yet.
#[cycle(scale)]
fn scale_node(
    alloc: Global,
    store: &mut Store<Amp>,
    memo: &mut Memo,
    factor: Amp,
    shape: &[u32],
    depth: usize,
    id: Id,
    steps: &mut Steps,
) -> Result<Id, Stop<Amp>>
    requires shape { HasShape store.old (drop depth shape.now) id }
    requires deep { depth < length shape.now }
    requires memo { IsScaleMemo factor store.old (memo_at memo.old) }
    requires paid { total_cost store.old ≤ steps.old.taken }
    ensures made { IfOk result (Means (of_place (IsScaled factor) store.old id) store.new (drop depth shape.now)) }
    ensures memo { OnOk result (IsScaleMemo factor store.new (memo_at memo.new)) }
    ensures grows { Grows (walk_budget 1 (drop depth shape.now) - 1) store.old store.new steps.old steps.new }
    ensures stops { let cause = IsScaleCause factor store.old id in
        IfErr result (StopsFor cause (walk_budget 1 (drop depth shape.now) - 1) steps.old steps.new) }
{
    let mut pairs = Pairs::new(alloc);
    for index in 0..store.run_count(id) {
        let ((left, right), count) = store.run(id, index);
        let first = scale_at(alloc, store, memo, factor, shape, depth + 1, left, steps)?;
        let second = scale_at(alloc, store, memo, factor, shape, depth + 1, right, steps)?;
        let Ok(()) = pairs.push((first, second), count) else {
            return Err(Stop::Memory);
        };
    }
    let made = store.node_of(pairs, steps)?;
    Ok(made)
}
