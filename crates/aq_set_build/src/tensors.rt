//! Tensor products of automata.
ghost use Rattle.std.specs.Prelude.{◌≡◌, ℕ, ◌+◌, ◌-◌, ◌*◌, ◌<◌, ◌≤◌, ◌++◌, [], length, drop, IfOk, IfErr, OnOk};
ghost use Rattle.aq_store.specs.Means.{Means};
ghost use Rattle.aq_store.specs.Memos.{memo_at};
ghost use Rattle.aq_store.specs.Nodes.{FitsStore, HasShape, IsLeaf, total_cost};
ghost use Rattle.aq_set_build.specs.Growth.{Grows, StopsFor};
ghost use Rattle.aq_set_build.specs.Budgets.{walk_budget, weight};
ghost use Rattle.aq_set_build.specs.Tensors.{IsHung, IsHangMemo, IsHangCause, IsTensor, IsTensorCause};

use crate::scaling::scale_at;
use aq_ring::Amp;
use aq_store::{Id, Lsta, Memo, Pairs, Steps, Stop, Store};
use std::alloc::Global;

/// A leaf, with the automaton in its place whose amplitudes are multiplied by the leaf's.
fn hang_leaf(
    alloc: Global,
    store: &mut Store<Amp>,
    below: &Lsta,
    id: Id,
    steps: &mut Steps,
) -> Result<Id, Stop<Amp>>
    requires leaf { IsLeaf store.old id }
    requires below { FitsStore store.old below.now }
    requires paid { total_cost store.old ≤ steps.old.taken }
    ensures made { IfOk result (Means (IsHung store.old below.now [] id) store.new below.now.shape.items) }
    ensures grows { Grows (walk_budget 1 below.now.shape.items) store.old store.new steps.old steps.new }
    ensures stops { let cause = IsHangCause store.old below.now id in
        IfErr result (StopsFor cause (walk_budget 1 below.now.shape.items) steps.old steps.new) }
{
    let factor = store.label(id);
    let mut memo = Memo::new(alloc);
    let shape = below.shape.as_slice();
    let made = scale_at(alloc, store, &mut memo, factor, shape, 0, below.root, steps)?;
    Ok(made)
}

/// A node at a depth, with the automaton hung below each leaf. The memo has nodes that were met before.
#[cycle(hang)]
fn hang_at(
    alloc: Global,
    store: &mut Store<Amp>,
    memo: &mut Memo,
    shape: &[u32],
    below: &Lsta,
    depth: usize,
    id: Id,
    steps: &mut Steps,
) -> Result<Id, Stop<Amp>>
    requires shape { HasShape store.old (drop depth shape.now) id }
    requires below { FitsStore store.old below.now }
    requires deep { depth ≤ length shape.now }
    requires memo { IsHangMemo store.old below.now (memo_at memo.old) }
    requires paid { total_cost store.old ≤ steps.old.taken }
    ensures made { let above = drop depth shape.now in
        IfOk result (Means (IsHung store.old below.now above id) store.new (above ++ below.now.shape.items)) }
    ensures memo { OnOk result (IsHangMemo store.new below.now (memo_at memo.new)) }
    ensures grows { let most = walk_budget (walk_budget 1 below.now.shape.items + 1) (drop depth shape.now) in
        Grows most store.old store.new steps.old steps.new }
    ensures stops { let most = walk_budget (walk_budget 1 below.now.shape.items + 1) (drop depth shape.now) in
        IfErr result (StopsFor (IsHangCause store.old below.now id) most steps.old steps.new) }
{
    if let Some(made) = memo.get(id) {
        return Ok(made);
    }
    let made = hang_new(alloc, store, memo, shape, below, depth, id, steps)?;
    memo.put(id, made, steps)?;
    Ok(made)
}

/// The same of a node that the memo hasn't yet.
#[cycle(hang)]
fn hang_new(
    alloc: Global,
    store: &mut Store<Amp>,
    memo: &mut Memo,
    shape: &[u32],
    below: &Lsta,
    depth: usize,
    id: Id,
    steps: &mut Steps,
) -> Result<Id, Stop<Amp>>
    requires shape { HasShape store.old (drop depth shape.now) id }
    requires below { FitsStore store.old below.now }
    requires deep { depth ≤ length shape.now }
    requires memo { IsHangMemo store.old below.now (memo_at memo.old) }
    requires paid { total_cost store.old ≤ steps.old.taken }
    ensures made { let above = drop depth shape.now in
        IfOk result (Means (IsHung store.old below.now above id) store.new (above ++ below.now.shape.items)) }
    ensures memo { OnOk result (IsHangMemo store.new below.now (memo_at memo.new)) }
    ensures grows { let most = walk_budget (walk_budget 1 below.now.shape.items + 1) (drop depth shape.now) in
        Grows (most - 1) store.old store.new steps.old steps.new }
    ensures stops { let most = walk_budget (walk_budget 1 below.now.shape.items + 1) (drop depth shape.now) in
        IfErr result (StopsFor (IsHangCause store.old below.now id) (most - 1) steps.old steps.new) }
{
    if depth == shape.len() {
        let made = hang_leaf(alloc, store, below, id, steps)?;
        return Ok(made);
    }
    let mut pairs = Pairs::new(alloc);
    for index in 0..store.run_count(id) {
        let ((left, right), count) = store.run(id, index);
        let first = hang_at(alloc, store, memo, shape, below, depth + 1, left, steps)?;
        let second = hang_at(alloc, store, memo, shape, below, depth + 1, right, steps)?;
        let Ok(()) = pairs.push((first, second), count) else {
            return Err(Stop::Memory);
        };
    }
    let made = store.node_of(pairs, steps)?;
    Ok(made)
}

/// The levels of two automata, one after the other.
fn joined_shape(alloc: Global, left: &[u32], right: &[u32]) -> Result<Vec<u32>, Stop<Amp>>
    ensures made { IfOk result (λ shape. shape.items ≡ left.now ++ right.now) }
    ensures memory { IfErr result (λ why. why ≡ Stop.Memory) }
{
    let Ok(mut shape) = left.to_vec(alloc) else {
        return Err(Stop::Memory);
    };
    let Ok(()) = shape.extend_from_slice(right) else {
        return Err(Stop::Memory);
    };
    Ok(shape)
}

/// The tensor product of two automata: the levels of the left one and then those of the right one, and of each word the
/// tensor product of the vectors of its two parts. Nodes of the store keep their meaning, also where the call gives up.
///
/// `WideParts` has an entry of a vector of the left and one of the right whose product doesn't fit, and `Ok` comes only
/// where each such product fits.
pub fn tensor(
    alloc: Global,
    store: &mut Store<Amp>,
    left: &Lsta,
    right: &Lsta,
    steps: &mut Steps,
) -> Result<Lsta, Stop<Amp>>
    requires left { FitsStore store.old left.now }
    requires right { FitsStore store.old right.now }
    requires paid { total_cost store.old ≤ steps.old.taken }
    ensures made { IfOk result (IsTensor store.old store.new left.now right.now) }
    ensures grows { let most = 2 * weight (left.now.shape.items ++ right.now.shape.items) in
        Grows most store.old store.new steps.old steps.new }
    ensures stops { let most = 2 * weight (left.now.shape.items ++ right.now.shape.items) in
        IfErr result (StopsFor (IsTensorCause store.old left.now right.now) most steps.old steps.new) }
{
    let mut memo = Memo::new(alloc);
    let shape = left.shape.as_slice();
    let root = hang_at(alloc, store, &mut memo, shape, right, 0, left.root, steps)?;
    let shape = joined_shape(alloc, shape, right.shape.as_slice())?;
    Ok(Lsta { root, shape })
}
