ghost use Rattle.std.specs.Prelude.{◌≡◌, ℕ, ◌+◌, ◌*◌, ◌^◌, ◌<◌, ◌≤◌, length, drop, IfOk, IfErr, OnOk, IsTrue};
ghost use Rattle.aq_store.specs.Nodes.{Extends, FitsStore, HasShape, total_cost};
ghost use Rattle.aq_store.specs.Means.{Means, MeansPair, of_place, of_pair};
ghost use Rattle.aq_store.specs.Memos.{memo_at, is_done};
ghost use Rattle.aq_store.specs.Accounts.{HoldPlace, HoldPair, TakesOwed, PaysOwed, StopsOwed};
ghost use Rattle.aq_store.specs.Stops.{GivesUp};
ghost use Rattle.aq_store.specs.Words.{words};
ghost use Rattle.aq_measure_ops.specs.Projection.{IsBlank, IsFresh, IsMemo, IsProjected, IsProjecting, Projects};

use crate::blank::blank_from;
use aq_label::Label;
use aq_store::{Id, Lsta, Memo, Pairs, Steps, Stop, Store};
use std::alloc::Global;

/// What a projection has made of nodes so far: a memo that many automata may share.
#[derive(Drop)]
pub struct Projecting {
    nodes: Memo,
}

impl Projecting {
    /// Nothing is done.
    pub fn new(alloc: Global) -> Projecting
        ensures { IsFresh result }
    {
        Projecting {
            nodes: Memo::new(alloc),
        }
    }
}

/// The projection of a node at a depth that is no deeper than the qubit's. The zero is a tree of zeros for the
/// depth below the qubit's, and the memo has the projections of nodes that were met before.
#[cycle(project)]
fn project_at<L: Label>(
    alloc: Global,
    store: &mut Store<L>,
    memo: &mut Memo,
    shape: &[u32],
    qubit: u32,
    outcome: bool,
    zero: Id,
    depth: u32,
    id: Id,
    steps: &mut Steps,
) -> Result<Id, Stop<L>>
    requires shape { HasShape store.old (drop depth shape.now) id }
    requires deep { depth ≤ qubit }
    requires qubit { qubit < length shape.now }
    requires zero { IsBlank L.parts store.old (drop (qubit + 1) shape.now) zero }
    requires memo { IsMemo L.parts qubit outcome (length shape.now) store.old (memo_at memo.old) }
    requires paid { total_cost store.old ≤ steps.old.taken }
    ensures image { let change = of_place (Projects L.parts (length shape.now) qubit outcome) store.old id in
        IfOk result (λ made. Means change store.new (drop depth shape.now) made) }
    ensures memo { OnOk result (IsMemo L.parts qubit outcome (length shape.now) store.new (memo_at memo.new)) }
    ensures done { (q : ℕ) → IsTrue (is_done (memo_at memo.old) q) → IsTrue (is_done (memo_at memo.new) q) }
    ensures keeps { Extends store.old store.new }
    ensures paid { total_cost store.new ≤ steps.new.taken }
    ensures limit { steps.new.limit ≡ steps.old.limit }
    ensures cheap { let below = drop depth shape.now in
        TakesOwed (HoldPlace store.old below id) below (memo_at memo.old) steps.old steps.new }
    ensures steps { let below = drop depth shape.now in
        let holds = HoldPlace store.old below id in
        OnOk result (PaysOwed holds below (memo_at memo.old) (memo_at memo.new) steps.old steps.new) }
    ensures refused { let below = drop depth shape.now in
        IfErr result (StopsOwed (HoldPlace store.old below id) below (memo_at memo.old) steps.old steps.new) }
{
    if let Some(made) = memo.get(id) {
        return Ok(made);
    }
    let mut pairs = Pairs::new(alloc);
    for index in 0..store.run_count(id) {
        let (pair, count) = store.run(id, index);
        let made = project_pair(
            alloc, store, memo, shape, qubit, outcome, zero, depth, pair, steps,
        )?;
        let Ok(()) = pairs.push(made, count) else {
            return Err(Stop::Memory);
        };
    }
    let made = store.node_of(pairs, steps)?;
    memo.put(id, made, steps)?;
    Ok(made)
}

/// The projection of a pair of a node at this depth: at the qubit's own depth one side becomes zero, and above it
/// both sides are projected.
#[cycle(project)]
fn project_pair<L: Label>(
    alloc: Global,
    store: &mut Store<L>,
    memo: &mut Memo,
    shape: &[u32],
    qubit: u32,
    outcome: bool,
    zero: Id,
    depth: u32,
    pair: (Id, Id),
    steps: &mut Steps,
) -> Result<(Id, Id), Stop<L>>
    requires left { HasShape store.old (drop (depth + 1) shape.now) pair.0 }
    requires right { HasShape store.old (drop (depth + 1) shape.now) pair.1 }
    requires deep { depth ≤ qubit }
    requires qubit { qubit < length shape.now }
    requires zero { IsBlank L.parts store.old (drop (qubit + 1) shape.now) zero }
    requires memo { IsMemo L.parts qubit outcome (length shape.now) store.old (memo_at memo.old) }
    requires paid { total_cost store.old ≤ steps.old.taken }
    ensures image { let change = of_pair (Projects L.parts (length shape.now) qubit outcome) store.old pair in
        IfOk result (λ made. MeansPair change store.new (drop (depth + 1) shape.now) made) }
    ensures memo { OnOk result (IsMemo L.parts qubit outcome (length shape.now) store.new (memo_at memo.new)) }
    ensures done { (q : ℕ) → IsTrue (is_done (memo_at memo.old) q) → IsTrue (is_done (memo_at memo.new) q) }
    ensures keeps { Extends store.old store.new }
    ensures paid { total_cost store.new ≤ steps.new.taken }
    ensures limit { steps.new.limit ≡ steps.old.limit }
    ensures cheap { let below = drop (depth + 1) shape.now in
        TakesOwed (HoldPair store.old below pair) below (memo_at memo.old) steps.old steps.new }
    ensures steps { let below = drop (depth + 1) shape.now in
        let holds = HoldPair store.old below pair in
        OnOk result (PaysOwed holds below (memo_at memo.old) (memo_at memo.new) steps.old steps.new) }
    ensures refused { let below = drop (depth + 1) shape.now in
        IfErr result (StopsOwed (HoldPair store.old below pair) below (memo_at memo.old) steps.old steps.new) }
{
    let (left, right) = pair;
    if depth == qubit {
        return Ok(if outcome { (zero, right) } else { (left, zero) });
    }
    let first = project_at(
        alloc,
        store,
        memo,
        shape,
        qubit,
        outcome,
        zero,
        depth + 1,
        left,
        steps,
    )?;
    let second = project_at(
        alloc,
        store,
        memo,
        shape,
        qubit,
        outcome,
        zero,
        depth + 1,
        right,
        steps,
    )?;
    Ok((first, second))
}

/// An automaton of the same shape, whose vector of each word is the projection of the vector of that word: what has
/// the outcome as the qubit's digit stays, and all else is zero. It gives up for want of steps or of memory alone,
/// and nodes of the store keep their meaning.
///
/// The memo is of this qubit and outcome and of automata of as many levels, and their shapes may differ. It stays so
/// unless the call gives up.
pub fn project_with<L: Label>(
    alloc: Global,
    store: &mut Store<L>,
    projecting: &mut Projecting,
    lsta: &Lsta,
    qubit: u32,
    outcome: bool,
    steps: &mut Steps,
) -> Result<Lsta, Stop<L>>
    requires fits { FitsStore store.old lsta.now }
    requires qubit { qubit < length lsta.now.shape.items }
    requires memo { let levels = length lsta.now.shape.items in
        IsProjecting L.parts qubit outcome levels store.old projecting.old }
    requires paid { total_cost store.old ≤ steps.old.taken }
    ensures projected { IfOk result (λ made. IsProjected L.parts qubit outcome store.old store.new lsta.now made) }
    ensures memo { let levels = length lsta.now.shape.items in
        OnOk result (IsProjecting L.parts qubit outcome levels store.new projecting.new) }
    ensures keeps { Extends store.old store.new }
    ensures paid { total_cost store.new ≤ steps.new.taken }
    ensures limit { steps.new.limit ≡ steps.old.limit }
    ensures steps { let shape = lsta.now.shape.items in
        steps.new.taken ≤ steps.old.taken + 2 * words shape * 2 ^ (length shape + 1) }
    ensures refused { let shape = lsta.now.shape.items in
        IfErr result (GivesUp (2 * words shape * 2 ^ (length shape + 1)) steps.old steps.new) }
{
    let shape = lsta.shape.as_slice();
    let zero = blank_from(alloc, store, shape, qubit as usize + 1, steps)?;
    let root = project_at(
        alloc,
        store,
        &mut projecting.nodes,
        shape,
        qubit,
        outcome,
        zero,
        0,
        lsta.root,
        steps,
    )?;
    let Ok(shape) = shape.to_vec(alloc) else {
        return Err(Stop::Memory);
    };
    Ok(Lsta { root, shape })
}

/// An automaton of the same shape, whose vector of each word is the projection of the vector of that word: what has
/// the outcome as the qubit's digit stays, and all else is zero. It gives up for want of steps or of memory alone,
/// and nodes of the store keep their meaning.
pub fn project<L: Label>(
    alloc: Global,
    store: &mut Store<L>,
    lsta: &Lsta,
    qubit: u32,
    outcome: bool,
    steps: &mut Steps,
) -> Result<Lsta, Stop<L>>
    requires fits { FitsStore store.old lsta.now }
    requires qubit { qubit < length lsta.now.shape.items }
    requires paid { total_cost store.old ≤ steps.old.taken }
    ensures projected { IfOk result (λ made. IsProjected L.parts qubit outcome store.old store.new lsta.now made) }
    ensures keeps { Extends store.old store.new }
    ensures paid { total_cost store.new ≤ steps.new.taken }
    ensures limit { steps.new.limit ≡ steps.old.limit }
    ensures steps { let shape = lsta.now.shape.items in
        steps.new.taken ≤ steps.old.taken + 2 * words shape * 2 ^ (length shape + 1) }
    ensures refused { let shape = lsta.now.shape.items in
        IfErr result (GivesUp (2 * words shape * 2 ^ (length shape + 1)) steps.old steps.new) }
{
    let mut projecting = Projecting::new(alloc);
    project_with(alloc, store, &mut projecting, lsta, qubit, outcome, steps)
}
