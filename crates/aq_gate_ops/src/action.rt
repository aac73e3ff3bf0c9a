ghost use Rattle.std.specs.Prelude.{◌≡◌, ℕ, suc, ◌+◌, ◌-◌, ◌*◌, ◌^◌, ◌<◌, ◌≤◌, length, drop};
ghost use Rattle.std.specs.Prelude.{IfOk, IfErr, OnOk, IsTrue};
ghost use Rattle.aq_prog.specs.Gates.{IsValidGate};
ghost use Rattle.aq_store.specs.Levels.{levels_of};
ghost use Rattle.aq_store.specs.Means.{Means, MeansPair, of_place, of_pair};
ghost use Rattle.aq_store.specs.Memos.{memo_at, is_done, pair_memo_at, StayDone};
ghost use Rattle.aq_store.specs.Nodes.{Extends, FitsStore, HasShape, total_cost};
ghost use Rattle.aq_store.specs.Words.{words};
ghost use Rattle.aq_gate_ops.specs.Accounts.{HoldGate, HoldGatePair, IsStopped, PaysGate, StopsGate, anew_at};
ghost use Rattle.aq_gate_ops.specs.Action.{IsActed, IsActing, IsActMemo, IsApplied, IsFresh, IsRowMemo};
ghost use Rattle.aq_gate_ops.specs.Causes.{IsCause, PlaceCause, PairCause, IsGateCause};
ghost use Rattle.aq_gate_ops.specs.Counts.{node_count, pair_count};

use crate::rows::{is_control, mix_sides};
use aq_label::Label;
use aq_prog::Gate;
use aq_store::{Id, Lsta, Memo, PairMemo, Pairs, Steps, Stop, Store};
use std::alloc::Global;

/// What a gate has made so far, of nodes down to its target and of pairs of nodes below: a memo that many automata may
/// share.
#[derive(Drop)]
pub struct Acting {
    nodes: Memo,
    pairs: PairMemo,
}

impl Acting {
    /// Nothing is done.
    pub fn new(alloc: Global) -> Acting
        ensures { IsFresh result }
    {
        Acting {
            nodes: Memo::new(alloc),
            pairs: PairMemo::new(alloc),
        }
    }
}

/// What the gate makes of a node at a depth that is no deeper than the target. The memo has what it made of nodes that
/// were met before, and the rows those of pairs below the target. A node whose vectors are all zero stays, and has no
/// entry.
#[cycle(act)]
fn act_at<L: Label>(
    alloc: Global,
    store: &mut Store<L>,
    memo: &mut Memo,
    rows: &mut PairMemo,
    shape: &[u32],
    gate: &Gate,
    depth: u32,
    id: Id,
    steps: &mut Steps,
) -> Result<Id, Stop<L>>
    requires shape { HasShape store.old (drop depth shape.now) id }
    requires deep { depth ≤ gate.now.target }
    requires valid { IsValidGate (length shape.now) gate.now }
    requires small { length shape.now < 2 ^ 32 }
    requires memo { IsActMemo L.parts L.part_count gate.now (length shape.now) store.old (memo_at memo.old) }
    requires rows { IsRowMemo L.parts L.part_count gate.now (length shape.now) store.old (pair_memo_at rows.old) }
    requires paid { total_cost store.old ≤ steps.old.taken }
    ensures image { let acted = IsActed L.parts L.part_count (length shape.now) gate.now depth in
        IfOk result (λ made. Means (of_place acted store.old id) store.new (drop depth shape.now) made) }
    ensures memo { let levels = length shape.now in
        OnOk result (IsActMemo L.parts L.part_count gate.now levels store.new (memo_at memo.new)) }
    ensures rows { let levels = length shape.now in
        OnOk result (IsRowMemo L.parts L.part_count gate.now levels store.new (pair_memo_at rows.new)) }
    ensures done { (q : ℕ) → IsTrue (is_done (memo_at memo.old) q) → IsTrue (is_done (memo_at memo.new) q) }
    ensures rows_done { StayDone rows.old rows.new }
    ensures keeps { Extends store.old store.new }
    ensures paid { total_cost store.new ≤ steps.new.taken }
    ensures limit { steps.new.limit ≡ steps.old.limit }
    ensures steps { let below = drop depth shape.now in
        let above = gate.now.target - depth in
        let holds = HoldGate store.old gate.now above below id in
        let pays = PaysGate holds (suc above) below 0 memo.old rows.old memo.new rows.new in
        OnOk result (pays store.old store.new steps.old steps.new) }
    ensures refused { let below = drop depth shape.now in
        let above = gate.now.target - depth in
        let holds = HoldGate store.old gate.now above below id in
        IfErr result (StopsGate holds (suc above) below 0 memo.old rows.old steps.old steps.new) }
    ensures cause { IfErr result (IsCause (PlaceCause L.parts L.part_count gate.now shape.now depth store.old id)) }
{
    if store.is_zero(id) {
        return Ok(id);
    }
    if let Some(made) = memo.get(id) {
        return Ok(made);
    }
    let mut pairs = Pairs::new(alloc);
    for index in 0..store.run_count(id) {
        let (pair, count) = store.run(id, index);
        let made = act_pair(alloc, store, memo, rows, shape, gate, depth, pair, steps)?;
        let Ok(()) = pairs.push(made, count) else {
            return Err(Stop::Memory);
        };
    }
    let made = store.node_of(pairs, steps)?;
    memo.put(id, made, steps)?;
    Ok(made)
}

/// What the gate makes of a pair of a node at this depth: at the target both rows of its two sides, and above it what
/// it makes of each side, where a control leaves the left one.
#[cycle(act)]
fn act_pair<L: Label>(
    alloc: Global,
    store: &mut Store<L>,
    memo: &mut Memo,
    rows: &mut PairMemo,
    shape: &[u32],
    gate: &Gate,
    depth: u32,
    pair: (Id, Id),
    steps: &mut Steps,
) -> Result<(Id, Id), Stop<L>>
    requires left { HasShape store.old (drop (depth + 1) shape.now) pair.0 }
    requires right { HasShape store.old (drop (depth + 1) shape.now) pair.1 }
    requires deep { depth ≤ gate.now.target }
    requires valid { IsValidGate (length shape.now) gate.now }
    requires small { length shape.now < 2 ^ 32 }
    requires memo { IsActMemo L.parts L.part_count gate.now (length shape.now) store.old (memo_at memo.old) }
    requires rows { IsRowMemo L.parts L.part_count gate.now (length shape.now) store.old (pair_memo_at rows.old) }
    requires paid { total_cost store.old ≤ steps.old.taken }
    ensures image { let acted = IsActed L.parts L.part_count (length shape.now) gate.now depth in
        IfOk result (λ made. MeansPair (of_pair acted store.old pair) store.new (drop (depth + 1) shape.now) made) }
    ensures memo { let levels = length shape.now in
        OnOk result (IsActMemo L.parts L.part_count gate.now levels store.new (memo_at memo.new)) }
    ensures rows { let levels = length shape.now in
        OnOk result (IsRowMemo L.parts L.part_count gate.now levels store.new (pair_memo_at rows.new)) }
    ensures done { (q : ℕ) → IsTrue (is_done (memo_at memo.old) q) → IsTrue (is_done (memo_at memo.new) q) }
    ensures rows_done { StayDone rows.old rows.new }
    ensures keeps { Extends store.old store.new }
    ensures paid { total_cost store.new ≤ steps.new.taken }
    ensures limit { steps.new.limit ≡ steps.old.limit }
    ensures steps { let below = drop (depth + 1) shape.now in
        let above = gate.now.target - depth in
        let holds = HoldGatePair store.old gate.now above below pair in
        let pays = PaysGate holds above below (anew_at above below) memo.old rows.old memo.new rows.new in
        OnOk result (pays store.old store.new steps.old steps.new) }
    ensures refused { let below = drop (depth + 1) shape.now in
        let above = gate.now.target - depth in
        let holds = HoldGatePair store.old gate.now above below pair in
        IfErr result (StopsGate holds above below (anew_at above below) memo.old rows.old steps.old steps.new) }
    ensures cause { IfErr result (IsCause (PairCause L.parts L.part_count gate.now shape.now depth store.old pair)) }
{
    if depth == gate.target {
        let (first, second) = mix_sides(
            alloc,
            store,
            rows,
            shape,
            gate,
            depth + 1,
            pair.0,
            pair.1,
            steps,
        )?;
        return Ok((first, second));
    }
    let (left, right) = pair;
    let high = act_at(
        alloc,
        store,
        memo,
        rows,
        shape,
        gate,
        depth + 1,
        right,
        steps,
    )?;
    if is_control(gate.controls.as_slice(), depth) {
        return Ok((left, high));
    }
    let low = act_at(
        alloc,
        store,
        memo,
        rows,
        shape,
        gate,
        depth + 1,
        left,
        steps,
    )?;
    Ok((low, high))
}

/// An automaton of the same shape, whose vector of each word is the gate on the vector of that word. Nodes of the store
/// keep their meaning, also where the call gives up.
///
/// The memo is of this gate and of automata of as many levels, and their shapes may differ. It stays so unless the call
/// gives up.
///
/// It takes at most twice the words times `2^(n+1)` steps for n levels. Besides what new nodes cost it takes at most
/// one step for each node of the automaton and each ordered pair of nodes of one depth.
///
/// `Spent` comes only where the steps that were taken before and the first of these bounds are more than the limit.
/// `Wide` comes only where at some index of some word's vector a quotient of the gate or its sum doesn't fit: for a
/// sum it has the two terms, and for a quotient twice the turned label.
pub fn apply_with<L: Label>(
    alloc: Global,
    store: &mut Store<L>,
    acting: &mut Acting,
    lsta: &Lsta,
    gate: &Gate,
    steps: &mut Steps,
) -> Result<Lsta, Stop<L>>
    requires fits { FitsStore store.old lsta.now }
    requires valid { IsValidGate (length lsta.now.shape.items) gate.now }
    requires acting { let levels = length lsta.now.shape.items in
        IsActing L.parts L.part_count gate.now levels store.old acting.old }
    requires paid { total_cost store.old ≤ steps.old.taken }
    ensures applied { let applied = IsApplied L.parts L.part_count gate.now store.old store.new lsta.now in
        IfOk result applied }
    ensures acting { let levels = length lsta.now.shape.items in
        OnOk result (IsActing L.parts L.part_count gate.now levels store.new acting.new) }
    ensures keeps { Extends store.old store.new }
    ensures paid { total_cost store.new ≤ steps.new.taken }
    ensures limit { steps.new.limit ≡ steps.old.limit }
    ensures steps { let shape = lsta.now.shape.items in
        steps.new.taken ≤ steps.old.taken + 2 * words shape * 2 ^ (length shape + 1) }
    ensures refused { let shape = lsta.now.shape.items in
        IfErr result (IsStopped (2 * words shape * 2 ^ (length shape + 1)) steps.old steps.new) }
    ensures besides { let levels = levels_of store.old lsta.now in
        let keys = node_count levels + pair_count levels in
        OnOk result (steps.new.taken + total_cost store.old ≤ steps.old.taken + total_cost store.new + keys) }
    ensures cause { IfErr result (IsCause (IsGateCause L.parts L.part_count gate.now store.old lsta.now)) }
{
    let _levels = store.height(lsta.root);
    let shape = lsta.shape.as_slice();
    let root = act_at(
        alloc,
        store,
        &mut acting.nodes,
        &mut acting.pairs,
        shape,
        gate,
        0,
        lsta.root,
        steps,
    )?;
    let Ok(shape) = shape.to_vec(alloc) else {
        return Err(Stop::Memory);
    };
    Ok(Lsta { root, shape })
}

/// An automaton of the same shape, whose vector of each word is the gate on the vector of that word. Nodes of the store
/// keep their meaning, also where the call gives up.
///
/// It takes at most twice the words times `2^(n+1)` steps for n levels. Besides what new nodes cost it takes at most
/// one step for each node of the automaton and each ordered pair of nodes of one depth.
///
/// `Spent` comes only where the steps that were taken before and the first of these bounds are more than the limit.
/// `Wide` comes only where at some index of some word's vector a quotient of the gate or its sum doesn't fit: for a
/// sum it has the two terms, and for a quotient twice the turned label.
pub fn apply<L: Label>(
    alloc: Global,
    store: &mut Store<L>,
    lsta: &Lsta,
    gate: &Gate,
    steps: &mut Steps,
) -> Result<Lsta, Stop<L>>
    requires fits { FitsStore store.old lsta.now }
    requires valid { IsValidGate (length lsta.now.shape.items) gate.now }
    requires paid { total_cost store.old ≤ steps.old.taken }
    ensures applied { let applied = IsApplied L.parts L.part_count gate.now store.old store.new lsta.now in
        IfOk result applied }
    ensures keeps { Extends store.old store.new }
    ensures paid { total_cost store.new ≤ steps.new.taken }
    ensures limit { steps.new.limit ≡ steps.old.limit }
    ensures steps { let shape = lsta.now.shape.items in
        steps.new.taken ≤ steps.old.taken + 2 * words shape * 2 ^ (length shape + 1) }
    ensures refused { let shape = lsta.now.shape.items in
        IfErr result (IsStopped (2 * words shape * 2 ^ (length shape + 1)) steps.old steps.new) }
    ensures besides { let levels = levels_of store.old lsta.now in
        let keys = node_count levels + pair_count levels in
        OnOk result (steps.new.taken + total_cost store.old ≤ steps.old.taken + total_cost store.new + keys) }
    ensures cause { IfErr result (IsCause (IsGateCause L.parts L.part_count gate.now store.old lsta.now)) }
{
    let mut acting = Acting::new(alloc);
    apply_with(alloc, store, &mut acting, lsta, gate, steps)
}
