ghost use Rattle.std.specs.Prelude.{◌≡◌, ℕ, ◌+◌, ◌*◌, ◌^◌, ◌<◌, ◌≤◌, ◌∷◌, length, drop, slice_index};
ghost use Rattle.std.specs.Prelude.{if◌then◌else◌, IfOk, IfErr, OnOk, IsTrue};
ghost use Rattle.aq_store.specs.Nodes.{Extends, FitsStore, HasShape, total_cost};
ghost use Rattle.aq_store.specs.Means.{Means, MeansPair};
ghost use Rattle.aq_store.specs.Memos.{memo_at, is_done};
ghost use Rattle.aq_store.specs.Accounts.{HoldPlace, HoldPair, HoldPairs, TakesOwed, PaysOwed, StopsOwed};
ghost use Rattle.aq_store.specs.Stops.{GivesUp};
ghost use Rattle.aq_store.specs.Words.{words, IsWider};
ghost use Rattle.aq_measure_ops.specs.Padding.{Padded, PaddedPair, Appends, IsPadMemo, IsPadded};

use aq_label::Label;
use aq_store::{Id, Lsta, Memo, Pairs, Steps, Stop, Store};
use std::alloc::Global;

/// The first depth from which on two shapes are the same.
pub(crate) fn same_from(from: &[u32], to: &[u32]) -> usize
    requires { length from.now ≡ length to.now }
    ensures within { result ≤ length from.now }
    ensures same { (d : ℕ) → result ≤ d → drop d from.now ≡ drop d to.now }
{
    let mut depth = from.len();
    while depth > 0 && from[depth - 1] == to[depth - 1] {
        depth -= 1;
    }
    depth
}

/// How many choices a run stands for when the last run of its node has more.
fn lengthened(count: u32, more: u32, is_last: bool) -> u32
    requires { count + more < 2 ^ 32 }
    ensures { result ≡ (if is_last then count + more else count) }
{
    if is_last { count + more } else { count }
}

/// A node at a depth, with the new numbers of choices from there on. From a depth on both shapes are the same, and
/// nodes stay. The memo has nodes that were padded before.
#[cycle(pad)]
fn pad_at<L: Label>(
    alloc: Global,
    store: &mut Store<L>,
    memo: &mut Memo,
    from: &[u32],
    to: &[u32],
    same: usize,
    depth: usize,
    id: Id,
    steps: &mut Steps,
) -> Result<Id, Stop<L>>
    requires shape { HasShape store.old (drop depth from.now) id }
    requires wider { IsWider from.now to.now }
    requires within { same ≤ length from.now }
    requires same { (d : ℕ) → same ≤ d → drop d from.now ≡ drop d to.now }
    requires deep { depth ≤ length from.now }
    requires memo { IsPadMemo store.old to.now (memo_at memo.old) }
    requires paid { total_cost store.old ≤ steps.old.taken }
    ensures image { let below = drop depth to.now in
        IfOk result (λ made. Means (Padded store.old (drop depth from.now) below id) store.new below made) }
    ensures memo { OnOk result (IsPadMemo store.new to.now (memo_at memo.new)) }
    ensures done { (q : ℕ) → IsTrue (is_done (memo_at memo.old) q) → IsTrue (is_done (memo_at memo.new) q) }
    ensures keeps { Extends store.old store.new }
    ensures paid { total_cost store.new ≤ steps.new.taken }
    ensures limit { steps.new.limit ≡ steps.old.limit }
    ensures cheap { let holds = HoldPlace store.old (drop depth from.now) id in
        TakesOwed holds (drop depth to.now) (memo_at memo.old) steps.old steps.new }
    ensures steps { let holds = HoldPlace store.old (drop depth from.now) id in
        OnOk result (PaysOwed holds (drop depth to.now) (memo_at memo.old) (memo_at memo.new) steps.old steps.new) }
    ensures refused { let holds = HoldPlace store.old (drop depth from.now) id in
        IfErr result (StopsOwed holds (drop depth to.now) (memo_at memo.old) steps.old steps.new) }
{
    if depth >= same {
        return Ok(id);
    }
    if let Some(made) = memo.get(id) {
        return Ok(made);
    }
    let more = to[depth] - from[depth];
    let mut pairs = Pairs::new(alloc);
    pad_runs(
        alloc, store, memo, from, to, same, depth, id, more, &mut pairs, steps,
    )?;
    let made = store.node_of(pairs, steps)?;
    memo.put(id, made, steps)?;
    Ok(made)
}

/// Appends the pairs of a node at a depth, padded, and the last one some times more.
#[cycle(pad)]
pub(crate) fn pad_runs<L: Label>(
    alloc: Global,
    store: &mut Store<L>,
    memo: &mut Memo,
    from: &[u32],
    to: &[u32],
    same: usize,
    depth: usize,
    id: Id,
    more: u32,
    pairs: &mut Pairs,
    steps: &mut Steps,
) -> Result<(), Stop<L>>
    requires shape { HasShape store.old (drop depth from.now) id }
    requires wider { IsWider from.now to.now }
    requires within { same ≤ length from.now }
    requires same { (d : ℕ) → same ≤ d → drop d from.now ≡ drop d to.now }
    requires deep { depth < length from.now }
    requires memo { IsPadMemo store.old to.now (memo_at memo.old) }
    requires paid { total_cost store.old ≤ steps.old.taken }
    requires room { length pairs.old + (slice_index from.now depth + more) < 2 ^ 32 }
    ensures pairs { let number = slice_index from.now depth + more in
        let below = drop (depth + 1) to.now in
        let meaning = Padded store.old (drop depth from.now) (number ∷ below) id in
        OnOk result (Appends meaning store.new below number pairs.old pairs.new) }
    ensures memo { OnOk result (IsPadMemo store.new to.now (memo_at memo.new)) }
    ensures done { (q : ℕ) → IsTrue (is_done (memo_at memo.old) q) → IsTrue (is_done (memo_at memo.new) q) }
    ensures keeps { Extends store.old store.new }
    ensures paid { total_cost store.new ≤ steps.new.taken }
    ensures limit { steps.new.limit ≡ steps.old.limit }
    ensures cheap { let holds = HoldPairs store.old (drop (depth + 1) from.now) id in
        TakesOwed holds (drop (depth + 1) to.now) (memo_at memo.old) steps.old steps.new }
    ensures steps { let holds = HoldPairs store.old (drop (depth + 1) from.now) id in
        let below = drop (depth + 1) to.now in
        OnOk result (PaysOwed holds below (memo_at memo.old) (memo_at memo.new) steps.old steps.new) }
    ensures refused { let holds = HoldPairs store.old (drop (depth + 1) from.now) id in
        IfErr result (StopsOwed holds (drop (depth + 1) to.now) (memo_at memo.old) steps.old steps.new) }
{
    let runs = store.run_count(id);
    for index in 0..runs {
        let (pair, count) = store.run(id, index);
        let made = pad_pair(alloc, store, memo, from, to, same, depth + 1, pair, steps)?;
        let count = lengthened(count, more, index + 1 == runs);
        let Ok(()) = pairs.push(made, count) else {
            return Err(Stop::Memory);
        };
    }
    Ok(())
}

/// Both places of a pair, whose depth is given, padded.
#[cycle(pad)]
fn pad_pair<L: Label>(
    alloc: Global,
    store: &mut Store<L>,
    memo: &mut Memo,
    from: &[u32],
    to: &[u32],
    same: usize,
    depth: usize,
    pair: (Id, Id),
    steps: &mut Steps,
) -> Result<(Id, Id), Stop<L>>
    requires left { HasShape store.old (drop depth from.now) pair.0 }
    requires right { HasShape store.old (drop depth from.now) pair.1 }
    requires wider { IsWider from.now to.now }
    requires within { same ≤ length from.now }
    requires same { (d : ℕ) → same ≤ d → drop d from.now ≡ drop d to.now }
    requires deep { depth ≤ length from.now }
    requires memo { IsPadMemo store.old to.now (memo_at memo.old) }
    requires paid { total_cost store.old ≤ steps.old.taken }
    ensures image { let below = drop depth to.now in
        IfOk result (λ made. MeansPair (PaddedPair store.old (drop depth from.now) below pair) store.new below made) }
    ensures memo { OnOk result (IsPadMemo store.new to.now (memo_at memo.new)) }
    ensures done { (q : ℕ) → IsTrue (is_done (memo_at memo.old) q) → IsTrue (is_done (memo_at memo.new) q) }
    ensures keeps { Extends store.old store.new }
    ensures paid { total_cost store.new ≤ steps.new.taken }
    ensures limit { steps.new.limit ≡ steps.old.limit }
    ensures cheap { let holds = HoldPair store.old (drop depth from.now) pair in
        TakesOwed holds (drop depth to.now) (memo_at memo.old) steps.old steps.new }
    ensures steps { let holds = HoldPair store.old (drop depth from.now) pair in
        OnOk result (PaysOwed holds (drop depth to.now) (memo_at memo.old) (memo_at memo.new) steps.old steps.new) }
    ensures refused { let holds = HoldPair store.old (drop depth from.now) pair in
        IfErr result (StopsOwed holds (drop depth to.now) (memo_at memo.old) steps.old steps.new) }
{
    let (left, right) = pair;
    let first = pad_at(alloc, store, memo, from, to, same, depth, left, steps)?;
    let second = pad_at(alloc, store, memo, from, to, same, depth, right, steps)?;
    Ok((first, second))
}

/// An automaton with more choices. It has the numbers of choices of the shape, which are no smaller than its own,
/// and of each word the vector of the word in which a choice past the old number is the last old one. It gives up
/// for want of steps or of memory alone, and nodes of the store keep their meaning.
pub fn pad<L: Label>(
    alloc: Global,
    store: &mut Store<L>,
    lsta: &Lsta,
    shape: &[u32],
    steps: &mut Steps,
) -> Result<Lsta, Stop<L>>
    requires fits { FitsStore store.old lsta.now }
    requires wider { IsWider lsta.now.shape.items shape.now }
    requires paid { total_cost store.old ≤ steps.old.taken }
    ensures padded { IfOk result (λ made. IsPadded store.old store.new lsta.now shape.now made) }
    ensures keeps { Extends store.old store.new }
    ensures paid { total_cost store.new ≤ steps.new.taken }
    ensures limit { steps.new.limit ≡ steps.old.limit }
    ensures steps { steps.new.taken ≤ steps.old.taken + 2 * words shape.now * 2 ^ (length shape.now + 1) }
    ensures refused { IfErr result (GivesUp (2 * words shape.now * 2 ^ (length shape.now + 1)) steps.old steps.new) }
{
    let from = lsta.shape.as_slice();
    let same = same_from(from, shape);
    let mut memo = Memo::new(alloc);
    let root = pad_at(
        alloc, store, &mut memo, from, shape, same, 0, lsta.root, steps,
    )?;
    let Ok(shape) = shape.to_vec(alloc) else {
        return Err(Stop::Memory);
    };
    Ok(Lsta { root, shape })
}
