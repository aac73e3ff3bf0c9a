ghost use Rattle.std.specs.Prelude.{◌≡◌, ℕ, ◌+◌, ◌*◌, ◌^◌, ◌<◌, ◌≤◌, ◌∷◌, length, map, IfOk, IfErr, OnOk, IsTrue};
ghost use Rattle.aq_store.specs.Nodes.{Extends, FitsStore, total_cost};
ghost use Rattle.aq_store.specs.Memos.{memo_at, is_done};
ghost use Rattle.aq_store.specs.Accounts.{HoldPairs, TakesOwed, PaysOwed, StopsOwed};
ghost use Rattle.aq_store.specs.Stops.{GivesUp};
ghost use Rattle.aq_store.specs.Words.{words, IsWider, first_number, lower, united_shape, united_shapes};
ghost use Rattle.aq_measure_ops.specs.Padding.{Padded, Appends, IsPadMemo};
ghost use Rattle.aq_measure_ops.specs.Joining.{shape_of, first_choices, IsUnited, AreUnited, AllFit, HaveLevels};

use crate::padding::{pad_runs, same_from};
use aq_label::Label;
use aq_store::{Lsta, Memo, Pairs, Spent, Steps, Stop, Store};
use std::alloc::Global;

/// The union of two automata, and how many choices of its root are each side's: the left ones come first.
#[derive(Drop)]
pub struct Joined {
    pub lsta: Lsta,
    pub left_choices: u32,
    pub right_choices: u32,
}

/// The shape of the union of two shapes of one length, or of none and one. A root that has more choices than a
/// counter has steps spends them all.
fn united<L>(
    alloc: Global,
    left: &[u32],
    right: &[u32],
    steps: &mut Steps,
) -> Result<Vec<u32>, Stop<L>>
    requires same { 0 < length left.now → length left.now ≡ length right.now }
    ensures ok { IfOk result (λ shape. shape.items ≡ united_shape left.now right.now) }
    ensures still { OnOk result (steps.new ≡ steps.old) }
    ensures limit { steps.new.limit ≡ steps.old.limit }
    ensures later { steps.old.taken ≤ steps.new.taken }
    ensures cheap { steps.new.taken ≤ steps.old.taken + (first_number left.now + first_number right.now) }
    ensures refused { IfErr result (GivesUp (first_number left.now + first_number right.now) steps.old steps.new) }
{
    let _taken = steps.taken();
    if left.is_empty() {
        let Ok(shape) = right.to_vec(alloc) else {
            return Err(Stop::Memory);
        };
        return Ok(shape);
    }
    let Some(first) = left[0].checked_add(right[0]) else {
        return match steps.take_all(u32::MAX as u64) {
            Ok(()) => unreachable!(),
            Err(Spent) => Err(Stop::Spent),
        };
    };
    let mut shape = Vec::new(alloc);
    let Ok(()) = shape.push(first) else {
        return Err(Stop::Memory);
    };
    for level in 1..left.len() {
        let number = left[level].max(right[level]);
        let Ok(()) = shape.push(number) else {
            return Err(Stop::Memory);
        };
    }
    Ok(shape)
}

/// The shape of the union of all parts.
fn united_all<L>(alloc: Global, parts: &[Lsta], steps: &mut Steps) -> Result<Vec<u32>, Stop<L>>
    requires levels { (count : ℕ) × HaveLevels count parts.now }
    ensures ok { IfOk result (λ shape. shape.items ≡ united_shapes (map shape_of parts.now)) }
    ensures still { OnOk result (steps.new ≡ steps.old) }
    ensures limit { steps.new.limit ≡ steps.old.limit }
    ensures later { steps.old.taken ≤ steps.new.taken }
    ensures cheap { steps.new.taken ≤ steps.old.taken + first_number (united_shapes (map shape_of parts.now)) }
    ensures refused { let choices = first_number (united_shapes (map shape_of parts.now)) in
        IfErr result (GivesUp choices steps.old steps.new) }
{
    let mut shape = Vec::new(alloc);
    for part in parts {
        let before = shape.as_slice();
        let more = part.shape.as_slice();
        shape = united(alloc, before, more, steps)?;
    }
    Ok(shape)
}

/// Appends the pairs of a part's root, padded to the shape.
fn join_part<L: Label>(
    alloc: Global,
    store: &mut Store<L>,
    memo: &mut Memo,
    shape: &[u32],
    part: &Lsta,
    pairs: &mut Pairs,
    steps: &mut Steps,
) -> Result<(), Stop<L>>
    requires fits { FitsStore store.old part.now }
    requires some { 0 < length part.now.shape.items }
    requires wider { IsWider part.now.shape.items shape.now }
    requires memo { IsPadMemo store.old shape.now (memo_at memo.old) }
    requires paid { total_cost store.old ≤ steps.old.taken }
    requires room { length pairs.old + first_choices part.now < 2 ^ 32 }
    ensures pairs { let number = first_choices part.now in
        let below = lower shape.now in
        let meaning = Padded store.old part.now.shape.items (number ∷ below) part.now.root in
        OnOk result (Appends meaning store.new below number pairs.old pairs.new) }
    ensures memo { OnOk result (IsPadMemo store.new shape.now (memo_at memo.new)) }
    ensures done { (q : ℕ) → IsTrue (is_done (memo_at memo.old) q) → IsTrue (is_done (memo_at memo.new) q) }
    ensures keeps { Extends store.old store.new }
    ensures paid { total_cost store.new ≤ steps.new.taken }
    ensures limit { steps.new.limit ≡ steps.old.limit }
    ensures cheap { let holds = HoldPairs store.old (lower part.now.shape.items) part.now.root in
        TakesOwed holds (lower shape.now) (memo_at memo.old) steps.old steps.new }
    ensures steps { let holds = HoldPairs store.old (lower part.now.shape.items) part.now.root in
        OnOk result (PaysOwed holds (lower shape.now) (memo_at memo.old) (memo_at memo.new) steps.old steps.new) }
    ensures refused { let holds = HoldPairs store.old (lower part.now.shape.items) part.now.root in
        IfErr result (StopsOwed holds (lower shape.now) (memo_at memo.old) steps.old steps.new) }
{
    let from = part.shape.as_slice();
    let same = same_from(from, shape);
    pad_runs(
        alloc, store, memo, from, shape, same, 0, part.root, 0, pairs, steps,
    )
}

/// The union of two automata with one number of levels. The choices of its root are the left side's and then the
/// right side's, and below, both sides are padded to the larger numbers. It gives up for want of steps or of memory
/// alone, and nodes of the store keep their meaning.
pub fn union<L: Label>(
    alloc: Global,
    store: &mut Store<L>,
    left: &Lsta,
    right: &Lsta,
    steps: &mut Steps,
) -> Result<Joined, Stop<L>>
    requires left { FitsStore store.old left.now }
    requires right { FitsStore store.old right.now }
    requires some { 0 < length left.now.shape.items }
    requires same { length left.now.shape.items ≡ length right.now.shape.items }
    requires paid { total_cost store.old ≤ steps.old.taken }
    ensures united { IfOk result (λ made. IsUnited store.old store.new left.now right.now made) }
    ensures keeps { Extends store.old store.new }
    ensures paid { total_cost store.new ≤ steps.new.taken }
    ensures limit { steps.new.limit ≡ steps.old.limit }
    ensures steps { let shape = united_shape left.now.shape.items right.now.shape.items in
        steps.new.taken ≤ steps.old.taken + 2 * words shape * 2 ^ (length shape + 1) }
    ensures refused { let shape = united_shape left.now.shape.items right.now.shape.items in
        IfErr result (GivesUp (2 * words shape * 2 ^ (length shape + 1)) steps.old steps.new) }
{
    let first = left.shape.as_slice();
    let second = right.shape.as_slice();
    let shape = united(alloc, first, second, steps)?;
    let wide = shape.as_slice();
    let mut memo = Memo::new(alloc);
    let mut pairs = Pairs::new(alloc);
    join_part(alloc, store, &mut memo, wide, left, &mut pairs, steps)?;
    join_part(alloc, store, &mut memo, wide, right, &mut pairs, steps)?;
    let root = store.node_of(pairs, steps)?;
    Ok(Joined {
        lsta: Lsta { root, shape },
        left_choices: first[0],
        right_choices: second[0],
    })
}

/// The union of automata with one number of levels. The choices of its root are those of the first part, then those
/// of the second, and so on, and below, each part is padded to the largest numbers. It is the union of the unions
/// from the left, made at once. It gives up for want of steps or of memory alone, and nodes of the store keep their
/// meaning.
pub fn union_of<L: Label>(
    alloc: Global,
    store: &mut Store<L>,
    parts: &[Lsta],
    steps: &mut Steps,
) -> Result<Lsta, Stop<L>>
    requires some { 0 < length parts.now }
    requires fits { AllFit store.old parts.now }
    requires levels { (count : ℕ) × (0 < count) × HaveLevels count parts.now }
    requires paid { total_cost store.old ≤ steps.old.taken }
    ensures united { IfOk result (λ made. AreUnited store.old store.new parts.now made) }
    ensures keeps { Extends store.old store.new }
    ensures paid { total_cost store.new ≤ steps.new.taken }
    ensures limit { steps.new.limit ≡ steps.old.limit }
    ensures steps { let shape = united_shapes (map shape_of parts.now) in
        steps.new.taken ≤ steps.old.taken + 2 * words shape * 2 ^ (length shape + 1) }
    ensures refused { let shape = united_shapes (map shape_of parts.now) in
        IfErr result (GivesUp (2 * words shape * 2 ^ (length shape + 1)) steps.old steps.new) }
{
    let shape = united_all(alloc, parts, steps)?;
    let wide = shape.as_slice();
    let mut memo = Memo::new(alloc);
    let mut pairs = Pairs::new(alloc);
    for part in parts {
        join_part(alloc, store, &mut memo, wide, part, &mut pairs, steps)?;
    }
    let root = store.node_of(pairs, steps)?;
    Ok(Lsta { root, shape })
}
