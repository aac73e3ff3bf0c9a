//! The operations on small drawn automata, compared with the plain vectors of their words.
ghost use Rattle.std.specs.Prelude.{◌≡◌, ◌+◌, ◌<◌, ◌≤◌, ◌∷◌, [], length, if◌then◌else◌, IfOk};
ghost use Rattle.aq_store.specs.Nodes.{Extends, FitsStore, total_cost};
ghost use Rattle.aq_store.specs.Words.{IsWider};

use crate::{pad, project, union, union_of};
use aq_ring::Amp;
use aq_store::{Id, Lsta, Pairs, Steps, Stop, Store};
use std::alloc::Global;
use std::test::Fail;

/// An automaton above two of one shape: some choices have the first and then the second, one has the second twice,
/// and one has the second and then the first.
fn above(
    alloc: Global,
    store: &mut Store<Amp>,
    first: &Lsta,
    second: &Lsta,
    count: u32,
    steps: &mut Steps,
) -> Result<Lsta, Stop<Amp>>
    requires first { FitsStore store.old first.now }
    requires second { FitsStore store.old second.now }
    requires same { first.now.shape.items ≡ second.now.shape.items }
    requires some { 0 < count }
    requires few { count ≤ 3 }
    requires paid { total_cost store.old ≤ steps.old.taken }
    ensures made { IfOk result (λ made. FitsStore store.new made) }
    ensures shape { IfOk result (λ made. made.shape.items ≡ (count + 2) ∷ first.now.shape.items) }
    ensures keeps { Extends store.old store.new }
    ensures paid { total_cost store.new ≤ steps.new.taken }
{
    let mut pairs = Pairs::new(alloc);
    let Ok(()) = pairs.push((first.root, second.root), count) else {
        return Err(Stop::Memory);
    };
    let Ok(()) = pairs.push((second.root, second.root), 1) else {
        return Err(Stop::Memory);
    };
    let Ok(()) = pairs.push((second.root, first.root), 1) else {
        return Err(Stop::Memory);
    };
    let root = store.node_of(pairs, steps)?;
    let mut shape = Vec::new(alloc);
    let Ok(()) = shape.push(count + 2) else {
        return Err(Stop::Memory);
    };
    let Ok(()) = shape.extend_from_slice(first.shape.as_slice()) else {
        return Err(Stop::Memory);
    };
    Ok(Lsta { root, shape })
}

/// An automaton of three levels with three or four choices each, as the seed tells.
fn drawn(
    alloc: Global,
    store: &mut Store<Amp>,
    seed: u32,
    steps: &mut Steps,
) -> Result<Lsta, Stop<Amp>>
    requires paid { total_cost store.old ≤ steps.old.taken }
    ensures made { IfOk result (λ made. FitsStore store.new made) }
    ensures wider { IfOk result (λ made. IsWider made.shape.items (5 ∷ 6 ∷ 7 ∷ [])) }
    ensures keeps { Extends store.old store.new }
    ensures paid { total_cost store.new ≤ steps.new.taken }
{
    let one = Lsta {
        root: store.leaf(Amp::one(), steps)?,
        shape: Vec::new(alloc),
    };
    let other = Lsta {
        root: store.leaf(Amp::one().turn((seed % 8) as u8), steps)?,
        shape: Vec::new(alloc),
    };
    let low = above(alloc, store, &one, &other, 1 + seed % 2, steps)?;
    let other_low = above(alloc, store, &other, &one, 1 + seed % 2, steps)?;
    let middle = above(alloc, store, &low, &other_low, 1 + seed / 2 % 2, steps)?;
    let other_middle = above(alloc, store, &other_low, &low, 1 + seed / 2 % 2, steps)?;
    above(
        alloc,
        store,
        &middle,
        &other_middle,
        1 + seed / 4 % 2,
        steps,
    )
}

/// A side of a pair.
fn side(pair: (Id, Id), high: bool) -> Id
    ensures { result ≡ (if high then pair.1 else pair.0) }
{
    let (left, right) = pair;
    if high { right } else { left }
}

/// The entry of a word's vector at the position with these digits. None where the word is none of the shape.
fn entry(store: &Store<Amp>, lsta: &Lsta, word: &[u32], digits: &[bool]) -> Option<Amp>
    requires { FitsStore store.now lsta.now }
{
    let levels = lsta.shape.len();
    if word.len() != levels || digits.len() != levels {
        return None;
    }
    let mut id = lsta.root;
    for level in 0..levels {
        if word[level] >= store.choices(id) {
            return None;
        }
        id = side(store.pair(id, word[level]), digits[level]);
    }
    Some(store.label(id))
}

/// A word with numbers of choices below these.
fn word_at(alloc: Global, numbers: &[u32], place: u32) -> Result<Vec<u32>, Fail> {
    let mut word = Vec::new(alloc);
    let mut rest = place;
    for number in numbers {
        let most = (*number).max(1);
        word.push(rest % most)?;
        rest /= most;
    }
    Ok(word)
}

/// Three digits.
fn digits_at(alloc: Global, index: u32) -> Result<Vec<bool>, Fail> {
    Ok(vec![in alloc; index / 4 % 2 == 1, index / 2 % 2 == 1, index % 2 == 1]?)
}

/// The word in which a choice past its number is the last one.
fn clamped(alloc: Global, numbers: &[u32], word: &[u32]) -> Result<Vec<u32>, Fail> {
    let mut found = Vec::new(alloc);
    for (number, choice) in numbers.iter().zip(word) {
        found.push((*choice).min((*number).max(1) - 1))?;
    }
    Ok(found)
}

/// Whether each vector of the projection is the projected one.
fn projects(alloc: Global, seed: u32, qubit: u32, outcome: bool) -> Result<bool, Fail>
    requires { qubit < 3 }
{
    let mut store = Store::new(alloc);
    let mut steps = Steps::new(1_000);
    let lsta = drawn(alloc, &mut store, seed, &mut steps)?;
    let made = project(alloc, &mut store, &lsta, qubit, outcome, &mut steps)?;
    for place in 0..64 {
        let word = word_at(alloc, lsta.shape.as_slice(), place)?;
        for index in 0..8 {
            let digits = digits_at(alloc, index)?;
            let old = entry(&store, &lsta, word.as_slice(), digits.as_slice());
            let new = entry(&store, &made, word.as_slice(), digits.as_slice());
            let stays = digits.get(qubit as usize) == Some(&outcome);
            let want = if stays { old } else { Some(Amp::zero()) };
            if new != want {
                return Ok(false);
            }
        }
    }
    Ok(true)
}

/// Whether each vector of a padded automaton is that of the clamped word.
fn pads(alloc: Global, seed: u32) -> Result<bool, Fail> {
    let mut store = Store::new(alloc);
    let mut steps = Steps::new(10_000);
    let lsta = drawn(alloc, &mut store, seed, &mut steps)?;
    let made = pad(alloc, &mut store, &lsta, &[5, 6, 7], &mut steps)?;
    for place in 0..210 {
        let word = word_at(alloc, &[5, 6, 7], place)?;
        let old_word = clamped(alloc, lsta.shape.as_slice(), word.as_slice())?;
        for index in 0..8 {
            let digits = digits_at(alloc, index)?;
            let old = entry(&store, &lsta, old_word.as_slice(), digits.as_slice());
            let new = entry(&store, &made, word.as_slice(), digits.as_slice());
            if new.is_none() || new != old {
                return Ok(false);
            }
        }
    }
    Ok(true)
}

#[test]
fn projections(rt: HostRuntime) -> Result<(), Fail> {
    for seed in [1, 6, 11] {
        for qubit in 0..3 {
            assert!(rt;
                projects(rt.alloc(), seed, qubit, false)?,
                "at {seed} {qubit}"
            );
            assert!(rt;
                projects(rt.alloc(), seed, qubit, true)?,
                "at {seed} {qubit}"
            );
        }
    }
    Ok(())
}

#[test]
fn paddings(rt: HostRuntime) -> Result<(), Fail> {
    for seed in [0, 5, 10] {
        assert!(rt; pads(rt.alloc(), seed)?, "at {seed}");
    }
    Ok(())
}

/// Whether under the choices of a union from a start on are the vectors of a part.
fn has_part(
    alloc: Global,
    store: &Store<Amp>,
    part: &Lsta,
    start: u32,
    made: &Lsta,
) -> Result<bool, Fail>
    requires part { FitsStore store.now part.now }
    requires made { FitsStore store.now made.now }
    requires start { start < 100 }
{
    let Some((first, below)) = made.shape.as_slice().split_first() else {
        return Ok(false);
    };
    let first_of_part = part
        .shape
        .as_slice()
        .first()
        .copied()
        .unwrap_or(0)
        .min(*first);
    for choice in 0..first_of_part {
        for place in 0..16 {
            let rest = word_at(alloc, below, place)?;
            let word = before(alloc, start.saturating_add(choice), rest.as_slice())?;
            let in_part = before(alloc, choice, rest.as_slice())?;
            let old_word = clamped(alloc, part.shape.as_slice(), in_part.as_slice())?;
            for index in 0..8 {
                let digits = digits_at(alloc, index)?;
                let old = entry(store, part, old_word.as_slice(), digits.as_slice());
                let new = entry(store, made, word.as_slice(), digits.as_slice());
                if new.is_none() || new != old {
                    return Ok(false);
                }
            }
        }
    }
    Ok(true)
}

/// A word with this first choice.
fn before(alloc: Global, choice: u32, rest: &[u32]) -> Result<Vec<u32>, Fail> {
    let mut word = Vec::new(alloc);
    word.push(choice)?;
    word.extend_from_slice(rest)?;
    Ok(word)
}

/// Whether a union has the vectors of its left side and then those of its right side.
fn unites(alloc: Global, seed: u32) -> Result<bool, Fail> {
    let mut store = Store::new(alloc);
    let mut steps = Steps::new(10_000);
    let left = drawn(alloc, &mut store, seed, &mut steps)?;
    let right = drawn(alloc, &mut store, seed / 2, &mut steps)?;
    let made = union(alloc, &mut store, &left, &right, &mut steps)?;
    let behind = made.left_choices;
    Ok(
        behind < 100
            && has_part(alloc, &store, &left, 0, &made.lsta)?
            && has_part(alloc, &store, &right, behind, &made.lsta)?,
    )
}

/// Whether a union of three is the union of the union of two with the third.
fn unites_from_the_left(alloc: Global, seed: u32) -> Result<bool, Fail> {
    let mut store = Store::new(alloc);
    let mut steps = Steps::new(10_000);
    let first = drawn(alloc, &mut store, seed, &mut steps)?;
    let second = drawn(alloc, &mut store, seed / 2, &mut steps)?;
    let third = drawn(alloc, &mut store, seed / 3, &mut steps)?;
    let two = union(alloc, &mut store, &first, &second, &mut steps)?;
    let pairwise = union(alloc, &mut store, &two.lsta, &third, &mut steps)?;
    let parts = [first, second, third];
    let made = union_of(alloc, &mut store, &parts, &mut steps)?;
    Ok(made.root == pairwise.lsta.root && made.shape.as_slice() == pairwise.lsta.shape.as_slice())
}

#[test]
fn unions(rt: HostRuntime) -> Result<(), Fail> {
    for seed in [2, 5, 13] {
        assert!(rt; unites(rt.alloc(), seed)?, "at {seed}");
        assert!(rt; unites_from_the_left(rt.alloc(), seed)?, "at {seed}");
    }
    Ok(())
}
