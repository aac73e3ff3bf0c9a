//! Automata of brackets of kets.
ghost use Rattle.std.specs.Prelude.{
  ◌≡◌,
  ℕ,
  ◌+◌,
  ◌-◌,
  ◌*◌,
  ◌^◌,
  ◌<◌,
  ◌≤◌,
  [],
  ◌∷◌,
  All,
  length,
  replicate,
  slice_get,
  Some,
  IfOk,
  IfErr,
};
ghost use Rattle.aq_store.specs.Nodes.{Extends, total_cost};
ghost use Rattle.aq_sets.specs.Vectors.{kets_vector};
ghost use Rattle.aq_set_build.specs.Growth.{Grows, StopsFor};
ghost use Rattle.aq_set_build.specs.Families.{IsFamily};
ghost use Rattle.aq_set_build.specs.Brackets.{low_terms, high_terms, IsKets, AreZeros};

use aq_ring::Amp;
use aq_sets::Term;
use aq_store::{Id, Lsta, Steps, Stop, Store};
use std::alloc::{AllocError, Global};

/// The terms below an index.
fn lows_of(alloc: Global, terms: &[Term], half: u64) -> Result<Vec<Term>, AllocError>
    ensures { IfOk result (λ lows. lows.items ≡ low_terms half terms.now) }
{
    terms
        .iter()
        .filter(|term| term.index < half)
        .copied()
        .collect(alloc)
}

/// The other terms, counted from it.
fn highs_of(alloc: Global, terms: &[Term], half: u64) -> Result<Vec<Term>, AllocError>
    ensures { IfOk result (λ highs. highs.items ≡ high_terms half terms.now) }
{
    terms
        .iter()
        .filter(|term| half <= term.index)
        .map(|term| Term {
            index: term.index.saturating_sub(half),
            amp: term.amp,
        })
        .collect(alloc)
}

/// How many indices a half of so many levels has.
fn half_of(height: u32) -> u64
    requires some { 0 < height }
    requires few { height ≤ 64 }
    ensures { result ≡ 2 ^ (height - 1) }
{
    1u64 << (height - 1)
}

/// A zero with a level more than the last of these, and without levels where there is none.
fn next_zero(store: &mut Store<Amp>, zeros: &[Id], steps: &mut Steps) -> Result<Id, Stop<Amp>>
    requires zeros { AreZeros store.old zeros.now }
    requires paid { total_cost store.old ≤ steps.old.taken }
    ensures made { IfOk result (IsKets (length zeros.now) [] store.new) }
    ensures grows { Grows 1 store.old store.new steps.old steps.new }
    ensures stops { IfErr result (StopsFor (λ l r. ⊥) 1 steps.old steps.new) }
{
    if zeros.is_empty() {
        let made = store.leaf(Amp::zero(), steps)?;
        return Ok(made);
    }
    let below = zeros[zeros.len() - 1];
    let made = store.node(&[(below, below)], steps)?;
    Ok(made)
}

/// The zeros with fewer levels than the count, by their number of levels.
fn zeros_below(
    alloc: Global,
    store: &mut Store<Amp>,
    count: u32,
    steps: &mut Steps,
) -> Result<Vec<Id>, Stop<Amp>>
    requires paid { total_cost store.old ≤ steps.old.taken }
    ensures made { IfOk result (λ zeros. AreZeros store.new zeros.items) }
    ensures long { IfOk result (λ zeros. length zeros.items ≡ count) }
    ensures grows { Grows count store.old store.new steps.old steps.new }
    ensures stops { IfErr result (StopsFor (λ l r. ⊥) count steps.old steps.new) }
{
    let mut zeros = Vec::new(alloc);
    for level in 0..count {
        let zero = next_zero(store, zeros.as_slice(), steps)?;
        let Ok(()) = zeros.push(zero) else {
            return Err(Stop::Memory);
        };
    }
    Ok(zeros)
}

/// The bracket of some terms, with so many levels. Each half of a bracket without terms is one of the zeros.
#[cycle(bracket)]
fn kets_at(
    alloc: Global,
    store: &mut Store<Amp>,
    zeros: &[Id],
    terms: &[Term],
    height: u32,
    steps: &mut Steps,
) -> Result<Id, Stop<Amp>>
    requires few { height ≤ 64 }
    requires some { 0 < length terms.now }
    requires inside { All (λ t. t.index < 2 ^ height) terms.now }
    requires zeros { AreZeros store.old zeros.now }
    requires enough { height ≤ length zeros.now }
    requires paid { total_cost store.old ≤ steps.old.taken }
    ensures made { IfOk result (IsKets height terms.now store.new) }
    ensures grows { Grows ((height + 1) * length terms.now) store.old store.new steps.old steps.new }
    ensures stops { IfErr result (StopsFor (λ l r. ⊥) ((height + 1) * length terms.now) steps.old steps.new) }
{
    if height == 0 {
        let made = store.leaf(terms[0].amp, steps)?;
        return Ok(made);
    }
    let half = half_of(height);
    let Ok(lows) = lows_of(alloc, terms, half) else {
        return Err(Stop::Memory);
    };
    let Ok(highs) = highs_of(alloc, terms, half) else {
        return Err(Stop::Memory);
    };
    let left = side_at(alloc, store, zeros, lows.as_slice(), height - 1, steps)?;
    let right = side_at(alloc, store, zeros, highs.as_slice(), height - 1, steps)?;
    let made = store.node(&[(left, right)], steps)?;
    Ok(made)
}

/// The same where there may be no terms.
#[cycle(bracket)]
fn side_at(
    alloc: Global,
    store: &mut Store<Amp>,
    zeros: &[Id],
    terms: &[Term],
    height: u32,
    steps: &mut Steps,
) -> Result<Id, Stop<Amp>>
    requires few { height ≤ 64 }
    requires inside { All (λ t. t.index < 2 ^ height) terms.now }
    requires zeros { AreZeros store.old zeros.now }
    requires enough { height < length zeros.now }
    requires paid { total_cost store.old ≤ steps.old.taken }
    ensures made { IfOk result (IsKets height terms.now store.new) }
    ensures grows { Grows ((height + 1) * length terms.now) store.old store.new steps.old steps.new }
    ensures stops { IfErr result (StopsFor (λ l r. ⊥) ((height + 1) * length terms.now) steps.old steps.new) }
{
    if terms.is_empty() {
        return Ok(zeros[height as usize]);
    }
    let made = kets_at(alloc, store, zeros, terms, height, steps)?;
    Ok(made)
}

/// The automaton of a bracket, which has one word: each term's amplitude stands at its index, and zero elsewhere. Of a
/// few terms over many qubits it makes a few nodes for each qubit. It gives up for want of steps or of memory alone,
/// and nodes of the store keep their meaning.
pub fn kets(
    alloc: Global,
    store: &mut Store<Amp>,
    qubits: u32,
    terms: &[Term],
    steps: &mut Steps,
) -> Result<Lsta, Stop<Amp>>
    requires few { qubits ≤ 64 }
    requires some { 0 < length terms.now }
    requires inside { All (λ t. t.index < 2 ^ qubits) terms.now }
    requires paid { total_cost store.old ≤ steps.old.taken }
    ensures made { IfOk result (IsFamily (λ word. kets_vector qubits terms.now) store.new (replicate qubits 1)) }
    ensures grows { Grows ((qubits + 1) * (1 + length terms.now)) store.old store.new steps.old steps.new }
    ensures stops { let most = (qubits + 1) * (1 + length terms.now) in
        IfErr result (StopsFor (λ l r. ⊥) most steps.old steps.new) }
{
    let zeros = zeros_below(alloc, store, qubits, steps)?;
    let root = kets_at(alloc, store, zeros.as_slice(), terms, qubits, steps)?;
    let Ok(shape) = Vec::from_elem(alloc, 1u32, qubits as usize) else {
        return Err(Stop::Memory);
    };
    Ok(Lsta { root, shape })
}
