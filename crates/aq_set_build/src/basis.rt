//! Automata of all basis states.
ghost use Rattle.std.specs.Prelude.{◌≡◌, ℕ, ◌+◌, ◌*◌, ◌<◌, ◌≤◌, replicate, IfOk, IfErr};
ghost use Rattle.aq_store.specs.Nodes.{total_cost};
ghost use Rattle.aq_set_build.specs.Growth.{Grows, StopsFor};
ghost use Rattle.aq_set_build.specs.Families.{IsFamily};
ghost use Rattle.aq_set_build.specs.Bases.{numbered, IsBasis, IsNothing};

use aq_ring::Amp;
use aq_store::{Id, Lsta, Steps, Stop, Store};
use std::alloc::Global;

/// The basis of so many qubits, and a zero of the same shape.
fn basis_and_zero(
    store: &mut Store<Amp>,
    count: u32,
    steps: &mut Steps,
) -> Result<(Id, Id), Stop<Amp>>
    requires paid { total_cost store.old ≤ steps.old.taken }
    ensures basis { IfOk result (λ made. IsBasis count store.new made.0) }
    ensures zero { IfOk result (λ made. IsNothing count store.new made.1) }
    ensures grows { Grows (2 + 4 * count) store.old store.new steps.old steps.new }
    ensures stops { IfErr result (StopsFor (λ l r. ⊥) (2 + 4 * count) steps.old steps.new) }
{
    let mut basis = store.leaf(Amp::one(), steps)?;
    let mut zero = store.leaf(Amp::zero(), steps)?;
    for level in 0..count {
        let next = store.node(&[(basis, zero), (zero, basis)], steps)?;
        zero = store.node(&[(zero, zero), (zero, zero)], steps)?;
        basis = next;
    }
    Ok((basis, zero))
}

/// The automaton of all basis states, with two choices for each qubit. The digits of a word are the index of its basis
/// state. It has a node more than two for each qubit. It gives up for want of steps or of memory alone, and nodes of
/// the store keep their meaning.
pub fn all(
    alloc: Global,
    store: &mut Store<Amp>,
    qubits: u32,
    steps: &mut Steps,
) -> Result<Lsta, Stop<Amp>>
    requires some { 0 < qubits }
    requires paid { total_cost store.old ≤ steps.old.taken }
    ensures made { IfOk result (IsFamily (numbered qubits) store.new (replicate qubits 2)) }
    ensures grows { Grows (4 * qubits) store.old store.new steps.old steps.new }
    ensures stops { IfErr result (StopsFor (λ l r. ⊥) (4 * qubits) steps.old steps.new) }
{
    let (basis, zero) = basis_and_zero(store, qubits - 1, steps)?;
    let root = store.node(&[(basis, zero), (zero, basis)], steps)?;
    let Ok(shape) = Vec::from_elem(alloc, 2u32, qubits as usize) else {
        return Err(Stop::Memory);
    };
    Ok(Lsta { root, shape })
}
