//! The gates of a call on given qubits.
ghost use Rattle.std.specs.Prelude.{◌≡◌, ◌++◌, ◌∷◌, [], IfOk, OnOk};
ghost use Rattle.aq_elab.specs.Calls.{last, all_but_last, gate_on, flip_on, swap_on, cswap_on, gates_on};

use crate::recipe::Recipe;
use aq_prog::{Entry, Gate};
use sqlite_items::Items;
use std::alloc::{AllocError, Global};

const ONE: Entry = Entry::Unit { turn: 0, roots: 0 };

const FLIP: [[Entry; 2]; 2] = [[Entry::Zero, ONE], [ONE, Entry::Zero]];

fn target_of(qubits: &[u32]) -> u32
    ensures { result ≡ last qubits.now }
{
    match qubits.split_last() {
        Some((target, _)) => *target,
        None => 0,
    }
}

fn controls_of(qubits: &[u32]) -> &[u32]
    ensures { result.now ≡ all_but_last qubits.now }
{
    match qubits.split_last() {
        Some((_, controls)) => controls,
        None => qubits,
    }
}

fn gate_on(alloc: Global, rows: [[Entry; 2]; 2], qubits: &[u32]) -> Result<Gate, AllocError>
    ensures { IfOk result (λ gate. gate ≡ gate_on rows qubits.now) }
{
    let controls = Items::from_slice(alloc, controls_of(qubits))?;
    Ok(Gate::new(controls, target_of(qubits), rows))
}

fn push_gate(
    alloc: Global,
    gates: &mut Items<Gate>,
    rows: [[Entry; 2]; 2],
    qubits: &[u32],
) -> Result<(), AllocError>
    ensures { OnOk result (gates.new ≡ gates.old ++ gate_on rows qubits.now ∷ []) }
{
    let gate = gate_on(alloc, rows, qubits)?;
    gates.push(gate)?;
    Ok(())
}

fn push_flip(alloc: Global, gates: &mut Items<Gate>, qubits: &[u32]) -> Result<(), AllocError>
    ensures { OnOk result (gates.new ≡ gates.old ++ flip_on qubits.now ∷ []) }
{
    push_gate(alloc, gates, FLIP, qubits)
}

/// Adds a flip between two others that are alike.
fn push_between(
    alloc: Global,
    gates: &mut Items<Gate>,
    outer: &[u32],
    inner: &[u32],
) -> Result<(), AllocError>
    ensures { OnOk result (gates.new ≡ gates.old ++ flip_on outer.now ∷ flip_on inner.now ∷ flip_on outer.now ∷ []) }
{
    push_flip(alloc, gates, outer)?;
    push_flip(alloc, gates, inner)?;
    push_flip(alloc, gates, outer)
}

fn push_swap(alloc: Global, gates: &mut Items<Gate>, qubits: &[u32]) -> Result<(), AllocError>
    ensures { OnOk result (gates.new ≡ gates.old ++ swap_on qubits.now) }
{
    match qubits {
        [a, b] => push_between(alloc, gates, &[*a, *b], &[*b, *a]),
        _ => Ok(()),
    }
}

fn push_controlled_swap(
    alloc: Global,
    gates: &mut Items<Gate>,
    qubits: &[u32],
) -> Result<(), AllocError>
    ensures { OnOk result (gates.new ≡ gates.old ++ cswap_on qubits.now) }
{
    match qubits {
        [c, a, b] => push_between(alloc, gates, &[*b, *a], &[*c, *a, *b]),
        _ => Ok(()),
    }
}

/// Adds the gates on these qubits at the end. The last qubit is the target, and those before it are controls. The only
/// error is want of memory.
pub(crate) fn push_gates(
    alloc: Global,
    gates: &mut Items<Gate>,
    recipe: &Recipe,
    qubits: &[u32],
) -> Result<(), AllocError>
    ensures { OnOk result (gates.new ≡ gates.old ++ gates_on recipe.now qubits.now) }
{
    match recipe {
        Recipe::One(rows) => push_gate(alloc, gates, rows.rows, qubits),
        Recipe::Swap => push_swap(alloc, gates, qubits),
        Recipe::ControlledSwap => push_controlled_swap(alloc, gates, qubits),
    }
}
