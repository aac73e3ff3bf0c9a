//! The gates that are drawn for a trial.
ghost use Rattle.std.specs.Prelude.{◌≡◌, ◌≤◌, ◌<◌, ◌^◌, ◌*◌, ◌+◌, IfOk};
ghost use Rattle.aq_trial.specs.Trials.{drawn, gates_from, next, on_two, other, step_from};

use crate::gates::Gate;
use sqlite_items::Items;
use std::alloc::{AllocError, Global};

/// The number behind x.
fn next(x: u64) -> u64
    requires { x < 2 ^ 31 }
    ensures value { result ≡ next x }
    ensures range { result < 2 ^ 31 }
{
    (1_103_515_245 * x + 12_345) % 2_147_483_648
}

/// What x says below a number.
fn drawn(most: u32, x: u64) -> u32
    requires { 0 < most }
    ensures value { result ≡ drawn most x }
    ensures range { result < most }
{
    (x / 65_536 % u64::from(most)) as u32
}

/// Number r of the numbers other than a.
fn other(a: u32, r: u32) -> u32
    requires { r < 1000 }
    ensures value { result ≡ other a r }
    ensures range { result ≤ r + 1 }
{
    if r < a { r } else { r + 1 }
}

/// A gate, and the last number that it took.
#[derive(Clone, Copy, Debug)]
struct Step {
    gate: Gate,
    at: u64,
}

/// The gate on two or three qubits whose first qubit and kind are drawn, the last one from `before`.
fn on_more(qubits: u32, kind: u32, a: u32, before: u64) -> Step
    requires x { before < 2 ^ 31 }
    requires qubits { (4 ≤ qubits) × (qubits ≤ 16) }
    ensures step { result ≡ on_two qubits kind a (next before) }
    ensures range { result.at < 2 ^ 31 }
{
    let x = next(before);
    let b = other(a, drawn(qubits - 1, x));
    if kind == 3 {
        Step {
            gate: Gate::Cx(a, b),
            at: x,
        }
    } else {
        let at = next(x);
        let r = drawn(qubits - 2, at);
        let c = other(a.max(b), other(a.min(b), r));
        Step {
            gate: Gate::Ccx(a, b, c),
            at,
        }
    }
}

/// The gate that the numbers behind x say.
fn gate_from(qubits: u32, x: u64) -> Step
    requires x { x < 2 ^ 31 }
    requires qubits { (4 ≤ qubits) × (qubits ≤ 16) }
    ensures step { result ≡ step_from qubits x }
    ensures range { result.at < 2 ^ 31 }
{
    let first = next(x);
    let at = next(first);
    let kind = drawn(5, first);
    let a = drawn(qubits, at);
    if kind == 0 {
        Step {
            gate: Gate::H(a),
            at,
        }
    } else if kind == 1 {
        Step {
            gate: Gate::T(a),
            at,
        }
    } else if kind == 2 {
        Step {
            gate: Gate::X(a),
            at,
        }
    } else {
        on_more(qubits, kind, a, at)
    }
}

/// So many gates, from x on.
pub(crate) fn draw(
    alloc: Global,
    qubits: u32,
    count: u32,
    x: u64,
) -> Result<Items<Gate>, AllocError>
    requires x { x < 2 ^ 31 }
    requires qubits { (4 ≤ qubits) × (qubits ≤ 16) }
    ensures { IfOk result (λ gates. gates ≡ gates_from qubits count x) }
{
    let mut gates = Items::new(alloc);
    let mut left = count;
    let mut at = x;
    while left > 0 {
        let step = gate_from(qubits, at);
        gates.push(step.gate)?;
        at = step.at;
        left -= 1;
    }
    Ok(gates)
}
