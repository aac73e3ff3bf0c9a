//! What is done to all vectors of a world.
ghost use Rattle.std.specs.Prelude.{◌≡◌, ◌<◌, All, IfOk, IfErr, map};
ghost use Rattle.std.specs.List.{list_all};
ghost use Rattle.aq_ring.specs.Vectors.{is_zero_vector};
ghost use Rattle.aq_prog.specs.Gates.{apply_gate, flip_gate, IsValidGate};
ghost use Rattle.aq_worlds.specs.Playing.{HasUnfit, StopsFor, with_gate, with_half, with_reset};

use crate::stop::Stop;
use aq_plain::{Vector, apply_plain, project_plain};
use aq_prog::{Entry, Gate};
use sqlite_items::Items;
use std::alloc::{AllocError, Global};

const ONE: Entry = Entry::Unit { turn: 0, roots: 0 };

const FLIP: [[Entry; 2]; 2] = [[Entry::Zero, ONE], [ONE, Entry::Zero]];

pub(crate) fn copy_all(alloc: Global, vectors: &[Vector]) -> Result<Vec<Vector>, AllocError>
    ensures { IfOk result (λ list. list.items ≡ vectors.now) }
{
    let mut list = Vec::new(alloc);
    for vector in vectors {
        list.push(vector.copy(alloc)?)?;
    }
    Ok(list)
}

/// Plays the gate on each vector.
pub(crate) fn play_all(
    alloc: Global,
    gate: &Gate,
    vectors: Vec<Vector>,
) -> Result<Vec<Vector>, Stop>
    requires { All (λ v. IsValidGate v.qubits gate.now) vectors.items }
    ensures ok { IfOk result (λ list. list.items ≡ map (with_gate gate.now) vectors.items) }
    ensures err { IfErr result (λ e. StopsFor (HasUnfit gate.now vectors.items) e) }
{
    let mut list = Vec::new(alloc);
    for vector in vectors {
        let mut vector = vector;
        if let Err(_) = apply_plain(&mut vector, gate) {
            return Err(Stop::Width);
        }
        list.push(vector)?;
    }
    Ok(list)
}

/// Keeps of each vector the kets in which the qubit has this digit.
pub(crate) fn keep_all(
    alloc: Global,
    qubit: u32,
    outcome: bool,
    vectors: Vec<Vector>,
) -> Result<Vec<Vector>, AllocError>
    requires { All (λ v. qubit < v.qubits) vectors.items }
    ensures { IfOk result (λ list. list.items ≡ map (with_half qubit outcome) vectors.items) }
{
    let mut list = Vec::new(alloc);
    for vector in vectors {
        let mut vector = vector;
        project_plain(&mut vector, qubit, outcome);
        list.push(vector)?;
    }
    Ok(list)
}

/// Flips the qubit, which always fits.
fn flip(alloc: Global, vector: &mut Vector, qubit: u32)
    requires { qubit < vector.old.qubits }
    ensures qubits { vector.new.qubits ≡ vector.old.qubits }
    ensures amps { vector.new.amps ≡ apply_gate vector.old.qubits (flip_gate qubit) vector.old.amps }
{
    let gate = Gate::new(Items::new(alloc), qubit, FLIP);
    let Ok(()) = apply_plain(vector, &gate) else {
        unreachable!();
    };
}

/// Keeps the kets in which the qubit has this digit, and makes the digit 0.
fn clear(alloc: Global, vector: &mut Vector, qubit: u32, outcome: bool)
    requires { qubit < vector.old.qubits }
    ensures { vector.new ≡ with_reset qubit outcome vector.old }
{
    project_plain(vector, qubit, outcome);
    if outcome {
        flip(alloc, vector, qubit);
    }
}

/// Keeps of each vector the kets in which the qubit has this digit, and makes the digit 0.
pub(crate) fn clear_all(
    alloc: Global,
    qubit: u32,
    outcome: bool,
    vectors: Vec<Vector>,
) -> Result<Vec<Vector>, AllocError>
    requires { All (λ v. qubit < v.qubits) vectors.items }
    ensures { IfOk result (λ list. list.items ≡ map (with_reset qubit outcome) vectors.items) }
{
    let mut list = Vec::new(alloc);
    for vector in vectors {
        let mut vector = vector;
        clear(alloc, &mut vector, qubit, outcome);
        list.push(vector)?;
    }
    Ok(list)
}

fn is_zero(vector: &Vector) -> bool
    ensures { result ≡ is_zero_vector vector.now.amps }
{
    vector.is_zero()
}

/// Whether every vector is zero.
pub(crate) fn are_zero(vectors: &[Vector]) -> bool
    ensures { result ≡ list_all (λ v. is_zero_vector v.amps) vectors.now }
{
    vectors.iter().all(|vector| is_zero(vector))
}
