//! The projection of a vector on the kets in which a qubit has a digit.
ghost use Rattle.std.specs.Prelude.{◌≡◌, ◌<◌};
ghost use Rattle.aq_prog.specs.Gates.{project};
ghost use Rattle.aq_plain.specs.Vectors.{IsStateVector};

use crate::places::digit_of;
use crate::vector::Vector;
use aq_ring::Amp;

/// Keeps the amplitudes of the kets in which the qubit has this digit, and makes the others zero. The vector isn't
/// normalised.
pub fn project_plain(vector: &mut Vector, qubit: u32, outcome: bool)
    requires { qubit < vector.old.qubits }
    ensures qubits { vector.new.qubits ≡ vector.old.qubits }
    ensures amps { vector.new.amps ≡ project vector.old.qubits qubit outcome vector.old.amps }
{
    vector.keep(qubit, outcome);
}

pub(crate) fn keep_half(amps: &mut [Amp], qubits: u32, qubit: u32, outcome: bool)
    requires sizes { IsStateVector qubits amps.old }
    requires within { qubit < qubits }
    ensures { amps.new ≡ project qubits qubit outcome amps.old }
{
    let kept = if outcome { 1 } else { 0 };
    for index in 0..amps.len() {
        if digit_of(index, qubits, qubit) != kept {
            amps[index] = Amp::zero();
        }
    }
}
