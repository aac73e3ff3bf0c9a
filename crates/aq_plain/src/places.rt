//! The digits of indices.
ghost use Rattle.std.specs.Prelude.{◌≡◌, ◌≤◌, ◌<◌, ◌^◌, ◌+◌, ◌*◌, ◌/◌};
ghost use Rattle.std.specs.List.{All};
ghost use Rattle.aq_prog.specs.Digits.{digit, weight};
ghost use Rattle.aq_prog.specs.Gates.{is_controlled};

/// What the qubit's digit counts for.
#[inline]
pub(crate) fn weight_of(qubits: u32, qubit: u32) -> usize
    requires few { qubits ≤ 16 }
    requires within { qubit < qubits }
    ensures { result ≡ weight qubits qubit }
{
    1usize << (qubits - 1 - qubit)
}

/// The qubit's digit of the index.
#[inline]
pub(crate) fn digit_of(index: usize, qubits: u32, qubit: u32) -> usize
    requires few { qubits ≤ 16 }
    requires within { qubit < qubits }
    ensures { result ≡ digit qubits qubit index }
{
    (index >> (qubits - 1 - qubit)) % 2
}

/// The next index whose digit at the qubit may be another one. Up to there it stays.
#[inline]
pub(crate) fn next_change(index: usize, qubits: u32, qubit: u32) -> usize
    requires few { qubits ≤ 16 }
    requires within { qubit < qubits }
    requires index { index < 2 ^ qubits }
    ensures { result ≡ (index / weight qubits qubit + 1) * weight qubits qubit }
{
    let place = qubits - 1 - qubit;
    ((index >> place) + 1) << place
}

/// Whether each of the controls has digit 1.
#[inline]
pub(crate) fn has_controls(index: usize, qubits: u32, controls: &[u32]) -> bool
    requires few { qubits ≤ 16 }
    requires within { All (λ c. c < qubits) controls.now }
    ensures { result ≡ is_controlled qubits controls.now index }
{
    for control in controls {
        if digit_of(index, qubits, *control) != 1 {
            return false;
        }
    }
    true
}
