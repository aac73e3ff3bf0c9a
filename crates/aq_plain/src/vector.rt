//! State vectors.
ghost use Rattle.std.specs.Prelude.{
  ◌≡◌,
  ◌↔◌,
  ◌<◌,
  ◌≤◌,
  ◌^◌,
  All,
  IfOk,
  IsTrue,
  length,
  replicate,
  slice_get,
  slice_set,
  Some,
};
ghost use Rattle.std.specs.Bool.{OnTrue};
ghost use Rattle.aq_ring.specs.Amplitudes.{amplitude_zero};
ghost use Rattle.aq_ring.specs.Vectors.{IsZeroVector};
ghost use Rattle.aq_prog.specs.Gates.{apply_gate, project, FitsGate, IsValidGate};
ghost use Rattle.aq_plain.specs.Small.{IsSmallAmplitude};
ghost use Rattle.aq_plain.specs.Vectors.{IsStateVector};

use crate::apply::write_gate;
use crate::project::keep_half;
use aq_prog::Gate;
use aq_ring::Amp;
use std::alloc::{AllocError, Global};
use std::marker::Model;

/// A state of some qubits: an amplitude for each of the `2^qubits` basis states. The binary digits of an index are
/// those of the ket, qubit 0 leftmost.
#[derive(Debug, Drop)]
pub struct Vector {
    qubits: u32,
    amps: Vec<Amp>,
}

impl Model for Vector {
    ghost use Rattle.aq_plain.specs.Vectors.{StateVector, IsStateVector};

    ghost Value = { StateVector };

    ghost view = { λ v. record { qubits = v.qubits; amps = v.amps.items } };

    ghost invariant = { λ v. IsStateVector v.qubits v.amps.items };
}

impl Vector {
    /// The vector of zeros. Fails only for want of memory.
    pub fn zero(alloc: Global, qubits: u32) -> Result<Vector, AllocError>
        requires { qubits ≤ 16 }
        ensures qubits { IfOk result (λ v. v.qubits ≡ qubits) }
        ensures amps { IfOk result (λ v. v.amps ≡ replicate (2 ^ qubits) amplitude_zero) }
    {
        let amps = Vec::from_elem(alloc, Amp::zero(), 1usize << qubits)?;
        Ok(Vector { qubits, amps })
    }

    /// The state of so many qubits with these amplitudes.
    pub fn from_amps(qubits: u32, amps: Vec<Amp>) -> Vector
        requires { IsStateVector qubits amps.items }
        ensures qubits { result.qubits ≡ qubits }
        ensures amps { result.amps ≡ amps.items }
    {
        Vector { qubits, amps }
    }

    /// The same state once more. Fails only for want of memory.
    pub fn copy(&self, alloc: Global) -> Result<Vector, AllocError>
        ensures { IfOk result (λ v. v ≡ self.now) }
    {
        let amps = Vec::from_slice(alloc, self.amps.as_slice())?;
        Ok(Vector {
            qubits: self.qubits,
            amps,
        })
    }

    pub fn qubits(&self) -> u32
        ensures value { result ≡ self.now.qubits }
        ensures valid { IsStateVector self.now.qubits self.now.amps }
    {
        self.qubits
    }

    /// The amplitudes, `2^qubits` of them.
    pub fn amps(&self) -> &[Amp]
        ensures value { result.now ≡ self.now.amps }
        ensures valid { IsStateVector self.now.qubits self.now.amps }
    {
        self.amps.as_slice()
    }

    /// Plays a gate all of whose sums and quotients fit. `small`: all amplitudes are.
    pub(crate) fn play(&mut self, gate: &Gate, small: bool)
        requires valid { IsValidGate self.old.qubits gate.now }
        requires fits { FitsGate self.old.qubits gate.now self.old.amps }
        requires small { OnTrue small (All IsSmallAmplitude self.old.amps) }
        ensures qubits { self.new.qubits ≡ self.old.qubits }
        ensures amps { self.new.amps ≡ apply_gate self.old.qubits gate.now self.old.amps }
    {
        write_gate(self.amps.as_mut_slice(), self.qubits, gate, small);
    }

    /// Makes the amplitudes zero of the kets in which the qubit has the other digit.
    pub(crate) fn keep(&mut self, qubit: u32, outcome: bool)
        requires { qubit < self.old.qubits }
        ensures qubits { self.new.qubits ≡ self.old.qubits }
        ensures amps { self.new.amps ≡ project self.old.qubits qubit outcome self.old.amps }
    {
        keep_half(self.amps.as_mut_slice(), self.qubits, qubit, outcome);
    }

    /// Puts the amplitude at the index.
    pub fn set(&mut self, index: usize, amp: Amp)
        requires { index < 2 ^ self.old.qubits }
        ensures qubits { self.new.qubits ≡ self.old.qubits }
        ensures amps { self.new.amps ≡ slice_set self.old.amps index amp }
    {
        self.amps[index] = amp;
    }

    /// Whether every amplitude is zero.
    pub fn is_zero(&self) -> bool
        ensures { IsTrue result ↔ IsZeroVector self.now.amps }
    {
        self.amps.iter().all(|amp| amp.is_zero())
    }
}
