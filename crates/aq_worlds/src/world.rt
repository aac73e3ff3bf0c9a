//! A world, and its steps.
ghost use Rattle.std.specs.Prelude.{◌≡◌, ◌<◌, ℕ, All, IfOk, IfErr, IfSome, length, map, slice_get};
ghost use Rattle.aq_prog.specs.Gates.{apply_gate, IsValidGate};
ghost use Rattle.aq_obligations.specs.Claims.{ClaimCase};
ghost use Rattle.aq_obligations.specs.Worlds.{decided, is_known, measured_world, reset_world, stored, with_vectors};
ghost use Rattle.aq_worlds.specs.Playing.{
  AreOn,
  HasUnfit,
  StopsFor,
  is_nothing,
  is_unknown,
  world_of,
  with_gate,
  with_half,
  with_reset,
};

use crate::stop::Stop;
use crate::vectors::{are_zero, clear_all, copy_all, keep_all, play_all};
use aq_plain::Vector;
use aq_prog::{Gate, Guard};
use sqlite_items::Items;
use std::alloc::{AllocError, Global};

/// What several runs have in common: the bits that are fixed at the start, the bits that are known now, the outcomes,
/// and a vector for each that the case lists.
#[derive(Debug, Drop)]
pub struct PlainWorld {
    pub start: Items<Option<bool>>,
    pub bits: Items<Option<bool>>,
    pub outcomes: Items<bool>,
    pub vectors: Vec<Vector>,
}

impl PlainWorld {
    /// The same world once more. Fails only for want of memory.
    pub fn copy(&self, alloc: Global) -> Result<PlainWorld, AllocError>
        ensures same { IfOk result (λ w. (c : ClaimCase) → world_of c w ≡ world_of c self.now) }
        ensures start { IfOk result (λ w. w.start ≡ self.now.start) }
        ensures bits { IfOk result (λ w. w.bits ≡ self.now.bits) }
        ensures vectors { IfOk result (λ w. w.vectors.items ≡ self.now.vectors.items) }
    {
        let start = Items::from_slice(alloc, self.start.as_slice())?;
        let bits = Items::from_slice(alloc, self.bits.as_slice())?;
        let outcomes = Items::from_slice(alloc, self.outcomes.as_slice())?;
        let vectors = copy_all(alloc, self.vectors.as_slice())?;
        Ok(PlainWorld {
            start,
            bits,
            outcomes,
            vectors,
        })
    }

    /// Fixes the bit, as if it had had this value from the beginning.
    pub fn decide(&mut self, bit: u32, value: bool)
        requires start { bit < length self.old.start }
        requires bits { bit < length self.old.bits }
        ensures decided { (c : ClaimCase) → world_of c self.new ≡ decided bit value (world_of c self.old) }
        ensures vectors { self.new.vectors ≡ self.old.vectors }
    {
        self.start.set(bit as usize, Some(value));
        self.bits.set(bit as usize, Some(value));
    }

    /// Plays a gate. `Width`: it doesn't fit on one of the vectors.
    pub fn gate(self, alloc: Global, gate: &Gate) -> Result<PlainWorld, Stop>
        requires { All (λ v. IsValidGate v.qubits gate.now) self.vectors.items }
        ensures world { IfOk result (λ w. (n : ℕ) (c : ClaimCase) → AreOn n self.vectors.items
            → world_of c w ≡ with_vectors (apply_gate n gate.now) (world_of c self)) }
        ensures vectors { IfOk result (λ w. w.vectors.items ≡ map (with_gate gate.now) self.vectors.items) }
        ensures err { IfErr result (λ e. StopsFor (HasUnfit gate.now self.vectors.items) e) }
    {
        let PlainWorld {
            start,
            bits,
            outcomes,
            vectors,
        } = self;
        let vectors = play_all(alloc, gate, vectors)?;
        Ok(PlainWorld {
            start,
            bits,
            outcomes,
            vectors,
        })
    }
    /// Takes an outcome of a measurement of the qubit, and stores it where a bit is named. Fails only for want of
    /// memory.
    pub fn take_outcome(
        self,
        alloc: Global,
        qubit: u32,
        bit: Option<u32>,
        outcome: bool,
    ) -> Result<PlainWorld, AllocError>
        requires qubit { All (λ v. qubit < v.qubits) self.vectors.items }
        requires bit { IfSome bit (λ b. b < length self.bits) }
        ensures world { IfOk result (λ w. (n : ℕ) (c : ClaimCase) → AreOn n self.vectors.items
            → world_of c w ≡ measured_world n qubit bit outcome (world_of c self)) }
        ensures vectors { IfOk result (λ w. w.vectors.items ≡ map (with_half qubit outcome) self.vectors.items) }
    {
        let PlainWorld {
            start,
            bits,
            mut outcomes,
            vectors,
        } = self;
        let bits = store(bits, bit, outcome);
        outcomes.push(outcome)?;
        let vectors = keep_all(alloc, qubit, outcome, vectors)?;
        Ok(PlainWorld {
            start,
            bits,
            outcomes,
            vectors,
        })
    }

    /// Takes an outcome of a reset of the qubit. Fails only for want of memory.
    pub fn reset(self, alloc: Global, qubit: u32, outcome: bool) -> Result<PlainWorld, AllocError>
        requires { All (λ v. qubit < v.qubits) self.vectors.items }
        ensures world { IfOk result (λ w. (n : ℕ) (c : ClaimCase) → AreOn n self.vectors.items
            → world_of c w ≡ reset_world n qubit outcome (world_of c self)) }
        ensures vectors { IfOk result (λ w. w.vectors.items ≡ map (with_reset qubit outcome) self.vectors.items) }
    {
        let PlainWorld {
            start,
            bits,
            outcomes: mut taken,
            vectors,
        } = self;
        taken.push(outcome)?;
        let vectors = clear_all(alloc, qubit, outcome, vectors)?;
        Ok(PlainWorld {
            start,
            bits,
            outcomes: taken,
            vectors,
        })
    }

    /// Whether every vector is zero.
    pub fn is_zero(&self) -> bool
        ensures { result ≡ is_nothing self.now }
    {
        are_zero(self.vectors.as_slice())
    }

    /// Whether the guard's bit is known to have its value.
    pub fn holds(&self, guard: &Guard) -> bool
        ensures { result ≡ is_known guard.now (slice_get self.now.bits guard.now.bit) }
    {
        match self.bits.as_slice().get(guard.bit as usize) {
            Some(Some(bit)) => *bit == guard.value,
            Some(None) => false,
            None => false,
        }
    }

    /// Whether the value of the bit isn't known.
    pub fn is_open(&self, bit: u32) -> bool
        ensures { result ≡ is_unknown (slice_get self.now.bits bit) }
    {
        match self.bits.as_slice().get(bit as usize) {
            Some(Some(_)) => false,
            Some(None) => true,
            None => false,
        }
    }
}

/// The bits with the outcome stored, where one is named.
fn store(bits: Items<Option<bool>>, bit: Option<u32>, outcome: bool) -> Items<Option<bool>>
    requires { IfSome bit (λ b. b < length bits) }
    ensures { result ≡ stored bit outcome bits }
{
    let mut bits = bits;
    if let Some(bit) = bit {
        bits.set(bit as usize, Some(outcome));
    }
    bits
}
