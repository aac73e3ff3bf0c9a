//! Several worlds: those that a step on one leaves.
ghost use Rattle.std.specs.Prelude.{
  ◌≡◌,
  ◌<◌,
  ℕ,
  All,
  IfErr,
  IfOk,
  IfSome,
  OnOk,
  ◌++◌,
  [],
  ◌∷◌,
  length,
  filter,
  false,
  true,
  slice_get,
};
ghost use Rattle.aq_prog.specs.Gates.{apply_gate, IsValidGate};
ghost use Rattle.aq_obligations.specs.Claims.{ClaimCase};
ghost use Rattle.aq_obligations.specs.Worlds.{
  assumed_worlds,
  decided,
  measured_world,
  reset_world,
  split,
  with_vectors,
};
ghost use Rattle.aq_correct.specs.WorldLaws.{is_alive};
ghost use Rattle.aq_worlds.specs.Playing.{lives, world_of, Gives, HasUnfit, IsSized, StopsFor};

use crate::stop::Stop;
use crate::world::PlainWorld;
use aq_prog::{Gate, Guard};
use std::alloc::{AllocError, Global};

pub(crate) fn one(alloc: Global, world: PlainWorld) -> Result<Vec<PlainWorld>, AllocError>
    ensures { IfOk result (λ list. list.items ≡ world ∷ []) }
{
    let mut list = Vec::new(alloc);
    list.push(world)?;
    Ok(list)
}

fn two(alloc: Global, first: PlainWorld, second: PlainWorld) -> Result<Vec<PlainWorld>, AllocError>
    ensures { IfOk result (λ list. list.items ≡ first ∷ second ∷ []) }
{
    let mut list = Vec::new(alloc);
    list.push(first)?;
    list.push(second)?;
    Ok(list)
}

/// Adds the world, if one of its vectors isn't zero.
fn keep(list: &mut Vec<PlainWorld>, world: PlainWorld) -> Result<(), AllocError>
    ensures { OnOk result (list.new.items ≡ list.old.items ++ filter lives (world ∷ [])) }
{
    if world.is_zero() {
        return Ok(());
    }
    list.push(world)?;
    Ok(())
}

/// Those of the worlds that have a vector that isn't zero.
pub fn alive(alloc: Global, worlds: Vec<PlainWorld>) -> Result<Vec<PlainWorld>, AllocError>
    ensures { IfOk result (λ list. list.items ≡ filter lives worlds.items) }
{
    let mut list = Vec::new(alloc);
    for world in worlds {
        keep(&mut list, world)?;
    }
    Ok(list)
}

/// The world with this value of the bit, as if the bit had had it from the beginning.
fn fixed(world: PlainWorld, bit: u32, value: bool) -> PlainWorld
    requires start { bit < length world.start }
    requires bits { bit < length world.bits }
    ensures decided { (c : ClaimCase) → world_of c result ≡ decided bit value (world_of c world) }
    ensures vectors { result.vectors ≡ world.vectors }
{
    let mut world = world;
    world.decide(bit, value);
    world
}

/// The worlds with each value of the bit that isn't ruled out, 0 before 1. Fails only for want of memory.
pub fn split_world(
    alloc: Global,
    world: PlainWorld,
    bit: u32,
) -> Result<Vec<PlainWorld>, AllocError>
    requires start { bit < length world.start }
    requires bits { bit < length world.bits }
    ensures { IfOk result (λ list. (n m : ℕ) (c : ClaimCase) → IsSized n m world
        → Gives n m c list.items (split bit (world_of c world))) }
{
    if world.is_open(bit) {
        let copy = world.copy(alloc)?;
        let zero = fixed(copy, bit, false);
        let other = fixed(world, bit, true);
        let halves = two(alloc, zero, other)?;
        return Ok(halves);
    }
    let same = one(alloc, world)?;
    Ok(same)
}

/// The worlds of a measurement of the qubit, outcome 0 before 1. Fails only for want of memory.
pub fn measure(
    alloc: Global,
    world: PlainWorld,
    qubit: u32,
    bit: Option<u32>,
) -> Result<Vec<PlainWorld>, AllocError>
    requires qubit { All (λ v. qubit < v.qubits) world.vectors.items }
    requires bit { IfSome bit (λ b. b < length world.bits) }
    ensures { IfOk result (λ list. (n m : ℕ) (c : ClaimCase) → IsSized n m world
        → Gives n m c list.items (filter is_alive (measured_world n qubit bit false (world_of c world)
        ∷ measured_world n qubit bit true (world_of c world) ∷ []))) }
{
    let copy = world.copy(alloc)?;
    let zero = copy.take_outcome(alloc, qubit, bit, false)?;
    let other = world.take_outcome(alloc, qubit, bit, true)?;
    let both = two(alloc, zero, other)?;
    let list = alive(alloc, both)?;
    Ok(list)
}

/// The worlds of a reset of the qubit, outcome 0 before 1. Fails only for want of memory.
pub fn reset(alloc: Global, world: PlainWorld, qubit: u32) -> Result<Vec<PlainWorld>, AllocError>
    requires { All (λ v. qubit < v.qubits) world.vectors.items }
    ensures { IfOk result (λ list. (n m : ℕ) (c : ClaimCase) → IsSized n m world
        → Gives n m c list.items (filter is_alive (reset_world n qubit false (world_of c world)
        ∷ reset_world n qubit true (world_of c world) ∷ []))) }
{
    let copy = world.copy(alloc)?;
    let zero = copy.reset(alloc, qubit, false)?;
    let other = world.reset(alloc, qubit, true)?;
    let both = two(alloc, zero, other)?;
    let list = alive(alloc, both)?;
    Ok(list)
}

/// The worlds in which the guard holds. Fails only for want of memory.
pub fn assume(
    alloc: Global,
    world: PlainWorld,
    guard: &Guard,
) -> Result<Vec<PlainWorld>, AllocError>
    requires start { guard.now.bit < length world.start }
    requires bits { guard.now.bit < length world.bits }
    ensures { IfOk result (λ list. (n m : ℕ) (c : ClaimCase) → IsSized n m world
        → Gives n m c list.items (filter is_alive
        (assumed_worlds guard.now (slice_get world.bits guard.now.bit) (world_of c world)))) }
{
    if world.is_open(guard.bit) {
        let decided = fixed(world, guard.bit, guard.value);
        let left = one(alloc, decided)?;
        let list = alive(alloc, left)?;
        return Ok(list);
    }
    if world.holds(guard) {
        let same = one(alloc, world)?;
        let rest = alive(alloc, same)?;
        return Ok(rest);
    }
    Ok(Vec::new(alloc))
}

/// The world after a gate. `Width`: it doesn't fit on one of the vectors.
pub fn play_gate(alloc: Global, world: PlainWorld, gate: &Gate) -> Result<Vec<PlainWorld>, Stop>
    requires { All (λ v. IsValidGate v.qubits gate.now) world.vectors.items }
    ensures ok { IfOk result (λ list. (n m : ℕ) (c : ClaimCase) → IsSized n m world
        → Gives n m c list.items (filter is_alive (with_vectors (apply_gate n gate.now) (world_of c world) ∷ []))) }
    ensures err { IfErr result (λ e. StopsFor (HasUnfit gate.now world.vectors.items) e) }
{
    let after = world.gate(alloc, gate)?;
    let left = one(alloc, after)?;
    let list = alive(alloc, left)?;
    Ok(list)
}
