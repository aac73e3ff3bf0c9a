//! Several worlds: those that a step on one leaves.
ghost use Rattle.std.specs.Prelude.{◌≡◌, ◌<◌, ◌≤◌, ◌+◌, [], ◌∷◌, length, IfOk, IfErr, IfSome, OnOk};
ghost use Rattle.aq_prog.specs.Gates.{IsValidGate};
ghost use Rattle.std.specs.Bool.{OnTrue, OnFalse};
ghost use Rattle.aq_store.specs.Count.{after};
ghost use Rattle.aq_store.specs.Kinds.{HasState, IsNull};
ghost use Rattle.aq_store.specs.Nodes.{FitsStore, total_cost};
ghost use Rattle.aq_store.specs.Stops.{GivesUp};
ghost use Rattle.aq_gate_ops.specs.Action.{IsActing};
ghost use Rattle.aq_symbolic.specs.Memos.{AreOutcomes, AreResets};
ghost use Rattle.aq_symbolic.specs.Moves.{of_gate, of_measurement, of_reset};
ghost use Rattle.aq_symbolic.specs.Playing.{Leaves, Stops};
ghost use Rattle.aq_symbolic.specs.Splitting.{IsAssumed, IsSplit};
ghost use Rattle.aq_symbolic.specs.Steps.{AddsLive, AreAlive, Keeps};
ghost use Rattle.aq_symbolic.specs.Worlds.{AllFitStore};

use crate::kept::World;
use crate::memos::Memos;
use aq_label::Label;
use aq_prog::{Gate, Guard};
use aq_store::{Lsta, Steps, Stop, Store};
use std::alloc::{AllocError, Global};

/// Takes a step for each world that is made. `Spent`: so many are more than were left.
pub fn pay<L: Label>(steps: &mut Steps, made: usize) -> Result<(), Stop<L>>
    ensures ok { OnOk result (steps.new ≡ after made steps.old) }
    ensures limit { steps.new.limit ≡ steps.old.limit }
    ensures later { steps.old.taken ≤ steps.new.taken }
    ensures cheap { steps.new.taken ≤ steps.old.taken + made }
    ensures refused { IfErr result (GivesUp made steps.old steps.new) }
{
    match steps.take_all(made as u64) {
        Ok(()) => Ok(()),
        Err(_) => Err(Stop::Spent),
    }
}

pub(crate) fn one(alloc: Global, world: World) -> Result<Vec<World>, AllocError>
    ensures { IfOk result (λ list. list.items ≡ world ∷ []) }
{
    let mut list = Vec::new(alloc);
    list.push(world)?;
    Ok(list)
}

fn two(alloc: Global, first: World, second: World) -> Result<Vec<World>, AllocError>
    ensures { IfOk result (λ list. list.items ≡ first ∷ second ∷ []) }
{
    let mut list = Vec::new(alloc);
    list.push(first)?;
    list.push(second)?;
    Ok(list)
}

/// Whether an automaton has a vector that isn't zero.
fn has_state<L: Label>(store: &Store<L>, lsta: &Lsta) -> bool
    requires { FitsStore store.now lsta.now }
    ensures some { OnTrue result (HasState L.parts store.now lsta.now.shape.items lsta.now.root) }
    ensures none { OnFalse result (IsNull L.parts store.now lsta.now.root) }
{
    !store.is_zero(lsta.root)
}

/// Adds the world, if one of its vectors isn't zero.
fn keep<L: Label>(store: &Store<L>, list: &mut Vec<World>, world: World) -> Result<(), AllocError>
    requires { FitsStore store.now world.lsta }
    ensures { OnOk result (AddsLive L.parts L.part_count store.now world list.old.items list.new.items) }
{
    if !has_state(store, &world.lsta) {
        return Ok(());
    }
    list.push(world)?;
    Ok(())
}

/// Those of the worlds that have a vector that isn't zero. Fails only for want of memory.
pub fn alive<L: Label>(
    alloc: Global,
    store: &Store<L>,
    worlds: Vec<World>,
) -> Result<Vec<World>, AllocError>
    requires { AllFitStore store.now worlds.items }
    ensures { IfOk result (λ list. AreAlive L.parts L.part_count store.now worlds.items list.items) }
{
    let mut list = Vec::new(alloc);
    for world in worlds {
        keep(store, &mut list, world)?;
    }
    Ok(list)
}

/// The worlds with each value of the bit that isn't ruled out, 0 before 1. Fails only for want of memory.
pub(crate) fn split_world(alloc: Global, world: World, bit: u32) -> Result<Vec<World>, AllocError>
    requires start { bit < length world.start }
    requires bits { bit < length world.bits }
    ensures { IfOk result (λ list. IsSplit bit world list.items) }
{
    if world.is_open(bit) {
        let copy = world.copy(alloc)?;
        let zero = copy.decided(bit, false);
        let other = world.decided(bit, true);
        let halves = two(alloc, zero, other)?;
        return Ok(halves);
    }
    let same = one(alloc, world)?;
    Ok(same)
}

/// The same worlds. Where they are two, that takes a step. `Spent`: no step is left.
pub(crate) fn split_paid<L: Label>(
    alloc: Global,
    world: World,
    bit: u32,
    steps: &mut Steps,
) -> Result<Vec<World>, Stop<L>>
    requires start { bit < length world.start }
    requires bits { bit < length world.bits }
    ensures split { IfOk result (λ list. IsSplit bit world list.items) }
    ensures limit { steps.new.limit ≡ steps.old.limit }
    ensures later { steps.old.taken ≤ steps.new.taken }
    ensures cheap { steps.new.taken ≤ steps.old.taken + 1 }
    ensures refused { IfErr result (GivesUp 1 steps.old steps.new) }
{
    let Ok(halves) = split_world(alloc, world, bit) else {
        return Err(Stop::Memory);
    };
    pay(steps, halves.len() - 1)?;
    Ok(halves)
}

/// The world after a gate. `Wide`: it doesn't fit on the vector of some word. `Spent`: four times the words times
/// `2^(n+1)` are more steps than were left.
pub fn play_gate<L: Label>(
    alloc: Global,
    store: &mut Store<L>,
    memos: &mut Memos,
    world: World,
    gate: &Gate,
    steps: &mut Steps,
) -> Result<Vec<World>, Stop<L>>
    requires fits { FitsStore store.old world.lsta }
    requires valid { IsValidGate (length world.lsta.shape.items) gate.now }
    requires memos { let levels = length world.lsta.shape.items in
        IsActing L.parts L.part_count gate.now levels store.old memos.old.acting }
    requires paid { total_cost store.old ≤ steps.old.taken }
    ensures ok { let leaves = Leaves L.parts L.part_count (of_gate gate.now) store.old store.new steps.old steps.new in
        IfOk result (λ list. leaves (world ∷ []) list.items) }
    ensures memos { let levels = length world.lsta.shape.items in
        OnOk result (IsActing L.parts L.part_count gate.now levels store.new memos.new.acting) }
    ensures keeps { Keeps store.old store.new steps.old steps.new }
    ensures err { IfErr result
        (Stops L.parts L.part_count (of_gate gate.now) store.old (world ∷ []) steps.old steps.new) }
{
    let after = world.gate(alloc, store, &mut memos.acting, gate, steps)?;
    let Ok(list) = one(alloc, after) else {
        return Err(Stop::Memory);
    };
    Ok(list)
}

/// The worlds of a measurement of the qubit, outcome 0 before 1, but for those whose every vector is zero. `Spent`:
/// eight times the words times `2^(n+1)` are more steps than were left. It is never `Wide`.
pub fn measure<L: Label>(
    alloc: Global,
    store: &mut Store<L>,
    memos: &mut Memos,
    world: World,
    qubit: u32,
    bit: Option<u32>,
    steps: &mut Steps,
) -> Result<Vec<World>, Stop<L>>
    requires fits { FitsStore store.old world.lsta }
    requires qubit { qubit < length world.lsta.shape.items }
    requires bit { IfSome bit (λ b. b < length world.bits) }
    requires memos { let levels = length world.lsta.shape.items in
        AreOutcomes L.parts L.part_count levels store.old memos.old qubit }
    requires paid { total_cost store.old ≤ steps.old.taken }
    ensures ok { let move = of_measurement qubit bit in
        let leaves = Leaves L.parts L.part_count move store.old store.new steps.old steps.new in
        IfOk result (λ list. leaves (world ∷ []) list.items) }
    ensures memos { let levels = length world.lsta.shape.items in
        OnOk result (AreOutcomes L.parts L.part_count levels store.new memos.new qubit) }
    ensures keeps { Keeps store.old store.new steps.old steps.new }
    ensures err { let move = of_measurement qubit bit in
        IfErr result (Stops L.parts L.part_count move store.old (world ∷ []) steps.old steps.new) }
{
    pay(steps, 2)?;
    let zero = world.take_outcome(alloc, store, &mut memos.zero, qubit, bit, false, steps)?;
    let other = world.take_outcome(alloc, store, &mut memos.other, qubit, bit, true, steps)?;
    let Ok(both) = two(alloc, zero, other) else {
        return Err(Stop::Memory);
    };
    let Ok(list) = alive(alloc, store, both) else {
        return Err(Stop::Memory);
    };
    Ok(list)
}

/// The worlds of a reset of the qubit, outcome 0 before 1, but for those whose every vector is zero. `Spent`: eight
/// times the words times `2^(n+1)` are more steps than were left. It is never `Wide`.
pub fn reset<L: Label>(
    alloc: Global,
    store: &mut Store<L>,
    memos: &mut Memos,
    world: World,
    qubit: u32,
    steps: &mut Steps,
) -> Result<Vec<World>, Stop<L>>
    requires fits { FitsStore store.old world.lsta }
    requires qubit { qubit < length world.lsta.shape.items }
    requires memos { let levels = length world.lsta.shape.items in
        AreResets L.parts L.part_count levels store.old memos.old qubit }
    requires paid { total_cost store.old ≤ steps.old.taken }
    ensures ok { let leaves = Leaves L.parts L.part_count (of_reset qubit) store.old store.new steps.old steps.new in
        IfOk result (λ list. leaves (world ∷ []) list.items) }
    ensures memos { let levels = length world.lsta.shape.items in
        OnOk result (AreResets L.parts L.part_count levels store.new memos.new qubit) }
    ensures keeps { Keeps store.old store.new steps.old steps.new }
    ensures err { IfErr result
        (Stops L.parts L.part_count (of_reset qubit) store.old (world ∷ []) steps.old steps.new) }
{
    pay(steps, 2)?;
    let zero = world.take_outcome(alloc, store, &mut memos.zero, qubit, None, false, steps)?;
    let other = world.reset(
        alloc,
        store,
        &mut memos.other,
        &mut memos.acting,
        qubit,
        steps,
    )?;
    let Ok(both) = two(alloc, zero, other) else {
        return Err(Stop::Memory);
    };
    let Ok(list) = alive(alloc, store, both) else {
        return Err(Stop::Memory);
    };
    Ok(list)
}

/// The worlds in which the guard holds. Fails only for want of memory.
pub(crate) fn assume(alloc: Global, world: World, guard: &Guard) -> Result<Vec<World>, AllocError>
    requires start { guard.now.bit < length world.start }
    requires bits { guard.now.bit < length world.bits }
    ensures { IfOk result (λ list. IsAssumed guard.now world list.items) }
{
    if world.is_open(guard.bit) {
        let decided = world.decided(guard.bit, guard.value);
        let left = one(alloc, decided)?;
        return Ok(left);
    }
    if world.holds(guard) {
        let same = one(alloc, world)?;
        return Ok(same);
    }
    Ok(Vec::new(alloc))
}
