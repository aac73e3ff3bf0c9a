//! Worlds of a small fragment, by hand.
ghost use Rattle.std.specs.Prelude.{◌≤◌, [], ◌∷◌, IfOk};
ghost use Rattle.aq_prog.specs.Cuts.{AreUncut};
ghost use Rattle.aq_prog.specs.Gates.{IsValidGate};
ghost use Rattle.aq_plain.specs.Replaying.{ArePlayable};
ghost use Rattle.aq_store.specs.Nodes.{HasShape, total_cost};
ghost use Rattle.aq_symbolic.specs.Worlds.{AreSized, IsSized};

use crate::spread::play;
use crate::{World, go, split};
use aq_prog::{Gate, Guard, Stmt, gate_named};
use aq_ring::Amp;
use aq_store::{Id, Lsta, Steps, Stop, Store};
use sqlite_items::Items;
use std::alloc::Global;
use std::test::Fail;

/// No gate has the name.
#[derive(Clone, Copy, Debug)]
struct NoGate;

/// The gate that flips qubit 0.
fn flip(alloc: Global) -> Result<Gate, Fail>
    ensures { IfOk result (λ gate. IsValidGate 1 gate) }
{
    match gate_named(b"x", 0) {
        Some(gate) => Ok(Gate::new(Items::new(alloc), 0, gate.rows)),
        None => Err(Fail::from(NoGate)),
    }
}

/// Flips qubit 0 if bit 0 is 1, and measures qubit 0.
fn branch_and_measurement(alloc: Global) -> Result<Items<Stmt>, Fail>
    ensures playable { IfOk result (ArePlayable 1 1) }
    ensures uncut { IfOk result AreUncut }
{
    let gate = flip(alloc)?;
    let mut yes = Items::new(alloc);
    yes.push(Stmt::Gate(gate))?;
    let mut body = Items::new(alloc);
    body.push(Stmt::If {
        guard: Guard {
            bit: 0,
            value: true,
        },
        yes,
        no: Items::new(alloc),
    })?;
    body.push(Stmt::Measure {
        qubit: 0,
        bit: None,
    })?;
    Ok(body)
}

/// Flips qubit 0 if bit 0 is 1.
fn branch(alloc: Global) -> Result<Items<Stmt>, Fail>
    ensures playable { IfOk result (ArePlayable 1 1) }
    ensures uncut { IfOk result AreUncut }
{
    let gate = flip(alloc)?;
    let mut yes = Items::new(alloc);
    yes.push(Stmt::Gate(gate))?;
    let mut body = Items::new(alloc);
    body.push(Stmt::If {
        guard: Guard {
            bit: 0,
            value: true,
        },
        yes,
        no: Items::new(alloc),
    })?;
    Ok(body)
}

/// A leaf.
fn leaf(store: &mut Store<Amp>, label: Amp, steps: &mut Steps) -> Result<Id, Stop<Amp>>
    requires paid { total_cost store.old ≤ steps.old.taken }
    ensures made { IfOk result (HasShape store.new []) }
    ensures paid { total_cost store.new ≤ steps.new.taken }
{
    store.leaf(label, steps)
}

/// A node with one choice, whose sides are one leaf.
fn both(store: &mut Store<Amp>, side: Id, steps: &mut Steps) -> Result<Id, Stop<Amp>>
    requires side { HasShape store.old [] side }
    requires paid { total_cost store.old ≤ steps.old.taken }
    ensures made { IfOk result (HasShape store.new (1 ∷ [])) }
    ensures paid { total_cost store.new ≤ steps.new.taken }
{
    store.node(&[(side, side)], steps)
}

/// The state |0> + |1>, in a world with one bit whose value isn't known.
fn open_world(alloc: Global, store: &mut Store<Amp>, steps: &mut Steps) -> Result<Vec<World>, Fail>
    requires paid { total_cost store.old ≤ steps.old.taken }
    ensures sized { IfOk result (λ list. AreSized 1 1 store.new list.items) }
    ensures paid { total_cost store.new ≤ steps.new.taken }
{
    let side = leaf(store, Amp::one(), steps)?;
    let root = both(store, side, steps)?;
    let mut shape = Vec::new(alloc);
    shape.push(1)?;
    let mut list = Vec::new(alloc);
    list.push(World {
        case: 0,
        start: Items::from_slice(alloc, &[None])?,
        bits: Items::from_slice(alloc, &[None])?,
        outcomes: Items::new(alloc),
        lsta: Lsta { root, shape },
    })?;
    Ok(list)
}

/// A world with one bit, which is 1.
fn known_world(alloc: Global, store: &Store<Amp>, root: Id) -> Result<World, Fail>
    requires { HasShape store.now (1 ∷ []) root }
    ensures { IfOk result (IsSized 1 1 store.now) }
{
    let _store = store;
    let mut shape = Vec::new(alloc);
    shape.push(1)?;
    Ok(World {
        case: 0,
        start: Items::from_slice(alloc, &[Some(true)])?,
        bits: Items::from_slice(alloc, &[Some(true)])?,
        outcomes: Items::new(alloc),
        lsta: Lsta { root, shape },
    })
}

/// The state |0> + |1>, in so many of these worlds.
fn known_worlds(
    alloc: Global,
    store: &mut Store<Amp>,
    count: usize,
    steps: &mut Steps,
) -> Result<Vec<World>, Fail>
    requires paid { total_cost store.old ≤ steps.old.taken }
    ensures sized { IfOk result (λ list. AreSized 1 1 store.new list.items) }
    ensures paid { total_cost store.new ≤ steps.new.taken }
{
    let side = leaf(store, Amp::one(), steps)?;
    let root = both(store, side, steps)?;
    let mut list = Vec::new(alloc);
    for _world in 0..count {
        let world = known_world(alloc, store, root)?;
        list.push(world)?;
    }
    Ok(list)
}

/// The steps that so many worlds of one state take, in which a branch with a gate is played.
fn steps_in_branch(alloc: Global, count: usize) -> Result<u64, Fail> {
    let mut store = Store::new(alloc);
    let mut steps = Steps::new(1000);
    let worlds = known_worlds(alloc, &mut store, count, &mut steps)?;
    let before = steps.taken();
    let body = branch(alloc)?;
    match play(alloc, &mut store, worlds, body.as_slice(), &mut steps) {
        Ok(_list) => Ok(steps.taken().wrapping_sub(before)),
        Err(stop) => Err(Fail::from(stop)),
    }
}

/// Bit 0 at the start and the only outcome, if both are there.
fn told(worlds: &[World], at: usize) -> Option<(bool, bool)> {
    let world = worlds.get(at)?;
    let bit = (*world.start.get(0)?)?;
    let outcome = world.outcomes.get(0)?;
    if world.outcomes.len() > 1 {
        return None;
    }
    Some((bit, *outcome))
}

/// Bit 0 at the start and now, if both are known.
fn decided(worlds: &[World], at: usize) -> Option<(bool, bool)> {
    let world = worlds.get(at)?;
    let start = (*world.start.get(0)?)?;
    let bit = (*world.bits.get(0)?)?;
    Some((start, bit))
}

#[test]
fn branch_on_an_open_bit(rt: HostRuntime) -> Result<(), Fail> {
    let mut store = Store::new(rt.alloc());
    let mut steps = Steps::new(1000);
    let worlds = open_world(rt.alloc(), &mut store, &mut steps)?;
    let body = branch_and_measurement(rt.alloc())?;
    let list = match go(rt.alloc(), &mut store, worlds, body.as_slice(), &mut steps) {
        Ok(list) => list,
        Err(stop) => return Err(Fail::from(stop)),
    };
    assert_eq!(rt; list.len(), 4);
    assert_eq!(rt; told(list.as_slice(), 0), Some((false, false)));
    assert_eq!(rt; told(list.as_slice(), 1), Some((false, true)));
    assert_eq!(rt; told(list.as_slice(), 2), Some((true, false)));
    assert_eq!(rt; told(list.as_slice(), 3), Some((true, true)));
    Ok(())
}

#[test]
fn split_at_an_open_bit(rt: HostRuntime) -> Result<(), Fail> {
    let mut store = Store::new(rt.alloc());
    let mut steps = Steps::new(1000);
    let worlds = open_world(rt.alloc(), &mut store, &mut steps)?;
    let halves = split(rt.alloc(), worlds, 0)?;
    assert_eq!(rt; halves.len(), 2);
    assert_eq!(rt; decided(halves.as_slice(), 0), Some((false, false)));
    assert_eq!(rt; decided(halves.as_slice(), 1), Some((true, true)));
    let same = split(rt.alloc(), halves, 0)?;
    assert_eq!(rt; same.len(), 2);
    assert_eq!(rt; decided(same.as_slice(), 0), Some((false, false)));
    assert_eq!(rt; decided(same.as_slice(), 1), Some((true, true)));
    Ok(())
}

/// The flip makes no new node of |0> + |1>. It takes one step, to keep what it made of the root, and the worlds behind
/// the first find that.
#[test]
fn worlds_in_a_branch_share_what_a_gate_made(rt: HostRuntime) -> Result<(), Fail> {
    assert_eq!(rt; steps_in_branch(rt.alloc(), 1)?, 1);
    assert_eq!(rt; steps_in_branch(rt.alloc(), 2)?, 1);
    assert_eq!(rt; steps_in_branch(rt.alloc(), 9)?, 1);
    Ok(())
}
