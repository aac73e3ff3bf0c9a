//! Drawn gates on drawn states of four qubits: on an automaton, and on the plain vector.
ghost use Rattle.std.specs.Prelude.{◌≡◌, ◌≢◌, ◌<◌, ◌≤◌, IfOk, replicate};
ghost use Rattle.aq_prog.specs.Gates.{AreEntries, IsValidGate};
ghost use Rattle.aq_store.specs.Nodes.{Extends, HasShape, total_cost};

use aq_gate_ops::apply;
use aq_plain::{Vector, apply_plain};
use aq_prog::{Entry, Gate, gate_named};
use aq_ring::Amp;
use aq_store::{Id, Lsta, Steps, Stop, Store};
use sqlite_items::Items;
use std::alloc::Global;
use std::test::Fail;

/// The gates that are drawn; each may get controls.
const NAMES: [&[u8]; 8] = [b"h", b"x", b"y", b"z", b"s", b"t", b"h", b"x"];

/// No gate has the name.
#[derive(Clone, Copy, Debug)]
struct NoGate;

/// The two ways didn't come to the same.
#[derive(Clone, Copy, Debug)]
struct Differs;

/// Numbers that look drawn, the same from each seed.
#[derive(Drop)]
struct Draws {
    seed: u64,
}

impl Draws {
    /// The next number below this one.
    fn below(&mut self, limit: u32) -> u32
        requires { 0 < limit }
        ensures { result < limit }
    {
        self.seed = self
            .seed
            .wrapping_mul(6364136223846793005)
            .wrapping_add(1442695040888963407);
        ((self.seed >> 33) as u32) % limit
    }
}

fn rows_of(name: &[u8]) -> Result<[[Entry; 2]; 2], Fail>
    ensures { IfOk result (λ rows. AreEntries rows) }
{
    match gate_named(name, 2) {
        Some(gate) => Ok(gate.rows),
        None => Err(Fail::from(NoGate)),
    }
}

/// A gate with up to two controls, above and below its target.
fn drawn_gate(alloc: Global, draws: &mut Draws) -> Result<Gate, Fail>
    ensures { IfOk result (λ gate. IsValidGate 4 gate) }
{
    let rows = rows_of(NAMES[draws.below(8) as usize])?;
    let target = draws.below(4);
    let first = draws.below(4);
    let second = draws.below(4);
    if first == target {
        return Ok(Gate::new(Items::new(alloc), target, rows));
    }
    if second == target || second == first {
        let one = Items::from_slice(alloc, &[first])?;
        return Ok(Gate::new(one, target, rows));
    }
    let two = Items::from_slice(alloc, &[first, second])?;
    Ok(Gate::new(two, target, rows))
}

/// An amplitude: zero, a turn of one, a small one, or one that is as large as can be.
fn drawn_amp(draws: &mut Draws) -> Amp {
    let small = draws.below(5) as i128;
    let coefs = match draws.below(8) {
        0 => [small, 1, 0, -1],
        1 => [1, 0, small, 3],
        2 => [0, 0, 0, 1],
        3 => [i128::MAX, 0, small, 0],
        4 => [1, 0, 0, 0],
        _ => [0, 0, 0, 0],
    };
    match Amp::from_parts(coefs, draws.below(3)) {
        Some(amp) => amp,
        None => Amp::zero(),
    }
}

fn drawn_state(alloc: Global, draws: &mut Draws) -> Result<Vector, Fail>
    ensures { IfOk result (λ vector. vector.qubits ≡ 4) }
{
    let mut vector = Vector::zero(alloc, 4)?;
    for index in 0..16 {
        vector.set(index, drawn_amp(draws));
    }
    Ok(vector)
}

/// The node whose vector is the state's entries of an index that begins with these digits, as many as are left.
fn state(
    store: &mut Store<Amp>,
    amps: &[Amp],
    first: u32,
    levels: u32,
    steps: &mut Steps,
) -> Result<Id, Stop<Amp>>
    requires paid { total_cost store.old ≤ steps.old.taken }
    ensures made { IfOk result (HasShape store.new (replicate levels 1)) }
    ensures keeps { Extends store.old store.new }
    ensures paid { total_cost store.new ≤ steps.new.taken }
{
    if levels == 0 {
        return match amps.get(first as usize) {
            Some(amp) => store.leaf(*amp, steps),
            None => store.leaf(Amp::zero(), steps),
        };
    }
    let low = first.wrapping_mul(2);
    let left = state(store, amps, low, levels - 1, steps)?;
    let right = state(store, amps, low.wrapping_add(1), levels - 1, steps)?;
    store.node(&[(left, right)], steps)
}

/// Whether the gate makes the same of the state on an automaton as on the plain vector, or both refuse.
fn agrees(alloc: Global, draws: &mut Draws) -> Result<bool, Fail> {
    let mut store = Store::<Amp>::new(alloc);
    let mut steps = Steps::new(10000);
    let gate = drawn_gate(alloc, draws)?;
    let mut vector = drawn_state(alloc, draws)?;
    let root = state(&mut store, vector.amps(), 0, 4, &mut steps)?;
    let lsta = Lsta {
        root,
        shape: vec![in alloc; 1; 4]?,
    };
    let made = apply(alloc, &mut store, &lsta, &gate, &mut steps);
    let played = apply_plain(&mut vector, &gate);
    match (made, played) {
        (Ok(made), Ok(())) => {
            let wanted = state(&mut store, vector.amps(), 0, 4, &mut steps)?;
            Ok(made.root == wanted)
        }
        (Err(Stop::Wide { .. }), Err(_)) => Ok(true),
        _ => Ok(false),
    }
}

#[test]
fn drawn_gates_agree_with_the_plain_vectors(rt: HostRuntime) -> Result<(), Fail> {
    let mut draws = Draws { seed: 2027 };
    for round in 0..250 {
        assert!(rt; agrees(rt.alloc(), &mut draws)?, "in round {round}");
    }
    Ok(())
}
