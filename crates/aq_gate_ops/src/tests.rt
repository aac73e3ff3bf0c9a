//! Gates on small automata, whose vectors were worked by hand.
ghost use Rattle.std.specs.Prelude.{◌≡◌, ◌≢◌, ◌<◌, ◌≤◌, ◌∷◌, [], IfOk};
ghost use Rattle.aq_prog.specs.Gates.{AreEntries, IsValidGate};
ghost use Rattle.aq_store.specs.Nodes.{Extends, HasShape, total_cost};

use crate::apply;
use aq_prog::{Entry, Gate, gate_named};
use aq_ring::Amp;
use aq_store::{Id, Lsta, Steps, Stop, Store};
use sqlite_items::Items;
use std::alloc::Global;
use std::test::Fail;

/// No gate has the name.
#[derive(Clone, Copy, Debug)]
struct NoGate;

fn rows_of(name: &[u8]) -> Result<[[Entry; 2]; 2], Fail>
    ensures { IfOk result (λ rows. AreEntries rows) }
{
    match gate_named(name, 2) {
        Some(gate) => Ok(gate.rows),
        None => Err(Fail::from(NoGate)),
    }
}

fn alone(alloc: Global, qubits: u32, name: &[u8], target: u32) -> Result<Gate, Fail>
    requires { target < qubits }
    ensures { IfOk result (λ gate. IsValidGate qubits gate) }
{
    let rows = rows_of(name)?;
    Ok(Gate::new(Items::new(alloc), target, rows))
}

fn controlled(
    alloc: Global,
    qubits: u32,
    name: &[u8],
    control: u32,
    target: u32,
) -> Result<Gate, Fail>
    requires target { target < qubits }
    requires control { control < qubits }
    requires other { control ≢ target }
    ensures { IfOk result (λ gate. IsValidGate qubits gate) }
{
    let rows = rows_of(name)?;
    let controls = Items::from_slice(alloc, &[control])?;
    Ok(Gate::new(controls, target, rows))
}

/// A node with two choices, above four nodes of one shape.
fn above(
    store: &mut Store<Amp>,
    shape: &[u32],
    first: (Id, Id),
    second: (Id, Id),
    steps: &mut Steps,
) -> Result<Id, Stop<Amp>>
    requires first_left { HasShape store.old shape.now first.0 }
    requires first_right { HasShape store.old shape.now first.1 }
    requires second_left { HasShape store.old shape.now second.0 }
    requires second_right { HasShape store.old shape.now second.1 }
    requires paid { total_cost store.old ≤ steps.old.taken }
    ensures made { IfOk result (HasShape store.new (2 ∷ shape.now)) }
    ensures keeps { Extends store.old store.new }
    ensures paid { total_cost store.new ≤ steps.new.taken }
{
    store.node(&[first, second], steps)
}

/// A leaf.
fn leaf(store: &mut Store<Amp>, label: Amp, steps: &mut Steps) -> Result<Id, Stop<Amp>>
    requires paid { total_cost store.old ≤ steps.old.taken }
    ensures made { IfOk result (HasShape store.new []) }
    ensures keeps { Extends store.old store.new }
    ensures paid { total_cost store.new ≤ steps.new.taken }
{
    store.leaf(label, steps)
}

/// Whether a controlled flip of qubit 0 exchanges the vectors |01> and |11> of all four basis vectors, and leaves the
/// others: its control is qubit 1, below the target.
fn exchanges(alloc: Global) -> Result<bool, Fail> {
    let mut store = Store::<Amp>::new(alloc);
    let mut steps = Steps::new(100);
    let one = leaf(&mut store, Amp::one(), &mut steps)?;
    let zero = leaf(&mut store, Amp::zero(), &mut steps)?;
    let ket = above(&mut store, &[], (one, zero), (zero, one), &mut steps)?;
    let none = above(&mut store, &[], (zero, zero), (zero, zero), &mut steps)?;
    let low = above(&mut store, &[], (one, zero), (zero, zero), &mut steps)?;
    let high = above(&mut store, &[], (zero, zero), (zero, one), &mut steps)?;
    let root = above(&mut store, &[2], (ket, none), (none, ket), &mut steps)?;
    let wanted = above(&mut store, &[2], (low, high), (high, low), &mut steps)?;
    let lsta = Lsta {
        root,
        shape: vec![in alloc; 2, 2]?,
    };
    let gate = controlled(alloc, 2, b"x", 1, 0)?;
    let made = apply(alloc, &mut store, &lsta, &gate, &mut steps)?;
    Ok(made.root == wanted)
}

/// Whether `z` turns the right side of each pair, and leaves the left one.
fn turns(alloc: Global) -> Result<bool, Fail> {
    let mut store = Store::<Amp>::new(alloc);
    let mut steps = Steps::new(100);
    let one = leaf(&mut store, Amp::one(), &mut steps)?;
    let zero = leaf(&mut store, Amp::zero(), &mut steps)?;
    let minus = leaf(&mut store, Amp::one().turn(4), &mut steps)?;
    let root = above(&mut store, &[], (one, one), (zero, one), &mut steps)?;
    let wanted = above(&mut store, &[], (one, minus), (zero, minus), &mut steps)?;
    let lsta = Lsta {
        root,
        shape: vec![in alloc; 2]?,
    };
    let gate = alone(alloc, 1, b"z", 0)?;
    let made = apply(alloc, &mut store, &lsta, &gate, &mut steps)?;
    Ok(made.root == wanted)
}

/// Whether `h` on two amplitudes that are as large as can be is refused, with its two terms: each quotient fits, and
/// their sum doesn't.
fn refuses(alloc: Global) -> Result<bool, Fail> {
    let mut store = Store::<Amp>::new(alloc);
    let mut steps = Steps::new(100);
    let large = Amp::from_parts([i128::MAX, 0, 0, 0], 0).ok_or("large")?;
    let term = large.over_root().ok_or("term")?;
    let side = leaf(&mut store, large, &mut steps)?;
    let root = above(&mut store, &[], (side, side), (side, side), &mut steps)?;
    let lsta = Lsta {
        root,
        shape: vec![in alloc; 2]?,
    };
    let gate = alone(alloc, 1, b"h", 0)?;
    match apply(alloc, &mut store, &lsta, &gate, &mut steps) {
        Err(Stop::Wide { left, right }) => Ok(left == term && right == term),
        _ => Ok(false),
    }
}

#[test]
fn a_control_below_the_target_exchanges_two_vectors(rt: HostRuntime) -> Result<(), Fail> {
    assert!(rt; exchanges(rt.alloc())?);
    Ok(())
}

#[test]
fn a_turn_leaves_the_left_sides(rt: HostRuntime) -> Result<(), Fail> {
    assert!(rt; turns(rt.alloc())?);
    Ok(())
}

#[test]
fn a_sum_that_is_too_wide_is_refused(rt: HostRuntime) -> Result<(), Fail> {
    assert!(rt; refuses(rt.alloc())?);
    Ok(())
}
