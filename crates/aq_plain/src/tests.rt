ghost use Rattle.std.specs.Prelude.{◌≡◌, ◌≢◌, ◌<◌, ◌≤◌, ◌^◌, IfOk};
ghost use Rattle.aq_prog.specs.Gates.{AreEntries, IsValidGate};

use crate::{ReplayStop, Vector, WideSum, apply_plain, project_plain, replay};
use aq_prog::{Entry, Gate, gate_named};
use aq_ring::Amp;
use sqlite_items::Items;
use std::alloc::Global;
use std::test::Fail;

/// No gate has the name.
#[derive(Clone, Copy, Debug)]
struct NoGate;

/// A run wasn't played to its end.
#[derive(Clone, Copy, Debug)]
struct NotPlayed;

fn rows_of(name: &[u8]) -> Result<[[Entry; 2]; 2], Fail>
    ensures { IfOk result (λ rows. AreEntries rows) }
{
    match gate_named(name, 2) {
        Some(gate) => Ok(gate.rows),
        None => Err(Fail::from(NoGate)),
    }
}

fn alone(alloc: Global, qubits: u32, name: &[u8], target: u32) -> Result<Gate, Fail>
    requires { target < qubits }
    ensures { IfOk result (λ gate. IsValidGate qubits gate) }
{
    let rows = rows_of(name)?;
    Ok(Gate::new(Items::new(alloc), target, rows))
}

fn controlled(
    alloc: Global,
    qubits: u32,
    name: &[u8],
    control: u32,
    target: u32,
) -> Result<Gate, Fail>
    requires target { target < qubits }
    requires control { control < qubits }
    requires other { control ≢ target }
    ensures { IfOk result (λ gate. IsValidGate qubits gate) }
{
    let rows = rows_of(name)?;
    let controls = Items::from_slice(alloc, &[control])?;
    Ok(Gate::new(controls, target, rows))
}

fn twice_controlled(
    alloc: Global,
    qubits: u32,
    name: &[u8],
    first: u32,
    second: u32,
    target: u32,
) -> Result<Gate, Fail>
    requires target { target < qubits }
    requires first { first < qubits }
    requires second { second < qubits }
    requires first_other { first ≢ target }
    requires second_other { second ≢ target }
    requires two { first ≢ second }
    ensures { IfOk result (λ gate. IsValidGate qubits gate) }
{
    let rows = rows_of(name)?;
    let controls = Items::from_slice(alloc, &[first, second])?;
    Ok(Gate::new(controls, target, rows))
}

/// The basis state of the index.
fn basis(alloc: Global, qubits: u32, index: usize) -> Result<Vector, Fail>
    requires few { qubits ≤ 16 }
    requires within { index < 2 ^ qubits }
    ensures { IfOk result (λ v. v.qubits ≡ qubits) }
{
    let mut vector = Vector::zero(alloc, qubits)?;
    vector.set(index, Amp::one());
    Ok(vector)
}

#[test]
fn bell_state(rt: HostRuntime) -> Result<(), Fail> {
    let mut vector = basis(rt.alloc(), 2, 0)?;
    let h = alone(rt.alloc(), 2, b"h", 0)?;
    let cx = controlled(rt.alloc(), 2, b"cx", 0, 1)?;
    assert_eq!(rt; apply_plain(&mut vector, &h), Ok(()));
    assert_eq!(rt; apply_plain(&mut vector, &cx), Ok(()));
    let root = Amp::one().over_root().ok_or("root")?;
    assert_eq!(rt;
        vector.amps(),
        [root, Amp::zero(), Amp::zero(), root].as_slice()
    );
    Ok(())
}

#[test]
fn eighth_of_a_turn(rt: HostRuntime) -> Result<(), Fail> {
    let mut vector = basis(rt.alloc(), 1, 1)?;
    let t = alone(rt.alloc(), 1, b"t", 0)?;
    assert_eq!(rt; apply_plain(&mut vector, &t), Ok(()));
    assert_eq!(rt; vector.amps(), [Amp::zero(), Amp::one().turn(1)].as_slice());
    Ok(())
}

#[test]
fn controls_above_and_below(rt: HostRuntime) -> Result<(), Fail> {
    let ccx = twice_controlled(rt.alloc(), 3, b"ccx", 0, 2, 1)?;
    let mut both = basis(rt.alloc(), 3, 5)?;
    assert_eq!(rt; apply_plain(&mut both, &ccx), Ok(()));
    assert_eq!(rt; both.amps(), basis(rt.alloc(), 3, 7)?.amps());
    let mut upper = basis(rt.alloc(), 3, 4)?;
    assert_eq!(rt; apply_plain(&mut upper, &ccx), Ok(()));
    assert_eq!(rt; upper.amps(), basis(rt.alloc(), 3, 4)?.amps());
    let mut lower = basis(rt.alloc(), 3, 1)?;
    assert_eq!(rt; apply_plain(&mut lower, &ccx), Ok(()));
    assert_eq!(rt; lower.amps(), basis(rt.alloc(), 3, 1)?.amps());
    Ok(())
}

#[test]
fn a_sum_that_does_not_fit(rt: HostRuntime) -> Result<(), Fail> {
    let large = Amp::from_parts([i128::MAX, 0, 0, 0], 0).ok_or("large")?;
    let h = alone(rt.alloc(), 2, b"h", 0)?;
    let left = large.over_root().ok_or("left")?;
    let mut wide = Vector::zero(rt.alloc(), 2)?;
    wide.set(1, large);
    wide.set(3, large);
    assert_eq!(rt;
        apply_plain(&mut wide, &h),
        Err(WideSum { left, right: left })
    );
    assert_eq!(rt;
        wide.amps(),
        [Amp::zero(), large, Amp::zero(), large].as_slice()
    );
    Ok(())
}

#[test]
fn one_half_is_kept(rt: HostRuntime) -> Result<(), Fail> {
    let mut vector = Vector::zero(rt.alloc(), 2)?;
    vector.set(1, Amp::one());
    vector.set(2, Amp::one());
    project_plain(&mut vector, 1, true);
    assert_eq!(rt;
        vector.amps(),
        [Amp::zero(), Amp::one(), Amp::zero(), Amp::zero()].as_slice()
    );
    assert_eq!(rt; vector.is_zero(), false);
    project_plain(&mut vector, 0, true);
    assert_eq!(rt; vector.is_zero(), true);
    Ok(())
}

#[test]
fn a_run_of_nothing(rt: HostRuntime) -> Result<(), Fail> {
    let alloc = rt.alloc();
    let played = replay(alloc, &[], &[true], basis(alloc, 1, 1)?, &[]).map_err(|_| NotPlayed)?;
    assert_eq!(rt; played.bits.as_slice(), [true].as_slice());
    assert_eq!(rt; played.vector.amps(), [Amp::zero(), Amp::one()].as_slice());
    let left = replay(alloc, &[], &[], basis(alloc, 1, 1)?, &[false, true]);
    assert!(rt; matches!(left, Err(ReplayStop::LongOutcomes { left: 2 })));
    Ok(())
}
