//! Measurements, resets, barriers, declarations and tests.
ghost use Rattle.std.specs.Prelude.{◌≡◌, ◌<◌, List, [], Ok};
ghost use Rattle.aq_elab.specs.Known.{Gives};
ghost use Rattle.aq_elab.specs.Behind.{listed, behind, barred, called};
ghost use Rattle.aq_elab.specs.Bounds.{IsShort};
ghost use Rattle.aq_elab.specs.Spots.{width, member};
ghost use Rattle.aq_elab.specs.Statements.{step, unpaired, paired, measured, resets, bits_declared, guard_of};
ghost use Rattle.aq_prog.specs.declared.stmt.Stmt.{Stmt};

use crate::calls::gates_of_call;
use crate::fault::ElabFault;
use crate::scope::{Role, Scope, Span};
use aq_lex::Place;
use aq_parse::{Angle, Spot, Test, Word};
use aq_prog::{Gate, Guard, Stmt};
use sqlite_items::Items;
use std::alloc::Global;

/// Measures all of the qubits.
fn measure_alone(qubits: Span, out: &mut Items<Stmt>) -> Result<(), ElabFault>
    requires { IsShort qubits }
    ensures { Gives (λ u. out.new) result (listed out.old (Ok (unpaired qubits))) }
{
    for i in 0..qubits.width() {
        let qubit = qubits.member(i);
        out.push(Stmt::Measure { qubit, bit: None })?;
    }
    Ok(())
}

/// Measures the qubits into the bits, one by one. The fault is at this place.
fn measure_into(at: Place, qubits: Span, bits: Span, out: &mut Items<Stmt>) -> Result<(), ElabFault>
    requires qubits { IsShort qubits }
    requires bits { IsShort bits }
    ensures { Gives (λ u. out.new) result (listed out.old (paired at qubits bits)) }
{
    if qubits.width() != bits.width() {
        return Err(ElabFault::SizeDiffers { at });
    }
    for i in 0..qubits.width() {
        let qubit = qubits.member(i);
        let bit = Some(bits.member(i));
        out.push(Stmt::Measure { qubit, bit })?;
    }
    Ok(())
}

/// Measures a spot, into another one where there is one.
#[tactic(auto, unfolding(crate::specs::Statements::measured))]
pub(crate) fn measure(
    scope: &Scope,
    from: &Spot,
    into: &Option<Spot>,
    into_first: bool,
    out: &mut Items<Stmt>,
) -> Result<(), ElabFault>
    ensures { Gives (λ u. out.new) result (listed out.old (measured scope.now from.now into.now into_first)) }
{
    let Some(into) = into else {
        let qubits = scope.span_of(Role::Qubit, from)?;
        return measure_alone(qubits, out);
    };
    if into_first {
        let bits = scope.span_of(Role::Bit, into)?;
        let qubits = scope.span_of(Role::Qubit, from)?;
        return measure_into(from.name.at, qubits, bits, out);
    }
    let qubits = scope.span_of(Role::Qubit, from)?;
    let bits = scope.span_of(Role::Bit, into)?;
    measure_into(into.name.at, qubits, bits, out)
}

/// Resets all qubits of a spot.
#[tactic(auto, unfolding(crate::specs::Statements::resets))]
pub(crate) fn reset(scope: &Scope, spot: &Spot, out: &mut Items<Stmt>) -> Result<(), ElabFault>
    ensures { Gives (λ u. out.new) result (listed out.old (resets scope.now spot.now)) }
{
    let qubits = scope.span_of(Role::Qubit, spot)?;
    for i in 0..qubits.width() {
        let qubit = qubits.member(i);
        out.push(Stmt::Reset { qubit })?;
    }
    Ok(())
}

/// Checks the spots of a barrier, which gives no statement.
pub(crate) fn barrier(scope: &Scope, spots: &[Spot]) -> Result<(), ElabFault>
    ensures { Gives {A = List Stmt} (λ u. []) result (barred scope.now spots.now) }
{
    for spot in spots {
        let _ = scope.span_of(Role::Qubit, spot)?;
    }
    Ok(())
}

/// Declares bits, and measures into them where that is said.
#[tactic(auto, unfolding(crate::specs::Statements::measured_into))]
pub(crate) fn declare_bits(
    alloc: Global,
    name: &Word,
    size: Option<u32>,
    from: &Option<Spot>,
    scope: &mut Scope,
    out: &mut Items<Stmt>,
) -> Result<(), ElabFault>
    ensures { Gives (λ u. step scope.new out.new) result (behind out.old
        (bits_declared name.now size from.now scope.old)) }
{
    let bits = scope.declare(alloc, Role::Bit, name, size)?;
    let Some(from) = from else {
        return Ok(());
    };
    let qubits = scope.span_of(Role::Qubit, from)?;
    measure_into(from.name.at, qubits, bits, out)
}

/// Plays the gates of a call.
pub(crate) fn call(
    alloc: Global,
    scope: &Scope,
    name: &Word,
    angle: Option<Angle>,
    spots: &[Spot],
    out: &mut Items<Stmt>,
) -> Result<(), ElabFault>
    ensures { Gives (λ u. out.new) result (listed out.old (called scope.now name.now angle spots.now)) }
{
    let gates = gates_of_call(alloc, scope, name, angle, spots)?;
    for gate in gates.as_slice() {
        let controls = Items::from_slice(alloc, gate.controls.as_slice())?;
        out.push(Stmt::Gate(Gate::new(controls, gate.target, gate.matrix.rows)))?;
    }
    Ok(())
}

/// The guard that a test means.
#[tactic(auto, unfolding(crate::specs::Statements::guard_of))]
pub(crate) fn guard(scope: &Scope, test: &Test) -> Result<Guard, ElabFault>
    ensures { Gives (λ g. g) result (guard_of scope.now test.now) }
{
    let bits = scope.span_of(Role::Bit, &test.spot)?;
    if bits.width() != 1 {
        return Err(ElabFault::SizeDiffers {
            at: test.spot.name.at,
        });
    }
    Ok(Guard {
        bit: bits.member(0),
        value: test.value,
    })
}
