//! A gate on a vector, in place.
ghost use Rattle.std.specs.Prelude.{
  ◌≡◌,
  ◌⊎◌,
  ◌≤◌,
  ◌<◌,
  ◌^◌,
  ◌+◌,
  length,
  true,
  Contains,
  OnOk,
  OnErr,
  IfErr,
  MatchOption,
  slice_set,
};
ghost use Rattle.std.specs.Bool.{OnTrue};
ghost use Rattle.std.specs.List.{All};
ghost use Rattle.aq_ring.specs.Fractions.{Amplitude};
ghost use Rattle.aq_prog.specs.Digits.{amplitude_at, digit, weight};
ghost use Rattle.aq_prog.specs.Gates.{apply_gate, entry_at, is_controlled, FitsGate, FitsGateAt, AreEntries, IsValidGate};
ghost use Rattle.aq_plain.specs.Small.{IsSmallAmplitude};
ghost use Rattle.aq_plain.specs.Vectors.{IsStateVector};
ghost use Rattle.aq_plain.specs.Wide.{
  AlwaysFits,
  RowGives,
  row_entry,
  paired,
  FitsRowOf,
  row_of,
  IsWideAt,
  IsFirstWide,
};

use crate::near::are_near;
use crate::places::{digit_of, has_controls, next_change, weight_of};
use crate::row::{WideSum, always_fits, fitting_sum, gives_left, gives_right, row_sum};
use crate::small::are_small;
use crate::vector::Vector;
use aq_prog::Gate;
use aq_ring::Amp;

/// Plays the gate. On a refusal the vector is as before, and the operands are those of the first sum or quotient that
/// doesn't fit, at the first index that has one.
pub fn apply_plain(vector: &mut Vector, gate: &Gate) -> Result<(), WideSum>
    requires { IsValidGate vector.old.qubits gate.now }
    ensures qubits { vector.new.qubits ≡ vector.old.qubits }
    ensures amps { OnOk result (vector.new.amps ≡ apply_gate vector.old.qubits gate.now vector.old.amps) }
    ensures fits { OnOk result (FitsGate vector.old.qubits gate.now vector.old.amps) }
    ensures wide { IfErr result (λ w. IsFirstWide vector.old.qubits gate.now vector.old.amps w.left w.right) }
    ensures unchanged { OnErr result (vector.new ≡ vector.old) }
{
    let qubits = vector.qubits();
    let small = is_known_small(vector.amps(), gate);
    if let Some(wide) = find_wide(vector.amps(), qubits, gate, small) {
        return Err(wide);
    }
    vector.play(gate, small);
    Ok(())
}

/// Whether it is plain from the gate alone that it fits.
fn fits_anywhere(gate: &Gate) -> bool
    ensures top { OnTrue result (AlwaysFits (entry_at gate.now.matrix.rows 0 0) (entry_at gate.now.matrix.rows 0 1)) }
    ensures bottom { OnTrue result (AlwaysFits (entry_at gate.now.matrix.rows 1 0)
        (entry_at gate.now.matrix.rows 1 1)) }
{
    always_fits(gate.matrix.rows[0][0], gate.matrix.rows[0][1])
        && always_fits(gate.matrix.rows[1][0], gate.matrix.rows[1][1])
}

/// Whether all amplitudes are small. Not asked where the gate fits on any.
fn is_known_small(amps: &[Amp], gate: &Gate) -> bool
    ensures { OnTrue result (All IsSmallAmplitude amps.now) }
{
    if fits_anywhere(gate) {
        return false;
    }
    are_small(amps)
}

/// The operands of the first sum or quotient that doesn't fit, if there is one. `small`: all amplitudes are, so
/// there is none.
fn find_wide(amps: &[Amp], qubits: u32, gate: &Gate, small: bool) -> Option<WideSum>
    requires valid { IsValidGate qubits gate.now }
    requires sizes { IsStateVector qubits amps.now }
    requires small { OnTrue small (All IsSmallAmplitude amps.now) }
    ensures { MatchOption result (FitsGate qubits gate.now amps.now)
        (λ w. IsFirstWide qubits gate.now amps.now w.left w.right) }
{
    if small {
        return None;
    }
    if fits_anywhere(gate) {
        return None;
    }
    if are_near(amps) {
        return None;
    }
    for index in 0..amps.len() {
        if let Some(wide) = wide_at(amps, qubits, gate, index) {
            return Some(wide);
        }
    }
    None
}

/// The operands of the first sum or quotient at the index that doesn't fit, if there is one.
fn wide_at(amps: &[Amp], qubits: u32, gate: &Gate, index: usize) -> Option<WideSum>
    requires valid { IsValidGate qubits gate.now }
    requires sizes { IsStateVector qubits amps.now }
    requires within { index < length amps.now }
    ensures { MatchOption result (FitsGateAt qubits gate.now amps.now index)
        (λ w. IsWideAt qubits gate.now amps.now index w.left w.right) }
{
    if !has_controls(index, qubits, gate.controls.as_slice()) {
        return None;
    }
    match new_entry(amps, qubits, gate, index) {
        Ok(_) => None,
        Err(wide) => Some(wide),
    }
}

/// The row of the index on the two amplitudes that differ from it in the target's digit alone.
fn new_entry(amps: &[Amp], qubits: u32, gate: &Gate, index: usize) -> Result<Amp, WideSum>
    requires valid { IsValidGate qubits gate.now }
    requires sizes { IsStateVector qubits amps.now }
    requires within { index < length amps.now }
    ensures { RowGives (row_entry qubits gate.now index 0) (row_entry qubits gate.now index 1)
        (paired qubits gate.now amps.now index 0) (paired qubits gate.now amps.now index 1) result }
{
    let weight = weight_of(qubits, gate.target);
    let digit = digit_of(index, qubits, gate.target);
    let low = index - digit * weight;
    let row = gate.matrix.rows[digit];
    row_sum(row[0], row[1], amps[low], amps[low + weight])
}

/// A qubit whose digit tells that the index is the first of no pair which the gate changes, if there is one: the target
/// with digit 1, or a control with digit 0.
#[inline]
fn hindrance(index: usize, qubits: u32, gate: &Gate) -> Option<u32>
    requires few { qubits ≤ 16 }
    requires valid { IsValidGate qubits gate.now }
    ensures { MatchOption result ((digit qubits gate.now.target index ≡ 0) × (is_controlled qubits gate.now.controls
        index ≡ true)) (λ q. ((q ≡ gate.now.target) × (digit qubits q index ≡ 1)) ⊎ (Contains gate.now.controls q ×
        (digit qubits q index ≡ 0))) }
{
    if digit_of(index, qubits, gate.target) != 0 {
        return Some(gate.target);
    }
    for control in gate.controls.as_slice() {
        if digit_of(index, qubits, *control) == 0 {
            return Some(*control);
        }
    }
    None
}

/// Writes the new amplitudes pair by pair, where all of them fit. `small`: all of the old ones are.
pub(crate) fn write_gate(amps: &mut [Amp], qubits: u32, gate: &Gate, small: bool)
    requires valid { IsValidGate qubits gate.now }
    requires sizes { IsStateVector qubits amps.old }
    requires fits { FitsGate qubits gate.now amps.old }
    requires small { OnTrue small (All IsSmallAmplitude amps.old) }
    ensures { amps.new ≡ apply_gate qubits gate.now amps.old }
{
    let weight = weight_of(qubits, gate.target);
    let mut index = 0;
    while index < amps.len() {
        match hindrance(index, qubits, gate) {
            Some(qubit) => index = next_change(index, qubits, qubit),
            None => {
                write_pair(amps, gate, index, weight, small);
                index += 1;
            }
        }
    }
}

/// Whether it is plain from the gate alone that it puts the amplitudes of a pair in each other's place.
#[inline]
fn exchanges(gate: &Gate) -> bool
    ensures top { OnTrue result ((p q : Amplitude) → row_of gate.now 0 p q ≡ q) }
    ensures bottom { OnTrue result ((p q : Amplitude) → row_of gate.now 1 p q ≡ p) }
{
    gives_right(gate.matrix.rows[0][0], gate.matrix.rows[0][1])
        && gives_left(gate.matrix.rows[1][0], gate.matrix.rows[1][1])
}

/// Whether it is plain from the gate alone that it keeps the first amplitude of a pair.
#[inline]
fn keeps_first(gate: &Gate) -> bool
    ensures { OnTrue result ((p q : Amplitude) → row_of gate.now 0 p q ≡ p) }
{
    gives_left(gate.matrix.rows[0][0], gate.matrix.rows[0][1])
}

/// Writes the two new amplitudes at the index and so far behind it. Two zeros stay. `small`: the old ones are.
#[inline]
fn write_pair(amps: &mut [Amp], gate: &Gate, low: usize, weight: usize, small: bool)
    requires entries { AreEntries gate.now.matrix.rows }
    requires within { low + weight < length amps.old }
    requires apart { 0 < weight }
    requires top { FitsRowOf gate.now 0 (amplitude_at amps.old low) (amplitude_at amps.old (low + weight)) }
    requires bottom { FitsRowOf gate.now 1 (amplitude_at amps.old low) (amplitude_at amps.old (low + weight)) }
    requires small_low { OnTrue small (IsSmallAmplitude (amplitude_at amps.old low)) }
    requires small_high { OnTrue small (IsSmallAmplitude (amplitude_at amps.old (low + weight))) }
    ensures { amps.new ≡ slice_set (slice_set amps.old low (row_of gate.now 0 (amplitude_at amps.old low)
        (amplitude_at amps.old (low + weight))))
        (low + weight) (row_of gate.now 1 (amplitude_at amps.old low) (amplitude_at amps.old (low + weight))) }
{
    if exchanges(gate) {
        amps.swap(low, low + weight);
        return;
    }
    if amps[low].is_zero() && amps[low + weight].is_zero() {
        return;
    }
    if keeps_first(gate) {
        write_second(amps, gate, low, weight, small);
        return;
    }
    write_rows(amps, gate, low, weight, small);
}

/// Writes the second row of the two amplitudes.
#[inline(never)]
fn write_second(amps: &mut [Amp], gate: &Gate, low: usize, weight: usize, small: bool)
    requires entries { AreEntries gate.now.matrix.rows }
    requires within { low + weight < length amps.old }
    requires bottom { FitsRowOf gate.now 1 (amplitude_at amps.old low) (amplitude_at amps.old (low + weight)) }
    requires small_low { OnTrue small (IsSmallAmplitude (amplitude_at amps.old low)) }
    requires small_high { OnTrue small (IsSmallAmplitude (amplitude_at amps.old (low + weight))) }
    ensures { amps.new ≡ slice_set amps.old (low + weight) (row_of gate.now 1 (amplitude_at amps.old low)
        (amplitude_at amps.old (low + weight))) }
{
    let row = gate.matrix.rows[1];
    amps[low + weight] = fitting_sum(row[0], row[1], amps[low], amps[low + weight], small);
}

/// Writes both rows of the two amplitudes.
#[inline(never)]
fn write_rows(amps: &mut [Amp], gate: &Gate, low: usize, weight: usize, small: bool)
    requires entries { AreEntries gate.now.matrix.rows }
    requires within { low + weight < length amps.old }
    requires apart { 0 < weight }
    requires top { FitsRowOf gate.now 0 (amplitude_at amps.old low) (amplitude_at amps.old (low + weight)) }
    requires bottom { FitsRowOf gate.now 1 (amplitude_at amps.old low) (amplitude_at amps.old (low + weight)) }
    requires small_low { OnTrue small (IsSmallAmplitude (amplitude_at amps.old low)) }
    requires small_high { OnTrue small (IsSmallAmplitude (amplitude_at amps.old (low + weight))) }
    ensures { amps.new ≡ slice_set (slice_set amps.old low (row_of gate.now 0 (amplitude_at amps.old low)
        (amplitude_at amps.old (low + weight))))
        (low + weight) (row_of gate.now 1 (amplitude_at amps.old low) (amplitude_at amps.old (low + weight))) }
{
    let (left, right) = (amps[low], amps[low + weight]);
    let rows = gate.matrix.rows;
    amps[low] = fitting_sum(rows[0][0], rows[0][1], left, right, small);
    amps[low + weight] = fitting_sum(rows[1][0], rows[1][1], left, right, small);
}
