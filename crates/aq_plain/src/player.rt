//! A run of statements without loops, statement by statement.
ghost use Rattle.std.specs.Prelude.{◌≡◌, ◌<◌, IfOk, IfErr, OnOk, true, false, length};
ghost use Rattle.std.specs.List.{list_any};
ghost use Rattle.aq_prog.specs.Cuts.{has_loop};
ghost use Rattle.aq_prog.specs.Gates.{apply_gate, flip_gate};
ghost use Rattle.aq_prog.specs.Runs.{has_bit};
ghost use Rattle.aq_plain.specs.Replaying.{
  ArePlayable,
  IsPlayableStmt,
  state_of,
  IsIn,
  IsTaken,
  Refuses,
  IsMeasured,
  HaltsMeasured,
  IsReset,
  HaltsReset,
  PlaysStmt,
  HaltsStmt,
  PlaysAll,
  HaltsAll,
};
ghost use Rattle.aq_plain.specs.declared.player.Halt.TheVariants as halts;

use crate::apply::apply_plain;
use crate::project::project_plain;
use crate::row::WideSum;
use crate::vector::Vector;
use aq_prog::laws::always_fits;
use aq_prog::{Entry, Gate, Guard, Stmt};
use sqlite_items::Items;
use std::alloc::Global;

/// The bits and the vector of a run.
#[derive(Drop)]
pub(crate) struct Player {
    pub(crate) bits: Items<bool>,
    pub(crate) vector: Vector,
}

/// Why a run isn't played on.
#[derive(Clone, Copy, Debug, PartialEq, Eq)]
pub(crate) enum Halt {
    /// An outcome is wanted, and none is left.
    ShortOutcomes,
    /// An outcome leaves a zero vector; so many are left behind it.
    Impossible { left: usize },
    /// An assumption doesn't hold.
    Blocked,
    /// A sum or a quotient of a gate doesn't fit.
    Wide(WideSum),
}

impl From<WideSum> for Halt {
    ghost use Rattle.std.specs.Prelude.{◌≡◌};
    ghost use Rattle.aq_plain.specs.declared.player.Halt.TheVariants.{Wide};

    ghost from_gives = { λ w e. e ≡ Wide w };

    fn from(wide: WideSum) -> Halt {
        Halt::Wide(wide)
    }
}

const ONE: Entry = Entry::Unit { turn: 0, roots: 0 };

const FLIP: [[Entry; 2]; 2] = [[Entry::Zero, ONE], [ONE, Entry::Zero]];

/// Flips the qubit, which always fits.
fn flip(alloc: Global, vector: &mut Vector, qubit: u32)
    requires { qubit < vector.old.qubits }
    ensures qubits { vector.new.qubits ≡ vector.old.qubits }
    ensures amps { vector.new.amps ≡ apply_gate vector.old.qubits (flip_gate qubit) vector.old.amps }
{
    let gate = Gate::new(Items::new(alloc), qubit, FLIP);
    always_fits();
    vector.play(&gate, false);
}

/// Takes the next outcome of a measurement of the qubit. Gives it, and those that are left.
fn take_outcome<'a>(
    vector: &mut Vector,
    qubit: u32,
    outcomes: &'a [bool],
) -> Result<(bool, &'a [bool]), Halt>
    requires { qubit < vector.old.qubits }
    ensures qubits { vector.new.qubits ≡ vector.old.qubits }
    ensures taken { IfOk result (λ x. IsTaken vector.old.qubits qubit vector.old.amps vector.new.amps outcomes.now
        x.0 x.1.now) }
    ensures refused { IfErr result (Refuses vector.old.qubits qubit vector.old.amps outcomes.now) }
{
    let Some((outcome, left)) = outcomes.split_first() else {
        return Err(Halt::ShortOutcomes);
    };
    project_plain(vector, qubit, *outcome);
    if vector.is_zero() {
        return Err(Halt::Impossible { left: left.len() });
    }
    Ok((*outcome, left))
}

/// Whether the bit has the guard's value.
fn holds(guard: &Guard, bits: &[bool]) -> bool
    ensures { result ≡ has_bit guard.now bits.now }
{
    match bits.get(guard.bit as usize) {
        Some(bit) => *bit == guard.value,
        None => false,
    }
}

/// Measures the qubit. Gives the outcomes that are left.
fn measure<'a>(
    player: &mut Player,
    qubit: u32,
    bit: Option<u32>,
    outcomes: &'a [bool],
) -> Result<&'a [bool], Halt>
    requires qubit { qubit < player.old.vector.qubits }
    requires bit { IsIn (length player.old.bits) bit }
    ensures qubits { OnOk result (player.new.vector.qubits ≡ player.old.vector.qubits) }
    ensures bits { OnOk result (length player.new.bits ≡ length player.old.bits) }
    ensures played { IfOk result (λ left. IsMeasured player.old.vector.qubits qubit bit
        (state_of player.old outcomes.now) (state_of player.new left.now)) }
    ensures halted { IfErr result (HaltsMeasured player.old.vector.qubits qubit bit
        (state_of player.old outcomes.now)) }
{
    let (outcome, left) = take_outcome(&mut player.vector, qubit, outcomes)?;
    if let Some(bit) = bit {
        player.bits.set(bit as usize, outcome);
    }
    Ok(left)
}

/// Measures the qubit and makes it 0. Gives the outcomes that are left.
fn reset<'a>(
    alloc: Global,
    player: &mut Player,
    qubit: u32,
    outcomes: &'a [bool],
) -> Result<&'a [bool], Halt>
    requires qubit { qubit < player.old.vector.qubits }
    ensures qubits { OnOk result (player.new.vector.qubits ≡ player.old.vector.qubits) }
    ensures bits { OnOk result (player.new.bits ≡ player.old.bits) }
    ensures played { IfOk result (λ left. IsReset player.old.vector.qubits qubit (state_of player.old outcomes.now)
        (state_of player.new left.now)) }
    ensures halted { IfErr result (HaltsReset player.old.vector.qubits qubit (state_of player.old outcomes.now)) }
{
    let (outcome, left) = take_outcome(&mut player.vector, qubit, outcomes)?;
    if outcome {
        flip(alloc, &mut player.vector, qubit);
    }
    Ok(left)
}

/// Goes on where the bit has the guard's value.
fn assume(player: &Player, guard: &Guard) -> Result<(), Halt>
    ensures holds { OnOk result (has_bit guard.now player.now.bits ≡ true) }
    ensures blocked { IfErr result (λ e. (e ≡ halts.Blocked) × (has_bit guard.now player.now.bits ≡ false)) }
{
    if holds(guard, player.bits.as_slice()) {
        Ok(())
    } else {
        Err(Halt::Blocked)
    }
}

/// Plays a statement. Gives the outcomes that are left.
#[cycle(playing)]
#[tactic(auto, using(crate::proofs::PlayLaws::yes_playable, crate::proofs::PlayLaws::no_playable, crate::proofs::PlayLaws::yes_free, crate::proofs::PlayLaws::no_free))]
fn play<'a>(
    alloc: Global,
    player: &mut Player,
    stmt: &Stmt,
    outcomes: &'a [bool],
) -> Result<&'a [bool], Halt>
    requires playable { IsPlayableStmt player.old.vector.qubits (length player.old.bits) stmt.now }
    requires loop_free { has_loop stmt.now ≡ false }
    ensures qubits { OnOk result (player.new.vector.qubits ≡ player.old.vector.qubits) }
    ensures bits { OnOk result (length player.new.bits ≡ length player.old.bits) }
    ensures played { IfOk result (λ left. PlaysStmt player.old.vector.qubits stmt.now
        (state_of player.old outcomes.now) (state_of player.new left.now)) }
    ensures halted { IfErr result (HaltsStmt player.old.vector.qubits stmt.now (state_of player.old outcomes.now)) }
{
    match stmt {
        Stmt::Gate(gate) => {
            apply_plain(&mut player.vector, gate)?;
            Ok(outcomes)
        }
        Stmt::Measure { qubit, bit } => measure(player, *qubit, *bit, outcomes),
        Stmt::Reset { qubit } => reset(alloc, player, *qubit, outcomes),
        Stmt::If { guard, yes, no } => {
            if holds(guard, player.bits.as_slice()) {
                play_all(alloc, player, yes.as_slice(), outcomes)
            } else {
                play_all(alloc, player, no.as_slice(), outcomes)
            }
        }
        Stmt::Assume { guard } => {
            assume(player, guard)?;
            Ok(outcomes)
        }
        Stmt::Assert { .. } => Ok(outcomes),
        Stmt::While { .. } => unreachable!(),
    }
}

/// Plays statements in order. Gives the outcomes that are left.
#[cycle(playing)]
pub(crate) fn play_all<'a>(
    alloc: Global,
    player: &mut Player,
    body: &[Stmt],
    outcomes: &'a [bool],
) -> Result<&'a [bool], Halt>
    requires playable { ArePlayable player.old.vector.qubits (length player.old.bits) body.now }
    requires loop_free { list_any has_loop body.now ≡ false }
    ensures qubits { OnOk result (player.new.vector.qubits ≡ player.old.vector.qubits) }
    ensures bits { OnOk result (length player.new.bits ≡ length player.old.bits) }
    ensures played { IfOk result (λ left. PlaysAll player.old.vector.qubits body.now
        (state_of player.old outcomes.now) (state_of player.new left.now)) }
    ensures halted { IfErr result (HaltsAll player.old.vector.qubits body.now (state_of player.old outcomes.now)) }
{
    let mut left = outcomes;
    for stmt in body {
        left = play(alloc, player, stmt, left)?;
    }
    Ok(left)
}
