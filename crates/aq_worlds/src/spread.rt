//! Statements, played on worlds.
ghost use Rattle.std.specs.Prelude.{◌≡◌, ℕ, IfOk, IfErr, [], ◌∷◌, false};
ghost use Rattle.std.specs.List.{list_any};
ghost use Rattle.aq_prog.specs.Cuts.{has_cut, AreUncut};
ghost use Rattle.aq_obligations.specs.Covering.{meets, meets_of};
ghost use Rattle.aq_obligations.specs.Worlds.{spread};
ghost use Rattle.aq_worlds.specs.Playing.{
  AreUnfit,
  CanPlay,
  CanPlayStmt,
  Leaves,
  StopsFor,
  branch_met,
  branch_of,
  spread_of,
};

use crate::several::{alive, assume, measure, one, play_gate, reset, split_world};
use crate::stop::Stop;
use crate::world::PlainWorld;
use aq_prog::{Guard, Stmt};
use std::alloc::Global;

/// What a statement makes of a world, but for worlds whose every vector is zero.
#[cycle(playing)]
fn play_one(alloc: Global, world: PlainWorld, stmt: &Stmt) -> Result<Vec<PlainWorld>, Stop>
    requires playable { CanPlayStmt (world ∷ []) stmt.now }
    requires uncut { has_cut stmt.now ≡ false }
    ensures ok { IfOk result (λ list. Leaves (λ n. spread n stmt.now) (world ∷ []) list.items) }
    ensures err { IfErr result (λ e. StopsFor (AreUnfit (λ n. meets n stmt.now) (world ∷ [])) e) }
{
    match stmt {
        Stmt::Gate(gate) => play_gate(alloc, world, gate),
        Stmt::Measure { qubit, bit } => {
            let list = measure(alloc, world, *qubit, *bit)?;
            Ok(list)
        }
        Stmt::Reset { qubit } => {
            let list = reset(alloc, world, *qubit)?;
            Ok(list)
        }
        Stmt::If { guard, yes, no } => {
            let halves = split_world(alloc, world, guard.bit)?;
            play_branches(alloc, halves, guard, yes.as_slice(), no.as_slice())
        }
        Stmt::Assume { guard } => {
            let list = assume(alloc, world, guard)?;
            Ok(list)
        }
        Stmt::Assert { .. } => unreachable!(),
        Stmt::While { .. } => unreachable!(),
    }
}

/// Plays on the world the branch that what is known of the bit takes.
#[cycle(playing)]
fn play_branch(
    alloc: Global,
    world: PlainWorld,
    guard: &Guard,
    yes: &[Stmt],
    no: &[Stmt],
) -> Result<Vec<PlainWorld>, Stop>
    requires yes { CanPlay (world ∷ []) yes.now }
    requires no { CanPlay (world ∷ []) no.now }
    requires yes_uncut { AreUncut yes.now }
    requires no_uncut { AreUncut no.now }
    ensures ok { IfOk result (λ list. Leaves (branch_of guard.now yes.now no.now) (world ∷ []) list.items) }
    ensures err { IfErr result (λ e. StopsFor (AreUnfit (branch_met guard.now yes.now no.now) (world ∷ [])) e) }
{
    let holds = world.holds(guard);
    let worlds = one(alloc, world)?;
    if holds {
        play(alloc, worlds, yes)
    } else {
        play(alloc, worlds, no)
    }
}

/// Plays on each world the branch that it takes.
#[cycle(playing)]
fn play_branches(
    alloc: Global,
    worlds: Vec<PlainWorld>,
    guard: &Guard,
    yes: &[Stmt],
    no: &[Stmt],
) -> Result<Vec<PlainWorld>, Stop>
    requires yes { CanPlay worlds.items yes.now }
    requires no { CanPlay worlds.items no.now }
    requires yes_uncut { AreUncut yes.now }
    requires no_uncut { AreUncut no.now }
    ensures ok { IfOk result (λ list. Leaves (branch_of guard.now yes.now no.now) worlds.items list.items) }
    ensures err { IfErr result (λ e. StopsFor (AreUnfit (branch_met guard.now yes.now no.now) worlds.items) e) }
{
    let mut list = Vec::new(alloc);
    for world in worlds {
        let mut more = play_branch(alloc, world, guard, yes, no)?;
        list.append(&mut more)?;
    }
    Ok(list)
}

/// Plays a statement on each world.
#[cycle(playing)]
fn play_each(alloc: Global, worlds: Vec<PlainWorld>, stmt: &Stmt) -> Result<Vec<PlainWorld>, Stop>
    requires playable { CanPlayStmt worlds.items stmt.now }
    requires uncut { has_cut stmt.now ≡ false }
    ensures ok { IfOk result (λ list. Leaves (λ n. spread n stmt.now) worlds.items list.items) }
    ensures err { IfErr result (λ e. StopsFor (AreUnfit (λ n. meets n stmt.now) worlds.items) e) }
{
    let mut list = Vec::new(alloc);
    for world in worlds {
        let mut more = play_one(alloc, world, stmt)?;
        list.append(&mut more)?;
    }
    Ok(list)
}

/// Plays statements in order on worlds, and gives the worlds that come of them, in order, but for those whose every
/// vector is zero. `Width`: a gate that one of the worlds meets doesn't fit on one of the world's vectors there.
#[cycle(playing)]
pub fn play(alloc: Global, worlds: Vec<PlainWorld>, body: &[Stmt]) -> Result<Vec<PlainWorld>, Stop>
    requires playable { CanPlay worlds.items body.now }
    requires uncut { AreUncut body.now }
    ensures ok { IfOk result (λ list. Leaves (spread_of body.now) worlds.items list.items) }
    ensures err { IfErr result (λ e. StopsFor (AreUnfit (λ n. meets_of n body.now) worlds.items) e) }
{
    let mut left = worlds;
    for stmt in body {
        left = play_each(alloc, left, stmt)?;
    }
    let list = alive(alloc, left)?;
    Ok(list)
}
