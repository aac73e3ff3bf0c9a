//! A whole fragment, and the decisions behind it.
ghost use Rattle.std.specs.Prelude.{◌≤◌, ◌<◌, ◌+◌, [], ◌∷◌, length, All, IfOk, IfErr};
ghost use Rattle.aq_prog.specs.Cuts.{AreUncut};
ghost use Rattle.aq_store.specs.Nodes.{total_cost};
ghost use Rattle.aq_gate_ops.specs.Accounts.{IsStopped};
ghost use Rattle.aq_gate_ops.specs.Causes.{IsCause};
ghost use Rattle.aq_symbolic.specs.Moves.{of_body};
ghost use Rattle.aq_symbolic.specs.Playing.{CanPlay, Goes, IsUnfit, Leaves, Stops, steps_for};
ghost use Rattle.aq_symbolic.specs.Splitting.{AreSplit};
ghost use Rattle.aq_symbolic.specs.Steps.{Keeps};

use crate::kept::World;
use crate::several::{alive, one, split_world};
use crate::spread::play;
use aq_label::Label;
use aq_prog::Stmt;
use aq_store::{Steps, Stop, Store};
use std::alloc::{AllocError, Global};

/// What statements make of one world.
fn play_alone<L: Label>(
    alloc: Global,
    store: &mut Store<L>,
    world: World,
    body: &[Stmt],
    steps: &mut Steps,
) -> Result<Vec<World>, Stop<L>>
    requires playable { CanPlay store.old (world ∷ []) body.now }
    requires uncut { AreUncut body.now }
    requires paid { total_cost store.old ≤ steps.old.taken }
    ensures ok { let move = of_body body.now in
        let leaves = Leaves L.parts L.part_count move store.old store.new steps.old steps.new in
        IfOk result (λ list. leaves (world ∷ []) list.items) }
    ensures keeps { Keeps store.old store.new steps.old steps.new }
    ensures err { let move = of_body body.now in
        IfErr result (Stops L.parts L.part_count move store.old (world ∷ []) steps.old steps.new) }
{
    let Ok(worlds) = one(alloc, world) else {
        return Err(Stop::Memory);
    };
    play(alloc, store, worlds, body, steps)
}

/// What statements make of worlds, where each is played to the end before the next.
fn play_through<L: Label>(
    alloc: Global,
    store: &mut Store<L>,
    worlds: Vec<World>,
    body: &[Stmt],
    steps: &mut Steps,
) -> Result<Vec<World>, Stop<L>>
    requires playable { CanPlay store.old worlds.items body.now }
    requires uncut { AreUncut body.now }
    requires paid { total_cost store.old ≤ steps.old.taken }
    ensures ok { let move = of_body body.now in
        let leaves = Leaves L.parts L.part_count move store.old store.new steps.old steps.new in
        IfOk result (λ list. leaves worlds.items list.items) }
    ensures keeps { Keeps store.old store.new steps.old steps.new }
    ensures err { let move = of_body body.now in
        IfErr result (Stops L.parts L.part_count move store.old worlds.items steps.old steps.new) }
{
    let mut list = Vec::new(alloc);
    for world in worlds {
        let mut more = play_alone(alloc, store, world, body, steps)?;
        let Ok(()) = list.append(&mut more) else {
            return Err(Stop::Memory);
        };
    }
    Ok(list)
}

/// Plays a fragment on worlds, and gives the worlds that come of them, in order: those of one start world before those
/// of the next, and of a decision the value 0 before 1. Worlds whose every vector is zero are left out, and each gate
/// that was met fits. On a refusal the worlds are dropped.
///
/// `Wide` comes only where a gate that is met from some word of a start world doesn't fit, also where the runs are
/// blocked later. `Spent` comes only where the steps that were taken before and these are more than the limit: for each
/// start world `4 * words * 2^(n+1) * 2^(m+u)` for each statement, inner ones included, where m counts measurements and
/// resets, and u the bits that a guard names and the world leaves open.
pub fn go<L: Label>(
    alloc: Global,
    store: &mut Store<L>,
    worlds: Vec<World>,
    body: &[Stmt],
    steps: &mut Steps,
) -> Result<Vec<World>, Stop<L>>
    requires playable { CanPlay store.old worlds.items body.now }
    requires uncut { AreUncut body.now }
    requires paid { total_cost store.old ≤ steps.old.taken }
    ensures worlds { let goes = Goes L.parts L.part_count body.now store.old store.new in
        IfOk result (λ list. goes worlds.items list.items) }
    ensures keeps { Keeps store.old store.new steps.old steps.new }
    ensures steps { steps.new.taken ≤ steps.old.taken + steps_for body.now worlds.items }
    ensures refused { IfErr result (IsStopped (steps_for body.now worlds.items) steps.old steps.new) }
    ensures cause { let unfit = IsUnfit L.parts L.part_count (of_body body.now) store.old worlds.items in
        IfErr result (IsCause (λ l r. unfit)) }
{
    let ends = play_through(alloc, store, worlds, body, steps)?;
    let Ok(list) = alive(alloc, store, ends) else {
        return Err(Stop::Memory);
    };
    Ok(list)
}

/// The worlds, each with both values of the bit where it doesn't know the bit, 0 before 1. Fails only for want of
/// memory, and the worlds are then dropped.
pub fn split(alloc: Global, worlds: Vec<World>, bit: u32) -> Result<Vec<World>, AllocError>
    requires start { All (λ w. bit < length w.start) worlds.items }
    requires bits { All (λ w. bit < length w.bits) worlds.items }
    ensures { IfOk result (λ list. AreSplit bit worlds.items list.items) }
{
    let mut list = Vec::new(alloc);
    for world in worlds {
        let mut halves = split_world(alloc, world, bit)?;
        list.append(&mut halves)?;
    }
    Ok(list)
}
