//! Statements, played on worlds.
ghost use Rattle.std.specs.Prelude.{◌≡◌, ◌≤◌, IfOk, IfErr, IfSome, OnOk, [], ◌∷◌, false, length, slice_get};
ghost use Rattle.aq_prog.specs.Cuts.{has_cut, AreUncut};
ghost use Rattle.aq_store.specs.Nodes.{total_cost};
ghost use Rattle.aq_symbolic.specs.Memos.{AreAllMemos, AreMemos};
ghost use Rattle.aq_symbolic.specs.Moves.{of_body, of_branch, of_stmt};
ghost use Rattle.aq_symbolic.specs.Playing.{CanPlay, CanPlayStmt, Leaves, Stops};
ghost use Rattle.aq_symbolic.specs.Steps.{Keeps};

use crate::kept::World;
use crate::memos::Memos;
use crate::several::{assume, measure, one, play_gate, reset, split_paid};
use crate::stock::Stock;
use aq_label::Label;
use aq_prog::{Guard, Stmt};
use aq_store::{Steps, Stop, Store};
use std::alloc::Global;

/// The levels of the first world's automaton, 0 where there is no world.
fn levels_of(worlds: &[World]) -> usize
    ensures { IfSome (slice_get worlds.now 0) (λ w. result ≡ length w.lsta.shape.items) }
{
    match worlds.first() {
        Some(world) => world.lsta.shape.len(),
        None => 0,
    }
}

/// What a statement makes of a world. The memos have what it made of nodes of worlds before, and the stock what inner
/// statements did.
#[cycle(playing)]
fn play_one<L: Label>(
    alloc: Global,
    store: &mut Store<L>,
    stock: &mut Stock,
    memos: &mut Memos,
    world: World,
    stmt: &Stmt,
    steps: &mut Steps,
) -> Result<Vec<World>, Stop<L>>
    requires playable { CanPlayStmt store.old (world ∷ []) stmt.now }
    requires uncut { has_cut stmt.now ≡ false }
    requires memos { let levels = length world.lsta.shape.items in
        AreMemos L.parts L.part_count levels store.old memos.old stmt.now }
    requires stock { AreAllMemos L.parts L.part_count store.old stock.old.entries.items }
    requires paid { total_cost store.old ≤ steps.old.taken }
    ensures ok { let move = of_stmt stmt.now in
        let leaves = Leaves L.parts L.part_count move store.old store.new steps.old steps.new in
        IfOk result (λ list. leaves (world ∷ []) list.items) }
    ensures memos { let levels = length world.lsta.shape.items in
        OnOk result (AreMemos L.parts L.part_count levels store.new memos.new stmt.now) }
    ensures stock { OnOk result (AreAllMemos L.parts L.part_count store.new stock.new.entries.items) }
    ensures keeps { Keeps store.old store.new steps.old steps.new }
    ensures err { let move = of_stmt stmt.now in
        IfErr result (Stops L.parts L.part_count move store.old (world ∷ []) steps.old steps.new) }
{
    match stmt {
        Stmt::Gate(gate) => play_gate(alloc, store, memos, world, gate, steps),
        Stmt::Measure { qubit, bit } => measure(alloc, store, memos, world, *qubit, *bit, steps),
        Stmt::Reset { qubit } => reset(alloc, store, memos, world, *qubit, steps),
        Stmt::If { guard, yes, no } => {
            let halves = split_paid(alloc, world, guard.bit, steps)?;
            play_branches(
                alloc,
                store,
                stock,
                halves,
                guard,
                yes.as_slice(),
                no.as_slice(),
                steps,
            )
        }
        Stmt::Assume { guard } => {
            let Ok(list) = assume(alloc, world, guard) else {
                return Err(Stop::Memory);
            };
            Ok(list)
        }
        Stmt::Assert { .. } => unreachable!(),
        Stmt::While { .. } => unreachable!(),
    }
}

/// Plays on the world the branch that what is known of the bit takes.
#[cycle(playing)]
fn play_branch<L: Label>(
    alloc: Global,
    store: &mut Store<L>,
    stock: &mut Stock,
    world: World,
    guard: &Guard,
    yes: &[Stmt],
    no: &[Stmt],
    steps: &mut Steps,
) -> Result<Vec<World>, Stop<L>>
    requires yes { CanPlay store.old (world ∷ []) yes.now }
    requires no { CanPlay store.old (world ∷ []) no.now }
    requires yes_uncut { AreUncut yes.now }
    requires no_uncut { AreUncut no.now }
    requires stock { AreAllMemos L.parts L.part_count store.old stock.old.entries.items }
    requires paid { total_cost store.old ≤ steps.old.taken }
    ensures ok { let move = of_branch guard.now yes.now no.now in
        let leaves = Leaves L.parts L.part_count move store.old store.new steps.old steps.new in
        IfOk result (λ list. leaves (world ∷ []) list.items) }
    ensures stock { OnOk result (AreAllMemos L.parts L.part_count store.new stock.new.entries.items) }
    ensures keeps { Keeps store.old store.new steps.old steps.new }
    ensures err { let move = of_branch guard.now yes.now no.now in
        IfErr result (Stops L.parts L.part_count move store.old (world ∷ []) steps.old steps.new) }
{
    let holds = world.holds(guard);
    let Ok(worlds) = one(alloc, world) else {
        return Err(Stop::Memory);
    };
    if holds {
        play_inside(alloc, store, stock, worlds, yes, steps)
    } else {
        play_inside(alloc, store, stock, worlds, no, steps)
    }
}

/// Plays on each world the branch that it takes, one world after the other.
#[cycle(playing)]
fn play_branches<L: Label>(
    alloc: Global,
    store: &mut Store<L>,
    stock: &mut Stock,
    worlds: Vec<World>,
    guard: &Guard,
    yes: &[Stmt],
    no: &[Stmt],
    steps: &mut Steps,
) -> Result<Vec<World>, Stop<L>>
    requires yes { CanPlay store.old worlds.items yes.now }
    requires no { CanPlay store.old worlds.items no.now }
    requires yes_uncut { AreUncut yes.now }
    requires no_uncut { AreUncut no.now }
    requires stock { AreAllMemos L.parts L.part_count store.old stock.old.entries.items }
    requires paid { total_cost store.old ≤ steps.old.taken }
    ensures ok { let move = of_branch guard.now yes.now no.now in
        let leaves = Leaves L.parts L.part_count move store.old store.new steps.old steps.new in
        IfOk result (λ list. leaves worlds.items list.items) }
    ensures stock { OnOk result (AreAllMemos L.parts L.part_count store.new stock.new.entries.items) }
    ensures keeps { Keeps store.old store.new steps.old steps.new }
    ensures err { let move = of_branch guard.now yes.now no.now in
        IfErr result (Stops L.parts L.part_count move store.old worlds.items steps.old steps.new) }
{
    let mut list = Vec::new(alloc);
    for world in worlds {
        let mut more = play_branch(alloc, store, stock, world, guard, yes, no, steps)?;
        let Ok(()) = list.append(&mut more) else {
            return Err(Stop::Memory);
        };
    }
    Ok(list)
}

/// Plays a statement on each world, with the same memos, which the stock has from before and keeps.
#[cycle(playing)]
fn play_each<L: Label>(
    alloc: Global,
    store: &mut Store<L>,
    stock: &mut Stock,
    worlds: Vec<World>,
    stmt: &Stmt,
    steps: &mut Steps,
) -> Result<Vec<World>, Stop<L>>
    requires playable { CanPlayStmt store.old worlds.items stmt.now }
    requires uncut { has_cut stmt.now ≡ false }
    requires stock { AreAllMemos L.parts L.part_count store.old stock.old.entries.items }
    requires paid { total_cost store.old ≤ steps.old.taken }
    ensures ok { let move = of_stmt stmt.now in
        let leaves = Leaves L.parts L.part_count move store.old store.new steps.old steps.new in
        IfOk result (λ list. leaves worlds.items list.items) }
    ensures stock { OnOk result (AreAllMemos L.parts L.part_count store.new stock.new.entries.items) }
    ensures keeps { Keeps store.old store.new steps.old steps.new }
    ensures err { let move = of_stmt stmt.now in
        IfErr result (Stops L.parts L.part_count move store.old worlds.items steps.old steps.new) }
{
    let mut list = Vec::new(alloc);
    let levels = levels_of(&worlds);
    let mut memos = stock.take(alloc, stmt, levels);
    for world in worlds {
        let mut more = play_one(alloc, store, stock, &mut memos, world, stmt, steps)?;
        let Ok(()) = list.append(&mut more) else {
            return Err(Stop::Memory);
        };
    }
    let Ok(()) = stock.put(alloc, stmt, levels, memos) else {
        return Err(Stop::Memory);
    };
    Ok(list)
}

/// Plays the statements of a branch in order on worlds, and gives the worlds that come of them, in order.
#[cycle(playing)]
fn play_inside<L: Label>(
    alloc: Global,
    store: &mut Store<L>,
    stock: &mut Stock,
    worlds: Vec<World>,
    body: &[Stmt],
    steps: &mut Steps,
) -> Result<Vec<World>, Stop<L>>
    requires playable { CanPlay store.old worlds.items body.now }
    requires uncut { AreUncut body.now }
    requires stock { AreAllMemos L.parts L.part_count store.old stock.old.entries.items }
    requires paid { total_cost store.old ≤ steps.old.taken }
    ensures ok { let move = of_body body.now in
        let leaves = Leaves L.parts L.part_count move store.old store.new steps.old steps.new in
        IfOk result (λ list. leaves worlds.items list.items) }
    ensures stock { OnOk result (AreAllMemos L.parts L.part_count store.new stock.new.entries.items) }
    ensures keeps { Keeps store.old store.new steps.old steps.new }
    ensures err { let move = of_body body.now in
        IfErr result (Stops L.parts L.part_count move store.old worlds.items steps.old steps.new) }
{
    let mut left = worlds;
    for stmt in body {
        left = play_each(alloc, store, stock, left, stmt, steps)?;
    }
    Ok(left)
}

/// Plays statements in order on worlds, and gives the worlds that come of them, in order. What a statement, and those
/// inside it, make of nodes is kept until it has been played on all worlds.
pub(crate) fn play<L: Label>(
    alloc: Global,
    store: &mut Store<L>,
    worlds: Vec<World>,
    body: &[Stmt],
    steps: &mut Steps,
) -> Result<Vec<World>, Stop<L>>
    requires playable { CanPlay store.old worlds.items body.now }
    requires uncut { AreUncut body.now }
    requires paid { total_cost store.old ≤ steps.old.taken }
    ensures ok { let move = of_body body.now in
        let leaves = Leaves L.parts L.part_count move store.old store.new steps.old steps.new in
        IfOk result (λ list. leaves worlds.items list.items) }
    ensures keeps { Keeps store.old store.new steps.old steps.new }
    ensures err { let move = of_body body.now in
        IfErr result (Stops L.parts L.part_count move store.old worlds.items steps.old steps.new) }
{
    let mut left = worlds;
    for stmt in body {
        let mut stock = Stock::new(alloc);
        left = play_each(alloc, store, &mut stock, left, stmt, steps)?;
    }
    Ok(left)
}
