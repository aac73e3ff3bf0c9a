//! The search: depth first, in the order of words, up to the first that escapes.
ghost use Rattle.std.specs.Prelude.{◌≡◌, ◌<◌, ◌≤◌, ◌+◌, ◌*◌, ◌^◌, ℕ, List, ◌∷◌, length, drop, slice_index, IfOk, IfErr};
ghost use Rattle.std.specs.Prelude.{OnOk};
ghost use Rattle.aq_cert.specs.Macros.{IsOfLevel};
ghost use Rattle.aq_cert.specs.Goals.{goal_rest};
ghost use Rattle.aq_cert.specs.Held.{IsHeld};
ghost use Rattle.aq_cert.specs.Placed.{StandsAt, AllStand};
ghost use Rattle.aq_include.specs.Costs.{Takes, IsCause, weight, size, budget, turn_budget};
ghost use Rattle.aq_include.specs.Ends.{StopsWide};
ghost use Rattle.aq_include.specs.Search.{IsTable, Finds, Follows, GrowsWith, GrowsBy};

use crate::end::find_end;
use crate::step::step;
use crate::table::Table;
use aq_cert::{Edge, Macro};
use aq_label::Label;
use aq_store::{Lsta, Steps, Stop, Store};
use sqlite_items::Items;
use std::alloc::{AllocError, Global};

/// What the search below a macro finds.
#[derive(Debug, Drop)]
pub(crate) enum Found {
    /// Each word has a match; the macro has this number.
    Reached(u32),
    /// The first word that has none.
    Escapes(Items<u32>),
}

/// What the search under a choice finds.
#[derive(Debug, Drop)]
pub(crate) enum Followed {
    Leads(Edge),
    Escapes(Items<u32>),
}

/// A number for the level and the content of a macro, by which it is found again.
fn key_of(level: u32, here: &Macro) -> u64 {
    let mut key: u64 = mix(0, level);
    for place in here.domain.as_slice() {
        key = mix(key, *place);
    }
    for rel in here.rels.as_slice() {
        key = mix(key, rel.goal);
        for pair in rel.pairs.as_slice() {
            key = mix(mix(key, pair.0), pair.1);
        }
    }
    key
}

fn mix(key: u64, next: u32) -> u64 {
    (key ^ next as u64)
        .wrapping_mul(0x9E37_79B9_7F4A_7C15)
        .rotate_left(29)
}

/// The word with this choice before it.
fn with_first(alloc: Global, choice: u32, word: Items<u32>) -> Result<Items<u32>, AllocError>
    ensures { IfOk result (λ whole. whole ≡ choice ∷ word) }
{
    let mut whole = Items::new(alloc);
    whole.push(choice)?;
    whole.append(word)?;
    Ok(whole)
}

/// Searches a macro of the last level.
fn finish<L: Label>(
    store: &Store<L>,
    alloc: Global,
    left: &Lsta,
    goals: &[Lsta],
    table: &mut Table,
    level: u32,
    here: Macro,
    steps: &mut Steps,
) -> Result<Found, Stop<L>>
    requires level { level ≡ length left.now.shape.items }
    requires here { IsOfLevel store.now (drop level left.now.shape.items) (goal_rest goals.now level) here }
    requires stands { StandsAt store.now left.now goals.now level here }
    requires table { IsTable L.parts store.now left.now.shape.items goals.now table.old }
    requires rows { AllStand store.now left.now goals.now table.old.macros.items }
    ensures finds { IfOk result (λ f. Finds L.parts store.now left.now.shape.items goals.now level here
        table.old table.new
        f) }
    ensures rows { OnOk result (AllStand store.now left.now goals.now table.new.macros.items) }
    ensures size { IfOk result (λ f. GrowsWith (size here) table.old table.new steps.old steps.new f) }
    ensures wide { IfErr result (λ e. StopsWide L.parts store.now here e) }
    ensures takes { Takes (weight (goal_rest goals.now level) here) steps.old steps.new }
    ensures spent { IfErr result (λ e. IsCause (weight (goal_rest goals.now level) here) steps.old e) }
{
    let key = key_of(level, &here);
    match find_end(store, alloc, &here, steps)? {
        Some(end) => {
            let Ok(number) = table.add_last(level as usize, key, here, end) else {
                return Err(Stop::Memory);
            };
            Ok(Found::Reached(number))
        }
        None => Ok(Found::Escapes(Items::new(alloc))),
    }
}

/// Searches below a macro.
#[cycle(search)]
pub(crate) fn visit<L: Label>(
    store: &Store<L>,
    alloc: Global,
    left: &Lsta,
    goals: &[Lsta],
    table: &mut Table,
    level: u32,
    here: Macro,
    steps: &mut Steps,
) -> Result<Found, Stop<L>>
    requires few { length left.now.shape.items < 2 ^ 32 }
    requires level { level ≤ length left.now.shape.items }
    requires here { IsOfLevel store.now (drop level left.now.shape.items) (goal_rest goals.now level) here }
    requires stands { StandsAt store.now left.now goals.now level here }
    requires table { IsTable L.parts store.now left.now.shape.items goals.now table.old }
    requires rows { AllStand store.now left.now goals.now table.old.macros.items }
    ensures finds { IfOk result (λ f. Finds L.parts store.now left.now.shape.items goals.now level here
        table.old table.new
        f) }
    ensures rows { OnOk result (AllStand store.now left.now goals.now table.new.macros.items) }
    ensures size { IfOk result (λ f. GrowsWith (size here) table.old table.new steps.old steps.new f) }
    ensures wide { IfErr result (λ e. StopsWide L.parts store.now here e) }
    ensures takes { Takes (budget (drop level left.now.shape.items) (weight (goal_rest goals.now level) here)) steps.old
        steps.new }
    ensures spent { IfErr result (λ e. IsCause (budget (drop level left.now.shape.items)
        (weight (goal_rest goals.now level)
        here)) steps.old e) }
{
    let _taken = steps.taken();
    let key = key_of(level, &here);
    if let Some(number) = table.find(level as usize, key, &here) {
        return Ok(Found::Reached(number));
    }
    if level as usize == left.shape.len() {
        return finish(store, alloc, left, goals, table, level, here, steps);
    }
    let mut edges = Items::new(alloc);
    for choice in 0..left.shape[level as usize] {
        match follow(
            store, alloc, left, goals, table, level, &here, choice, steps,
        )? {
            Followed::Leads(edge) => {
                let Ok(()) = edges.push(edge) else {
                    return Err(Stop::Memory);
                };
            }
            Followed::Escapes(word) => return Ok(Found::Escapes(word)),
        }
    }
    let Ok(number) = table.add(level as usize, key, here, edges) else {
        return Err(Stop::Memory);
    };
    Ok(Found::Reached(number))
}

/// Searches below a macro under a choice.
#[cycle(search)]
fn follow<L: Label>(
    store: &Store<L>,
    alloc: Global,
    left: &Lsta,
    goals: &[Lsta],
    table: &mut Table,
    level: u32,
    here: &Macro,
    choice: u32,
    steps: &mut Steps,
) -> Result<Followed, Stop<L>>
    requires few { length left.now.shape.items < 2 ^ 32 }
    requires level { level < length left.now.shape.items }
    requires choice { choice < slice_index (drop level left.now.shape.items) 0 }
    requires here { IsOfLevel store.now (drop level left.now.shape.items) (goal_rest goals.now level) here.now }
    requires stands { StandsAt store.now left.now goals.now level here.now }
    requires table { IsTable L.parts store.now left.now.shape.items goals.now table.old }
    requires rows { AllStand store.now left.now goals.now table.old.macros.items }
    requires before { (d : ℕ) (word : List ℕ) → d < choice → IsHeld L.parts store.now
        (goal_rest goals.now level) here.now (d
        ∷ word) }
    ensures follows { IfOk result (λ f. Follows L.parts store.now left.now.shape.items goals.now level choice here.now
        table.old table.new f) }
    ensures rows { OnOk result (AllStand store.now left.now goals.now table.new.macros.items) }
    ensures size { IfOk result (λ f. GrowsBy table.old table.new steps.old steps.new f) }
    ensures wide { IfErr result (λ e. StopsWide L.parts store.now here.now e) }
    ensures takes { Takes (turn_budget (drop (level + 1) left.now.shape.items) (weight (goal_rest goals.now level)
        here.now)) steps.old steps.new }
    ensures spent { IfErr result (λ e. IsCause (turn_budget (drop (level + 1) left.now.shape.items) (weight (goal_rest
        goals.now level) here.now)) steps.old e) }
{
    let _taken = steps.taken();
    let stepped = step(store, alloc, here, goals, level, choice, steps)?;
    match visit(
        store,
        alloc,
        left,
        goals,
        table,
        level + 1,
        stepped.to,
        steps,
    )? {
        Found::Reached(to) => Ok(Followed::Leads(Edge {
            to,
            from: stepped.from,
        })),
        Found::Escapes(word) => {
            let Ok(whole) = with_first(alloc, choice, word) else {
                return Err(Stop::Memory);
            };
            Ok(Followed::Escapes(whole))
        }
    }
}
