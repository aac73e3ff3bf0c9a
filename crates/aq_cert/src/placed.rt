//! From macros over nodes to macros over places.
ghost use Rattle.std.specs.Prelude.{◌≡◌, ◌<◌, ℕ, List, length, slice_get, Some, IfOk, Contains};
ghost use Rattle.std.specs.List.{AllZip};
ghost use Rattle.aq_store.specs.Levels.{lists_of};
ghost use Rattle.aq_cert.specs.Rows.{row_at};
ghost use Rattle.aq_store.specs.declared.lsta.Lsta.{Lsta};
ghost use Rattle.aq_cert.specs.Goals.{FitTogether};
ghost use Rattle.aq_cert.specs.Placed.{IsFound, IsPairFound, IsRelFound, IsMacroFound, lists_in};
ghost use Rattle.aq_cert.specs.Placed.{AreIndexes, AreGoalLevels, IsPlacedMacro, ArePlaced};
ghost use Rattle.aq_cert.specs.Placed.{HasPlace, HasRelPlaces, HasMacroPlaces, StandsIn, AllStand};
ghost use Rattle.aq_cert.specs.declared.cert.Rel.{Rel};
ghost use Rattle.aq_cert.specs.declared.cert.Macro.{Macro};

use crate::cert::{Macro, Rel};
use crate::index::Index;
use aq_label::Label;
use aq_store::{Id, Lsta, Store};
use sqlite_items::Items;
use std::alloc::{AllocError, Global};

/// The places of nodes.
fn place_nodes(alloc: Global, index: &Index, nodes: &[u32]) -> Result<Items<u32>, AllocError>
    requires { (node : ℕ) → Contains nodes.now node → HasPlace index.now node }
    ensures { IfOk result (λ places. AllZip (IsFound index.now) nodes.now places) }
{
    let mut places = Items::new(alloc);
    for node in nodes {
        places.push(index.place_of(*node))?;
    }
    Ok(places)
}

/// The places of pairs of nodes.
fn place_pairs(
    alloc: Global,
    left: &Index,
    right: &Index,
    nodes: &[(u32, u32)],
) -> Result<Items<(u32, u32)>, AllocError>
    requires { (p : ℕ × ℕ) → Contains nodes.now p → HasPlace left.now p.0 × HasPlace right.now p.1 }
    ensures { IfOk result (λ places. AllZip (IsPairFound left.now right.now) nodes.now places) }
{
    let mut places = Items::new(alloc);
    for (first, second) in nodes {
        places.push((left.place_of(*first), right.place_of(*second)))?;
    }
    Ok(places)
}

/// A relation with places.
fn place_rel(alloc: Global, left: &Index, goals: &[Index], rel: &Rel) -> Result<Rel, AllocError>
    requires { HasRelPlaces left.now goals.now rel.now }
    ensures { IfOk result (λ s. IsRelFound left.now goals.now rel.now s) }
{
    let right = &goals[rel.goal as usize];
    let pairs = place_pairs(alloc, left, right, rel.pairs.as_slice())?;
    Ok(Rel {
        goal: rel.goal,
        pairs,
    })
}

/// Relations with places.
fn place_rels(
    alloc: Global,
    left: &Index,
    goals: &[Index],
    rels: &[Rel],
) -> Result<Items<Rel>, AllocError>
    requires { (k : ℕ) (rel : Rel) → slice_get rels.now k ≡ Some rel → HasRelPlaces left.now goals.now rel }
    ensures { IfOk result (λ list. AllZip (IsRelFound left.now goals.now) rels.now list) }
{
    let mut list = Items::new(alloc);
    for rel in rels {
        list.push(place_rel(alloc, left, goals, rel)?)?;
    }
    Ok(list)
}

/// A macro with places.
fn place_macro(
    alloc: Global,
    left: &Index,
    goals: &[Index],
    here: &Macro,
) -> Result<Macro, AllocError>
    requires { HasMacroPlaces left.now goals.now here.now }
    ensures { IfOk result (λ n. IsMacroFound left.now goals.now here.now n) }
{
    let domain = place_nodes(alloc, left, here.domain.as_slice())?;
    let rels = place_rels(alloc, left, goals, here.rels.as_slice())?;
    Ok(Macro { domain, rels })
}

/// The macros of a level with places.
fn place_row(
    alloc: Global,
    left: &Index,
    goals: &[Index],
    row: &[Macro],
) -> Result<Items<Macro>, AllocError>
    requires { (i : ℕ) (m : Macro) → slice_get row.now i ≡ Some m → HasMacroPlaces left.now goals.now m }
    ensures { IfOk result (λ list. AllZip (IsMacroFound left.now goals.now) row.now list) }
{
    let mut list = Items::new(alloc);
    for here in row {
        list.push(place_macro(alloc, left, goals, here)?)?;
    }
    Ok(list)
}

/// An index of one level of each goal.
fn goal_indexes(alloc: Global, all: &[Vec<Vec<Id>>], level: usize) -> Result<Vec<Index>, AllocError>
    ensures { IfOk result (λ indexes. AreIndexes all.now level indexes.items) }
{
    let mut indexes = Vec::new(alloc);
    for levels in all {
        indexes.push(Index::of_level(alloc, levels.as_slice(), level)?)?;
    }
    Ok(indexes)
}

/// The macros of a level with places in these levels of the left and of the goals.
fn place_level(
    alloc: Global,
    left: &[Vec<Id>],
    goals: &[Vec<Vec<Id>>],
    level: usize,
    row: &[Macro],
) -> Result<Items<Macro>, AllocError>
    requires { (i : ℕ) (m : Macro) → slice_get row.now i ≡ Some m → StandsIn (length goals.now) (row_at (lists_of
        left.now) level) (λ g. row_at (lists_in (slice_get goals.now g)) level) m }
    ensures { IfOk result (λ list. AllZip (IsPlacedMacro (length goals.now) (row_at (lists_of left.now) level) (λ g.
        row_at (lists_in (slice_get goals.now g)) level)) row.now list) }
{
    let left = Index::of_level(alloc, left, level)?;
    let goals = goal_indexes(alloc, goals, level)?;
    place_row(alloc, &left, goals.as_slice(), row)
}

/// The levels of each goal.
fn goal_levels<L: Label>(
    store: &Store<L>,
    alloc: Global,
    goals: &[Lsta],
) -> Result<Vec<Vec<Vec<Id>>>, AllocError>
    requires { (left : Lsta) × FitTogether store.now left goals.now }
    ensures { IfOk result (λ all. AreGoalLevels store.now goals.now all.items) }
{
    let mut all = Vec::new(alloc);
    for goal in goals {
        all.push(store.levels(goal)?)?;
    }
    Ok(all)
}

/// The same macros with places in place of nodes, each row by the level of its number. The left and the goals fit the
/// store, and each node stands in the level of its row. It gives up only for want of memory.
pub fn with_places<L: Label>(
    store: &Store<L>,
    alloc: Global,
    left: &Lsta,
    goals: &[Lsta],
    macros: &[Items<Macro>],
) -> Result<Items<Items<Macro>>, AllocError>
    requires fits { FitTogether store.now left.now goals.now }
    requires stand { AllStand store.now left.now goals.now macros.now }
    ensures { IfOk result (λ rows. ArePlaced store.now left.now goals.now macros.now rows) }
{
    let left_levels = store.levels(left)?;
    let all = goal_levels(store, alloc, goals)?;
    let mut rows = Items::new(alloc);
    for level in 0..macros.len() {
        rows.push(place_level(
            alloc,
            left_levels.as_slice(),
            all.as_slice(),
            level,
            macros[level].as_slice(),
        )?)?;
    }
    Ok(rows)
}
