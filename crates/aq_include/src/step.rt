//! The macro under a choice.
ghost use Rattle.std.specs.Prelude.{◌≡◌, ◌≤◌, ◌<◌, ◌+◌, ◌*◌, ℕ, List, length, map, drop, sum_by, Contains, IfOk};
ghost use Rattle.std.specs.Prelude.{IfErr, OnOk, slice_get, slice_index, Some, IsTrue};
ghost use Rattle.std.specs.List.{AllZip};
ghost use Rattle.aq_store.specs.Count.{after};
ghost use Rattle.aq_store.specs.Nodes.{pairs_at, HasShape};
ghost use Rattle.aq_cert.specs.Macros.{IsOfLevel};
ghost use Rattle.aq_cert.specs.Goals.{goal_rest};
ghost use Rattle.aq_include.specs.Costs.{Takes, IsCause, rel_weight, weight, size};
ghost use Rattle.aq_include.specs.Ends.{IsNotWide};
ghost use Rattle.aq_include.specs.Levels.{HasLevel};
ghost use Rattle.aq_include.specs.declared.places.Opened.{Opened};
ghost use Rattle.aq_include.specs.Members.{HasSame};
ghost use Rattle.aq_include.specs.Steps.{opened_children_of, IsOpened};
ghost use Rattle.aq_include.specs.Candidates.{AreChildren, IsCandidateAt, AreOfRel, AreOfRels, HasRel, IsStepped};
ghost use Rattle.aq_include.specs.Candidates.{IsOffer, offer_size, Thins, IsOwnOf, Suffice, AreEnough};

use crate::hopeless::{are_null, count_to_apart};
use crate::own::{Own, find_own};
use crate::pay::pay;
use crate::places::{
    Opened, children, open_pairs, pair_children, same_pairs, tidy_pairs, tidy_places,
};
use aq_cert::{Macro, Rel};
use aq_label::Label;
use aq_store::{Lsta, Steps, Stop, Store};
use sqlite_items::Items;
use std::alloc::{AllocError, Global};
use std::cmp::Ordering;

/// A relation under a choice of the left and one of its goal, with the number of the relation that it comes from.
#[derive(Debug, Drop)]
pub(crate) struct Candidate {
    rel: Rel,
    number: u32,
    choice: u32,
}

/// The macro under a choice, and where each of its relations comes from.
#[derive(Debug, Drop)]
pub(crate) struct Stepped {
    pub(crate) to: Macro,
    pub(crate) from: Items<(u32, u32)>,
}

/// The places under a choice.
fn step_domain<L: Label>(
    store: &Store<L>,
    alloc: Global,
    domain: &[u32],
    choice: u32,
    steps: &mut Steps,
) -> Result<Items<u32>, Stop<L>>
    requires { (x : ℕ) → Contains domain.now x → choice < length (pairs_at store.now x) }
    ensures children { IfOk result (λ list. AreChildren store.now choice domain.now list) }
    ensures paid { OnOk result (steps.new ≡ after (length domain.now) steps.old) }
    ensures wide { IfErr result IsNotWide }
    ensures takes { Takes (length domain.now) steps.old steps.new }
    ensures spent { IfErr result (λ e. IsCause (length domain.now) steps.old e) }
{
    pay::<L>(steps, domain.len())?;
    let Ok(list) = children(store, alloc, domain, choice) else {
        return Err(Stop::Memory);
    };
    Ok(tidy_places(list))
}

/// The pairs under a choice of the goal.
fn step_pairs<L: Label>(
    store: &Store<L>,
    alloc: Global,
    pairs: &[Opened],
    choice: u32,
    steps: &mut Steps,
) -> Result<Items<(u32, u32)>, Stop<L>>
    requires { (o : Opened) → Contains pairs.now o → choice < length (pairs_at store.now o.right) }
    ensures same { IfOk result (λ list. HasSame list (opened_children_of store.now choice pairs.now)) }
    ensures short { IfOk result (λ list. length list ≤ length (opened_children_of store.now choice pairs.now)) }
    ensures paid { OnOk result (steps.new ≡ after (length pairs.now) steps.old) }
    ensures wide { IfErr result IsNotWide }
    ensures takes { Takes (length pairs.now) steps.old steps.new }
    ensures spent { IfErr result (λ e. IsCause (length pairs.now) steps.old e) }
{
    pay::<L>(steps, pairs.len())?;
    let Ok(list) = pair_children(store, alloc, pairs, choice) else {
        return Err(Stop::Memory);
    };
    Ok(tidy_pairs(list))
}

/// A relation under a choice of the left and one of its goal.
fn step_choice<L: Label>(
    store: &Store<L>,
    alloc: Global,
    rel: &Rel,
    opened: &[Opened],
    number: u32,
    choice: u32,
    steps: &mut Steps,
) -> Result<Candidate, Stop<L>>
    requires within { (o : Opened) → Contains opened.now o → choice < length (pairs_at store.now o.right) }
    requires count { length opened.now ≡ length rel.now.pairs }
    ensures candidate { IfOk result (λ x. (c : ℕ) → AllZip (IsOpened store.now c) rel.now.pairs opened.now →
        IsCandidateAt store.now c rel.now number choice x) }
    ensures short { IfOk result (λ x. length x.rel.pairs ≤ 2 * length rel.now.pairs) }
    ensures paid { OnOk result (steps.new ≡ after (length rel.now.pairs) steps.old) }
    ensures wide { IfErr result IsNotWide }
    ensures takes { Takes (length rel.now.pairs) steps.old steps.new }
    ensures spent { IfErr result (λ e. IsCause (length rel.now.pairs) steps.old e) }
{
    let pairs = step_pairs(store, alloc, opened, choice, steps)?;
    Ok(Candidate {
        rel: Rel {
            goal: rel.goal,
            pairs,
        },
        number,
        choice,
    })
}

/// A relation under a choice of the left and one of its goal; none where it would relate no words, and then its pairs
/// are counted only up to the first that shows it.
fn step_offer<L: Label>(
    store: &Store<L>,
    alloc: Global,
    rel: &Rel,
    opened: &[Opened],
    number: u32,
    choice: u32,
    steps: &mut Steps,
) -> Result<Option<Candidate>, Stop<L>>
    requires within { (o : Opened) → Contains opened.now o → choice < length (pairs_at store.now o.right) }
    requires count { length opened.now ≡ length rel.now.pairs }
    ensures offer { IfOk result (λ found. (c : ℕ) → AllZip (IsOpened store.now c) rel.now.pairs opened.now →
        IsOffer L.parts store.now c rel.now number choice found) }
    ensures paid { IfOk result (λ found. offer_size found + 2 * steps.old.taken ≤ 2 * steps.new.taken) }
    ensures wide { IfErr result IsNotWide }
    ensures takes { Takes (length rel.now.pairs) steps.old steps.new }
    ensures spent { IfErr result (λ e. IsCause (length rel.now.pairs) steps.old e) }
{
    if let Some(count) = count_to_apart(store, opened, choice) {
        pay::<L>(steps, count)?;
        return Ok(None);
    }
    let found = step_choice(store, alloc, rel, opened, number, choice, steps)?;
    Ok(Some(found))
}

/// A relation under a choice of the left, for each choice of its goal that may relate words.
fn step_rel<L: Label>(
    store: &Store<L>,
    alloc: Global,
    rel: &Rel,
    number: u32,
    count: u32,
    choice: u32,
    steps: &mut Steps,
) -> Result<Vec<Candidate>, Stop<L>>
    requires within { (p : ℕ × ℕ) → Contains rel.now.pairs p → (choice < length (pairs_at store.now p.0)) × (count ≤
        length (pairs_at store.now p.1)) }
    ensures candidates { IfOk result (λ list. AreOfRel L.parts store.now choice rel.now number count count
        list.items) }
    ensures paid { IfOk result (λ list. sum_by (λ x. length x.rel.pairs) list.items + 2 * steps.old.taken ≤ 2 *
        steps.new.taken) }
    ensures wide { IfErr result IsNotWide }
    ensures takes { Takes (count * length rel.now.pairs) steps.old steps.new }
    ensures spent { IfErr result (λ e. IsCause (count * length rel.now.pairs) steps.old e) }
{
    let _taken = steps.taken();
    let Ok(opened) = open_pairs(store, alloc, rel.pairs.as_slice(), choice) else {
        return Err(Stop::Memory);
    };
    let mut list = Vec::new(alloc);
    for goal_choice in 0..count {
        let found = step_offer(
            store,
            alloc,
            rel,
            opened.as_slice(),
            number,
            goal_choice,
            steps,
        )?;
        if let Some(next) = found {
            let Ok(()) = list.push(next) else {
                return Err(Stop::Memory);
            };
        }
    }
    Ok(list)
}

/// The one relation that leads to the same nodes on both sides.
fn step_own<L: Label>(
    store: &Store<L>,
    alloc: Global,
    here: &Macro,
    goals: &[Lsta],
    level: u32,
    choice: u32,
    own: Own,
    steps: &mut Steps,
) -> Result<Vec<Candidate>, Stop<L>>
    requires here { (left : List ℕ) × IsOfLevel store.now left (goal_rest goals.now level) here.now × (choice <
        slice_index left 0) }
    requires own { IsOwnOf store.now choice (goal_rest goals.now level) here.now.rels own }
    ensures suffice { IfOk result (λ list. Suffice L.parts store.now choice (goal_rest goals.now level) (goal_rest
        goals.now (level + 1)) here.now list.items) }
    ensures paid { IfOk result (λ list. sum_by (λ x. length x.rel.pairs) list.items + 2 * steps.old.taken ≤ 2 *
        steps.new.taken) }
    ensures wide { IfErr result IsNotWide }
    ensures takes { Takes (sum_by (rel_weight (goal_rest goals.now level)) here.now.rels) steps.old steps.new }
    ensures spent { IfErr result (λ e. IsCause (sum_by (rel_weight (goal_rest goals.now level)) here.now.rels) steps.old
        e) }
{
    let rel = &here.rels.as_slice()[own.number as usize];
    let Ok(opened) = open_pairs(store, alloc, rel.pairs.as_slice(), choice) else {
        return Err(Stop::Memory);
    };
    let only = step_choice(
        store,
        alloc,
        rel,
        opened.as_slice(),
        own.number,
        own.choice,
        steps,
    )?;
    let mut list = Vec::new(alloc);
    let Ok(()) = list.push(only) else {
        return Err(Stop::Memory);
    };
    Ok(list)
}

/// How many choices a goal has at a level.
pub(crate) fn goal_choices(goals: &[Lsta], goal: u32, level: u32) -> u32
    requires { HasLevel goals.now level goal }
    ensures { result ≡ slice_index (goal_rest goals.now level goal) 0 }
{
    goals[goal as usize].shape[level as usize]
}

/// The relations of a macro under a choice of the left, for each choice of their goals that may relate words.
fn step_rels<L: Label>(
    store: &Store<L>,
    alloc: Global,
    here: &Macro,
    goals: &[Lsta],
    level: u32,
    choice: u32,
    steps: &mut Steps,
) -> Result<Vec<Candidate>, Stop<L>>
    requires here { (left : List ℕ) × IsOfLevel store.now left (goal_rest goals.now level) here.now × (choice <
        slice_index left 0) }
    ensures candidates { IfOk result (λ list. AreOfRels L.parts store.now choice (goal_rest goals.now level)
        here.now.rels list.items) }
    ensures light { IfOk result (λ list. sum_by (λ x. rel_weight (goal_rest goals.now (level + 1)) x.rel) list.items
        ≤ 2 *
        sum_by (rel_weight (goal_rest goals.now level)) here.now.rels) }
    ensures paid { IfOk result (λ list. sum_by (λ x. length x.rel.pairs) list.items + 2 * steps.old.taken ≤ 2 *
        steps.new.taken) }
    ensures wide { IfErr result IsNotWide }
    ensures takes { Takes (sum_by (rel_weight (goal_rest goals.now level)) here.now.rels) steps.old steps.new }
    ensures spent { IfErr result (λ e. IsCause (sum_by (rel_weight (goal_rest goals.now level)) here.now.rels) steps.old
        e) }
{
    let _taken = steps.taken();
    let mut list = Vec::new(alloc);
    let rels = here.rels.as_slice();
    for number in 0..rels.len() {
        let rel = &rels[number];
        let Ok(short) = u32::try_from(number) else {
            return Err(Stop::Memory);
        };
        let count = goal_choices(goals, rel.goal, level);
        let mut more = step_rel(store, alloc, rel, short, count, choice, steps)?;
        let Ok(()) = list.append(&mut more) else {
            return Err(Stop::Memory);
        };
    }
    Ok(list)
}

/// The order of candidates: by goal, and then by their pairs.
fn order(one: &Candidate, other: &Candidate) -> Ordering {
    match one.rel.goal.cmp(&other.rel.goal) {
        Ordering::Equal => one.rel.pairs.as_slice().cmp(other.rel.pairs.as_slice()),
        different => different,
    }
}

fn sorted(list: Vec<Candidate>) -> Vec<Candidate>
    ensures { Thins list.items result.items }
{
    let mut list = list;
    list.sort_unstable_by(|one, other| order(one, other));
    list
}

/// Whether the last candidate that was kept has the same relation.
fn is_repeat(kept: &[Candidate], candidate: &Candidate) -> bool
    ensures { IsTrue result → HasRel kept.now candidate.now.rel }
{
    match kept.last() {
        Some(last) => {
            last.rel.goal == candidate.rel.goal
                && same_pairs(last.rel.pairs.as_slice(), candidate.rel.pairs.as_slice())
        }
        None => false,
    }
}

/// The candidates in order, without repeats.
fn thin(alloc: Global, list: Vec<Candidate>) -> Result<Vec<Candidate>, AllocError>
    ensures { IfOk result (λ kept. Thins list.items kept.items) }
{
    if list.len() < 2 {
        return Ok(list);
    }
    let mut kept = Vec::new(alloc);
    for candidate in sorted(list) {
        if !is_repeat(kept.as_slice(), &candidate) {
            kept.push(candidate)?;
        }
    }
    Ok(kept)
}

/// The relations under a choice, without repeats. Where one leads to the same nodes on both sides, it is that one
/// alone.
fn step_each<L: Label>(
    store: &Store<L>,
    alloc: Global,
    here: &Macro,
    goals: &[Lsta],
    level: u32,
    choice: u32,
    steps: &mut Steps,
) -> Result<Vec<Candidate>, Stop<L>>
    requires here { (left : List ℕ) × IsOfLevel store.now left (goal_rest goals.now level) here.now × (choice <
        slice_index left 0) }
    ensures suffice { IfOk result (λ list. Suffice L.parts store.now choice (goal_rest goals.now level) (goal_rest
        goals.now (level + 1)) here.now list.items) }
    ensures paid { IfOk result (λ list. sum_by (λ x. length x.rel.pairs) list.items + 2 * steps.old.taken ≤ 2 *
        steps.new.taken) }
    ensures wide { IfErr result IsNotWide }
    ensures takes { Takes (sum_by (rel_weight (goal_rest goals.now level)) here.now.rels) steps.old steps.new }
    ensures spent { IfErr result (λ e. IsCause (sum_by (rel_weight (goal_rest goals.now level)) here.now.rels) steps.old
        e) }
{
    if let Some(own) = find_own(store, here, goals, level, choice) {
        return step_own(store, alloc, here, goals, level, choice, own, steps);
    }
    let list = step_rels(store, alloc, here, goals, level, choice, steps)?;
    let Ok(kept) = thin(alloc, list) else {
        return Err(Stop::Memory);
    };
    Ok(kept)
}

/// The relations under a choice that leads to these places; none where each of them is always zero, for then every
/// word is held without one.
fn step_needed<L: Label>(
    store: &Store<L>,
    alloc: Global,
    here: &Macro,
    goals: &[Lsta],
    level: u32,
    choice: u32,
    places: &[u32],
    steps: &mut Steps,
) -> Result<Vec<Candidate>, Stop<L>>
    requires here { (left : List ℕ) × IsOfLevel store.now left (goal_rest goals.now level) here.now × (choice <
        slice_index left 0) }
    ensures enough { IfOk result (λ list. AreEnough L.parts store.now choice (goal_rest goals.now level) (goal_rest
        goals.now (level + 1)) here.now places.now list.items) }
    ensures paid { IfOk result (λ list. sum_by (λ x. length x.rel.pairs) list.items + 2 * steps.old.taken ≤ 2 *
        steps.new.taken) }
    ensures wide { IfErr result IsNotWide }
    ensures takes { Takes (sum_by (rel_weight (goal_rest goals.now level)) here.now.rels) steps.old steps.new }
    ensures spent { IfErr result (λ e. IsCause (sum_by (rel_weight (goal_rest goals.now level)) here.now.rels) steps.old
        e) }
{
    if are_null(store, places) {
        return Ok(Vec::new(alloc));
    }
    step_each(store, alloc, here, goals, level, choice, steps)
}

/// The macro of these relations.
fn gather(alloc: Global, domain: Items<u32>, list: Vec<Candidate>) -> Result<Stepped, AllocError>
    ensures domain { IfOk result (λ s. s.to.domain ≡ domain) }
    ensures rels { IfOk result (λ s. s.to.rels ≡ map (λ x. x.rel) list.items) }
    ensures from { IfOk result (λ s. s.from ≡ map (λ x. (x.number, x.choice)) list.items) }
{
    let mut rels = Items::new(alloc);
    let mut from = Items::new(alloc);
    for candidate in list {
        from.push((candidate.number, candidate.choice))?;
        rels.push(candidate.rel)?;
    }
    Ok(Stepped {
        to: Macro { domain, rels },
        from,
    })
}

/// The macro under a choice.
pub(crate) fn step<L: Label>(
    store: &Store<L>,
    alloc: Global,
    here: &Macro,
    goals: &[Lsta],
    level: u32,
    choice: u32,
    steps: &mut Steps,
) -> Result<Stepped, Stop<L>>
    requires here { (left : List ℕ) × IsOfLevel store.now left (goal_rest goals.now level) here.now × (choice <
        slice_index left 0) }
    ensures stepped { IfOk result (λ s. IsStepped L.parts store.now choice (goal_rest goals.now level) (goal_rest
        goals.now (level + 1)) here.now s) }
    ensures size { IfOk result (λ s. size s.to + 2 * steps.old.taken ≤ 2 * steps.new.taken) }
    ensures wide { IfErr result IsNotWide }
    ensures takes { Takes (weight (goal_rest goals.now level) here.now) steps.old steps.new }
    ensures spent { IfErr result (λ e. IsCause (weight (goal_rest goals.now level) here.now) steps.old e) }
{
    let _taken = steps.taken();
    let domain = step_domain(store, alloc, here.domain.as_slice(), choice, steps)?;
    let places = domain.as_slice();
    let list = step_needed(store, alloc, here, goals, level, choice, places, steps)?;
    let Ok(stepped) = gather(alloc, domain, list) else {
        return Err(Stop::Memory);
    };
    Ok(stepped)
}
