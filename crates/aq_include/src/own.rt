//! Relations that lead to the same nodes on both sides.
ghost use Rattle.std.specs.Prelude.{◌≡◌, ◌<◌, ◌≤◌, ℕ, List, length, Contains, IfSome, IsTrue, slice_index};
ghost use Rattle.aq_store.specs.Nodes.{pairs_at};
ghost use Rattle.aq_cert.specs.Goals.{goal_rest};
ghost use Rattle.aq_cert.specs.Macros.{IsOfLevel};
ghost use Rattle.aq_include.specs.Steps.{IsOwn};
ghost use Rattle.aq_include.specs.Candidates.{IsOwnOf};

use crate::step::goal_choices;
use aq_cert::Macro;
use aq_label::Label;
use aq_store::{Id, Lsta, Store};

/// The number of a relation, and a choice of its goal.
#[derive(Clone, Copy, Debug)]
pub(crate) struct Own {
    pub(crate) number: u32,
    pub(crate) choice: u32,
}

/// Whether two pairs of nodes are the same.
fn is_same(one: (Id, Id), other: (Id, Id)) -> bool
    ensures { IsTrue result → (one.0 ≡ other.0) × (one.1 ≡ other.1) }
{
    one.0.place() == other.0.place() && one.1.place() == other.1.place()
}

/// Whether all pairs lead to the same two nodes on both sides.
fn leads_to_same<L: Label>(
    store: &Store<L>,
    pairs: &[(u32, u32)],
    choice: u32,
    goal_choice: u32,
) -> bool
    requires some { 0 < length pairs.now }
    requires within { (p : ℕ × ℕ) → Contains pairs.now p → (choice < length (pairs_at store.now p.0)) × (goal_choice <
        length (pairs_at store.now p.1)) }
    ensures { IsTrue result → IsOwn store.now choice goal_choice pairs.now }
{
    for (left, right) in pairs {
        let left_pair = store.pair(Id::at(*left), choice);
        let right_pair = store.pair(Id::at(*right), goal_choice);
        if !is_same(left_pair, right_pair) {
            return false;
        }
    }
    true
}

/// The first choice of a node that has this pair.
fn find_choice<L: Label>(store: &Store<L>, node: Id, left: Id, right: Id) -> Option<u32>
    requires { 0 < length (pairs_at store.now node) }
{
    let mut first: u32 = 0;
    for index in 0..store.run_count(node) {
        let (pair, count) = store.run(node, index);
        if is_same(pair, (left, right)) {
            return Some(first);
        }
        first = first.saturating_add(count);
    }
    None
}

/// A choice of the goal under which all pairs lead to the same nodes on both sides. The left's own number is tried, and
/// where there is one pair all choices are looked at.
fn own_choice<L: Label>(
    store: &Store<L>,
    pairs: &[(u32, u32)],
    choice: u32,
    count: u32,
) -> Option<u32>
    requires { (p : ℕ × ℕ) → Contains pairs.now p → (choice < length (pairs_at store.now p.0)) × (count ≤ length
        (pairs_at store.now p.1)) }
    ensures { IfSome result (λ d. (d < count) × IsOwn store.now choice d pairs.now) }
{
    if pairs.is_empty() || count == 0 {
        return None;
    }
    if choice < count && leads_to_same(store, pairs, choice, choice) {
        return Some(choice);
    }
    if pairs.len() != 1 {
        return None;
    }
    let (left, right) = store.pair(Id::at(pairs[0].0), choice);
    let found = find_choice(store, Id::at(pairs[0].1), left, right)?;
    if found < count && leads_to_same(store, pairs, choice, found) {
        Some(found)
    } else {
        None
    }
}

/// The first relation that leads to the same nodes on both sides.
pub(crate) fn find_own<L: Label>(
    store: &Store<L>,
    here: &Macro,
    goals: &[Lsta],
    level: u32,
    choice: u32,
) -> Option<Own>
    requires { (left : List ℕ) × IsOfLevel store.now left (goal_rest goals.now level) here.now × (choice < slice_index
        left 0) }
    ensures { IfSome result (λ own. IsOwnOf store.now choice (goal_rest goals.now level) here.now.rels own) }
{
    let rels = here.rels.as_slice();
    for number in 0..rels.len() {
        let rel = &rels[number];
        let count = goal_choices(goals, rel.goal, level);
        if let Some(goal_choice) = own_choice(store, rel.pairs.as_slice(), choice, count) {
            let Ok(short) = u32::try_from(number) else {
                return None;
            };
            return Some(Own {
                number: short,
                choice: goal_choice,
            });
        }
    }
    None
}
