//! Relations that relate no words under two choices, and places that need no relation, by nodes that are always zero or
//! never.
ghost use Rattle.std.specs.Prelude.{◌<◌, ◌≤◌, length, Contains, IfSome, IsTrue};
ghost use Rattle.aq_store.specs.Nodes.{pairs_at};
ghost use Rattle.aq_include.specs.declared.places.Opened.{Opened};
ghost use Rattle.aq_include.specs.Hopeless.{AreNull, AreApart, HasApart};

use crate::places::Opened;
use aq_label::Label;
use aq_store::{Id, Store};

/// Whether each place is always zero.
pub(crate) fn are_null<L: Label>(store: &Store<L>, places: &[u32]) -> bool
    ensures { IsTrue result → AreNull L.parts store.now places.now }
{
    for place in places {
        if !store.is_zero(Id::at(*place)) {
            return false;
        }
    }
    true
}

/// Whether one of two nodes is always zero, and the other never.
fn are_apart<L: Label>(store: &Store<L>, left: Id, right: Id) -> bool
    ensures { IsTrue result → AreApart L.parts store.now left right }
{
    if store.is_zero(left) {
        store.is_never_zero(right)
    } else {
        store.is_never_zero(left) && store.is_zero(right)
    }
}

/// The number of pairs up to the first that leads to a node that is always zero and one that never is, under a choice
/// of the goal; none where no pair does.
pub(crate) fn count_to_apart<L: Label>(
    store: &Store<L>,
    pairs: &[Opened],
    choice: u32,
) -> Option<usize>
    requires { (o : Opened) → Contains pairs.now o → choice < length (pairs_at store.now o.right) }
    ensures apart { IfSome result (λ _. HasApart L.parts store.now choice pairs.now) }
    ensures within { IfSome result (λ count. count ≤ length pairs.now) }
{
    for index in 0..pairs.len() {
        let pair = &pairs[index];
        let (first, second) = store.pair(Id::at(pair.right), choice);
        if are_apart(store, Id::at(pair.first), first)
            || are_apart(store, Id::at(pair.second), second)
        {
            return Some(index + 1);
        }
    }
    None
}
