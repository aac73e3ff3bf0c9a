//! Lists of places in order, each once.
ghost use Rattle.std.specs.Prelude.{◌≡◌, ◌≤◌, ◌<◌, ◌↔◌, ◌+◌, ◌*◌, ◌++◌, ℕ, List, length, Contains, IfOk};
ghost use Rattle.std.specs.Prelude.{IsTrue};
ghost use Rattle.aq_store.specs.Nodes.{pairs_at};
ghost use Rattle.std.specs.List.{AllZip};
ghost use Rattle.aq_include.specs.declared.places.Opened.{Opened};
ghost use Rattle.aq_include.specs.Steps.{children_of, opened_children_of, IsOpened};
ghost use Rattle.aq_include.specs.Members.{HasSame};

use aq_label::Label;
use aq_store::{Id, Store};
use sqlite_items::Items;
use std::alloc::{AllocError, Global};

/// The same places in order, each once.
pub(crate) fn tidy_places(list: Vec<u32>) -> Items<u32>
    ensures same { HasSame result list.items }
    ensures short { length result ≤ length list.items }
{
    let mut list = list;
    list.sort_unstable();
    list.dedup();
    Items::from_vec(list)
}

/// The same pairs in order, each once.
pub(crate) fn tidy_pairs(list: Vec<(u32, u32)>) -> Items<(u32, u32)>
    ensures same { HasSame result list.items }
    ensures short { length result ≤ length list.items }
{
    let mut list = list;
    list.sort_unstable();
    list.dedup();
    Items::from_vec(list)
}

/// The children of places under a choice.
pub(crate) fn children<L: Label>(
    store: &Store<L>,
    alloc: Global,
    domain: &[u32],
    choice: u32,
) -> Result<Vec<u32>, AllocError>
    requires { (x : ℕ) → Contains domain.now x → choice < length (pairs_at store.now x) }
    ensures { IfOk result (λ list. list.items ≡ children_of store.now choice domain.now) }
{
    let mut list = Vec::new(alloc);
    for place in domain {
        let (left, right) = store.pair(Id::at(*place), choice);
        list.push(left.place())?;
        list.push(right.place())?;
    }
    Ok(list)
}

/// A pair whose left children were read.
#[derive(Clone, Copy, Debug)]
pub(crate) struct Opened {
    pub(crate) first: u32,
    pub(crate) second: u32,
    pub(crate) right: u32,
}

/// The pairs with the left children under a choice.
pub(crate) fn open_pairs<L: Label>(
    store: &Store<L>,
    alloc: Global,
    pairs: &[(u32, u32)],
    choice: u32,
) -> Result<Vec<Opened>, AllocError>
    requires { (p : ℕ × ℕ) → Contains pairs.now p → choice < length (pairs_at store.now p.0) }
    ensures { IfOk result (λ list. AllZip (IsOpened store.now choice) pairs.now list.items) }
{
    let mut list = Vec::new(alloc);
    for (left, right) in pairs {
        let (first, second) = store.pair(Id::at(*left), choice);
        list.push(Opened {
            first: first.place(),
            second: second.place(),
            right: *right,
        })?;
    }
    Ok(list)
}

/// The children of opened pairs under a choice of the goal.
pub(crate) fn pair_children<L: Label>(
    store: &Store<L>,
    alloc: Global,
    pairs: &[Opened],
    choice: u32,
) -> Result<Vec<(u32, u32)>, AllocError>
    requires { (o : Opened) → Contains pairs.now o → choice < length (pairs_at store.now o.right) }
    ensures { IfOk result (λ list. list.items ≡ opened_children_of store.now choice pairs.now) }
{
    let mut list = Vec::new(alloc);
    for pair in pairs {
        let (first, second) = store.pair(Id::at(pair.right), choice);
        list.push((pair.first, first.place()))?;
        list.push((pair.second, second.place()))?;
    }
    Ok(list)
}

pub(crate) fn same_places(one: &[u32], other: &[u32]) -> bool
    ensures { IsTrue result → one.now ≡ other.now }
{
    one == other
}

pub(crate) fn same_pairs(one: &[(u32, u32)], other: &[(u32, u32)]) -> bool
    ensures { IsTrue result → one.now ≡ other.now }
{
    one == other
}
