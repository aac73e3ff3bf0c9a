//! The last level of the search.
ghost use Rattle.std.specs.Prelude.{◌≡◌, ◌≢◌, ◌≤◌, ◌↔◌, ℕ, List, [], length, sum_by, Contains, IfOk, IfErr, IsTrue};
ghost use Rattle.aq_store.specs.Nodes.{IsLeaf};
ghost use Rattle.aq_cert.specs.Macros.{IsOfLevel, IsZeroOn};
ghost use Rattle.aq_include.specs.Costs.{Takes, IsCause, weight};
ghost use Rattle.aq_include.specs.Ends.{IsNotWide, AreLabels, Relates, Ends, StopsWide};

use crate::pay::pay;
use aq_cert::{End, Macro, Rel};
use aq_label::{Label, Ratio, ratio_of};
use aq_ring::Amp;
use aq_store::{Id, Steps, Stop, Store};
use std::alloc::{AllocError, Global};

/// Whether each label is zero.
fn is_zero_on<L: Label>(store: &Store<L>, domain: &[u32]) -> bool
    requires { (x : ℕ) → Contains domain.now x → IsLeaf store.now x }
    ensures { IsTrue result ↔ IsZeroOn L.parts store.now domain.now [] }
{
    for place in domain {
        if !store.label(Id::at(*place)).is_zero() {
            return false;
        }
    }
    true
}

/// The labels of pairs.
fn labels_of<L: Label>(
    store: &Store<L>,
    alloc: Global,
    pairs: &[(u32, u32)],
) -> Result<Vec<(L, L)>, AllocError>
    requires { (p : ℕ × ℕ) → Contains pairs.now p → IsLeaf store.now p.0 × IsLeaf store.now p.1 }
    ensures { IfOk result (λ list. AreLabels L.parts store.now pairs.now list.items) }
{
    let mut list = Vec::new(alloc);
    for pair in pairs {
        let left = store.label(Id::at(pair.0));
        let right = store.label(Id::at(pair.1));
        list.push((left, right))?;
    }
    Ok(list)
}

/// How the labels of a relation's pairs compare.
fn compare<L: Label>(
    store: &Store<L>,
    alloc: Global,
    pairs: &[(u32, u32)],
    steps: &mut Steps,
) -> Result<Ratio, Stop<L>>
    requires { (p : ℕ × ℕ) → Contains pairs.now p → IsLeaf store.now p.0 × IsLeaf store.now p.1 }
    ensures relates { IfOk result (λ ratio. Relates L.parts store.now pairs.now ratio) }
    ensures wide { IfErr result IsNotWide }
    ensures takes { Takes (length pairs.now) steps.old steps.new }
    ensures spent { IfErr result (λ e. IsCause (length pairs.now) steps.old e) }
{
    pay::<L>(steps, pairs.len())?;
    let Ok(list) = labels_of(store, alloc, pairs) else {
        return Err(Stop::Memory);
    };
    Ok(ratio_of(list.as_slice()))
}

/// Why the macro is good, if it is.
pub(crate) fn find_end<L: Label>(
    store: &Store<L>,
    alloc: Global,
    here: &Macro,
    steps: &mut Steps,
) -> Result<Option<End>, Stop<L>>
    requires { (rest : ℕ → List ℕ) × IsOfLevel store.now [] rest here.now }
    ensures ends { IfOk result (λ found. Ends L.parts store.now here.now found) }
    ensures wide { IfErr result (λ e. StopsWide L.parts store.now here.now e) }
    ensures takes { Takes (sum_by (λ r. length r.pairs) here.now.rels) steps.old steps.new }
    ensures spent { IfErr result (λ e. IsCause (sum_by (λ r. length r.pairs) here.now.rels) steps.old e) }
{
    let _taken = steps.taken();
    if is_zero_on(store, here.domain.as_slice()) {
        return Ok(Some(End::Zero));
    }
    let mut wide = None;
    let rels = here.rels.as_slice();
    for number in 0..rels.len() {
        let Ok(short) = u32::try_from(number) else {
            return Err(Stop::Memory);
        };
        match compare(store, alloc, rels[number].pairs.as_slice(), steps)? {
            Ratio::Same { .. } | Ratio::AllZero => return Ok(Some(End::Rel(short))),
            Ratio::Wide { left, right } => {
                wide = Some((left, right));
            }
            Ratio::Different { .. } => {}
        }
    }
    match wide {
        Some((left, right)) => Err(Stop::WideParts { left, right }),
        None => Ok(None),
    }
}
