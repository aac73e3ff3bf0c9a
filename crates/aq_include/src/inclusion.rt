//! Inclusion: each nonzero vector of an automaton is a multiple of one of others.
ghost use Rattle.std.specs.Prelude.{◌≡◌, ◌<◌, ◌+◌, ◌*◌, ◌^◌, ℕ, [], ◌∷◌, length, slice_get, Some, IfOk, IfErr};
ghost use Rattle.aq_store.specs.declared.lsta.Lsta.{Lsta};
ghost use Rattle.aq_cert.specs.declared.cert.Rel.{Rel};
ghost use Rattle.aq_cert.specs.Goals.{goal_rest, FitTogether};
ghost use Rattle.aq_include.specs.Costs.{Takes, IsCause, weight, size};
ghost use Rattle.aq_include.specs.Answers.{Answers, IsPaid, StopsFor, IsRootRel, goal_words, search_budget};

use crate::search::{Found, visit};
use crate::table::Table;
use aq_cert::{Cert, Macro, Rel, with_places};
use aq_label::Label;
use aq_store::{Lsta, Steps, Stop, Store};
use sqlite_items::Items;
use std::alloc::{AllocError, Global};

/// Whether each nonzero vector of the left has a match.
#[derive(Debug, Drop)]
pub enum Answer {
    /// It has, as the certificate shows.
    Included(Cert),
    /// The least word whose vector isn't zero and has none.
    Escapes(Items<u32>),
}

/// The roots, each goal's with the left's.
fn root_macro(alloc: Global, left: &Lsta, goals: &[Lsta]) -> Result<Macro, AllocError>
    requires { length goals.now < 2 ^ 32 }
    ensures domain { IfOk result (λ m. m.domain ≡ left.now.root ∷ []) }
    ensures rels { IfOk result (λ m. (k : ℕ) (rel : Rel) → slice_get m.rels k ≡ Some rel → IsRootRel left.now.root
        goals.now k rel) }
    ensures count { IfOk result (λ m. length m.rels ≡ length goals.now) }
    ensures size { IfOk result (λ m. size m ≡ 1 + length goals.now) }
    ensures weight { IfOk result (λ m. weight (goal_rest goals.now 0) m ≡ 1 + goal_words goals.now) }
{
    let root = left.root.place();
    let mut rels = Items::new(alloc);
    for number in 0..goals.len() {
        let goal = &goals[number];
        let pairs = Items::from_slice(alloc, &[(root, goal.root.place())])?;
        rels.push(Rel {
            goal: number as u32,
            pairs,
        })?;
    }
    let domain = Items::from_slice(alloc, &[root])?;
    Ok(Macro { domain, rels })
}

/// Whether each nonzero vector of the left is proportional to a vector of a goal. All fit the store and have as many
/// levels. Included comes with a valid certificate, and Escapes has the least word whose vector isn't zero and has no
/// match. A step is counted for each member of a domain and each pair that a choice leads on, of a relation that relates
/// no words up to the pair that shows it, and for each pair whose labels are compared.
///
/// `Spent` comes only where `search_budget` is more steps than are left, and `WideParts` only with an entry of a left
/// vector and one of a goal's whose product doesn't fit. `Wide` never comes. `Memory` may come at any time.
pub fn include<L: Label>(
    store: &Store<L>,
    alloc: Global,
    left: &Lsta,
    goals: &[Lsta],
    steps: &mut Steps,
) -> Result<Answer, Stop<L>>
    requires fits { FitTogether store.now left.now goals.now }
    requires few { length goals.now < 2 ^ 32 }
    ensures answer { IfOk result (λ a. Answers L.parts store.now left.now goals.now a) }
    ensures size { IfOk result (λ a. IsPaid goals.now steps.old steps.new a) }
    ensures wide { IfErr result (λ e. StopsFor L.parts store.now left.now goals.now e) }
    ensures takes { Takes (search_budget left.now goals.now) steps.old steps.new }
    ensures spent { IfErr result (λ e. IsCause (search_budget left.now goals.now) steps.old e) }
{
    let _taken = steps.taken();
    let Ok(_levels) = u32::try_from(left.shape.len()) else {
        return Err(Stop::Memory);
    };
    let Ok(mut table) = Table::new(alloc, left.shape.len()) else {
        return Err(Stop::Memory);
    };
    let Ok(root) = root_macro(alloc, left, goals) else {
        return Err(Stop::Memory);
    };
    match visit(store, alloc, left, goals, &mut table, 0, root, steps)? {
        Found::Reached(_) => {
            let Ok(places) = with_places(store, alloc, left, goals, table.macros.as_slice()) else {
                return Err(Stop::Memory);
            };
            Ok(Answer::Included(table.into_cert(places)))
        }
        Found::Escapes(word) => Ok(Answer::Escapes(word)),
    }
}
