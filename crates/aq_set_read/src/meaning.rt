//! What a set file says, item by item.
ghost use Rattle.std.specs.Prelude.{◌≡◌};
ghost use Rattle.aq_set_read.specs.Gathered.{Gives, nothing_gathered};
ghost use Rattle.aq_set_read.specs.Meaning.{item_taken, items_taken, sets_of};
ghost use Rattle.aq_set_parse.specs.declared.tree.SetItem.TheVariants as items;

use crate::claims::{cases_made, cases_of, first_qubits, same_qubits};
use crate::collector::Collector;
use crate::make_exprs::make_expr;
use crate::set_fault::SetFault;
use aq_set_parse::{SetCase, SetExpr, SetItem, SetTree, SetWord};
use aq_sets::Sets;
use std::alloc::Global;

/// Takes a set.
fn set(
    alloc: Global,
    collector: &mut Collector,
    name: &SetWord,
    expr: &SetExpr,
) -> Result<(), SetFault>
    ensures { Gives (λ u. collector.new) result (item_taken (items.Set name.now expr.now) collector.old) }
{
    collector.naming(name)?;
    let made = make_expr(alloc, collector, expr)?;
    collector.add_set(alloc, &name.text, made)
}

/// Takes a claim.
fn claim(
    alloc: Global,
    collector: &mut Collector,
    name: &SetWord,
    cases: &[SetCase],
) -> Result<(), SetFault>
    ensures { Gives (λ u. collector.new) result (item_taken (items.Claim name.now cases.now) collector.old) }
{
    collector.naming(name)?;
    let made = cases_made(alloc, collector, cases)?;
    let qubits = first_qubits(made.as_slice())?;
    same_qubits(qubits, cases, made.as_slice())?;
    let cases = cases_of(alloc, cases, made.as_slice())?;
    collector.add_claim(alloc, &name.text, cases)
}

/// Takes an item.
fn item(alloc: Global, collector: &mut Collector, item: &SetItem) -> Result<(), SetFault>
    ensures { Gives (λ u. collector.new) result (item_taken item.now collector.old) }
{
    match item {
        SetItem::Set { name, expr } => set(alloc, collector, name, expr),
        SetItem::Claim { name, cases } => claim(alloc, collector, name, cases.as_slice()),
    }
}

/// Takes items in order.
fn items(alloc: Global, collector: &mut Collector, items: &[SetItem]) -> Result<(), SetFault>
    ensures { Gives (λ u. collector.new) result (items_taken items.now collector.old) }
{
    for next in items {
        item(alloc, collector, next)?;
    }
    Ok(())
}

/// What a tree says; or the first fault, item by item. A tree whose coefficients have a number above `2^127 - 1`,
/// which no text has, may be answered by `Memory`.
#[tactic(auto, unfolding(crate::specs::Meaning::sets_of))]
pub(crate) fn sets_of_tree(alloc: Global, tree: &SetTree) -> Result<Sets, SetFault>
    ensures { Gives (λ s. s) result (sets_of tree.now) }
{
    let mut collector = Collector::new(alloc);
    items(alloc, &mut collector, tree.items.as_slice())?;
    Ok(collector.into_sets())
}
