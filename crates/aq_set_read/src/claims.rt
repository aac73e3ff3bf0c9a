//! The cases of claims.
ghost use Rattle.std.specs.Prelude.{◌≡◌, ◌≤◌, length, map, [], IfOk};
ghost use Rattle.aq_set_read.specs.Gathered.{Gives};
ghost use Rattle.aq_set_read.specs.Meaning.{step, cond_of, cases_made, same_qubits, first_qubits, cases_of};

use crate::collector::Collector;
use crate::made::Made;
use crate::make_exprs::make_expr;
use crate::set_fault::SetFault;
use aq_lex::Text;
use aq_set_parse::{SetCase, SetCond};
use aq_sets::{Case, Cond};
use sqlite_items::Items;
use std::alloc::{AllocError, Global};

/// A condition. The only error is want of memory.
fn cond_of(alloc: Global, cond: &SetCond) -> Result<Cond, AllocError>
    ensures { IfOk result (λ c. c ≡ cond_of cond.now) }
{
    Ok(Cond {
        bit: Text::from_slice(alloc, cond.name.text.as_slice())?,
        index: cond.index,
        value: cond.value,
    })
}

/// The conditions of a case. The only error is want of memory.
fn conds_of(alloc: Global, when: &[SetCond]) -> Result<Items<Cond>, AllocError>
    ensures { IfOk result (λ cs. cs ≡ map cond_of when.now) }
{
    let mut conds = Items::new(alloc);
    for cond in when {
        conds.push(cond_of(alloc, cond)?)?;
    }
    Ok(conds)
}

/// Puts the expressions of cases together.
pub(crate) fn cases_made(
    alloc: Global,
    collector: &mut Collector,
    cases: &[SetCase],
) -> Result<Items<Made>, SetFault>
    ensures meaning { Gives (λ m. step collector.new m) result (cases_made [] cases.now collector.old) }
    ensures names { collector.new.names ≡ collector.old.names }
{
    let mut made = Items::new(alloc);
    for case in cases {
        made.push(make_expr(alloc, collector, &case.expr)?)?;
    }
    Ok(made)
}

/// On how many qubits the first one is. There is at least one.
pub(crate) fn first_qubits(made: &[Made]) -> Result<u32, SetFault>
    ensures { Gives (λ n. n) result (first_qubits made.now) }
{
    match made.first() {
        Some(first) => Ok(first.qubits),
        None => Err(SetFault::Memory),
    }
}

/// Whether the cases are on so many qubits.
pub(crate) fn same_qubits(qubits: u32, cases: &[SetCase], made: &[Made]) -> Result<(), SetFault>
    ensures { Gives (λ u. u) result (same_qubits qubits cases.now made.now) }
{
    for (i, case) in cases.iter().enumerate() {
        let Some(next) = made.get(i) else {
            return Ok(());
        };
        if next.qubits != qubits {
            return Err(SetFault::QubitCount { at: case.at });
        }
    }
    Ok(())
}

/// The cases, whose expressions are put together. The only error is want of memory.
pub(crate) fn cases_of(
    alloc: Global,
    cases: &[SetCase],
    made: &[Made],
) -> Result<Items<Case>, AllocError>
    ensures { IfOk result (λ cs. cs ≡ cases_of cases.now made.now) }
{
    let mut all = Items::new(alloc);
    for (i, case) in cases.iter().enumerate() {
        let Some(made) = made.get(i) else {
            return Ok(all);
        };
        let when = conds_of(alloc, case.when.as_slice())?;
        all.push(Case {
            set: made.expr,
            when,
        })?;
    }
    Ok(all)
}
