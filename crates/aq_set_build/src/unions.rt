//! Unions that are taken apart.
ghost use Rattle.std.specs.Prelude.{◌≡◌, ℕ, ◌+◌, ◌<◌, ◌≤◌, ◌++◌, [], length, IfOk, IfErr, OnOk};
ghost use Rattle.aq_store.specs.Count.{after};
ghost use Rattle.aq_store.specs.Stops.{GivesUp};
ghost use Rattle.aq_sets.specs.ValidExprs.{AreValidExprs};
ghost use Rattle.aq_set_build.specs.Unions.{opened, kept, opening_steps, IsOpening, nodes_all};

use aq_ring::Amp;
use aq_sets::Expr;
use aq_store::{Steps, Stop};
use std::alloc::Global;

/// Takes one step.
pub(crate) fn count(steps: &mut Steps) -> Result<(), Stop<Amp>>
    ensures ok { OnOk result (steps.new ≡ after 1 steps.old) }
    ensures limit { steps.new.limit ≡ steps.old.limit }
    ensures later { steps.old.taken ≤ steps.new.taken }
    ensures cheap { steps.new.taken ≤ steps.old.taken + 1 }
    ensures refused { IfErr result (GivesUp 1 steps.old steps.new) }
{
    let _taken = steps.taken();
    let Ok(()) = steps.take() else {
        return Err(Stop::Spent);
    };
    Ok(())
}

/// Puts numbers at the end of a list.
pub(crate) fn push_all(list: &mut Vec<u32>, numbers: &[u32]) -> Result<(), Stop<Amp>>
    ensures pushed { OnOk result (list.new.items ≡ list.old.items ++ numbers.now) }
    ensures memory { IfErr result (λ why. why ≡ Stop.Memory) }
{
    let Ok(()) = list.extend_from_slice(numbers) else {
        return Err(Stop::Memory);
    };
    Ok(())
}

/// Puts the sides of a union among what is yet to be taken apart, of which the last comes first, and an expression that
/// is no union among the parts. A power of one time is its base. To take one apart is a step.
fn open(
    expr: &Expr,
    at: u32,
    parts: &mut Vec<u32>,
    rest: &mut Vec<u32>,
    steps: &mut Steps,
) -> Result<(), Stop<Amp>>
    ensures rest { OnOk result (rest.new.items ≡ rest.old.items ++ opened expr.now) }
    ensures parts { OnOk result (parts.new.items ≡ parts.old.items ++ kept expr.now at) }
    ensures limit { steps.new.limit ≡ steps.old.limit }
    ensures later { steps.old.taken ≤ steps.new.taken }
    ensures cheap { steps.new.taken ≤ steps.old.taken + opening_steps expr.now }
    ensures refused { IfErr result (GivesUp 1 steps.old steps.new) }
{
    let _taken = steps.taken();
    match expr {
        Expr::Union { left, right } => {
            count(steps)?;
            push_all(rest, &[*right, *left])
        }
        Expr::Power { base, times } if *times == 1 => {
            count(steps)?;
            push_all(rest, &[*base])
        }
        _ => push_all(parts, &[at]),
    }
}

/// The parts of a union of expressions, in order: expressions that are no unions. Of the expressions that are given the
/// last comes first. Each union that is taken apart is a step, and gives up where there is none left or no memory.
pub(crate) fn parts_of(
    alloc: Global,
    exprs: &[Expr],
    list: Vec<u32>,
    steps: &mut Steps,
) -> Result<Vec<u32>, Stop<Amp>>
    requires valid { AreValidExprs exprs.now }
    requires union { (i : ℕ) × (i < length exprs.now) × IsOpening exprs.now i [] list.items }
    ensures parts { IfOk result (λ parts. (i : ℕ) → IsOpening exprs.now i [] list.items
        → IsOpening exprs.now i parts.items []) }
    ensures nodes { IfOk result (λ parts. steps.new.taken + nodes_all exprs.now parts.items
        ≤ steps.old.taken + nodes_all exprs.now list.items) }
    ensures limit { steps.new.limit ≡ steps.old.limit }
    ensures later { steps.old.taken ≤ steps.new.taken }
    ensures cheap { steps.new.taken ≤ steps.old.taken + nodes_all exprs.now list.items }
    ensures refused { IfErr result (GivesUp (nodes_all exprs.now list.items) steps.old steps.new) }
{
    let mut parts = Vec::new(alloc);
    let mut rest = list;
    while let Some(at) = rest.pop() {
        open(&exprs[at as usize], at, &mut parts, &mut rest, steps)?;
    }
    Ok(parts)
}
