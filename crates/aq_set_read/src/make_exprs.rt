//! Expressions, inner parts before outer ones and left ones before right ones.
ghost use Rattle.std.specs.Prelude.{◌≡◌, map};
ghost use Rattle.aq_set_read.specs.Gathered.{Gives};
ghost use Rattle.aq_set_read.specs.Meaning.{step, meaning, factor_of, part_of, chained, tensored, united};

use crate::brackets::bracket;
use crate::collector::Collector;
use crate::made::Made;
use crate::operators::{all, power, tensor, union};
use crate::set_fault::SetFault;
use aq_set_parse::{SetExpr, SetFactor, SetPart};
use std::alloc::Global;

/// Puts an expression together.
#[cycle(making)]
pub(crate) fn make_expr(
    alloc: Global,
    collector: &mut Collector,
    expr: &SetExpr,
) -> Result<Made, SetFault>
    ensures meaning { Gives (λ m. step collector.new m) result (meaning expr.now collector.old) }
    ensures names { collector.new.names ≡ collector.old.names }
{
    match expr {
        SetExpr::Bracket { at, terms } => bracket(alloc, collector, *at, terms.as_slice()),
        SetExpr::All { at, number } => all(collector, *at, *number),
        SetExpr::Name(name) => collector.name_made(name),
        SetExpr::Tensor(factors) => make_tensors(alloc, collector, factors.as_slice()),
        SetExpr::Union(parts) => make_unions(alloc, collector, parts.as_slice()),
    }
}

/// Puts an operand of a product together, with its power.
#[cycle(making)]
fn make_factor(
    alloc: Global,
    collector: &mut Collector,
    factor: &SetFactor,
) -> Result<Made, SetFault>
    ensures meaning { Gives (λ m. step collector.new m) result ((factor_of factor.now).run collector.old) }
    ensures names { collector.new.names ≡ collector.old.names }
{
    let base = make_expr(alloc, collector, &factor.expr)?;
    power(collector, base, factor.power)
}

/// Puts a product together, from the left to the right. There is at least one operand.
#[cycle(making)]
fn make_tensors(
    alloc: Global,
    collector: &mut Collector,
    factors: &[SetFactor],
) -> Result<Made, SetFault>
    ensures meaning { Gives (λ m. step collector.new m) result (chained tensored
        (map factor_of factors.now) collector.old) }
    ensures names { collector.new.names ≡ collector.old.names }
{
    let Some((first, rest)) = factors.split_first() else {
        return Err(SetFault::Memory);
    };
    let mut left = make_factor(alloc, collector, first)?;
    for next in rest {
        let right = make_factor(alloc, collector, next)?;
        left = tensor(collector, next.at, left, right)?;
    }
    Ok(left)
}

/// Puts a union together, from the left to the right. There is at least one operand.
#[cycle(making)]
fn make_unions(
    alloc: Global,
    collector: &mut Collector,
    parts: &[SetPart],
) -> Result<Made, SetFault>
    ensures meaning { Gives (λ m. step collector.new m) result (chained united (map part_of parts.now) collector.old) }
    ensures names { collector.new.names ≡ collector.old.names }
{
    let Some((first, rest)) = parts.split_first() else {
        return Err(SetFault::Memory);
    };
    let mut left = make_expr(alloc, collector, &first.expr)?;
    for next in rest {
        let right = make_expr(alloc, collector, &next.expr)?;
        left = union(collector, next.at, left, right)?;
    }
    Ok(left)
}
