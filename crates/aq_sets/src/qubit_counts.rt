//! On how many qubits expressions are.
ghost use Rattle.std.specs.Prelude.{◌≡◌, ◌<◌, ◌≤◌, length, map, IfOk};
ghost use Rattle.aq_base.specs.Limits.{most_qubits};
ghost use Rattle.aq_sets.specs.Tables.{table, at_position};
ghost use Rattle.aq_sets.specs.Sizes.{size_of, size_step, qubits_step};
ghost use Rattle.aq_sets.specs.Valid.{IsValidSets};

use crate::sets::{Expr, Sets};
use sqlite_items::Items;
use std::alloc::{AllocError, Global};

/// The number at a position, or 0 where there is none.
fn at_position(done: &[u32], i: u32) -> u32
    ensures { result ≡ at_position 0 done.now i }
{
    match done.get(i as usize) {
        Some(number) => *number,
        None => 0,
    }
}

/// On how many qubits an expression is, from those of the expressions before it.
fn qubits_by(done: &[u32], expr: &Expr) -> u32
    requires { qubits_step done.now expr.now ≤ most_qubits }
    ensures { result ≡ qubits_step done.now expr.now }
{
    match expr {
        Expr::Kets { qubits, terms: _ } => *qubits,
        Expr::All { qubits } => *qubits,
        Expr::Tensor { left, right } => at_position(done, *left) + at_position(done, *right),
        Expr::Union { left, right: _ } => at_position(done, *left),
        Expr::Power { base, times } => at_position(done, *base) * *times,
    }
}

/// On how many qubits each expression is, in order. The only error is want of memory.
pub fn qubits_of_all(alloc: Global, sets: &Sets) -> Result<Items<u32>, AllocError>
    requires { IsValidSets sets.now }
    ensures { IfOk result (λ list. list ≡ map (λ s. s.qubits) (table size_step sets.now.exprs)) }
{
    let mut list = Items::new(alloc);
    for expr in sets.exprs.as_slice() {
        list.push(qubits_by(list.as_slice(), expr))?;
    }
    Ok(list)
}

/// On how many qubits the expression at a position is. The only error is want of memory.
pub fn qubits(alloc: Global, sets: &Sets, expr: u32) -> Result<u32, AllocError>
    requires valid { IsValidSets sets.now }
    requires there { expr < length sets.now.exprs }
    ensures { IfOk result (λ n. n ≡ (size_of sets.now.exprs expr).qubits) }
{
    let list = qubits_of_all(alloc, sets)?;
    Ok(at_position(list.as_slice(), expr))
}
