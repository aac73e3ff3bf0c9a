//! The parts of a union.
ghost use Rattle.std.specs.Prelude.{◌≡◌, ◌<◌, ◌++◌, IfOk, OnOk, length};
ghost use Rattle.aq_sets.specs.ValidExprs.{AreValidExprs};
ghost use Rattle.aq_plain.specs.Listing.{ArePartsOf, opened, kept};

use aq_sets::Expr;
use std::alloc::{AllocError, Global};

/// The positions of the expressions that the expression unites, in order. None of them is a union or a power of one.
pub(crate) fn parts_of(alloc: Global, exprs: &[Expr], expr: u32) -> Result<Vec<u32>, AllocError>
    requires valid { AreValidExprs exprs.now }
    requires within { expr < length exprs.now }
    ensures { IfOk result (λ parts. ArePartsOf exprs.now expr parts.items) }
{
    let mut parts = Vec::new(alloc);
    let mut work = Vec::new(alloc);
    work.push(expr)?;
    while let Some(at) = work.pop() {
        open_one(&exprs[at as usize], at, &mut work, &mut parts)?;
    }
    Ok(parts)
}

/// Keeps the position of an expression that is whole, and puts the names of another one upon the work, the first one
/// uppermost.
fn open_one(
    expr: &Expr,
    at: u32,
    work: &mut Vec<u32>,
    parts: &mut Vec<u32>,
) -> Result<(), AllocError>
    ensures work { OnOk result (work.new.items ≡ work.old.items ++ opened expr.now) }
    ensures parts { OnOk result (parts.new.items ≡ parts.old.items ++ kept expr.now at) }
{
    match expr {
        Expr::Union { left, right } => {
            work.push(*right)?;
            work.push(*left)?;
        }
        Expr::Power { base, times } if *times == 1 => work.push(*base)?,
        _ => parts.push(at)?,
    }
    Ok(())
}
