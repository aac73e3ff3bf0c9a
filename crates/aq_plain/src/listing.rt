//! The vectors that an expression lists.
ghost use Rattle.std.specs.Prelude.{◌≡◌, ℕ, ◌<◌, ◌≤◌, ◌^◌, List, All, IfOk, Some, length, slice_get};
ghost use Rattle.aq_sets.specs.Vectors.{vectors_of, products_of};
ghost use Rattle.aq_sets.specs.Sizes.{size_of};
ghost use Rattle.aq_sets.specs.Valid.{IsValidSets};
ghost use Rattle.aq_sets.specs.declared.sets.Expr.{Expr};
ghost use Rattle.aq_sets.specs.Caps.{capped, capped_sizes};
ghost use Rattle.aq_sets.specs.ValidExprs.{AreValidExprs};
ghost use Rattle.aq_plain.specs.Listing.{Takes, VectorsGive, states_of, IsWhole};

use crate::parts::parts_of;
use crate::rows::{Row, basis_rows, kets_row};
use crate::stop::VectorStop;
use crate::tensors::{power_rows, tensor_rows};
use crate::vector::Vector;
use aq_sets::{Expr, Sets, Size, sizes_of};
use sqlite_items::Items;
use std::alloc::{AllocError, Global};

/// The vectors that the expression at a position lists, in order. `TooMany`: exactly where there are more than `most`,
/// which is told before one is made. `Wide`: the operands of a product of a tensor or a power in it that doesn't fit.
/// `Memory`: for want of memory, which may come anywhere.
pub fn vectors(
    alloc: Global,
    sets: &Sets,
    expr: u32,
    most: u64,
) -> Result<Items<Vector>, VectorStop>
    requires valid { IsValidSets sets.now }
    requires within { expr < length sets.now.exprs }
    ensures { VectorsGive sets.now.exprs expr most result }
{
    let sizes = sizes_of(alloc, sets)?;
    vectors_by_sizes(alloc, sets, sizes.as_slice(), expr, most)
}

/// The same, where the sizes of all expressions are told: for who asks for the vectors of many.
pub fn vectors_by_sizes(
    alloc: Global,
    sets: &Sets,
    sizes: &[Size],
    expr: u32,
    most: u64,
) -> Result<Items<Vector>, VectorStop>
    requires valid { IsValidSets sets.now }
    requires within { expr < length sets.now.exprs }
    requires told { sizes.now ≡ capped_sizes sets.now.exprs }
    ensures { VectorsGive sets.now.exprs expr most result }
{
    let exprs = sets.exprs.as_slice();
    let (qubits, count) = numbers_of(sizes, expr);
    if count > u128::from(most) {
        return Err(VectorStop::TooMany);
    }
    let rows = list_rows(alloc, exprs, expr)?;
    let list = vectors_of_rows(alloc, qubits, rows)?;
    Ok(list)
}

/// How many qubits the expression has, and how many vectors it lists, told up to 2^64.
pub(crate) fn numbers_of(sizes: &[Size], expr: u32) -> (u32, u128)
    requires { expr < length sizes.now }
    ensures qubits { (exprs : List Expr) → sizes.now ≡ capped_sizes exprs → result.0 ≡ (size_of exprs expr).qubits }
    ensures count { (exprs : List Expr) → sizes.now ≡ capped_sizes exprs → result.1 ≡ capped
        (size_of exprs expr).count }
{
    let size = &sizes[expr as usize];
    (size.qubits, size.count)
}

/// The rows as state vectors.
fn vectors_of_rows(alloc: Global, qubits: u32, rows: Vec<Row>) -> Result<Items<Vector>, AllocError>
    requires few { qubits ≤ 16 }
    requires long { All (λ v. length v ≡ 2 ^ qubits) rows.items }
    ensures { IfOk result (λ list. list ≡ states_of qubits rows.items) }
{
    let mut list = Items::new(alloc);
    for row in rows {
        let vector = Vector::from_amps(qubits, row.into_vec());
        list.push(vector)?;
    }
    Ok(list)
}

/// The vectors of an expression, part by part. The depth of the calls is at most 16: a factor has fewer qubits than its
/// product.
#[cycle(listing)]
fn list_rows(alloc: Global, exprs: &[Expr], expr: u32) -> Result<Vec<Row>, VectorStop>
    requires valid { AreValidExprs exprs.now }
    requires within { expr < length exprs.now }
    ensures { Takes (products_of exprs.now expr) (λ rows. rows.items ≡ vectors_of exprs.now expr) result }
{
    let parts = parts_of(alloc, exprs, expr)?;
    let mut rows = Vec::new(alloc);
    for part in parts.as_slice() {
        let mut more = part_rows(alloc, exprs, *part)?;
        rows.append(&mut more)?;
    }
    Ok(rows)
}

/// The vectors of an expression that isn't a union or a power of one.
#[cycle(listing)]
fn part_rows(alloc: Global, exprs: &[Expr], part: u32) -> Result<Vec<Row>, VectorStop>
    requires valid { AreValidExprs exprs.now }
    requires within { part < length exprs.now }
    requires whole { (e : Expr) → slice_get exprs.now part ≡ Some e → IsWhole e }
    ensures { Takes (products_of exprs.now part) (λ rows. rows.items ≡ vectors_of exprs.now part) result }
{
    match &exprs[part as usize] {
        Expr::Kets { qubits, terms } => {
            let row = kets_row(alloc, *qubits, terms.as_slice())?;
            let mut rows = Vec::new(alloc);
            rows.push(row)?;
            Ok(rows)
        }
        Expr::All { qubits } => {
            let rows = basis_rows(alloc, *qubits)?;
            Ok(rows)
        }
        Expr::Tensor { left, right } => {
            let left_rows = list_rows(alloc, exprs, *left)?;
            let right_rows = list_rows(alloc, exprs, *right)?;
            let rows = tensor_rows(alloc, left_rows.as_slice(), right_rows.as_slice())?;
            Ok(rows)
        }
        Expr::Power { base, times } => {
            let base_rows = list_rows(alloc, exprs, *base)?;
            let rows = power_rows(alloc, base_rows.as_slice(), *times)?;
            Ok(rows)
        }
        Expr::Union { .. } => unreachable!(),
    }
}
