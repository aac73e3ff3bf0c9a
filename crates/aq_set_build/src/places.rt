//! Where words lead in the lists of expressions.
ghost use Rattle.std.specs.Prelude.{◌≡◌, ℕ, ◌<◌, ◌≤◌, ◌∷◌, List, length, map, slice_get, Some, IfOk, IfSome, IfNone};
ghost use Rattle.aq_store.specs.Words.{IsWord};
ghost use Rattle.aq_sets.specs.Caps.{most_told, capped, capped_sizes};
ghost use Rattle.aq_sets.specs.Sizes.{size_of, place, number_of, shortened, lower};
ghost use Rattle.aq_sets.specs.Valid.{IsValidSets};
ghost use Rattle.aq_sets.specs.ValidExprs.{AreValidExprs};
ghost use Rattle.aq_set_build.specs.Places.{Enters, IsNoUnion};

use aq_sets::{Expr, Sets, Size, capped_product, capped_sum};
use std::alloc::{AllocError, Global};

/// Where a word of an expression leads: how many vectors of it stand before those of a side, told up to 2^64, the
/// side's expression, and the side's word.
#[derive(Drop)]
struct Side {
    before: u128,
    expr: u32,
    word: Vec<u32>,
}

/// The word of a side of a union: its first choice, and the later ones of a word of the union. One past its level's
/// number means the level's last one.
fn side_word(
    alloc: Global,
    first: u32,
    shape: &[u128],
    word: &[u32],
) -> Result<Vec<u32>, AllocError>
    requires same { length shape.now ≡ length word.now }
    requires some { 0 < length word.now }
    ensures { IfOk result (λ list. (numbers : List ℕ) → shape.now ≡ map capped numbers
        → list.items ≡ first ∷ shortened (lower numbers) (lower word.now)) }
{
    let mut list = Vec::new(alloc);
    list.push(first)?;
    for level in 1..word.len() {
        let last = shape[level].saturating_sub(1);
        let choice = (word[level] as u128).min(last);
        list.push(choice as u32)?;
    }
    Ok(list)
}

/// The side of a union to which a word leads, by its first choice.
fn union_side(
    alloc: Global,
    exprs: &[Expr],
    sizes: &[Size],
    expr: u32,
    left: u32,
    right: u32,
    word: &[u32],
) -> Result<Side, AllocError>
    requires valid { AreValidExprs exprs.now }
    requires sizes { sizes.now ≡ capped_sizes exprs.now }
    requires union { slice_get exprs.now expr ≡ Some (Expr.Union left right) }
    requires long { length word.now ≡ (size_of exprs.now expr).qubits }
    ensures enters { IfOk result (λ side.
        Enters exprs.now expr word.now side.before side.expr side.word.items) }
    ensures earlier { IfOk result (λ side. side.expr < expr) }
{
    let l = &sizes[left as usize];
    let r = &sizes[right as usize];
    let first = l.shape.as_slice()[0];
    let choice = word[0];
    if (choice as u128) < first {
        let low = side_word(alloc, choice, l.shape.as_slice(), word)?;
        return Ok(Side {
            before: 0,
            expr: left,
            word: low,
        });
    }
    let high = side_word(alloc, choice - first as u32, r.shape.as_slice(), word)?;
    Ok(Side {
        before: l.count,
        expr: right,
        word: high,
    })
}

/// The digits of a word as a binary number, told up to 2^64.
fn number(word: &[u32]) -> u128
    ensures { result ≡ capped (number_of word.now) }
{
    let mut number = 0;
    for digit in word {
        number = capped_sum(capped_product(2, number), *digit as u128);
    }
    number
}

/// The side of an expression to which a word leads, where it is a union. A power of one time is a union of its base
/// alone.
fn side_of(
    alloc: Global,
    exprs: &[Expr],
    sizes: &[Size],
    expr: u32,
    word: &[u32],
) -> Result<Option<Side>, AllocError>
    requires valid { AreValidExprs exprs.now }
    requires sizes { sizes.now ≡ capped_sizes exprs.now }
    requires there { expr < length exprs.now }
    requires long { length word.now ≡ (size_of exprs.now expr).qubits }
    ensures enters { IfOk result (λ found. IfSome found (λ side.
        Enters exprs.now expr word.now side.before side.expr side.word.items)) }
    ensures earlier { IfOk result (λ found. IfSome found (λ side. side.expr < expr)) }
    ensures none { IfOk result (λ found. IfNone found (IsNoUnion exprs.now expr)) }
{
    match &exprs[expr as usize] {
        Expr::Union { left, right } => {
            let side = union_side(alloc, exprs, sizes, expr, *left, *right, word)?;
            Ok(Some(side))
        }
        Expr::Power { base, times } if *times == 1 => {
            let same = Vec::from_slice(alloc, word)?;
            Ok(Some(Side {
                before: 0,
                expr: *base,
                word: same,
            }))
        }
        _ => Ok(None),
    }
}

/// The expression to which a word leads through one union after the other, and which is none.
fn enter(
    alloc: Global,
    exprs: &[Expr],
    sizes: &[Size],
    expr: u32,
    word: &[u32],
) -> Result<Side, AllocError>
    requires valid { AreValidExprs exprs.now }
    requires sizes { sizes.now ≡ capped_sizes exprs.now }
    requires there { expr < length exprs.now }
    requires long { length word.now ≡ (size_of exprs.now expr).qubits }
    ensures enters { IfOk result (λ side.
        Enters exprs.now expr word.now side.before side.expr side.word.items) }
    ensures whole { IfOk result (λ side. IsNoUnion exprs.now side.expr) }
{
    let copy = Vec::from_slice(alloc, word)?;
    let mut side = Side {
        before: 0,
        expr,
        word: copy,
    };
    loop {
        let found = side_of(alloc, exprs, sizes, side.expr, side.word.as_slice())?;
        let Some(next) = found else {
            return Ok(side);
        };
        side = Side {
            before: capped_sum(side.before, next.before),
            expr: next.expr,
            word: next.word,
        };
    }
}

/// The place to which a word of an expression leads, told up to 2^64.
#[cycle(place)]
fn place_at(
    alloc: Global,
    exprs: &[Expr],
    sizes: &[Size],
    expr: u32,
    word: &[u32],
) -> Result<u128, AllocError>
    requires valid { AreValidExprs exprs.now }
    requires sizes { sizes.now ≡ capped_sizes exprs.now }
    requires there { expr < length exprs.now }
    requires long { length word.now ≡ (size_of exprs.now expr).qubits }
    ensures told { IfOk result (λ told. told ≡ capped (place exprs.now expr word.now)) }
{
    let side = enter(alloc, exprs, sizes, expr, word)?;
    let behind = place_whole(alloc, exprs, sizes, side.expr, side.word.as_slice())?;
    Ok(capped_sum(side.before, behind))
}

/// The same of an expression that is no union.
#[cycle(place)]
fn place_whole(
    alloc: Global,
    exprs: &[Expr],
    sizes: &[Size],
    expr: u32,
    word: &[u32],
) -> Result<u128, AllocError>
    requires valid { AreValidExprs exprs.now }
    requires sizes { sizes.now ≡ capped_sizes exprs.now }
    requires there { expr < length exprs.now }
    requires long { length word.now ≡ (size_of exprs.now expr).qubits }
    requires whole { IsNoUnion exprs.now expr }
    ensures told { IfOk result (λ told. told ≡ capped (place exprs.now expr word.now)) }
{
    match &exprs[expr as usize] {
        Expr::Kets { .. } => Ok(0),
        Expr::All { .. } => Ok(number(word)),
        Expr::Tensor { left, right } => {
            place_tensor(alloc, exprs, sizes, expr, *left, *right, word)
        }
        Expr::Union { .. } => Ok(0),
        Expr::Power { base, times } => {
            place_power(alloc, exprs, sizes, expr, *base, *times, word)
        }
    }
}

/// The same of a tensor product: one left vector is as many places as there are right ones.
#[cycle(place)]
fn place_tensor(
    alloc: Global,
    exprs: &[Expr],
    sizes: &[Size],
    expr: u32,
    left: u32,
    right: u32,
    word: &[u32],
) -> Result<u128, AllocError>
    requires valid { AreValidExprs exprs.now }
    requires sizes { sizes.now ≡ capped_sizes exprs.now }
    requires tensor { slice_get exprs.now expr ≡ Some (Expr.Tensor left right) }
    requires long { length word.now ≡ (size_of exprs.now expr).qubits }
    ensures told { IfOk result (λ told. told ≡ capped (place exprs.now expr word.now)) }
{
    let front = &sizes[left as usize];
    let behind = &sizes[right as usize];
    let seam = front.qubits as usize;
    let high = place_at(alloc, exprs, sizes, left, &word[..seam])?;
    let low = place_at(alloc, exprs, sizes, right, &word[seam..])?;
    Ok(capped_sum(capped_product(high, behind.count), low))
}

/// The same of a power: a place is a number whose digits are the places of the factors.
#[cycle(place)]
fn place_power(
    alloc: Global,
    exprs: &[Expr],
    sizes: &[Size],
    expr: u32,
    base: u32,
    times: u32,
    word: &[u32],
) -> Result<u128, AllocError>
    requires valid { AreValidExprs exprs.now }
    requires sizes { sizes.now ≡ capped_sizes exprs.now }
    requires power { slice_get exprs.now expr ≡ Some (Expr.Power base times) }
    requires long { length word.now ≡ (size_of exprs.now expr).qubits }
    ensures told { IfOk result (λ told. told ≡ capped (place exprs.now expr word.now)) }
{
    let factor = &sizes[base as usize];
    let width = factor.qubits as usize;
    let mut whole = 0;
    let mut start = 0;
    for done in 0..times {
        let digit = place_at(alloc, exprs, sizes, base, &word[start..start + width])?;
        whole = capped_sum(capped_product(whole, factor.count), digit);
        start += width;
    }
    Ok(whole)
}

/// The place in an expression's list of vectors to which a word of its shape leads. The list is not made. A place from
/// 2^64 on, which only an expression of more vectors has, is told as 2^64. The sizes are those that `sizes_of` gives.
/// Fails only for want of memory.
pub fn place_of_word(
    alloc: Global,
    sets: &Sets,
    sizes: &[Size],
    expr: u32,
    word: &[u32],
) -> Result<u128, AllocError>
    requires valid { IsValidSets sets.now }
    requires sizes { sizes.now ≡ capped_sizes sets.now.exprs }
    requires there { expr < length sets.now.exprs }
    requires word { IsWord (size_of sets.now.exprs expr).shape word.now }
    ensures told { IfOk result (λ told. told ≡ capped (place sets.now.exprs expr word.now)) }
    ensures exact { (size_of sets.now.exprs expr).count ≤ most_told
        → IfOk result (λ exact. exact ≡ place sets.now.exprs expr word.now) }
{
    place_at(alloc, sets.exprs.as_slice(), sizes, expr, word)
}
