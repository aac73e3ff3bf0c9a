//! Automata of expressions.
ghost use Rattle.std.specs.Prelude.{◌≡◌, ℕ, ◌+◌, ◌*◌, ◌<◌, ◌≤◌, ◌≢◌, ◌∷◌, [], length, slice_get, Some, IfOk, IfErr, OnOk};
ghost use Rattle.aq_store.specs.Nodes.{total_cost};
ghost use Rattle.aq_sets.specs.Sizes.{size_of};
ghost use Rattle.aq_sets.specs.Valid.{IsValidSets};
ghost use Rattle.aq_sets.specs.ValidExprs.{AreValidExprs};
ghost use Rattle.aq_sets.specs.Vectors.{products_of};
ghost use Rattle.aq_set_build.specs.Budgets.{build_budget, new_budget, parts_budget};
ghost use Rattle.aq_set_build.specs.Built.{built_at, IsBuildMemo};
ghost use Rattle.aq_set_build.specs.Growth.{Grows, StopsFor};
ghost use Rattle.aq_set_build.specs.Listing.{IsMade};
ghost use Rattle.aq_set_build.specs.Products.{IsWideAmong};
ghost use Rattle.aq_set_build.specs.Unions.{IsOpening, AreMade, nodes_all};

use crate::basis::all;
use crate::bracket::kets;
use crate::built::Built;
use crate::powers::power;
use crate::tensors::tensor;
use crate::unions::{count, parts_of, push_all};
use aq_measure_ops::union_of;
use aq_ring::Amp;
use aq_sets::{Expr, Sets, Term};
use aq_store::{Lsta, Steps, Stop, Store};
use std::alloc::Global;

/// The automaton of a bracket.
fn build_kets(
    alloc: Global,
    store: &mut Store<Amp>,
    exprs: &[Expr],
    expr: u32,
    qubits: u32,
    terms: &[Term],
    steps: &mut Steps,
) -> Result<Lsta, Stop<Amp>>
    requires valid { AreValidExprs exprs.now }
    requires kets { slice_get exprs.now expr ≡ Some (Expr.Kets qubits terms.now) }
    requires paid { total_cost store.old ≤ steps.old.taken }
    ensures made { IfOk result (IsMade exprs.now expr store.new) }
    ensures grows { Grows (new_budget exprs.now expr) store.old store.new steps.old steps.new }
    ensures stops { let cause = IsWideAmong (products_of exprs.now expr) in
        IfErr result (StopsFor cause (new_budget exprs.now expr) steps.old steps.new) }
{
    let made = kets(alloc, store, qubits, terms, steps)?;
    Ok(made)
}

/// The automaton of a basis.
fn build_all(
    alloc: Global,
    store: &mut Store<Amp>,
    exprs: &[Expr],
    expr: u32,
    qubits: u32,
    steps: &mut Steps,
) -> Result<Lsta, Stop<Amp>>
    requires valid { AreValidExprs exprs.now }
    requires all { slice_get exprs.now expr ≡ Some (Expr.All qubits) }
    requires paid { total_cost store.old ≤ steps.old.taken }
    ensures made { IfOk result (IsMade exprs.now expr store.new) }
    ensures grows { Grows (new_budget exprs.now expr) store.old store.new steps.old steps.new }
    ensures stops { let cause = IsWideAmong (products_of exprs.now expr) in
        IfErr result (StopsFor cause (new_budget exprs.now expr) steps.old steps.new) }
{
    let made = all(alloc, store, qubits, steps)?;
    Ok(made)
}

/// The automaton of an expression. The memo has what was made before, and an entry more takes a step.
#[cycle(build)]
fn build_at(
    alloc: Global,
    store: &mut Store<Amp>,
    exprs: &[Expr],
    memo: &mut Built,
    expr: u32,
    steps: &mut Steps,
) -> Result<Lsta, Stop<Amp>>
    requires valid { AreValidExprs exprs.now }
    requires there { expr < length exprs.now }
    requires memo { IsBuildMemo exprs.now store.old (built_at memo.old) }
    requires paid { total_cost store.old ≤ steps.old.taken }
    ensures made { IfOk result (IsMade exprs.now expr store.new) }
    ensures memo { OnOk result (IsBuildMemo exprs.now store.new (built_at memo.new)) }
    ensures grows { Grows (build_budget exprs.now expr) store.old store.new steps.old steps.new }
    ensures stops { let cause = IsWideAmong (products_of exprs.now expr) in
        IfErr result (StopsFor cause (build_budget exprs.now expr) steps.old steps.new) }
{
    let before = memo.get(alloc, expr)?;
    if let Some(made) = before {
        return Ok(made);
    }
    let made = build_new(alloc, store, exprs, memo, expr, steps)?;
    count(steps)?;
    memo.put(alloc, expr, &made)?;
    Ok(made)
}

/// The same of an expression that the memo hasn't yet.
#[cycle(build)]
fn build_new(
    alloc: Global,
    store: &mut Store<Amp>,
    exprs: &[Expr],
    memo: &mut Built,
    expr: u32,
    steps: &mut Steps,
) -> Result<Lsta, Stop<Amp>>
    requires valid { AreValidExprs exprs.now }
    requires there { expr < length exprs.now }
    requires memo { IsBuildMemo exprs.now store.old (built_at memo.old) }
    requires paid { total_cost store.old ≤ steps.old.taken }
    ensures made { IfOk result (IsMade exprs.now expr store.new) }
    ensures memo { OnOk result (IsBuildMemo exprs.now store.new (built_at memo.new)) }
    ensures grows { Grows (new_budget exprs.now expr) store.old store.new steps.old steps.new }
    ensures stops { let cause = IsWideAmong (products_of exprs.now expr) in
        IfErr result (StopsFor cause (new_budget exprs.now expr) steps.old steps.new) }
{
    match &exprs[expr as usize] {
        Expr::Kets { qubits, terms } => {
            let terms = terms.as_slice();
            let bracket = build_kets(alloc, store, exprs, expr, *qubits, terms, steps)?;
            Ok(bracket)
        }
        Expr::All { qubits } => {
            let basis = build_all(alloc, store, exprs, expr, *qubits, steps)?;
            Ok(basis)
        }
        Expr::Tensor { left, right } => {
            let product = build_tensor(alloc, store, exprs, memo, expr, *left, *right, steps)?;
            Ok(product)
        }
        Expr::Union { left, right } => {
            let mut sides = Vec::new(alloc);
            push_all(&mut sides, &[*right, *left])?;
            let union = build_union(alloc, store, exprs, memo, expr, sides, steps)?;
            Ok(union)
        }
        Expr::Power { base, times } => {
            if *times == 1 {
                let mut sides = Vec::new(alloc);
                push_all(&mut sides, &[*base])?;
                let same = build_union(alloc, store, exprs, memo, expr, sides, steps)?;
                return Ok(same);
            }
            let power = build_power(alloc, store, exprs, memo, expr, *base, *times, steps)?;
            Ok(power)
        }
    }
}

/// The automaton of a tensor product.
#[cycle(build)]
fn build_tensor(
    alloc: Global,
    store: &mut Store<Amp>,
    exprs: &[Expr],
    memo: &mut Built,
    expr: u32,
    left: u32,
    right: u32,
    steps: &mut Steps,
) -> Result<Lsta, Stop<Amp>>
    requires valid { AreValidExprs exprs.now }
    requires there { expr < length exprs.now }
    requires memo { IsBuildMemo exprs.now store.old (built_at memo.old) }
    requires paid { total_cost store.old ≤ steps.old.taken }
    requires tensor { slice_get exprs.now expr ≡ Some (Expr.Tensor left right) }
    ensures made { IfOk result (IsMade exprs.now expr store.new) }
    ensures memo { OnOk result (IsBuildMemo exprs.now store.new (built_at memo.new)) }
    ensures grows { Grows (new_budget exprs.now expr) store.old store.new steps.old steps.new }
    ensures stops { let cause = IsWideAmong (products_of exprs.now expr) in
        IfErr result (StopsFor cause (new_budget exprs.now expr) steps.old steps.new) }
{
    let first = build_at(alloc, store, exprs, memo, left, steps)?;
    let second = build_at(alloc, store, exprs, memo, right, steps)?;
    let made = tensor(alloc, store, &first, &second, steps)?;
    Ok(made)
}

/// The automaton of a power of at least two times.
#[cycle(build)]
fn build_power(
    alloc: Global,
    store: &mut Store<Amp>,
    exprs: &[Expr],
    memo: &mut Built,
    expr: u32,
    base: u32,
    times: u32,
    steps: &mut Steps,
) -> Result<Lsta, Stop<Amp>>
    requires valid { AreValidExprs exprs.now }
    requires there { expr < length exprs.now }
    requires memo { IsBuildMemo exprs.now store.old (built_at memo.old) }
    requires paid { total_cost store.old ≤ steps.old.taken }
    requires power { slice_get exprs.now expr ≡ Some (Expr.Power base times) }
    requires some { times ≢ 1 }
    ensures made { IfOk result (IsMade exprs.now expr store.new) }
    ensures memo { OnOk result (IsBuildMemo exprs.now store.new (built_at memo.new)) }
    ensures grows { Grows (new_budget exprs.now expr) store.old store.new steps.old steps.new }
    ensures stops { let cause = IsWideAmong (products_of exprs.now expr) in
        IfErr result (StopsFor cause (new_budget exprs.now expr) steps.old steps.new) }
{
    let factor = build_at(alloc, store, exprs, memo, base, steps)?;
    let made = power(alloc, store, &factor, times, steps)?;
    Ok(made)
}

/// The automaton of the union of the sides, of which the last comes first, made at once of all its parts.
#[cycle(build)]
fn build_union(
    alloc: Global,
    store: &mut Store<Amp>,
    exprs: &[Expr],
    memo: &mut Built,
    expr: u32,
    sides: Vec<u32>,
    steps: &mut Steps,
) -> Result<Lsta, Stop<Amp>>
    requires valid { AreValidExprs exprs.now }
    requires there { expr < length exprs.now }
    requires memo { IsBuildMemo exprs.now store.old (built_at memo.old) }
    requires paid { total_cost store.old ≤ steps.old.taken }
    requires union { IsOpening exprs.now expr [] sides.items }
    requires fewer { nodes_all exprs.now sides.items < (size_of exprs.now expr).nodes }
    ensures made { IfOk result (IsMade exprs.now expr store.new) }
    ensures memo { OnOk result (IsBuildMemo exprs.now store.new (built_at memo.new)) }
    ensures grows { Grows (new_budget exprs.now expr) store.old store.new steps.old steps.new }
    ensures stops { let cause = IsWideAmong (products_of exprs.now expr) in
        IfErr result (StopsFor cause (new_budget exprs.now expr) steps.old steps.new) }
{
    let parts = parts_of(alloc, exprs, sides, steps)?;
    let numbers = parts.as_slice();
    let list = build_parts(alloc, store, exprs, memo, expr, numbers, steps)?;
    let automata = list.as_slice();
    let made = union_of(alloc, store, automata, steps)?;
    Ok(made)
}

/// The automata of the parts of an expression.
#[cycle(build)]
fn build_parts(
    alloc: Global,
    store: &mut Store<Amp>,
    exprs: &[Expr],
    memo: &mut Built,
    expr: u32,
    parts: &[u32],
    steps: &mut Steps,
) -> Result<Vec<Lsta>, Stop<Amp>>
    requires valid { AreValidExprs exprs.now }
    requires there { expr < length exprs.now }
    requires memo { IsBuildMemo exprs.now store.old (built_at memo.old) }
    requires paid { total_cost store.old ≤ steps.old.taken }
    requires union { IsOpening exprs.now expr parts.now [] }
    ensures made { IfOk result (λ list. AreMade exprs.now store.new parts.now list.items) }
    ensures memo { OnOk result (IsBuildMemo exprs.now store.new (built_at memo.new)) }
    ensures grows { let most = parts_budget exprs.now expr parts.now in
        Grows most store.old store.new steps.old steps.new }
    ensures stops { let cause = IsWideAmong (products_of exprs.now expr) in
        IfErr result (StopsFor cause (parts_budget exprs.now expr parts.now) steps.old steps.new) }
{
    let mut list = Vec::new(alloc);
    for part in parts {
        let made = build_at(alloc, store, exprs, memo, *part, steps)?;
        let Ok(()) = list.push(made) else {
            return Err(Stop::Memory);
        };
    }
    Ok(list)
}

/// The automaton of the expression at a position of a valid set file: its shape is the expression's, and each word of
/// it has the vector at the word's place in the expression's list. What is used twice is made once, and a union of many
/// at once. Nodes of the store keep their meaning, also where the call gives up.
///
/// The memo is of the expressions of this file, and many calls may share it, also while the store grows between them.
/// It stays so unless the call gives up.
///
/// `WideParts` has two entries of a tensor product or a power in the expression whose product doesn't fit, and `Ok`
/// comes only where each such product fits. `Spent` comes only where the steps that are left are fewer than the bound,
/// and `Memory` where there is none.
pub fn build_with(
    alloc: Global,
    store: &mut Store<Amp>,
    memo: &mut Built,
    sets: &Sets,
    expr: u32,
    steps: &mut Steps,
) -> Result<Lsta, Stop<Amp>>
    requires valid { IsValidSets sets.now }
    requires there { expr < length sets.now.exprs }
    requires memo { IsBuildMemo sets.now.exprs store.old (built_at memo.old) }
    requires paid { total_cost store.old ≤ steps.old.taken }
    ensures made { IfOk result (IsMade sets.now.exprs expr store.new) }
    ensures memo { OnOk result (IsBuildMemo sets.now.exprs store.new (built_at memo.new)) }
    ensures grows { Grows (build_budget sets.now.exprs expr) store.old store.new steps.old steps.new }
    ensures stops { let cause = IsWideAmong (products_of sets.now.exprs expr) in
        IfErr result (StopsFor cause (build_budget sets.now.exprs expr) steps.old steps.new) }
{
    let exprs = sets.exprs.as_slice();
    let made = build_at(alloc, store, exprs, memo, expr, steps)?;
    Ok(made)
}

/// The automaton of the expression at a position of a valid set file: its shape is the expression's, and each word of
/// it has the vector at the word's place in the expression's list. What is used twice is made once, and a union of many
/// at once. Nodes of the store keep their meaning, also where the call gives up.
///
/// `WideParts` has two entries of a tensor product or a power in the expression whose product doesn't fit, and `Ok`
/// comes only where each such product fits. `Spent` comes only where the steps that are left are fewer than the bound,
/// and `Memory` where there is none.
pub fn build(
    alloc: Global,
    store: &mut Store<Amp>,
    sets: &Sets,
    expr: u32,
    steps: &mut Steps,
) -> Result<Lsta, Stop<Amp>>
    requires valid { IsValidSets sets.now }
    requires there { expr < length sets.now.exprs }
    requires paid { total_cost store.old ≤ steps.old.taken }
    ensures made { IfOk result (IsMade sets.now.exprs expr store.new) }
    ensures grows { Grows (build_budget sets.now.exprs expr) store.old store.new steps.old steps.new }
    ensures stops { IfErr result (StopsFor (IsWideAmong (products_of sets.now.exprs expr)) (build_budget sets.now.exprs expr)
        steps.old steps.new) }
{
    let mut memo = Built::new(alloc);
    let made = build_with(alloc, store, &mut memo, sets, expr, steps)?;
    Ok(made)
}
