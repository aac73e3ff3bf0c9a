//! How large the expressions of a set file are: numbers without a width, told up to a limit.
ghost use Rattle.std.specs.Prelude.{
  ◌≡◌,
  ℕ,
  ◌+◌,
  ◌*◌,
  ◌^◌,
  ◌<◌,
  ◌≤◌,
  ◌++◌,
  ◌∷◌,
  [],
  IfOk,
  length,
  map,
  max,
  replicate,
  slice_get,
  slice_index,
  Some,
  take,
};
ghost use Rattle.std.specs.List.{repeat};
ghost use Rattle.aq_sets.specs.Sizes.{larger, united_shape, words, size_of};
ghost use Rattle.aq_sets.specs.Valid.{IsValidSets, IsValidExpr};
ghost use Rattle.aq_sets.specs.Caps.{most_told, capped, capped_size, capped_sizes};
ghost use Rattle.aq_sets.specs.ValidExprs.{AreValidExprs};

use crate::sets::{Expr, Sets};
use sqlite_items::Items;
use std::alloc::{AllocError, Global};

/// The largest number that is told: 2^64.
const MOST_TOLD: u128 = 1 << 64;

/// How large an expression is. A number above 2^64 is told as 2^64.
#[derive(Debug, Drop)]
pub struct Size {
    /// The number of qubits, 1 to 16.
    pub qubits: u32,
    /// How many vectors the expression lists.
    pub count: u128,
    /// For each qubit its number of choices.
    pub shape: Items<u128>,
    /// The number of nodes with names written out. A term is a node, and a power of k is k nodes.
    pub nodes: u128,
}

impl Size {
    /// How many words the shape has, one choice for each qubit, up to 2^64.
    pub fn words(&self) -> u128
        ensures { result ≡ capped (words self.now.shape) }
    {
        words_of(self.shape.as_slice())
    }
}

fn words_of(shape: &[u128]) -> u128
    ensures { result ≡ capped (words shape.now) }
{
    let mut product = 1;
    for number in shape {
        product = capped_product(product, *number);
    }
    product
}

/// The size of each expression, in order. Fails only for want of memory.
pub fn sizes_of(alloc: Global, sets: &Sets) -> Result<Items<Size>, AllocError>
    requires { IsValidSets sets.now }
    ensures { IfOk result (λ list. list ≡ capped_sizes sets.now.exprs) }
{
    expr_sizes(alloc, sets.exprs.as_slice())
}

/// The size of each of a list of valid expressions, in order. Fails only for want of memory.
pub fn expr_sizes(alloc: Global, exprs: &[Expr]) -> Result<Items<Size>, AllocError>
    requires { AreValidExprs exprs.now }
    ensures { IfOk result (λ list. list ≡ capped_sizes exprs.now) }
{
    let mut list = Items::new(alloc);
    for i in 0..exprs.len() {
        let size = size_at(alloc, exprs, list.as_slice(), i)?;
        list.push(size)?;
    }
    Ok(list)
}

/// The size of the expression at a position, from the sizes of those before it.
fn size_at(alloc: Global, exprs: &[Expr], done: &[Size], i: usize) -> Result<Size, AllocError>
    requires valid { AreValidExprs exprs.now }
    requires within { i < length exprs.now }
    requires done { done.now ≡ capped_sizes (take i exprs.now) }
    ensures { IfOk result (λ size. size ≡ capped_size (size_of exprs.now i)) }
{
    match &exprs[i] {
        Expr::Kets { qubits, terms } => bracket_size(alloc, *qubits, terms.len()),
        Expr::All { qubits } => basis_size(alloc, *qubits),
        Expr::Tensor { left, right } => {
            tensor_size(alloc, &done[*left as usize], &done[*right as usize])
        }
        Expr::Union { left, right } => {
            union_size(alloc, &done[*left as usize], &done[*right as usize])
        }
        Expr::Power { base, times } => power_size(alloc, &done[*base as usize], *times),
    }
}

fn bracket_size(alloc: Global, qubits: u32, terms: usize) -> Result<Size, AllocError>
    ensures { IfOk result (λ size. size ≡ record {
      qubits = qubits;
      count = 1;
      shape = replicate qubits 1;
      nodes =
          capped (1 + terms);
    }) }
{
    let shape = Vec::from_elem(alloc, 1u128, qubits as usize)?;
    Ok(Size {
        qubits,
        count: 1,
        shape: Items::from_vec(shape),
        nodes: capped_sum(1, terms as u128),
    })
}

fn basis_size(alloc: Global, qubits: u32) -> Result<Size, AllocError>
    requires { qubits ≤ 16 }
    ensures { IfOk result (λ size. size ≡ record {
      qubits = qubits;
      count = 2 ^ qubits;
      shape = replicate qubits 2;
      nodes = 1;
    }) }
{
    let shape = Vec::from_elem(alloc, 2u128, qubits as usize)?;
    Ok(Size {
        qubits,
        count: 1u128 << qubits,
        shape: Items::from_vec(shape),
        nodes: 1,
    })
}

fn tensor_size(alloc: Global, left: &Size, right: &Size) -> Result<Size, AllocError>
    requires { left.now.qubits + right.now.qubits ≤ 16 }
    ensures { IfOk result (λ size. size ≡ record {
      qubits = left.now.qubits + right.now.qubits;
      count = capped (left.now.count * right.now.count);
      shape = left.now.shape ++ right.now.shape;
      nodes = capped (1 + capped (left.now.nodes + right.now.nodes));
    }) }
{
    let mut shape = Vec::from_slice(alloc, left.shape.as_slice())?;
    shape.extend_from_slice(right.shape.as_slice())?;
    Ok(Size {
        qubits: left.qubits + right.qubits,
        count: capped_product(left.count, right.count),
        shape: Items::from_vec(shape),
        nodes: capped_sum(1, capped_sum(left.nodes, right.nodes)),
    })
}

fn union_size(alloc: Global, left: &Size, right: &Size) -> Result<Size, AllocError>
    requires { length left.now.shape ≡ length right.now.shape }
    ensures { IfOk result (λ size. size ≡ record {
      qubits = left.now.qubits;
      count = capped (left.now.count + right.now.count);
      shape = map capped (united_shape left.now.shape right.now.shape);
      nodes = capped (1 + capped (left.now.nodes + right.now.nodes));
    }) }
{
    let shape = united(alloc, left.shape.as_slice(), right.shape.as_slice())?;
    Ok(Size {
        qubits: left.qubits,
        count: capped_sum(left.count, right.count),
        shape,
        nodes: capped_sum(1, capped_sum(left.nodes, right.nodes)),
    })
}

fn power_size(alloc: Global, base: &Size, times: u32) -> Result<Size, AllocError>
    requires { base.now.qubits * times ≤ 16 }
    ensures { IfOk result (λ size. size ≡ record {
      qubits = base.now.qubits * times;
      count = capped (base.now.count ^ times);
      shape = repeat times base.now.shape;
      nodes = capped (times + base.now.nodes);
    }) }
{
    let shape = repeated(alloc, base.shape.as_slice(), times)?;
    Ok(Size {
        qubits: base.qubits * times,
        count: capped_power(base.count, times),
        shape,
        nodes: capped_sum(times as u128, base.nodes),
    })
}

/// The choices of a union: at the first qubit those of both sides, and below the larger number.
fn united(alloc: Global, left: &[u128], right: &[u128]) -> Result<Items<u128>, AllocError>
    requires { length left.now ≡ length right.now }
    ensures { IfOk result (λ shape. shape ≡ map capped (united_shape left.now right.now)) }
{
    let mut shape = Items::new(alloc);
    for i in 0..left.len() {
        shape.push(united_at(left, right, i))?;
    }
    Ok(shape)
}

fn united_at(left: &[u128], right: &[u128], i: usize) -> u128
    requires same { length left.now ≡ length right.now }
    requires within { i < length left.now }
    ensures { result ≡ capped (slice_index (united_shape left.now right.now) i) }
{
    if i == 0 {
        capped_sum(left[0], right[0])
    } else {
        left[i].max(right[i]).min(MOST_TOLD)
    }
}

/// The list so many times, end to end.
fn repeated(alloc: Global, list: &[u128], times: u32) -> Result<Items<u128>, AllocError>
    ensures { IfOk result (λ whole. whole ≡ repeat times list.now) }
{
    let mut whole = Vec::new(alloc);
    for i in 0..times {
        whole.extend_from_slice(list)?;
    }
    Ok(Items::from_vec(whole))
}

/// The sum of two numbers, told up to 2^64.
pub fn capped_sum(left: u128, right: u128) -> u128
    ensures { result ≡ capped (left + right) }
{
    left.saturating_add(right).min(MOST_TOLD)
}

/// The product of two numbers, told up to 2^64.
pub fn capped_product(left: u128, right: u128) -> u128
    ensures { result ≡ capped (left * right) }
{
    left.saturating_mul(right).min(MOST_TOLD)
}

fn capped_power(base: u128, times: u32) -> u128
    ensures { result ≡ capped (base ^ times) }
{
    let mut power = 1;
    for i in 0..times {
        power = capped_product(power, base);
    }
    power
}
