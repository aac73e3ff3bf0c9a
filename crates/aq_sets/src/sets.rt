//! Named sets of states and claims, by their meaning.

use aq_lex::Text;
use aq_ring::Amp;
use sqlite_items::Items;

/// An entry of a vector: the ket's digits as a binary number, and its amplitude.
#[derive(Clone, Copy, Debug, PartialEq, Eq)]
pub struct Term {
    pub index: u64,
    pub amp: Amp,
}

/// An expression, which stands for a list of vectors. Other expressions go by their positions, which are earlier.
#[derive(Debug, Drop)]
pub enum Expr {
    /// One vector: each term's amplitude at its index, and zero elsewhere.
    Kets { qubits: u32, terms: Items<Term> },
    /// All basis vectors, in the order of the index.
    All { qubits: u32 },
    /// Each product of a vector of the left and one of the right.
    Tensor { left: u32, right: u32 },
    /// The vectors of the left, and then those of the right.
    Union { left: u32, right: u32 },
    /// The tensor product of so many times the base.
    Power { base: u32, times: u32 },
}

/// A set: its name, and the position of its expression.
#[derive(Debug, Drop)]
pub struct NamedSet {
    pub name: Text,
    pub expr: u32,
}

/// A condition on a bit, or on a bit of a register by its number: the value that it is to have. The name isn't looked
/// up here.
#[derive(Debug, Drop)]
pub struct Cond {
    pub bit: Text,
    pub index: Option<u128>,
    pub value: bool,
}

/// A case of a claim: the position of its expression, and the conditions under which it counts.
#[derive(Debug, Drop)]
pub struct Case {
    pub set: u32,
    pub when: Items<Cond>,
}

/// A claim: its name and its cases, of which there is at least one.
#[derive(Debug, Drop)]
pub struct NamedClaim {
    pub name: Text,
    pub cases: Items<Case>,
}

/// What a set file says. The expressions stand in the order in which they are put together, inner ones before outer
/// ones and left ones before right ones.
#[derive(Debug, Drop)]
pub struct Sets {
    pub exprs: Items<Expr>,
    pub sets: Items<NamedSet>,
    pub claims: Items<NamedClaim>,
}
