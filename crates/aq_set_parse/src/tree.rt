use aq_lex::{Place, Text};
use sqlite_items::Items;

/// A name or a ket as it is written, and where it stands.
#[derive(Debug, Drop)]
pub struct SetWord {
    pub text: Text,
    pub at: Place,
}

/// A number, which `minus` negates.
#[derive(Clone, Copy, Debug, PartialEq, Eq)]
pub struct SetInt {
    pub minus: bool,
    pub number: u128,
}

/// A power of `w` with its exponent, which is 1 where it is not written, or `i`.
#[derive(Clone, Copy, Debug, PartialEq, Eq)]
pub enum SetTurn {
    Omega(u128),
    Imaginary,
}

/// What stands before the division in a coefficient.
#[derive(Clone, Copy, Debug, PartialEq, Eq)]
pub enum SetScalar {
    Number(u128),
    /// `times` is 1 where it is not written.
    Turned {
        times: u128,
        turn: SetTurn,
    },
    /// `(a, b, c, d)`
    Quadruple {
        a: SetInt,
        b: SetInt,
        c: SetInt,
        d: SetInt,
    },
}

/// A coefficient: a scalar, which is divided `roots` times by the square root of 2.
#[derive(Clone, Copy, Debug, PartialEq, Eq)]
pub struct SetCoef {
    pub scalar: SetScalar,
    pub roots: u128,
}

/// A term of a bracket. It stands at its first token, behind its sign; `minus` negates it.
#[derive(Debug, Drop)]
pub struct SetTerm {
    pub minus: bool,
    pub at: Place,
    pub coef: Option<SetCoef>,
    pub ket: SetWord,
}

/// How often a set is multiplied with itself. It stands at its `^`.
#[derive(Clone, Copy, Debug, PartialEq, Eq)]
pub struct SetPower {
    pub at: Place,
    pub number: u128,
}

/// An expression. A union and a tensor product have at least one operand each.
#[cycle(set_tree)]
#[derive(Debug, Drop)]
pub enum SetExpr {
    /// One vector, by its terms, of which there is at least one. It stands at its `[`.
    Bracket { at: Place, terms: Items<SetTerm> },
    /// All basis states. It stands at its `all`.
    All { at: Place, number: u128 },
    /// A set by its name.
    Name(SetWord),
    Tensor(Items<SetFactor>),
    Union(Items<SetPart>),
}

/// An operand of a tensor product. It stands at the `*` before it, and the first one at its first token.
#[cycle(set_tree)]
#[derive(Debug, Drop)]
pub struct SetFactor {
    pub at: Place,
    pub expr: SetExpr,
    pub power: Option<SetPower>,
}

/// An operand of a union. It stands at the `union` before it, and the first one at its first token.
#[cycle(set_tree)]
#[derive(Debug, Drop)]
pub struct SetPart {
    pub at: Place,
    pub expr: SetExpr,
}

/// What a bit, or a bit of a register by its number, is to be.
#[derive(Debug, Drop)]
pub struct SetCond {
    pub name: SetWord,
    pub index: Option<u128>,
    pub value: bool,
}

/// A case of a claim: an expression, and the conditions under which it counts. It stands at its first token.
#[derive(Debug, Drop)]
pub struct SetCase {
    pub at: Place,
    pub expr: SetExpr,
    pub when: Items<SetCond>,
}

/// An item of a set file.
#[derive(Debug, Drop)]
pub enum SetItem {
    Set {
        name: SetWord,
        expr: SetExpr,
    },
    /// A claim has at least one case.
    Claim {
        name: SetWord,
        cases: Items<SetCase>,
    },
}

/// A set file: its items in the order of the text.
#[derive(Debug, Drop)]
pub struct SetTree {
    pub items: Items<SetItem>,
}
