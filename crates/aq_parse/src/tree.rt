use aq_lex::{Place, Text};
use sqlite_items::Items;

/// A name, and where it stands.
#[derive(Debug, Drop)]
pub struct Word {
    pub text: Text,
    pub at: Place,
}

/// A note before a statement: its name, which stands at its `@`, and what follows the name.
#[derive(Debug, Drop)]
pub struct Note {
    pub name: Word,
    pub rest: Text,
}

/// A register, or one of its parts by number.
#[derive(Debug, Drop)]
pub struct Spot {
    pub name: Word,
    pub index: Option<u32>,
}

/// An angle as it is written: `times`, or `times * pi / over` where `pi` is set; `minus` negates it. `times` and
/// `over` are 1 where they are not written. It stands at its first token.
#[derive(Clone, Copy, Debug, PartialEq, Eq)]
pub struct Angle {
    pub at: Place,
    pub minus: bool,
    pub times: u32,
    pub pi: bool,
    pub over: u32,
}

/// A test of a bit: that it has the value.
#[derive(Debug, Drop)]
pub struct Test {
    pub spot: Spot,
    pub value: bool,
}

/// What a statement is.
#[cycle(tree)]
#[derive(Debug, Drop)]
pub enum Node {
    /// The library of gates.
    Include,
    /// `qubit` or `qreg`. Without a size it is a single qubit.
    Qubits {
        name: Word,
        size: Option<u32>,
    },
    /// `bit` or `creg`, and what a `bit` is measured from.
    Bits {
        name: Word,
        size: Option<u32>,
        from: Option<Spot>,
    },
    /// A measurement, and the bit that it goes to. `into_first` is set where the bit is written first, as in
    /// `c = measure q;`.
    Measure {
        from: Spot,
        into: Option<Spot>,
        into_first: bool,
    },
    Reset(Spot),
    /// A barrier, which may have no spots.
    Barrier(Items<Spot>),
    /// A gate on one spot or more.
    Call {
        name: Word,
        angle: Option<Angle>,
        spots: Items<Spot>,
    },
    /// `no` is empty where there is no `else`.
    If {
        test: Test,
        yes: Items<Item>,
        no: Items<Item>,
    },
    While {
        test: Test,
        body: Items<Item>,
    },
}

/// A statement with its notes. It stands at its first token after them.
#[cycle(tree)]
#[derive(Debug, Drop)]
pub struct Item {
    pub notes: Items<Note>,
    pub at: Place,
    pub node: Node,
}

/// A program: its statements, and where its text ends.
#[derive(Debug, Drop)]
pub struct Tree {
    pub items: Items<Item>,
    pub end: Place,
}
