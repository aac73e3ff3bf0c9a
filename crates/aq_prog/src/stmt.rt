use crate::gate::Gate;
use sqlite_items::Items;

/// A bit and the value that it is compared with.
#[derive(Clone, Copy, Debug, PartialEq, Eq)]
pub struct Guard {
    pub bit: u32,
    pub value: bool,
}

/// A statement. Qubits, bits and claims go by their numbers, from 0.
#[derive(Debug, Drop)]
pub enum Stmt {
    Gate(Gate),
    /// Measures the qubit, and stores the outcome where a bit is named.
    Measure {
        qubit: u32,
        bit: Option<u32>,
    },
    /// Measures the qubit, and flips it where the outcome was 1.
    Reset {
        qubit: u32,
    },
    If {
        guard: Guard,
        yes: Items<Stmt>,
        no: Items<Stmt>,
    },
    /// `line` is that of the word `while`.
    While {
        guard: Guard,
        claim: u32,
        body: Items<Stmt>,
        line: u32,
    },
    /// `line` is that of the annotation.
    Assert {
        claim: u32,
        line: u32,
    },
    /// Ends the run without an end where the guard is false. No program text has it; obligations do.
    Assume {
        guard: Guard,
    },
}
