//! Gates on one qubit with controls.
ghost use Rattle.std.specs.Prelude.{◌≡◌};

use sqlite_items::Items;

/// An entry of a gate's matrix: zero, or `w^turn / sqrt(2)^roots` with `w = exp(i*pi/4)`.
#[derive(Clone, Copy, Debug, PartialEq, Eq)]
pub enum Entry {
    Zero,
    Unit { turn: u8, roots: u8 },
}

/// A matrix, row by row.
#[derive(Clone, Copy, Debug, PartialEq, Eq)]
pub struct Matrix {
    pub rows: [[Entry; 2]; 2],
}

/// A gate on one qubit, the target, played where every control qubit is 1.
#[derive(Debug, Drop)]
pub struct Gate {
    pub controls: Items<u32>,
    pub target: u32,
    pub matrix: Matrix,
}

impl Gate {
    pub fn new(controls: Items<u32>, target: u32, rows: [[Entry; 2]; 2]) -> Gate
        ensures controls { result.controls ≡ controls }
        ensures target { result.target ≡ target }
        ensures rows { result.matrix.rows ≡ rows }
    {
        Gate {
            controls,
            target,
            matrix: Matrix { rows },
        }
    }
}
