use crate::kind::Kind;
use aq_prog::{Guard, Stmt};
use sqlite_items::Items;

/// A case of a claim, with its bits looked up: the position of its expression, and the conditions under which it
/// counts.
#[derive(Debug, Drop)]
pub struct BoundCase {
    pub set: u32,
    pub when: Items<Guard>,
}

/// What an obligation ends in: the cases that it allows there, and at what it ends. `line` is that of the assertion
/// or the loop, and 0 at the program's end.
#[derive(Debug, Drop)]
pub struct Goal {
    pub kind: Kind,
    pub line: u32,
    pub cases: Items<BoundCase>,
}

/// From each state of the cases `from`, every run of the fragment is to end in a state of the goal. `start` says that
/// all bits are 0 at the beginning, and `given` what is known of a bit there besides. The fragment has no assertion
/// and no loop.
#[derive(Debug, Drop)]
pub struct Obligation {
    pub start: bool,
    pub from: Items<BoundCase>,
    pub given: Option<Guard>,
    pub fragment: Items<Stmt>,
    pub goal: Goal,
}
