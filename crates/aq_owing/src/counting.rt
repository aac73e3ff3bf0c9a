//! How many obligations statements have, and how many statements the fragments have together, without making them.
ghost use Rattle.std.specs.Prelude.{◌≡◌, ◌<◌, ◌+◌, ℕ, Some, length, slice_get};
ghost use Rattle.aq_sets.specs.Caps.{capped};
ghost use Rattle.aq_prog.specs.declared.stmt.Stmt.{Stmt as StmtValue};
ghost use Rattle.aq_obligations.specs.OwingCounts.{Total as ExactTotal, branch_total, number, numbers, total, totals};
ghost use Rattle.aq_owing.specs.Making.{IsTold, with_statements};

use crate::part::{Part, alone, part_of};
use aq_obligations::statements_in;
use aq_prog::Stmt;
use aq_sets::{capped_product, capped_sum};

/// The number of obligations of a statement and what is behind it, by that of what is behind it. Each is told up to
/// 2^64.
#[cycle(numbering)]
fn number(stmt: &Stmt, behind: u128) -> u128
    ensures { (b : ℕ) → behind ≡ capped b → result ≡ capped (number stmt.now b) }
{
    match part_of(stmt) {
        Part::Plain => behind,
        Part::Assertion { .. } => capped_sum(1, behind),
        Part::Loop { body, .. } => {
            let turn = numbers(body, 1);
            capped_sum(1, capped_sum(turn, behind))
        }
        Part::Branch { yes, no, .. } => {
            let first = numbers(yes, behind);
            let second = numbers(no, behind);
            capped_sum(first, second)
        }
    }
}

/// The number of obligations of statements and what is behind them, by that of what is behind them.
#[cycle(numbering)]
pub(crate) fn numbers(body: &[Stmt], behind: u128) -> u128
    ensures { (b : ℕ) → behind ≡ capped b → result ≡ capped (numbers body.now b) }
{
    let mut count = behind;
    let mut left = body.len();
    while left > 0 {
        left -= 1;
        count = number(&body[left], count);
    }
    count
}

/// The statements of all fragments behind a place: so many, and the statements before the place so many times. Each
/// is told up to 2^64.
#[derive(Clone, Copy)]
pub(crate) struct Counted {
    pub(crate) own: u128,
    pub(crate) times: u128,
}

/// With statements that go to the end of the fragment.
fn with_statements(body: &[Stmt], behind: Counted) -> Counted
    ensures { (b : ExactTotal) → IsTold behind b → IsTold result (with_statements body.now b) }
{
    let statements = statements_in(body);
    Counted {
        own: capped_sum(behind.own, capped_product(behind.times, statements)),
        times: behind.times,
    }
}

/// Two branches, each behind an assumption.
fn branches(first: Counted, second: Counted) -> Counted
    ensures { (a b : ExactTotal) → IsTold first a → IsTold second b → IsTold result (branch_total a b) }
{
    let own = capped_sum(first.own, first.times);
    let other = capped_sum(second.own, second.times);
    Counted {
        own: capped_sum(own, other),
        times: capped_sum(first.times, second.times),
    }
}

/// A cut, with the statements of the fragments inside it: a fragment begins behind it.
fn cut(inside: u128, behind: Counted) -> Counted
    ensures { (b : ExactTotal) (n : ℕ) → inside ≡ capped n → IsTold behind b
        → IsTold result (record { own = n + b.own; times = 1 }) }
{
    Counted {
        own: capped_sum(inside, behind.own),
        times: 1,
    }
}

/// The total of the first statement from `index` on and what is behind it, by that of what is behind it.
#[cycle(totalling)]
fn total(body: &[Stmt], index: usize, behind: Counted) -> Counted
    requires { index < length body.now }
    ensures { (s : StmtValue) (b : ExactTotal) → slice_get body.now index ≡ Some s → IsTold behind b
        → IsTold result (total s b) }
{
    match part_of(&body[index]) {
        Part::Plain => with_statements(alone(body, index), behind),
        Part::Assertion { .. } => cut(0, behind),
        Part::Loop { body: inner, .. } => {
            let turn = totals(inner, Counted { own: 0, times: 1 });
            cut(turn.own, behind)
        }
        Part::Branch { yes, no, .. } => {
            let first = totals(yes, behind);
            let second = totals(no, behind);
            branches(first, second)
        }
    }
}

/// The total of statements and what is behind them, by that of what is behind them.
#[cycle(totalling)]
pub(crate) fn totals(body: &[Stmt], behind: Counted) -> Counted
    ensures { (b : ExactTotal) → IsTold behind b → IsTold result (totals body.now b) }
{
    let mut count = behind;
    let mut left = body.len();
    while left > 0 {
        left -= 1;
        count = total(body, left, count);
    }
    count
}
