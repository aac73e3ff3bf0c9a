//! What statements owe, in order.
ghost use Rattle.std.specs.Prelude.{◌≡◌, ◌<◌, IfOk, OnOk, ◌++◌, ◌∷◌, Some, length, map};
ghost use Rattle.aq_obligations.specs.Owing.{at_end, claim_at, fresh, owes_all};
ghost use Rattle.aq_obligations.specs.declared.kind.Kind.TheVariants as kinds;
ghost use Rattle.aq_prog.specs.declared.stmt.Stmt.TheVariants as stmts;
ghost use Rattle.aq_owing.specs.Made.{made};
ghost use Rattle.aq_owing.specs.Making.{Leaves, here_of, owed_from};

use crate::part::{Part, alone, behind, part_of};
use crate::place::{FragmentStart, claim_at, copy_cases, fresh, opposite};
use aq_correct::laws::obligations;
use aq_obligations::{BoundCase, Goal, Kind, Obligation};
use aq_prog::{Guard, Stmt, copy_body};
use sqlite_items::Items;
use std::alloc::{AllocError, Global};

/// The first statements and then the others.
fn joined(alloc: Global, first: &[Stmt], rest: &[Stmt]) -> Result<Items<Stmt>, AllocError>
    ensures { IfOk result (λ list. list ≡ first.now ++ rest.now) }
{
    let mut list = copy_body(alloc, first)?;
    let more = copy_body(alloc, rest)?;
    list.append(more)?;
    Ok(list)
}

/// What is owed with the guard assumed, by a branch and what is behind it.
#[cycle(owing)]
fn owe_branch(
    alloc: Global,
    claims: &[Items<BoundCase>],
    goal: &Goal,
    here: FragmentStart,
    guard: Guard,
    branch: &[Stmt],
    rest: &[Stmt],
    list: &mut Items<Obligation>,
) -> Result<(), AllocError>
    ensures { OnOk result (list.new ≡ list.old
        ++ owed_from claims.now goal.now (stmts.Assume guard ∷ (branch.now ++ rest.now)) (here_of here)) }
{
    obligations();
    let body = joined(alloc, branch, rest)?;
    let here = here.further(Stmt::Assume { guard })?;
    owe_all(alloc, claims, goal, here, body.as_slice(), list)
}

/// What the body of a loop owes: from its claim, given its guard, to its claim again.
#[cycle(owing)]
fn owe_turn(
    alloc: Global,
    claims: &[Items<BoundCase>],
    guard: Guard,
    claim: u32,
    body: &[Stmt],
    line: u32,
    list: &mut Items<Obligation>,
) -> Result<(), AllocError>
    ensures { OnOk result (list.new ≡ list.old ++ map made (owes_all (claim_at claims.now) body.now
        (at_end kinds.Keep line (claim_at claims.now claim)) (fresh (claim_at claims.now claim) (Some guard)))) }
{
    let cases = claim_at(claims, claim);
    let goal = Goal {
        kind: Kind::Keep,
        line,
        cases: copy_cases(alloc, cases)?,
    };
    let here = fresh(alloc, cases, Some(guard))?;
    owe_all(alloc, claims, &goal, here, body, list)
}

/// What a statement owes, up to what those behind it owe; or all of it, where the statement has those behind it twice.
#[cycle(owing)]
fn owe_one(
    alloc: Global,
    claims: &[Items<BoundCase>],
    goal: &Goal,
    here: FragmentStart,
    body: &[Stmt],
    index: usize,
    list: &mut Items<Obligation>,
) -> Result<Option<FragmentStart>, AllocError>
    requires { index < length body.now }
    ensures { IfOk result (Leaves claims.now goal.now body.now index (here_of here) list.old list.new) }
{
    obligations();
    match part_of(&body[index]) {
        Part::Plain => {
            let mut here = here;
            let copy = copy_body(alloc, alone(body, index))?;
            here.fragment.append(copy)?;
            Ok(Some(here))
        }
        Part::Assertion { claim, line } => {
            let cases = claim_at(claims, claim);
            here.owe(alloc, Kind::Assert, line, cases, list)?;
            let next = fresh(alloc, cases, None)?;
            Ok(Some(next))
        }
        Part::Loop {
            guard,
            claim,
            body: inner,
            line,
        } => {
            let cases = claim_at(claims, claim);
            here.owe(alloc, Kind::Entry, line, cases, list)?;
            owe_turn(alloc, claims, guard, claim, inner, line, list)?;
            let next = fresh(alloc, cases, Some(opposite(guard)))?;
            Ok(Some(next))
        }
        Part::Branch { guard, yes, no } => {
            let rest = behind(body, index);
            let other = here.copy(alloc)?;
            owe_branch(alloc, claims, goal, here, guard, yes, rest, list)?;
            owe_branch(alloc, claims, goal, other, opposite(guard), no, rest, list)?;
            Ok(None)
        }
    }
}

/// What statements owe from a place to a goal, in order, behind what is owed already. Fails only for want of memory.
#[cycle(owing)]
pub(crate) fn owe_all(
    alloc: Global,
    claims: &[Items<BoundCase>],
    goal: &Goal,
    here: FragmentStart,
    body: &[Stmt],
    list: &mut Items<Obligation>,
) -> Result<(), AllocError>
    ensures { OnOk result (list.new ≡ list.old ++ owed_from claims.now goal.now body.now (here_of here)) }
{
    obligations();
    let mut place = here;
    for index in 0..body.len() {
        match owe_one(alloc, claims, goal, place, body, index, list)? {
            Some(next) => place = next,
            None => return Ok(()),
        }
    }
    place.owe(alloc, goal.kind, goal.line, goal.cases.as_slice(), list)
}
