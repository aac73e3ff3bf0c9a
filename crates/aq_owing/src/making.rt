//! The obligations of a program.
ghost use Rattle.std.specs.Prelude.{◌≡◌, ◌+◌, ◌||◌, nat_lt, All, IfOk, length, min};
ghost use Rattle.aq_base.specs.Limits.{most_fragment_statements, most_obligations};
ghost use Rattle.aq_prog.specs.Programs.{IsValidProgram};
ghost use Rattle.aq_sets.specs.Valid.{IsValidSets};
ghost use Rattle.aq_obligations.specs.Bound.{IsBoundObligation};
ghost use Rattle.aq_obligations.specs.OwingCounts.{numbers, totals};
ghost use Rattle.aq_owing.specs.Asking.{AreBound, Gives};
ghost use Rattle.aq_owing.specs.Made.{are_too_many, made_obligations, obligations_of, owed_by};

use crate::asked::{AskedClaims, ObligationFault};
use crate::bind::ask;
use crate::counting::{Counted, numbers, totals};
use crate::owe::owe_all;
use crate::place::FragmentStart;
use aq_base::{MOST_FRAGMENT_STATEMENTS, MOST_OBLIGATIONS};
use aq_correct::laws::obligations;
use aq_obligations::{Goal, Kind, Obligation};
use aq_prog::Program;
use aq_sets::Sets;
use sqlite_items::Items;
use std::alloc::{AllocError, Global};

/// The number of obligations of the program, or 1,001 where there are more than 1,000.
pub fn count(program: &Program) -> u64
    ensures { result ≡ min (numbers program.now.body 1) (most_obligations + 1) }
{
    let number = numbers(program.body.as_slice(), 1);
    number.min(u128::from(MOST_OBLIGATIONS + 1)) as u64
}

/// Whether so many obligations are too many, or so many statements in their fragments.
fn exceeds(number: u64, statements: u128) -> bool
    ensures { result ≡ (nat_lt most_obligations number || nat_lt most_fragment_statements statements) }
{
    number > MOST_OBLIGATIONS || statements > u128::from(MOST_FRAGMENT_STATEMENTS)
}

/// Whether there are too many obligations, or too many statements in their fragments.
fn are_too_many(program: &Program, claims: &AskedClaims) -> bool
    ensures { result ≡ are_too_many (owed_by program.now claims.now) }
{
    obligations();
    let number = count(program);
    let total = totals(program.body.as_slice(), Counted { own: 0, times: 1 });
    exceeds(number, total.own)
}

/// The obligations between claims that were looked up.
fn make_all(
    alloc: Global,
    program: &Program,
    claims: AskedClaims,
) -> Result<Items<Obligation>, AllocError>
    ensures { IfOk result (λ list. list ≡ obligations_of program.now claims) }
{
    let AskedClaims {
        before,
        after,
        claims,
    } = claims;
    let goal = Goal {
        kind: Kind::Post,
        line: 0,
        cases: after,
    };
    let here = FragmentStart {
        start: true,
        from: before,
        given: None,
        fragment: Items::new(alloc),
    };
    let mut list = Items::new(alloc);
    owe_all(
        alloc,
        claims.as_slice(),
        &goal,
        here,
        program.body.as_slice(),
        &mut list,
    )?;
    Ok(list)
}

/// What the program owes between the claims named `pre` and `post`, in order: at least one obligation. Each goes with
/// the program and the sets, and its fragment has no cut. Errors, the first that applies:
/// - UnknownClaim, QubitsDiffer, BitUnknown: as `ask` says.
/// - TooManyObligations: there are more than 1,000, or their fragments have together more than 2,000,000 statements,
///   inner ones included. This is told without making them.
/// - Memory: memory ran out.
pub fn make(
    alloc: Global,
    program: &Program,
    sets: &Sets,
    pre: &[u8],
    post: &[u8],
) -> Result<Items<Obligation>, ObligationFault>
    requires program { IsValidProgram program.now }
    requires sets { IsValidSets sets.now }
    ensures made { Gives (λ list. list) result (made_obligations program.now sets.now pre.now post.now) }
    ensures bound { IfOk result (All (IsBoundObligation program.now sets.now)) }
{
    obligations();
    let claims = ask(alloc, program, sets, pre, post)?;
    if are_too_many(program, &claims) {
        return Err(ObligationFault::TooManyObligations);
    }
    let list = make_all(alloc, program, claims)?;
    Ok(list)
}
