//! Verdicts on obligations of one qubit and one bit, by hand.
ghost use Rattle.std.specs.Prelude.{◌≡◌, ◌<◌, ◌≤◌, All, IfOk, IfSome, length};
ghost use Rattle.aq_prog.specs.Gates.{AreEntries};
ghost use Rattle.aq_prog.specs.Programs.{IsValidProgram};
ghost use Rattle.aq_sets.specs.Valid.{IsValidSets};
ghost use Rattle.aq_judge.specs.Examples.{
  IsSmallCase,
  IsSmallObligation,
  IsSmallStmt,
  both_kets,
  one_ket,
  table,
};

use crate::{Judged, judge};
use aq_lex::Text;
use aq_obligations::{BoundCase, Goal, Kind, Obligation};
use aq_prog::{BitRegister, Entry, Gate, Guard, Program, Stmt, gate_named};
use aq_report::{Verdict, Why};
use aq_ring::Amp;
use aq_sets::{Expr, Sets, Term};
use sqlite_items::Items;
use std::alloc::Global;
use std::test::Fail;

/// There is no such gate or expression.
#[derive(Clone, Copy, Debug)]
struct NotThere;

fn rows_of(name: &[u8]) -> Result<[[Entry; 2]; 2], Fail>
    ensures { IfOk result (λ rows. AreEntries rows) }
{
    match gate_named(name, 0) {
        Some(found) => Ok(found.rows),
        None => Err(Fail::from(NotThere)),
    }
}

/// The gate on qubit 0.
fn gate(alloc: Global, name: &[u8]) -> Result<Stmt, Fail>
    ensures { IfOk result IsSmallStmt }
{
    let rows = rows_of(name)?;
    let gate = Gate::new(Items::new(alloc), 0, rows);
    Ok(Stmt::Gate(gate))
}

/// Measures qubit 0 into the bit.
fn measurement() -> Stmt
    ensures { IsSmallStmt result }
{
    Stmt::Measure {
        qubit: 0,
        bit: Some(0),
    }
}

/// Flips qubit 0 where the bit is 1.
fn flip_if_one(alloc: Global) -> Result<Stmt, Fail>
    ensures { IfOk result IsSmallStmt }
{
    let flip = gate(alloc, b"x")?;
    let mut yes = Items::new(alloc);
    yes.push(flip)?;
    let guard = Guard {
        bit: 0,
        value: true,
    };
    Ok(Stmt::If {
        guard,
        yes,
        no: Items::new(alloc),
    })
}

/// A statement.
#[derive(Clone, Copy, Debug)]
enum Part {
    Gate(&'static [u8]),
    Measurement,
    FlipIfOne,
}

fn stmt_of(alloc: Global, part: Part) -> Result<Stmt, Fail>
    ensures { IfOk result IsSmallStmt }
{
    match part {
        Part::Gate(name) => gate(alloc, name),
        Part::Measurement => Ok(measurement()),
        Part::FlipIfOne => flip_if_one(alloc),
    }
}

fn body_of(alloc: Global, parts: &[Part]) -> Result<Items<Stmt>, Fail>
    ensures { IfOk result (λ body. All IsSmallStmt body) }
{
    let mut body = Items::new(alloc);
    for part in parts {
        let stmt = stmt_of(alloc, *part)?;
        body.push(stmt)?;
    }
    Ok(body)
}

/// One qubit and the bit `c`.
fn program(alloc: Global) -> Result<Program, Fail>
    ensures valid { IfOk result (λ p. IsValidProgram p) }
    ensures sizes { IfOk result (λ p. (p.qubits ≡ 1) × (p.bits ≡ 1) × (length p.claims ≡ 0)) }
{
    let mut registers = Items::new(alloc);
    registers.push(BitRegister {
        name: Text::from_slice(alloc, b"c")?,
        first: 0,
        size: 1,
        indexed: false,
    })?;
    Ok(Program {
        qubits: 1,
        bits: 1,
        registers,
        claims: Items::new(alloc),
        body: Items::new(alloc),
    })
}

/// A bracket of one ket.
fn one_ket(alloc: Global, index: u64, amp: Amp) -> Result<Expr, Fail>
    ensures { IfOk result (λ e. e ≡ one_ket index amp) }
{
    let terms = Items::from_slice(alloc, &[Term { index, amp }])?;
    Ok(Expr::Kets { qubits: 1, terms })
}

/// A bracket of both kets.
fn both_kets(alloc: Global, first: Amp, second: Amp) -> Result<Expr, Fail>
    ensures { IfOk result (λ e. e ≡ both_kets first second) }
{
    let left = Term {
        index: 0,
        amp: first,
    };
    let right = Term {
        index: 1,
        amp: second,
    };
    let terms = Items::from_slice(alloc, &[left, right])?;
    Ok(Expr::Kets { qubits: 1, terms })
}

/// `[|0>]`, `[a|1>]`, `all 1`, the union of the first two, `[a|0> + |1>]` and `[|0> + a|1>]`.
fn exprs(alloc: Global, amp: Amp) -> Result<Items<Expr>, Fail>
    ensures { IfOk result (λ list. list ≡ table amp) }
{
    let first = one_ket(alloc, 0, Amp::one())?;
    let second = one_ket(alloc, 1, amp)?;
    let third = both_kets(alloc, amp, Amp::one())?;
    let fourth = both_kets(alloc, Amp::one(), amp)?;
    let mut exprs = Items::new(alloc);
    exprs.push(first)?;
    exprs.push(second)?;
    exprs.push(Expr::All { qubits: 1 })?;
    exprs.push(Expr::Union { left: 0, right: 1 })?;
    exprs.push(third)?;
    exprs.push(fourth)?;
    Ok(exprs)
}

/// A set file of these expressions, without a set or a claim that names them.
fn sets(alloc: Global, amp: Amp) -> Result<Sets, Fail>
    ensures valid { IfOk result (λ s. IsValidSets s) }
    ensures exprs { IfOk result (λ s. s.exprs ≡ table amp) }
{
    let exprs = exprs(alloc, amp)?;
    Ok(Sets {
        exprs,
        sets: Items::new(alloc),
        claims: Items::new(alloc),
    })
}

/// The case of the expression, on the value of the bit where one is given.
fn case_of(alloc: Global, set: u32, value: Option<bool>) -> Result<BoundCase, Fail>
    ensures { IfOk result IsSmallCase }
{
    if set >= 6 {
        return Err(Fail::from(NotThere));
    }
    let mut when = Items::new(alloc);
    if let Some(value) = value {
        when.push(Guard { bit: 0, value })?;
    }
    Ok(BoundCase { set, when })
}

fn cases_of(alloc: Global, rows: &[(u32, Option<bool>)]) -> Result<Items<BoundCase>, Fail>
    ensures { IfOk result (λ cases. All IsSmallCase cases) }
{
    let mut cases = Items::new(alloc);
    for (set, value) in rows {
        let case = case_of(alloc, *set, *value)?;
        cases.push(case)?;
    }
    Ok(cases)
}

/// What an obligation starts from: the program's start, or a claim with what is known of the bit.
#[derive(Clone, Copy, Debug)]
enum From {
    Start,
    Claim(Option<bool>),
}

fn given_by(from: From) -> Option<Guard>
    ensures { IfSome result (λ g. g.bit < 1) }
{
    match from {
        From::Start | From::Claim(None) => None,
        From::Claim(Some(value)) => Some(Guard { bit: 0, value }),
    }
}

fn obligation(
    alloc: Global,
    from: From,
    parts: &[Part],
    before: &[(u32, Option<bool>)],
    after: &[(u32, Option<bool>)],
) -> Result<Obligation, Fail>
    ensures { IfOk result IsSmallObligation }
{
    let before = cases_of(alloc, before)?;
    let cases = cases_of(alloc, after)?;
    let fragment = body_of(alloc, parts)?;
    Ok(Obligation {
        start: matches!(from, From::Start),
        from: before,
        given: given_by(from),
        fragment,
        goal: Goal {
            kind: Kind::Post,
            line: 0,
            cases,
        },
    })
}

/// What is judged of the obligation, where the expressions have this amplitude.
fn judged(alloc: Global, amp: Amp, obligation: &Obligation, limit: u64) -> Result<Judged, Fail>
    requires small { IsSmallObligation obligation.now }
    requires limit { limit ≤ 1000000000 }
{
    let program = program(alloc)?;
    let sets = sets(alloc, amp)?;
    Ok(judge(alloc, &program, &sets, obligation, limit))
}

/// What a refutation shows: the bit and the second entry of the state, the outcome, if there is one, and the bit and
/// the second entry of the end.
#[derive(Clone, Copy, Debug, PartialEq, Eq)]
struct Run {
    state: (bool, Amp),
    outcome: Option<bool>,
    end: (bool, Amp),
}

/// What a verdict says.
#[derive(Clone, Copy, Debug, PartialEq, Eq)]
enum Said {
    Verified,
    Refuted(Run),
    GaveUp(Why),
    /// A vector without two entries, or a state without a bit.
    Odd,
}

fn state_of(bits: &[bool], vector: &[Amp]) -> Option<(bool, Amp)> {
    Some((*bits.first()?, *vector.get(1)?))
}

fn told_by(verdict: &Verdict) -> Said {
    match verdict {
        Verdict::Verified => Said::Verified,
        Verdict::GaveUp(why) => Said::GaveUp(*why),
        Verdict::Refuted(shown) => {
            let state = state_of(shown.bits.as_slice(), shown.state.amps());
            let end = state_of(shown.end_bits.as_slice(), shown.end.amps());
            let outcome = shown.outcomes.as_slice().first().copied();
            match (state, end) {
                (Some(state), Some(end)) => Said::Refuted(Run {
                    state,
                    outcome,
                    end,
                }),
                _ => Said::Odd,
            }
        }
    }
}

const LIMIT: u64 = 20_000_000;

/// What is said of an obligation, and how many certificates come with it.
fn said_with(
    alloc: Global,
    amp: Amp,
    obligation: &Obligation,
    limit: u64,
) -> Result<(Said, usize), Fail>
    requires small { IsSmallObligation obligation.now }
    requires limit { limit ≤ 1000000000 }
{
    let judged = judged(alloc, amp, obligation, limit)?;
    Ok((told_by(&judged.verdict), judged.certs.len()))
}

/// Of one gate, from the program's start.
fn said_of(
    alloc: Global,
    name: &'static [u8],
    amp: Amp,
    before: &[(u32, Option<bool>)],
    after: &[(u32, Option<bool>)],
) -> Result<(Said, usize), Fail> {
    let obligation = obligation(alloc, From::Start, &[Part::Gate(name)], before, after)?;
    said_with(alloc, amp, &obligation, LIMIT)
}

/// Refuted by a run of gates, where the bit stays 0.
fn by_gates(state: Amp, end: Amp) -> (Said, usize) {
    let run = Run {
        state: (false, state),
        outcome: None,
        end: (false, end),
    };
    (Said::Refuted(run), 0)
}

#[test]
fn all_states_are_kept(rt: HostRuntime) -> Result<(), Fail> {
    let alloc = rt.alloc();
    assert_eq!(rt;
        said_of(alloc, b"x", Amp::one(), &[(2, None)], &[(2, None)])?,
        (Said::Verified, 1)
    );
    let refuted = by_gates(Amp::one(), Amp::zero());
    assert_eq!(rt;
        said_of(alloc, b"x", Amp::one(), &[(2, None)], &[(1, None)])?,
        refuted
    );
    Ok(())
}

#[test]
fn phases_count_for_nothing(rt: HostRuntime) -> Result<(), Fail> {
    let alloc = rt.alloc();
    let phase = Amp::one().turn(2);
    assert_eq!(rt;
        said_of(alloc, b"x", phase, &[(3, None)], &[(3, None)])?,
        (Said::Verified, 1)
    );
    let first = by_gates(Amp::zero(), Amp::one());
    assert_eq!(rt;
        said_of(alloc, b"x", phase, &[(3, None)], &[(0, None)])?,
        first
    );
    let second = by_gates(phase, Amp::zero());
    assert_eq!(rt;
        said_of(alloc, b"x", phase, &[(3, None)], &[(1, None)])?,
        second
    );
    Ok(())
}

#[test]
fn bits_are_zero(rt: HostRuntime) -> Result<(), Fail> {
    let alloc = rt.alloc();
    let one = Amp::one();
    let never = &[(0, Some(true))];
    assert_eq!(rt;
        said_of(alloc, b"x", one, never, &[(0, None)])?,
        (Said::Verified, 0)
    );
    let refuted = by_gates(Amp::zero(), Amp::one());
    assert_eq!(rt;
        said_of(alloc, b"x", one, &[(0, Some(false))], &[(0, None)])?,
        refuted
    );
    assert_eq!(rt;
        said_of(alloc, b"x", one, &[(0, None)], &[(1, Some(true))])?,
        refuted
    );
    assert_eq!(rt;
        said_of(alloc, b"x", one, &[(0, None)], &[(1, Some(false))])?,
        (Said::Verified, 1)
    );
    Ok(())
}

#[test]
fn a_zero_end_is_kept(rt: HostRuntime) -> Result<(), Fail> {
    let told = said_of(rt.alloc(), b"x", Amp::zero(), &[(1, None)], &[(0, None)])?;
    assert_eq!(rt; told, (Said::Verified, 0));
    Ok(())
}

#[test]
fn a_gate_that_does_not_fit(rt: HostRuntime) -> Result<(), Fail> {
    let large = Amp::from_parts([i128::MAX, 0, 0, 0], 0).ok_or("large")?;
    let told = said_of(rt.alloc(), b"h", large, &[(4, None)], &[(4, None)])?;
    assert_eq!(rt; told, (Said::GaveUp(Why::Width), 0));
    Ok(())
}

#[test]
fn steps_up_to_the_limit(rt: HostRuntime) -> Result<(), Fail> {
    let alloc = rt.alloc();
    let one = Amp::one();
    let flip = &[Part::Gate(b"x")];
    let plain = obligation(alloc, From::Start, flip, &[(0, None)], &[(1, None)])?;
    assert_eq!(rt;
        said_with(alloc, one, &plain, 2)?,
        (Said::GaveUp(Why::Steps), 0)
    );
    assert_eq!(rt; said_with(alloc, one, &plain, 224)?, (Said::Verified, 1));
    Ok(())
}

#[test]
fn outcomes_one_by_one(rt: HostRuntime) -> Result<(), Fail> {
    let alloc = rt.alloc();
    let one = Amp::one();
    let root = one.over_root().ok_or("root")?;
    let toss = &[Part::Gate(b"h"), Part::Measurement];
    let by_bit = &[(0, Some(false)), (1, Some(true))];
    let told = obligation(alloc, From::Start, toss, &[(0, None)], by_bit)?;
    assert_eq!(rt; said_with(alloc, one, &told, LIMIT)?, (Said::Verified, 2));
    let zero = obligation(alloc, From::Start, toss, &[(0, None)], &[(0, None)])?;
    let refuted = Said::Refuted(Run {
        state: (false, Amp::zero()),
        outcome: Some(true),
        end: (true, root),
    });
    assert_eq!(rt; said_with(alloc, one, &zero, LIMIT)?, (refuted, 0));
    Ok(())
}

#[test]
fn outcomes_with_one_end(rt: HostRuntime) -> Result<(), Fail> {
    let alloc = rt.alloc();
    let toss = &[Part::Gate(b"h"), Part::Measurement, Part::FlipIfOne];
    let told = obligation(alloc, From::Start, toss, &[(0, None)], &[(0, None)])?;
    let judged = judged(alloc, Amp::one(), &told, LIMIT)?;
    assert_eq!(rt; told_by(&judged.verdict), Said::Verified);
    assert_eq!(rt; judged.certs.len(), 2);
    let first = judged.certs.get(0).ok_or("first")?;
    let second = judged.certs.get(1).ok_or("second")?;
    assert_eq!(rt; first.macros.len(), second.macros.len());
    assert_eq!(rt; first.edges.len(), second.edges.len());
    assert!(rt; first.ends.as_slice() == second.ends.as_slice());
    Ok(())
}

#[test]
fn bits_that_are_open(rt: HostRuntime) -> Result<(), Fail> {
    let alloc = rt.alloc();
    let one = Amp::one();
    let flip = &[Part::FlipIfOne];
    let open = obligation(alloc, From::Claim(None), flip, &[(0, None)], &[(0, None)])?;
    let refuted = Said::Refuted(Run {
        state: (true, Amp::zero()),
        outcome: None,
        end: (true, Amp::one()),
    });
    assert_eq!(rt; said_with(alloc, one, &open, LIMIT)?, (refuted, 0));
    let zero = From::Claim(Some(false));
    let known = obligation(alloc, zero, flip, &[(0, None)], &[(0, None)])?;
    assert_eq!(rt; said_with(alloc, one, &known, LIMIT)?, (Said::Verified, 1));
    Ok(())
}
