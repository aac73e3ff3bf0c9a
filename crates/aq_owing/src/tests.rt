ghost use Rattle.std.specs.Prelude.{◌≡◌, ◌<◌, ◌∷◌, [], IfOk};
ghost use Rattle.aq_prog.specs.Programs.{IsValidProgram};
ghost use Rattle.aq_sets.specs.Valid.{IsShort, IsValidSets};

use crate::{AskedClaims, ObligationFault, ask};
use aq_lex::Text;
use aq_prog::{BitRegister, Guard, Program};
use aq_sets::{Case, Cond, Expr, NamedClaim, NamedSet, Sets};
use sqlite_items::Items;
use std::alloc::Global;
use std::test::Fail;

/// Two qubits, and the bits `c` with a size of 2 and `d` without one.
fn program(alloc: Global) -> Result<Program, Fail>
    ensures { IfOk result (λ p. IsValidProgram p) }
{
    let mut registers = Items::new(alloc);
    registers.push(BitRegister {
        name: Text::from_slice(alloc, b"c")?,
        first: 0,
        size: 2,
        indexed: true,
    })?;
    registers.push(BitRegister {
        name: Text::from_slice(alloc, b"d")?,
        first: 2,
        size: 1,
        indexed: false,
    })?;
    Ok(Program {
        qubits: 2,
        bits: 3,
        registers,
        claims: Items::new(alloc),
        body: Items::new(alloc),
    })
}

fn claim(alloc: Global, name: &[u8], set: u32, when: Items<Cond>) -> Result<NamedClaim, Fail>
    ensures { IfOk result (λ c. c ≡ record { name = name.now; cases = record { set = set; when = when } ∷ [] }) }
{
    let name = Text::from_slice(alloc, name)?;
    let mut cases = Items::new(alloc);
    cases.push(Case { set, when })?;
    Ok(NamedClaim { name, cases })
}

fn set(alloc: Global) -> Result<NamedSet, Fail>
    ensures { IfOk result (λ s. s ≡ record { name = 115 ∷ []; expr = 1 }) }
{
    let name = Text::from_slice(alloc, b"s")?;
    Ok(NamedSet { name, expr: 1 })
}

/// All basis states of one and of two qubits, the set `s`, the claim `p` of one case, and the claim `q` of all states
/// of two qubits.
fn sets(alloc: Global, position: u32, when: Items<Cond>) -> Result<Sets, Fail>
    requires there { position < 2 }
    requires short { IsShort when }
    ensures { IfOk result (λ s. IsValidSets s) }
{
    let first = claim(alloc, b"p", position, when)?;
    let second = claim(alloc, b"q", 1, Items::new(alloc))?;
    let mut exprs = Items::new(alloc);
    exprs.push(Expr::All { qubits: 1 })?;
    exprs.push(Expr::All { qubits: 2 })?;
    let mut sets = Items::new(alloc);
    sets.push(set(alloc)?)?;
    let mut claims = Items::new(alloc);
    claims.push(first)?;
    claims.push(second)?;
    Ok(Sets {
        exprs,
        sets,
        claims,
    })
}

/// What an answer says: the first condition of the precondition, or the fault.
#[derive(Clone, Copy, Debug, PartialEq, Eq)]
enum Said {
    Bit(Guard),
    Nothing,
    UnknownClaim,
    QubitsDiffer(u32),
    BitUnknown,
    TooMany,
    Memory,
}

fn first_guard(asked: &AskedClaims) -> Said {
    let Some(case) = asked.before.as_slice().first() else {
        return Said::Nothing;
    };
    match case.when.as_slice().first() {
        Some(guard) => Said::Bit(*guard),
        None => Said::Nothing,
    }
}

fn fault_said(fault: &ObligationFault) -> Said {
    match fault {
        ObligationFault::UnknownClaim { name: _ } => Said::UnknownClaim,
        ObligationFault::QubitsDiffer { name: _, has } => Said::QubitsDiffer(*has),
        ObligationFault::BitUnknown { name: _, bit: _ } => Said::BitUnknown,
        ObligationFault::TooManyObligations => Said::TooMany,
        ObligationFault::Memory => Said::Memory,
    }
}

/// What is said where the claim `p` has this set and one condition.
fn answer_of(
    alloc: Global,
    position: u32,
    bit: &[u8],
    index: Option<u128>,
    pre: &[u8],
    post: &[u8],
) -> Result<Said, Fail>
    requires { position < 2 }
{
    let mut when = Items::new(alloc);
    when.push(Cond {
        bit: Text::from_slice(alloc, bit)?,
        index,
        value: false,
    })?;
    let program = program(alloc)?;
    let sets = sets(alloc, position, when)?;
    Ok(match ask(alloc, &program, &sets, pre, post) {
        Ok(asked) => first_guard(&asked),
        Err(fault) => fault_said(&fault),
    })
}

#[test]
fn bits_of_conditions(rt: HostRuntime) -> Result<(), Fail> {
    let rows: [(&[u8], Option<u128>, Said); 6] = [
        (
            b"c",
            Some(1),
            Said::Bit(Guard {
                bit: 1,
                value: false,
            }),
        ),
        (
            b"d",
            None,
            Said::Bit(Guard {
                bit: 2,
                value: false,
            }),
        ),
        (b"c", None, Said::BitUnknown),
        (b"c", Some(2), Said::BitUnknown),
        (b"d", Some(0), Said::BitUnknown),
        (b"e", None, Said::BitUnknown),
    ];
    for (bit, index, wanted) in rows {
        assert_eq!(rt; answer_of(rt.alloc(), 1, bit, index, b"p", b"q")?, wanted);
    }
    Ok(())
}

#[test]
fn order_of_faults(rt: HostRuntime) -> Result<(), Fail> {
    let rows: [(u32, &[u8], &[u8], Said); 5] = [
        (0, b"p", b"q", Said::QubitsDiffer(1)),
        (1, b"p", b"q", Said::BitUnknown),
        (0, b"p", b"s", Said::UnknownClaim),
        (0, b"s", b"p", Said::UnknownClaim),
        (1, b"q", b"q", Said::Nothing),
    ];
    for (position, pre, post, wanted) in rows {
        assert_eq!(rt;
            answer_of(rt.alloc(), position.min(1), b"e", None, pre, post)?,
            wanted
        );
    }
    Ok(())
}
