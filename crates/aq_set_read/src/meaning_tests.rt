ghost use Rattle.std.specs.Prelude.{◌≤◌, length};

use crate::{Case, Cond, Expr, NamedClaim, SetFault, Sets, Term, read_sets};
use aq_lex::Place;
use aq_ring::Amp;
use std::alloc::Global;
use std::test::Fail;

fn said(alloc: Global, source: &[u8]) -> Result<Sets, SetFault>
    requires { length source.now ≤ 4194304 }
{
    read_sets(alloc, source)
}

/// The name and the place of a fault.
fn told(fault: &SetFault) -> Option<(&str, Place)> {
    match fault {
        SetFault::TooManyNames { at } => Some(("TooManyNames", *at)),
        SetFault::TwiceNamed { at } => Some(("TwiceNamed", *at)),
        SetFault::UnknownSet { at } => Some(("UnknownSet", *at)),
        SetFault::QubitCount { at } => Some(("QubitCount", *at)),
        SetFault::AmpTooWide { at } => Some(("AmpTooWide", *at)),
        SetFault::KetLength { at } => Some(("KetLength", *at)),
        SetFault::RepeatedKet { at } => Some(("RepeatedKet", *at)),
        SetFault::TooManyNodes { at } => Some(("TooManyNodes", *at)),
        _ => None,
    }
}

fn is_refused(found: &Result<Sets, SetFault>, name: &str, line: u32, column: u32) -> bool {
    let Err(fault) = found else {
        return false;
    };
    match told(fault) {
        Some((fault, at)) => fault == name && at.line == line && at.column == column,
        None => false,
    }
}

#[test]
fn the_first_fault_is_told(rt: HostRuntime) {
    let rows: [(&[u8], &str, u32); 23] = [
        (b"set a = [|0>]; set a = [|1>];", "TwiceNamed", 20),
        (b"set a = [|0>]; claim a = [|1>];", "TwiceNamed", 22),
        (b"claim a = [|0>]; set a = b;", "TwiceNamed", 22),
        (b"set a = b; set b = [|0>];", "UnknownSet", 9),
        (b"set a = a;", "UnknownSet", 9),
        (b"claim c = [|0>]; set a = c;", "UnknownSet", 26),
        (b"set a = b; set a = c; set d = all 0;", "UnknownSet", 9),
        (b"set a = all 1 * x * all 0;", "UnknownSet", 17),
        (b"claim a = [|0>], [|00>], b;", "UnknownSet", 26),
        (b"set a = all 0;", "QubitCount", 9),
        (b"set a = all 17;", "QubitCount", 9),
        (b"set a = all 2 ^ 0;", "QubitCount", 15),
        (b"set a = all 4 ^ 4 union all 4 ^ 5;", "QubitCount", 31),
        (
            b"set a = all 1 ^ 170141183460469231731687303715884105727;",
            "QubitCount",
            15,
        ),
        (b"set a = all 8 * all 8 * all 1 * x;", "QubitCount", 23),
        (
            b"set a = [|0>] union [|1>] union [|00>] union x;",
            "QubitCount",
            27,
        ),
        (
            b"claim a = [|0>], [|1>], [|00>], [|000>];",
            "QubitCount",
            25,
        ),
        (b"set a = [|00000000000000000> + |0>];", "QubitCount", 10),
        (
            b"set a = [|0> - 1/sqrt2^4294967296 |11>];",
            "AmpTooWide",
            16,
        ),
        (
            b"set a = [-2 i/sqrt2^4294967296 |00000000000000000>];",
            "AmpTooWide",
            11,
        ),
        (b"set a = [|0> + |00> + |0>];", "KetLength", 16),
        (b"set a = [|00> + |0>];", "KetLength", 17),
        (b"set a = [|0> + |1> - |0> + |11>];", "RepeatedKet", 22),
    ];
    for (source, name, column) in rows {
        assert!(rt; source.len() < 100);
        assert!(rt; is_refused(&said(rt.alloc(), source), name, 1, column));
    }
}

/// The entries of the first expression, where it is a bracket.
fn first_terms(sets: &Sets) -> Option<&[Term]> {
    match sets.exprs.as_slice().first() {
        Some(Expr::Kets { terms, .. }) => Some(terms.as_slice()),
        _ => None,
    }
}

#[test]
fn amplitudes_are_in_lowest_form(rt: HostRuntime) {
    let rows: [(&[u8], u64, [i128; 4], u32); 15] = [
        (b"set a = [|0>];", 0, [1, 0, 0, 0], 0),
        (b"set a = [-|101>];", 5, [-1, 0, 0, 0], 0),
        (b"set a = [-2w^11/sqrt2^3 |0011>];", 3, [0, 0, 0, -1], 1),
        (b"set a = [(1,0,-1,0) |1>];", 1, [1, 0, -1, 0], 0),
        (b"set a = [(1,0,-1,0)/sqrt2^2 |1>];", 1, [0, 0, 0, -1], 1),
        (b"set a = [-(0,-1,2,3) |1>];", 1, [0, 1, -2, -3], 0),
        (b"set a = [i |1>];", 1, [0, 0, 1, 0], 0),
        (b"set a = [3i |1>];", 1, [0, 0, 3, 0], 0),
        (b"set a = [-w |1>];", 1, [0, -1, 0, 0], 0),
        (b"set a = [5w^4 |1>];", 1, [-5, 0, 0, 0], 0),
        (b"set a = [1/sqrt2 |1>];", 1, [1, 0, 0, 0], 1),
        (b"set a = [2/sqrt2 |1>];", 1, [0, 1, 0, -1], 0),
        (b"set a = [0/sqrt2^4294967295 |1>];", 1, [0, 0, 0, 0], 0),
        (
            b"set a = [-1/sqrt2^4294967295 |1>];",
            1,
            [-1, 0, 0, 0],
            4294967295,
        ),
        (
            b"set a = [-170141183460469231731687303715884105727w^1000000000004 |1111111111111111>];",
            65535,
            [170141183460469231731687303715884105727, 0, 0, 0],
            0,
        ),
    ];
    for (source, index, coefs, power) in rows {
        assert!(rt; source.len() < 100);
        let found = said(rt.alloc(), source).ok();
        let Some(sets) = found else {
            assert!(rt; false);
            return;
        };
        let Some([Term { index: at, amp }]) = first_terms(&sets) else {
            assert!(rt; false);
            return;
        };
        assert_eq!(rt; *at, index);
        assert!(rt; Amp::from_parts(coefs, power) == Some(*amp));
        assert_eq!(rt; amp.power(), power);
    }
}

fn is_kets(expr: &Expr, qubits: u32, count: usize) -> bool {
    match expr {
        Expr::Kets { qubits: n, terms } => *n == qubits && terms.len() == count,
        _ => false,
    }
}

fn is_all(expr: &Expr, qubits: u32) -> bool {
    match expr {
        Expr::All { qubits: n } => *n == qubits,
        _ => false,
    }
}

fn is_tensor(expr: &Expr, left: u32, right: u32) -> bool {
    match expr {
        Expr::Tensor { left: a, right: b } => *a == left && *b == right,
        _ => false,
    }
}

fn is_union(expr: &Expr, left: u32, right: u32) -> bool {
    match expr {
        Expr::Union { left: a, right: b } => *a == left && *b == right,
        _ => false,
    }
}

fn is_power(expr: &Expr, base: u32, times: u32) -> bool {
    match expr {
        Expr::Power { base: a, times: n } => *a == base && *n == times,
        _ => false,
    }
}

#[test]
fn expressions_stand_in_the_order_in_which_they_are_made(rt: HostRuntime) {
    let found = said(
        rt.alloc(),
        b"set a = [|000> + |111>] union all 1 * [|1>] ^ 2;\nset b = a union (a union a) union a; set c = b;",
    )
    .ok();
    let Some(sets) = found else {
        assert!(rt; false);
        return;
    };
    let [a, b, c, d, e, f, g, h, i] = sets.exprs.as_slice() else {
        assert!(rt; false);
        return;
    };
    assert!(rt; is_kets(a, 3, 2));
    assert!(rt; is_all(b, 1));
    assert!(rt; is_kets(c, 1, 1));
    assert!(rt; is_power(d, 2, 2));
    assert!(rt; is_tensor(e, 1, 3));
    assert!(rt; is_union(f, 0, 4));
    assert!(rt; is_union(g, 5, 5));
    assert!(rt; is_union(h, 5, 6));
    assert!(rt; is_union(i, 7, 5));
    let [one, two, three] = sets.sets.as_slice() else {
        assert!(rt; false);
        return;
    };
    assert!(rt; one.name.is(b"a") && one.expr == 5);
    assert!(rt; two.name.is(b"b") && two.expr == 8);
    assert!(rt; three.name.is(b"c") && three.expr == 8);
    assert!(rt; sets.claims.is_empty());
}

fn is_cond(cond: &Cond, bit: &[u8], index: Option<u128>, value: bool) -> bool {
    cond.bit.is(bit) && cond.index == index && cond.value == value
}

#[test]
fn claims_have_their_cases_and_conditions(rt: HostRuntime) {
    let found = said(
        rt.alloc(),
        b"set a = all 2; claim c = a * all 1 when b == 1 and d[3] == 0, all 3;",
    )
    .ok();
    let Some(sets) = found else {
        assert!(rt; false);
        return;
    };
    assert_eq!(rt; sets.exprs.len(), 4);
    let [NamedClaim { name, cases }] = sets.claims.as_slice() else {
        assert!(rt; false);
        return;
    };
    assert!(rt; name.is(b"c"));
    let [
        Case {
            set: first,
            when: some,
        },
        Case {
            set: second,
            when: none,
        },
    ] = cases.as_slice()
    else {
        assert!(rt; false);
        return;
    };
    assert!(rt; *first == 2 && *second == 3);
    let [b, d] = some.as_slice() else {
        assert!(rt; false);
        return;
    };
    assert!(rt; is_cond(b, b"b", None, true) && is_cond(d, b"d", Some(3), false));
    assert!(rt; none.is_empty());
}

/// A set of so many nodes, an odd number, and then the rest on a line of its own.
fn many_nodes(alloc: Global, unions: u32, rest: &[u8]) -> Result<Vec<u8>, Fail> {
    let mut text = Vec::from_slice(alloc, b"set a = all 1")?;
    for _ in 0..unions {
        text.extend_from_slice(b" union all 1")?;
    }
    text.extend_from_slice(b";\n")?;
    text.extend_from_slice(rest)?;
    Ok(text)
}

#[test]
fn a_hundred_thousand_nodes_are_taken(rt: HostRuntime) -> Result<(), Fail> {
    let alloc = rt.alloc();
    let rows: [(&[u8], &str, u32); 6] = [
        (b"set b = [|0>];", "TooManyNodes", 9),
        (b"set b = all 1; set c = [|0>];", "TooManyNodes", 25),
        (
            b"set b = a; set c = all 1; set d = a * a;",
            "TooManyNodes",
            37,
        ),
        (b"set b = all 1; set c = a ^ 2;", "TooManyNodes", 26),
        (b"set b = all 1; set c = all 1;", "TooManyNodes", 24),
        (b"set b = [|0> + |0>];", "RepeatedKet", 16),
    ];
    for (rest, name, column) in rows {
        let text = many_nodes(alloc, 49_999, rest)?;
        assert!(rt; text.len() < 1_000_000);
        assert!(rt; is_refused(&said(alloc, text.as_slice()), name, 2, column));
    }
    let text = many_nodes(alloc, 49_999, b"set b = a; set c = all 1;")?;
    assert!(rt; text.len() < 1_000_000);
    assert!(rt; said(alloc, text.as_slice()).is_ok());
    Ok(())
}

/// Sets with the names `a100` to `a999` and `b100` to `b199`, and then the rest on a line of its own.
fn many_names(alloc: Global, rest: &[u8]) -> Result<Vec<u8>, Fail> {
    let mut text = Vec::new(alloc);
    for i in 100..1100u32 {
        let letter = if i < 1000 { b'a' } else { b'b' };
        let number = if i < 1000 { i } else { i - 900 };
        text.extend_from_slice(b"set ")?;
        text.push(letter)?;
        text.push(b'0' + (number / 100) as u8)?;
        text.push(b'0' + (number / 10 % 10) as u8)?;
        text.push(b'0' + (number % 10) as u8)?;
        text.extend_from_slice(b" = all 1;")?;
    }
    text.push(b'\n')?;
    text.extend_from_slice(rest)?;
    Ok(text)
}

#[test]
fn a_thousand_names_are_taken(rt: HostRuntime) -> Result<(), Fail> {
    let alloc = rt.alloc();
    let rows: [(&[u8], u32); 3] = [
        (b"set c = all 0;", 5),
        (b"claim c = a100;", 7),
        (b"set a100 = all 1;", 5),
    ];
    for (rest, column) in rows {
        let text = many_names(alloc, rest)?;
        assert!(rt; text.len() < 1_000_000);
        assert!(rt; is_refused(&said(alloc, text.as_slice()), "TooManyNames", 2, column));
    }
    let text = many_names(alloc, b"")?;
    assert!(rt; text.len() < 1_000_000);
    assert!(rt; said(alloc, text.as_slice()).is_ok());
    Ok(())
}
