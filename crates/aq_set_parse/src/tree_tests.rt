ghost use Rattle.std.specs.Prelude.{◌≤◌, length};

use crate::{
    SetCoef, SetExpr, SetFactor, SetInt, SetItem, SetParseFault, SetPart, SetPower, SetScalar,
    SetTerm, SetTree, SetTurn, parse_sets, set_trees, tokens_of_sets,
};
use aq_lex::Place;
use std::alloc::AllocError;
use std::test::Fail;

fn parsed(rt: &HostRuntime, source: &[u8]) -> Result<SetTree, SetParseFault>
    requires { length source.now ≤ 4194304 }
{
    set_trees();
    match tokens_of_sets(rt.alloc(), source) {
        Ok(tokens) => parse_sets(rt.alloc(), &tokens),
        Err(_) => Err(SetParseFault::Memory),
    }
}

fn is_at(at: Place, line: u32, column: u32) -> bool {
    at.line == line && at.column == column
}

/// What the only item is, where it is a set.
fn only_set(tree: &SetTree) -> Option<&SetExpr> {
    match tree.items.as_slice() {
        [SetItem::Set { expr, .. }] => Some(expr),
        _ => None,
    }
}

fn only_part(expr: &SetExpr) -> Option<&SetPart> {
    match expr {
        SetExpr::Union(parts) => match parts.as_slice() {
            [part] => Some(part),
            _ => None,
        },
        _ => None,
    }
}

fn only_factor(expr: &SetExpr) -> Option<&SetFactor> {
    match expr {
        SetExpr::Tensor(factors) => match factors.as_slice() {
            [factor] => Some(factor),
            _ => None,
        },
        _ => None,
    }
}

fn is_term(
    term: &SetTerm,
    minus: bool,
    column: u32,
    coef: Option<SetCoef>,
    ket: &[u8],
    ket_column: u32,
) -> bool {
    term.minus == minus
        && is_at(term.at, 1, column)
        && term.coef == coef
        && term.ket.text.is(ket)
        && is_at(term.ket.at, 1, ket_column)
}

fn int(minus: bool, number: u128) -> SetInt {
    SetInt { minus, number }
}

fn divided(scalar: SetScalar, roots: u128) -> Option<SetCoef> {
    Some(SetCoef { scalar, roots })
}

fn turned(times: u128, turn: SetTurn, roots: u128) -> Option<SetCoef> {
    divided(SetScalar::Turned { times, turn }, roots)
}

#[test]
fn coefficients_are_read_as_they_are_written(rt: HostRuntime) {
    let found = parsed(
        &rt,
        b"set v = [-|0> + 2|1> - 3w^5/sqrt2^7|0> + w|1> - i/sqrt2|0> + 4 i|1> + (1,-2,0,-4)/sqrt2^0|0>];",
    )
    .ok();
    let Some(tree) = found else {
        assert!(rt; false);
        return;
    };
    let vector = only_set(&tree).and_then(only_part);
    let vector = vector.and_then(|part| only_factor(&part.expr));
    let Some(
        SetFactor {
            expr: SetExpr::Bracket { at, terms },
            power: None,
            ..
        },
    ) = vector
    else {
        assert!(rt; false);
        return;
    };
    assert!(rt; is_at(*at, 1, 9));
    let [a, b, c, d, e, f, g] = terms.as_slice() else {
        assert!(rt; false);
        return;
    };
    assert!(rt; is_term(a, true, 11, None, b"|0>", 11));
    assert!(rt; is_term(b, false, 17, divided(SetScalar::Number(2), 0), b"|1>", 18));
    assert!(rt; is_term(c, true, 24, turned(3, SetTurn::Omega(5), 7), b"|0>", 36));
    assert!(rt; is_term(d, false, 42, turned(1, SetTurn::Omega(1), 0), b"|1>", 43));
    assert!(rt; is_term(e, true, 49, turned(1, SetTurn::Imaginary, 1), b"|0>", 56));
    assert!(rt; is_term(f, false, 62, turned(4, SetTurn::Imaginary, 0), b"|1>", 65));
    let four = SetScalar::Quadruple {
        a: int(false, 1),
        b: int(true, 2),
        c: int(false, 0),
        d: int(true, 4),
    };
    assert!(rt; is_term(g, false, 71, divided(four, 0), b"|0>", 90));
}

#[test]
fn unions_are_of_tensors_of_powers(rt: HostRuntime) {
    let found = parsed(&rt, b"set a = all 2 ^ 3 * b union (c * [|0>])^2 union d;").ok();
    let Some(tree) = found else {
        assert!(rt; false);
        return;
    };
    let Some(SetExpr::Union(parts)) = only_set(&tree) else {
        assert!(rt; false);
        return;
    };
    let [one, two, three] = parts.as_slice() else {
        assert!(rt; false);
        return;
    };
    assert!(rt; is_at(one.at, 1, 9) && is_at(two.at, 1, 23) && is_at(three.at, 1, 43));
    let SetExpr::Tensor(factors) = &one.expr else {
        assert!(rt; false);
        return;
    };
    let [left, right] = factors.as_slice() else {
        assert!(rt; false);
        return;
    };
    assert!(rt; is_at(left.at, 1, 9) && is_at(right.at, 1, 19));
    let power = SetPower {
        at: Place {
            line: 1,
            column: 15,
        },
        number: 3,
    };
    assert!(rt; left.power == Some(power) && right.power.is_none());
    assert!(rt; matches!(&left.expr, SetExpr::All { number: 2, .. }));
    assert!(rt; matches!(&right.expr, SetExpr::Name(_)));
    let Some(group) = only_factor(&two.expr) else {
        assert!(rt; false);
        return;
    };
    assert!(rt; is_at(group.at, 1, 29));
    assert!(rt; matches!(group.power, Some(SetPower { number: 2, .. })));
    let Some(
        SetPart {
            expr: SetExpr::Tensor(inner),
            ..
        },
    ) = only_part(&group.expr)
    else {
        assert!(rt; false);
        return;
    };
    let [name, vector] = inner.as_slice() else {
        assert!(rt; false);
        return;
    };
    assert!(rt; is_at(name.at, 1, 30) && is_at(vector.at, 1, 32));
    if let SetExpr::Bracket { at, terms } = &vector.expr {
        assert!(rt; is_at(*at, 1, 34) && terms.len() == 1);
    } else {
        assert!(rt; false);
    }
}

#[test]
fn claims_have_cases(rt: HostRuntime) {
    let found = parsed(
        &rt,
        b"claim c = a when x[3] == 01 and y == 0,\n (b) union b;\nset w_ = a;",
    )
    .ok();
    let Some(tree) = found else {
        assert!(rt; false);
        return;
    };
    let [
        SetItem::Claim { name, cases },
        SetItem::Set { name: second, .. },
    ] = tree.items.as_slice()
    else {
        assert!(rt; false);
        return;
    };
    assert!(rt; name.text.is(b"c") && is_at(name.at, 1, 7));
    assert!(rt; second.text.is(b"w_") && is_at(second.at, 3, 5));
    let [one, two] = cases.as_slice() else {
        assert!(rt; false);
        return;
    };
    assert!(rt; is_at(one.at, 1, 11) && is_at(two.at, 2, 2));
    assert!(rt; two.when.is_empty());
    let [x, y] = one.when.as_slice() else {
        assert!(rt; false);
        return;
    };
    assert!(rt; x.name.text.is(b"x") && is_at(x.name.at, 1, 18));
    assert!(rt; x.index == Some(3) && x.value);
    assert!(rt; y.name.text.is(b"y") && y.index.is_none() && !y.value);
}

fn is_unexpected(rt: &HostRuntime, source: &[u8], line: u32, column: u32, text: &[u8]) -> bool
    requires { length source.now ≤ 4194304 }
{
    match parsed(rt, source) {
        Err(SetParseFault::Unexpected { at, token }) => {
            is_at(at, line, column) && token.is(text)
        }
        _ => false,
    }
}

#[test]
fn an_empty_file_has_no_items(rt: HostRuntime) {
    let found = parsed(&rt, b" // nothing").ok();
    assert!(rt; found.is_some());
    if let Some(tree) = found {
        assert!(rt; tree.items.is_empty());
    }
}

#[test]
fn faults_stand_at_the_first_wrong_token(rt: HostRuntime) {
    assert!(rt; is_unexpected(&rt, b"set a = [|0>]", 1, 14, b""));
    assert!(rt; is_unexpected(&rt, b"set a = [|0>];\n;", 2, 1, b";"));
    assert!(rt; is_unexpected(&rt, b"set all = b;", 1, 5, b"all"));
    assert!(rt; is_unexpected(&rt, b"set a = w;", 1, 9, b"w"));
    assert!(rt; is_unexpected(&rt, b"set a = [+|0>];", 1, 10, b"+"));
    assert!(rt; is_unexpected(&rt, b"set a = [];", 1, 10, b"]"));
    assert!(rt; is_unexpected(&rt, b"set a = [2];", 1, 11, b"]"));
    assert!(rt; is_unexpected(&rt, b"set a = [2 3|0>];", 1, 12, b"3"));
    assert!(rt; is_unexpected(&rt, b"set a = [w i|0>];", 1, 12, b"i"));
    assert!(rt; is_unexpected(&rt, b"set a = [1/2|0>];", 1, 12, b"2"));
    assert!(rt; is_unexpected(&rt, b"set a = [(1,2,3)|0>];", 1, 16, b")"));
    assert!(rt; is_unexpected(&rt, b"set a = [((1,0,0,0))|0>];", 1, 11, b"("));
    assert!(rt; is_unexpected(&rt, b"set a = (1,0,0,0)|0>;", 1, 10, b"1"));
    assert!(rt; is_unexpected(&rt, b"set a = b^2^3;", 1, 12, b"^"));
    assert!(rt; is_unexpected(&rt, b"set a = b when c == 0;", 1, 11, b"when"));
    assert!(rt; is_unexpected(&rt, b"claim a = b when c == 2;", 1, 23, b"2"));
    assert!(rt; is_unexpected(&rt, b"claim a = b when c = 1;", 1, 20, b"="));
    assert!(rt; is_unexpected(&rt, b"claim a = b when;", 1, 17, b";"));
    assert!(rt; is_unexpected(&rt, b"claim a = b, ;", 1, 14, b";"));
}

/// `set a = `, and then so many times `(`, a name, and so many times `)`.
fn nested(rt: &HostRuntime, opened: usize, closed: usize) -> Result<Vec<u8>, AllocError> {
    let mut source = Vec::new(rt.alloc());
    source.extend_from_slice(b"set a=")?;
    for _ in 0..opened {
        source.push(b'(')?;
    }
    source.push(b'b')?;
    for _ in 0..closed {
        source.push(b')')?;
    }
    source.push(b';')?;
    Ok(source)
}

#[test]
fn parentheses_nest_sixty_four_deep(rt: HostRuntime) -> Result<(), Fail> {
    let deepest = nested(&rt, 64, 64)?;
    assert!(rt; deepest.len() == 136);
    assert!(rt; parsed(&rt, deepest.as_slice()).is_ok());
    let deeper = nested(&rt, 65, 0)?;
    assert!(rt; deeper.len() == 73);
    match parsed(&rt, deeper.as_slice()) {
        Err(SetParseFault::TooDeep { at }) => assert!(rt; is_at(at, 1, 71)),
        _ => assert!(rt; false),
    }
    let open = nested(&rt, 64, 63)?;
    assert!(rt; open.len() == 135);
    assert!(rt; is_unexpected(&rt, open.as_slice(), 1, 135, b";"));
    Ok(())
}

/// So many times `([(1,0,0,0)|0>])*`, and a name: parentheses that are closed don't count, nor do quadruples.
fn chain(rt: &HostRuntime, times: usize) -> Result<Vec<u8>, AllocError> {
    let mut source = Vec::new(rt.alloc());
    source.extend_from_slice(b"set a=")?;
    for _ in 0..times {
        source.extend_from_slice(b"([(1,0,0,0)|0>])*")?;
    }
    source.extend_from_slice(b"b;")?;
    Ok(source)
}

#[test]
fn chains_may_be_long(rt: HostRuntime) -> Result<(), Fail> {
    let source = chain(&rt, 100_000)?;
    assert!(rt; source.len() == 1_700_008);
    let found = parsed(&rt, source.as_slice()).ok();
    assert!(rt; found.is_some());
    if let Some(tree) = found {
        let Some(part) = only_set(&tree).and_then(only_part) else {
            assert!(rt; false);
            return Ok(());
        };
        if let SetExpr::Tensor(factors) = &part.expr {
            assert_eq!(rt; factors.len(), 100_001);
        } else {
            assert!(rt; false);
        }
    }
    Ok(())
}
