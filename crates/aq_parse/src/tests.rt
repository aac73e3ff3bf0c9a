ghost use Rattle.std.specs.Prelude.{◌≤◌, length};

use crate::fault::ParseFault;
use crate::laws::programs;
use crate::parser::parse;
use crate::tree::{Item, Node, Tree};
use aq_lex::{Place, tokens};
use std::alloc::AllocError;
use std::test::Fail;

fn parsed(rt: &HostRuntime, source: &[u8]) -> Result<Tree, ParseFault>
    requires { length source.now ≤ 1048576 }
{
    match tokens(rt.alloc(), source) {
        Ok(tokens) => parse(rt.alloc(), &tokens),
        Err(_) => Err(ParseFault::Memory),
    }
}

fn is_at(at: Place, line: u32, column: u32) -> bool {
    at.line == line && at.column == column
}

#[test]
fn statements_without_bodies(rt: HostRuntime) {
    let source =
        b"OPENQASM 3.0; include 'stdgates.inc'; qubit[2] q; qreg r[3]; bit c = measure q[1]; creg d;\nmeasure q -> c; c[0] = measure r; reset q; barrier; barrier q, r[0]; rx(-3*pi/4) q; cx q, r[1];";
    let found = parsed(&rt, source).ok();
    assert!(rt; found.is_some());
    if let Some(tree) = found {
        assert_eq!(rt; tree.items.len(), 12);
        assert!(rt; is_at(tree.end, 2, 96));
        assert!(rt;
            matches!(
                tree.items.as_slice(),
                [
                    Item {
                        node: Node::Include,
                        ..
                    },
                    Item {
                        node: Node::Qubits { size: Some(2), .. },
                        ..
                    },
                    Item {
                        node: Node::Qubits { size: Some(3), .. },
                        ..
                    },
                    Item {
                        node: Node::Bits {
                            size: None,
                            from: Some(_),
                            ..
                        },
                        ..
                    },
                    Item {
                        node: Node::Bits {
                            size: None,
                            from: None,
                            ..
                        },
                        ..
                    },
                    Item {
                        node: Node::Measure {
                            into: Some(_),
                            into_first: false,
                            ..
                        },
                        ..
                    },
                    Item {
                        node: Node::Measure {
                            into: Some(_),
                            into_first: true,
                            ..
                        },
                        ..
                    },
                    ..
                ]
            )
        );
    }
}

#[test]
fn names_and_angles(rt: HostRuntime) {
    programs();
    let found = parsed(&rt, b"rx(-3*\xCF\x80/4) q[5];").ok();
    assert!(rt; found.is_some());
    if let Some(tree) = found {
        for item in tree.items.as_slice() {
            assert!(rt; is_at(item.at, 1, 1));
            if let Node::Call { name, angle, spots } = &item.node {
                assert!(rt; name.text.is(b"rx"));
                assert_eq!(rt; spots.len(), 1);
                assert!(rt; angle.is_some());
                if let Some(angle) = angle {
                    assert!(rt; is_at(angle.at, 1, 4));
                    assert!(rt; angle.minus && angle.pi && angle.times == 3 && angle.over == 4);
                }
            } else {
                assert!(rt; false);
            }
        }
    }
}

#[test]
fn notes_stand_before_a_statement(rt: HostRuntime) {
    let found = parsed(
        &rt,
        b"@invariant  loop_1 // why\n@ other\n  while (!c) { x q; }",
    )
    .ok();
    assert!(rt; found.is_some());
    if let Some(tree) = found {
        for item in tree.items.as_slice() {
            assert!(rt; is_at(item.at, 3, 3));
            assert_eq!(rt; item.notes.len(), 2);
            for note in item.notes.as_slice() {
                if note.name.at.line == 1 {
                    assert!(rt; note.name.text.is(b"invariant"));
                    assert!(rt; note.rest.is(b"loop_1"));
                } else {
                    assert!(rt; note.name.text.is(b""));
                    assert!(rt; note.rest.is(b"other"));
                }
            }
            assert!(rt; matches!(&item.node, Node::While { .. }));
            if let Node::While { test, body } = &item.node {
                assert!(rt; !test.value);
                assert_eq!(rt; body.len(), 1);
            }
        }
    }
}

/// The `else` belongs to the second `if`.
#[test]
fn nearest_if(rt: HostRuntime) {
    let found = parsed(&rt, b"if (a) if (b == 0) x q; else { }").ok();
    assert!(rt; found.is_some());
    if let Some(tree) = found {
        for outer in tree.items.as_slice() {
            assert!(rt; matches!(&outer.node, Node::If { .. }));
            if let Node::If { yes, no, .. } = &outer.node {
                assert_eq!(rt; no.len(), 0);
                assert_eq!(rt; yes.len(), 1);
                for inner in yes.as_slice() {
                    if let Node::If { test, yes, .. } = &inner.node {
                        assert!(rt; !test.value);
                        assert_eq!(rt; yes.len(), 1);
                    } else {
                        assert!(rt; false);
                    }
                }
            }
        }
    }
}

fn is_unexpected(rt: &HostRuntime, source: &[u8], line: u32, column: u32, text: &[u8]) -> bool
    requires { length source.now ≤ 1048576 }
{
    match parsed(rt, source) {
        Err(ParseFault::Unexpected { at, token }) => is_at(at, line, column) && token.is(text),
        _ => false,
    }
}

fn is_not_taken(rt: &HostRuntime, source: &[u8], line: u32, column: u32, text: &[u8]) -> bool
    requires { length source.now ≤ 1048576 }
{
    match parsed(rt, source) {
        Err(ParseFault::NotTaken { at, word }) => is_at(at, line, column) && word.is(text),
        _ => false,
    }
}

#[test]
fn faults_stand_at_the_first_wrong_token(rt: HostRuntime) {
    assert!(rt; is_unexpected(&rt, b"x q\n;;", 2, 2, b";"));
    assert!(rt; is_unexpected(&rt, b"x q", 1, 4, b""));
    assert!(rt; is_unexpected(&rt, b"qubit if;", 1, 7, b"if"));
    assert!(rt; is_unexpected(&rt, b"if (c == 2) x q;", 1, 10, b"2"));
    assert!(rt; is_unexpected(&rt, b"x gate;", 1, 3, b"gate"));
    assert!(rt; is_not_taken(&rt, b"@assert a\ngate g q { }", 2, 1, b"gate"));
    assert!(rt; is_not_taken(&rt, b"OPENQASM 2.0;", 1, 10, b"2.0"));
    assert!(rt; is_not_taken(&rt, b"include \"qelib1.inc\";", 1, 9, b"\"qelib1.inc\""));
}

/// `if (c)` so many times, and a call.
fn nested(rt: &HostRuntime, depth: usize) -> Result<Vec<u8>, AllocError> {
    let mut source = Vec::new(rt.alloc());
    for _ in 0..depth {
        source.extend_from_slice(b"if(c)")?;
    }
    source.extend_from_slice(b"x q;")?;
    Ok(source)
}

#[test]
fn bodies_nest_sixty_four_deep(rt: HostRuntime) -> Result<(), Fail> {
    let deepest = nested(&rt, 64)?;
    assert!(rt; deepest.len() == 324);
    assert!(rt; parsed(&rt, deepest.as_slice()).is_ok());
    let deeper = nested(&rt, 65)?;
    assert!(rt; deeper.len() == 329);
    match parsed(&rt, deeper.as_slice()) {
        Err(ParseFault::TooDeep { at }) => assert!(rt; is_at(at, 1, 326)),
        _ => assert!(rt; false),
    }
    Ok(())
}

/// So many times the piece.
fn repeated(rt: &HostRuntime, piece: &[u8], times: usize) -> Result<Vec<u8>, AllocError> {
    let mut source = Vec::new(rt.alloc());
    for _ in 0..times {
        for byte in piece {
            source.push(*byte)?;
        }
    }
    Ok(source)
}

#[test]
fn long_programs(rt: HostRuntime) -> Result<(), Fail> {
    let many = repeated(&rt, b"x q[0];\n", 100_000)?;
    assert!(rt; many.len() == 800_000);
    let found = parsed(&rt, many.as_slice()).ok();
    assert!(rt; found.is_some());
    if let Some(tree) = found {
        assert_eq!(rt; tree.items.len(), 100_000);
    }
    let mut wide = repeated(&rt, b"barrier a", 1)?;
    let more = repeated(&rt, b", a", 100_000)?;
    wide.extend_from_slice(more.as_slice())?;
    wide.extend_from_slice(b";")?;
    assert!(rt; wide.len() == 300_010);
    assert!(rt; parsed(&rt, wide.as_slice()).is_ok());
    let empty = repeated(&rt, b";", 1_000_000)?;
    assert!(rt; empty.len() == 1_000_000);
    assert!(rt; is_unexpected(&rt, empty.as_slice(), 1, 1, b";"));
    Ok(())
}
