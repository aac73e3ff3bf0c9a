ghost use Rattle.std.specs.Prelude.{◌≤◌, length};

use crate::{SetFault, read_sets};
use aq_lex::Place;
use std::alloc::Global;
use std::test::Fail;

/// The name, the place and the text of a fault of bytes, tokens or the grammar.
fn told(fault: &SetFault) -> Option<(&str, Place, &[u8])> {
    match fault {
        SetFault::NotUtf8 { at } => Some(("NotUtf8", *at, b"")),
        SetFault::BadByte { at, byte: _ } => Some(("BadByte", *at, b"")),
        SetFault::OpenComment { at } => Some(("OpenComment", *at, b"")),
        SetFault::LongNumber { at } => Some(("LongNumber", *at, b"")),
        SetFault::BadKet { at } => Some(("BadKet", *at, b"")),
        SetFault::Unexpected { at, token } => Some(("Unexpected", *at, token.as_slice())),
        SetFault::TooDeep { at } => Some(("TooDeep", *at, b"")),
        _ => None,
    }
}

/// Whether a text has this fault, here, at a token of this text.
fn has_fault(alloc: Global, source: &[u8], name: &str, line: u32, column: u32, token: &[u8]) -> bool
    requires { length source.now ≤ 4194304 }
{
    let Err(fault) = read_sets(alloc, source) else {
        return false;
    };
    match told(&fault) {
        Some((found, at, text)) => {
            found == name && at.line == line && at.column == column && text == token
        }
        None => false,
    }
}

#[test]
fn faults_of_bytes_and_tokens_are_told(rt: HostRuntime) {
    let rows: [(&[u8], &str, u32, u32); 13] = [
        (b"set a = \xff;", "NotUtf8", 1, 9),
        (
            b"// caf\xc3\xa9\nset a = all 1; /* \xe9 */",
            "NotUtf8",
            2,
            19,
        ),
        (b"set a = $; \xff", "NotUtf8", 1, 12),
        (b"set a = $;", "BadByte", 1, 9),
        (b"set a = all 1;\n  {", "BadByte", 2, 3),
        (b"set set = $;", "BadByte", 1, 11),
        (b"set a = all 1; /* b", "OpenComment", 1, 16),
        (b"/*/\nset a", "OpenComment", 1, 1),
        (
            b"set a = all 170141183460469231731687303715884105728;",
            "LongNumber",
            1,
            13,
        ),
        (
            b"set a = all 1\n^ 99999999999999999999999999999999999999999;",
            "LongNumber",
            2,
            3,
        ),
        (b"set a = [|>];", "BadKet", 1, 10),
        (b"set a = [|0> + |02>];", "BadKet", 1, 16),
        (b"set a = b\n| 0>", "BadKet", 2, 1),
    ];
    for (source, name, line, column) in rows {
        assert!(rt; source.len() < 100);
        assert!(rt; has_fault(rt.alloc(), source, name, line, column, b""));
    }
}

#[test]
fn wrong_tokens_are_told(rt: HostRuntime) {
    let rows: [(&[u8], u32, u32, &[u8]); 5] = [
        (b"set a = all 1", 1, 14, b""),
        (b"set a = all;", 1, 12, b";"),
        (b"set set = all 1;", 1, 5, b"set"),
        (b"set a = b; set", 1, 15, b""),
        (b"claim a = [|0>]\nwhen b == 2;", 2, 11, b"2"),
    ];
    for (source, line, column, token) in rows {
        assert!(rt; source.len() < 100);
        assert!(rt; has_fault(rt.alloc(), source, "Unexpected", line, column, token));
    }
}

/// A front of a text, and then so many times `(`.
fn opened(alloc: Global, front: &[u8], times: u32) -> Result<Vec<u8>, Fail> {
    let mut text = Vec::from_slice(alloc, front)?;
    for _ in 0..times {
        text.push(b'(')?;
    }
    Ok(text)
}

#[test]
fn open_parentheses_are_told(rt: HostRuntime) -> Result<(), Fail> {
    let alloc = rt.alloc();
    let rows: [(&[u8], u32, u32); 2] = [(b"set a=", 1, 71), (b"claim c = a,\n all 1 * ", 2, 74)];
    for (front, line, column) in rows {
        let text = opened(alloc, front, 65)?;
        assert!(rt; text.len() < 100);
        assert!(rt; has_fault(alloc, text.as_slice(), "TooDeep", line, column, b""));
        let text = opened(alloc, front, 64)?;
        assert!(rt; text.len() < 100);
        assert!(rt; has_fault(alloc, text.as_slice(), "Unexpected", line, column, b""));
    }
    Ok(())
}

#[test]
fn a_file_has_its_sets_and_claims(rt: HostRuntime) {
    let source: &[u8] =
        b"set zero = [|00>];\n// both\nset both = zero union [|00> - |11>];\nclaim post = both;";
    assert!(rt; source.len() < 100);
    match read_sets(rt.alloc(), source) {
        Ok(sets) => {
            assert!(rt; sets.exprs.len() == 3 && sets.sets.len() == 2 && sets.claims.len() == 1);
        }
        Err(_) => assert!(rt; false),
    }
    match read_sets(rt.alloc(), b"") {
        Ok(sets) => assert!(rt; sets.exprs.is_empty() && sets.claims.is_empty()),
        Err(_) => assert!(rt; false),
    }
}
