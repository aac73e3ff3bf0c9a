ghost use Rattle.std.specs.Prelude.{◌≤◌, length};

use crate::{SetKind, SetLexFault, SetSymbol, SetTokens, tokens_of_sets};
use aq_lex::Place;
use std::alloc::Global;
use std::test::Fail;

fn kinds_of(alloc: Global, text: &[u8]) -> Result<Vec<SetKind>, Fail>
    requires { length text.now ≤ 4194304 }
{
    let mut kinds = Vec::new(alloc);
    if let Ok(read) = tokens_of_sets(alloc, text) {
        for token in read.list() {
            kinds.push(token.kind)?;
        }
    }
    Ok(kinds)
}

fn fault_of(alloc: Global, text: &[u8]) -> Option<SetLexFault>
    requires { length text.now ≤ 4194304 }
{
    tokens_of_sets(alloc, text).err()
}

#[test]
fn kinds(rt: HostRuntime) -> Result<(), Fail> {
    let alloc = rt.alloc();
    let read = kinds_of(
        alloc,
        b"a1_ /* x\n */ 12 // c\n \r\t|01>= == ; , [ ] ( ) * ^ + - /".as_slice(),
    )?;
    let wanted = [
        SetKind::Name,
        SetKind::Number(12),
        SetKind::Ket,
        SetKind::Symbol(SetSymbol::Assign),
        SetKind::Symbol(SetSymbol::Equals),
        SetKind::Symbol(SetSymbol::Semicolon),
        SetKind::Symbol(SetSymbol::Comma),
        SetKind::Symbol(SetSymbol::BracketOpen),
        SetKind::Symbol(SetSymbol::BracketClose),
        SetKind::Symbol(SetSymbol::ParenOpen),
        SetKind::Symbol(SetSymbol::ParenClose),
        SetKind::Symbol(SetSymbol::Star),
        SetKind::Symbol(SetSymbol::Caret),
        SetKind::Symbol(SetSymbol::Plus),
        SetKind::Symbol(SetSymbol::Minus),
        SetKind::Symbol(SetSymbol::Slash),
        SetKind::End,
    ];
    assert_eq!(rt; read.as_slice(), wanted.as_slice());
    Ok(())
}

#[test]
fn pieces_are_as_long_as_possible(rt: HostRuntime) -> Result<(), Fail> {
    let alloc = rt.alloc();
    let rows: [(&[u8], &[SetKind]); 7] = [
        (b"", &[SetKind::End]),
        (
            b"===",
            &[
                SetKind::Symbol(SetSymbol::Equals),
                SetKind::Symbol(SetSymbol::Assign),
                SetKind::End,
            ],
        ),
        (b"|0>|10>", &[SetKind::Ket, SetKind::Ket, SetKind::End]),
        (b"/*|*/|1>//|", &[SetKind::Ket, SetKind::End]),
        (
            b"007w_3",
            &[SetKind::Number(7), SetKind::Name, SetKind::End],
        ),
        (
            b"170141183460469231731687303715884105727",
            &[
                SetKind::Number(170_141_183_460_469_231_731_687_303_715_884_105_727),
                SetKind::End,
            ],
        ),
        (b"/**/ //*", &[SetKind::End]),
    ];
    for (text, wanted) in rows {
        assert!(rt; text.len() < 100);
        assert_eq!(rt; kinds_of(alloc, text)?.as_slice(), wanted);
    }
    Ok(())
}

#[test]
fn faults(rt: HostRuntime) -> Result<(), Fail> {
    let alloc = rt.alloc();
    let at = Place { line: 2, column: 3 };
    let rows: [(&[u8], SetLexFault); 12] = [
        (
            b"a\n  170141183460469231731687303715884105728",
            SetLexFault::LongNumber { at },
        ),
        (
            b"a\n  200000000000000000000000000000000000000",
            SetLexFault::LongNumber { at },
        ),
        (b"a\n  /*/", SetLexFault::OpenComment { at }),
        (b"a\n  |", SetLexFault::BadKet { at }),
        (b"a\n  |>", SetLexFault::BadKet { at }),
        (b"a\n  |2>", SetLexFault::BadKet { at }),
        (b"a\n  |01", SetLexFault::BadKet { at }),
        (b"a\n  {", SetLexFault::BadByte { at, byte: b'{' }),
        (b"a\n  \xCF\x80", SetLexFault::BadByte { at, byte: 0xCF }),
        (b"\n3 \xEF\xBB\xBF", SetLexFault::BadByte { at, byte: 0xEF }),
        (b"a\n  \xCF", SetLexFault::NotUtf8 { at }),
        (b"?\n  \xCF/*", SetLexFault::NotUtf8 { at }),
    ];
    for (text, wanted) in rows {
        assert!(rt; text.len() < 100);
        assert_eq!(rt; fault_of(alloc, text), Some(wanted));
    }
    Ok(())
}

fn last_text<'a>(read: &'a SetTokens<'_>) -> &'a [u8] {
    let count = read.list().len();
    if count < 2 { b"" } else { read.text(count - 2) }
}

#[test]
fn places_count_bytes(rt: HostRuntime) -> Result<(), Fail> {
    let alloc = rt.alloc();
    let Ok(read) = tokens_of_sets(alloc, b"a;\r\n/* \xC3\xA9 */ |01>".as_slice()) else {
        assert!(rt; false);
        return Ok(());
    };
    assert_eq!(rt; read.list().len(), 4);
    let token = read.list()[2];
    assert_eq!(rt;
        token.at,
        Place {
            line: 2,
            column: 10
        }
    );
    assert_eq!(rt; (token.start, token.end), (13, 17));
    assert_eq!(rt; last_text(&read), b"|01>".as_slice());
    Ok(())
}
