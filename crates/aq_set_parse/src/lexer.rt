ghost use Rattle.std.specs.Prelude.{◌≡◌, ◌+◌, ◌<◌, ◌≤◌, ◌^◌, ◌++◌, List, ℕ, length, IfOk, IfErr, IfSome, Ok};
ghost use Rattle.aq_lex.specs.Stands.{Stands};
ghost use Rattle.aq_set_parse.specs.Cuts.{reading, token, Reads};
ghost use Rattle.aq_set_parse.specs.Told.{FaultOf};

use crate::fault::SetLexFault;
use crate::front::set_front;
use crate::list::SetTokens;
use crate::token::{SetClass, SetKind, SetToken};
use aq_lex::Cursor;
use simdutf8::compat;
use std::alloc::Global;

/// A token of this kind between two places.
fn token(kind: SetKind, from: Cursor, to: Cursor) -> SetToken
    requires from { from.offset < 2 ^ 31 }
    requires to { to.offset < 2 ^ 31 }
    ensures token { (before text : List ℕ) → Stands from before → Stands to (before ++ text)
        → result ≡ token kind before text }
    ensures span { (result.start ≡ from.offset) × (result.end ≡ to.offset) }
{
    SetToken {
        kind,
        start: from.offset as u32,
        end: to.offset as u32,
        at: from.place(),
    }
}

/// What a piece between two places gives: no token, a token, or the fault that it is.
fn reading(class: SetClass, from: Cursor, to: Cursor) -> Result<Option<SetToken>, SetLexFault>
    requires from { from.offset < 2 ^ 31 }
    requires to { to.offset < 2 ^ 31 }
    ensures value { (before text : List ℕ) → Stands from before → Stands to (before ++ text)
        → result ≡ reading before class text }
    ensures span { IfOk result (λ o. IfSome o (λ t. (t.start ≡ from.offset) × (t.end ≡ to.offset))) }
{
    let at = from.place();
    match class {
        SetClass::Blank => Ok(None),
        SetClass::Comment => Ok(None),
        SetClass::Token(kind) => Ok(Some(token(kind, from, to))),
        SetClass::OpenComment => Err(SetLexFault::OpenComment { at }),
        SetClass::LongNumber => Err(SetLexFault::LongNumber { at }),
        SetClass::BadKet => Err(SetLexFault::BadKet { at }),
        SetClass::BadByte(byte) => Err(SetLexFault::BadByte { at, byte }),
    }
}

/// The tokens of a set file, by the one cut of it into pieces that are as long as possible; blanks and
/// comments are dropped, and the last token is End. The fault is `NotUtf8` where the text is no UTF-8,
/// and else the first one in the text. `Memory` may come at any text.
pub fn tokens_of_sets(alloc: Global, source: &[u8]) -> Result<SetTokens<'_>, SetLexFault>
    requires { length source.now ≤ 4194304 }
    // The tokens are those of the text's one cut.
    ensures tokens { IfOk result (λ t. (t.source ≡ source.now) × Reads source.now (Ok t.list)) }
    // A fault is the first one that stops the cut, at its place; out of memory may come at any text.
    ensures fault { IfErr result (FaultOf source.now) }
{
    if let Err(error) = compat::from_utf8(source) {
        let cursor = Cursor::start().past(&source[..error.valid_up_to()]);
        return Err(SetLexFault::NotUtf8 { at: cursor.place() });
    }
    let mut list = Vec::new(alloc);
    let mut cursor = Cursor::start();
    while cursor.offset < source.len() {
        let rest = &source[cursor.offset..];
        let found = set_front(rest);
        let next = cursor.past(&rest[..found.len]);
        match reading(found.class, cursor, next) {
            Ok(None) => {}
            Ok(Some(token)) => {
                if list.push(token).is_err() {
                    return Err(SetLexFault::Memory);
                }
            }
            Err(fault) => return Err(fault),
        }
        cursor = next;
    }
    if list.push(token(SetKind::End, cursor, cursor)).is_err() {
        return Err(SetLexFault::Memory);
    }
    Ok(SetTokens { source, list })
}
