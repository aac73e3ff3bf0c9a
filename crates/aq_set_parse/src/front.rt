ghost use Rattle.std.specs.Prelude.{◌≡◌, ◌≤◌, ◌<◌, ◌+◌, ◌^◌, length, slice_index, drop};
ghost use Rattle.aq_set_parse.specs.Fronts.{
  slash_class,
  comment_front,
  ket_front,
  number_front,
  equals_front,
  symbol_alone,
  alone,
  set_sign_front,
  set_front,
};

use crate::scan::{bits_len, number_class};
use crate::token::{SetClass, SetFound, SetKind, SetSymbol};
use aq_lex::scan::{begins, digits_len, is_blank, is_digit, is_letter, word_len};
use aq_lex::{Class, slash_front};

/// What a piece that begins with `/` is in a set file, by what it is in a program: comments are the same.
fn slash_class(class: Class) -> SetClass
    ensures { result ≡ slash_class class }
{
    match class {
        Class::Comment => SetClass::Comment,
        Class::OpenComment => SetClass::OpenComment,
        _ => SetClass::Token(SetKind::Symbol(SetSymbol::Slash)),
    }
}

fn comment_front(rest: &[u8]) -> SetFound
    requires { length rest.now < 2 ^ 32 }
    ensures value { result ≡ comment_front rest.now }
    ensures within { (0 < result.len) × (result.len ≤ length rest.now + 1) }
{
    let found = slash_front(rest);
    SetFound {
        class: slash_class(found.class),
        len: found.len,
    }
}

fn ket_front(rest: &[u8]) -> SetFound
    requires { length rest.now < 2 ^ 32 }
    ensures value { result ≡ ket_front rest.now }
    ensures within { (0 < result.len) × (result.len ≤ length rest.now + 1) }
{
    let len = bits_len(rest);
    if len > 0 && begins(b'>', &rest[len..]) {
        SetFound {
            class: SetClass::Token(SetKind::Ket),
            len: len + 2,
        }
    } else {
        SetFound {
            class: SetClass::BadKet,
            len: 1,
        }
    }
}

fn number_front(bytes: &[u8]) -> SetFound
    requires { length bytes.now < 2 ^ 32 }
    ensures value { result ≡ number_front bytes.now }
    ensures within { result.len ≤ length bytes.now }
{
    let len = digits_len(bytes);
    SetFound {
        class: number_class(&bytes[..len]),
        len,
    }
}

fn equals_front(rest: &[u8]) -> SetFound
    ensures value { result ≡ equals_front rest.now }
    ensures within { (0 < result.len) × (result.len ≤ length rest.now + 1) }
{
    if begins(b'=', rest) {
        SetFound {
            class: SetClass::Token(SetKind::Symbol(SetSymbol::Equals)),
            len: 2,
        }
    } else {
        SetFound {
            class: SetClass::Token(SetKind::Symbol(SetSymbol::Assign)),
            len: 1,
        }
    }
}

fn symbol_alone(byte: u8) -> Option<SetSymbol>
    ensures { result ≡ symbol_alone byte }
{
    match byte {
        b';' => Some(SetSymbol::Semicolon),
        b',' => Some(SetSymbol::Comma),
        b'[' => Some(SetSymbol::BracketOpen),
        b']' => Some(SetSymbol::BracketClose),
        b'(' => Some(SetSymbol::ParenOpen),
        b')' => Some(SetSymbol::ParenClose),
        b'*' => Some(SetSymbol::Star),
        b'^' => Some(SetSymbol::Caret),
        b'+' => Some(SetSymbol::Plus),
        b'-' => Some(SetSymbol::Minus),
        _ => None,
    }
}

fn alone(byte: u8) -> SetFound
    ensures value { result ≡ alone byte (symbol_alone byte) }
    ensures within { result.len ≡ 1 }
{
    match symbol_alone(byte) {
        Some(symbol) => SetFound {
            class: SetClass::Token(SetKind::Symbol(symbol)),
            len: 1,
        },
        None => SetFound {
            class: SetClass::BadByte(byte),
            len: 1,
        },
    }
}

#[tactic(auto, unfolding(crate::specs::Fronts::set_sign_front))]
fn set_sign_front(first: u8, rest: &[u8]) -> SetFound
    requires { length rest.now < 2 ^ 32 }
    ensures value { result ≡ set_sign_front first rest.now }
    ensures within { (0 < result.len) × (result.len ≤ length rest.now + 1) }
{
    if first == b'/' {
        comment_front(rest)
    } else if first == b'|' {
        ket_front(rest)
    } else if first == b'=' {
        equals_front(rest)
    } else {
        alone(first)
    }
}

#[tactic(auto, unfolding(crate::specs::Fronts::set_front))]
/// What stands at the front of the bytes, of which there are some.
pub(crate) fn set_front(bytes: &[u8]) -> SetFound
    requires some { 0 < length bytes.now }
    requires few { length bytes.now < 2 ^ 32 }
    ensures value { result ≡ set_front (slice_index bytes.now 0) (drop 1 bytes.now) }
    ensures within { (0 < result.len) × (result.len ≤ length bytes.now) }
{
    let first = bytes[0];
    let rest = &bytes[1..];
    if is_letter(first) {
        SetFound {
            class: SetClass::Token(SetKind::Name),
            len: word_len(rest) + 1,
        }
    } else if is_digit(first) {
        number_front(bytes)
    } else if is_blank(first) {
        SetFound {
            class: SetClass::Blank,
            len: 1,
        }
    } else {
        set_sign_front(first, rest)
    }
}
