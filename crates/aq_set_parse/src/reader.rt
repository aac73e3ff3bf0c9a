ghost use Rattle.std.specs.Prelude.{◌≡◌, []};
ghost use Rattle.aq_grammar.specs.Words.{first};
ghost use Rattle.aq_grammar.specs.Results.{Gives};
ghost use Rattle.aq_set_parse.specs.Tokens.{
  begins,
  begins_number,
  begins_ket,
  begins_sign,
  mark_at,
  number_at,
  name_at,
  ket_at,
  value_at,
  plus_or_minus_at,
  place_of,
  is_sort,
  value_in,
  minus_in,
};
ghost use Rattle.aq_set_parse.specs.Reading.{opening_of};

use crate::lexeme::{SetLexeme, SetSort};
use crate::mark::SetMark;
use crate::tree::SetWord;
use aq_grammar::Stop;
use aq_lex::{Place, Text};
use sqlite_items::Items;
use std::alloc::Global;

/// Why reading stopped.
#[derive(Clone, Copy, Debug, PartialEq, Eq)]
pub enum Fault {
    Unexpected,
    TooDeep,
}

pub(crate) type Halt<'a> = Stop<'a, SetLexeme<'a>, Fault>;

/// Which atom of an expression begins with a token.
#[derive(Clone, Copy, Debug, PartialEq, Eq)]
pub enum Opening {
    Bracket,
    All,
    Group,
    Name,
}

fn same(left: SetMark, right: SetMark) -> bool
    ensures { result ≡ is_sort right (SetSort.Fixed left) }
{
    left as u8 == right as u8
}

/// Whether the next token is this one.
pub(crate) fn starts(tokens: &[SetLexeme<'_>], wanted: SetMark) -> bool
    ensures { result ≡ begins wanted (first tokens.now) }
{
    match tokens.split_first() {
        Some((token, _)) => match token.sort {
            SetSort::Fixed(found) => same(found, wanted),
            _ => false,
        },
        None => false,
    }
}

pub(crate) fn mark<'a>(
    tokens: &'a [SetLexeme<'a>],
    wanted: SetMark,
) -> Result<&'a [SetLexeme<'a>], Halt<'a>>
    ensures { Gives (λ rest. (tt, rest.now)) result (mark_at wanted tokens.now) }
{
    if let Some((token, rest)) = tokens.split_first() {
        if let SetSort::Fixed(found) = token.sort {
            if same(found, wanted) {
                return Ok(rest);
            }
        }
    }
    Err(Stop::At(Fault::Unexpected, tokens))
}

pub(crate) fn number<'a>(
    tokens: &'a [SetLexeme<'a>],
) -> Result<(u128, &'a [SetLexeme<'a>]), Halt<'a>>
    ensures { Gives (λ x. (x.0, x.1.now)) result (number_at tokens.now) }
{
    if let Some((token, rest)) = tokens.split_first() {
        if let SetSort::Number(number) = token.sort {
            return Ok((number, rest));
        }
    }
    Err(Stop::At(Fault::Unexpected, tokens))
}

/// The place of the next token.
pub(crate) fn place(tokens: &[SetLexeme<'_>]) -> Place
    ensures { result ≡ place_of (first tokens.now) }
{
    match tokens.split_first() {
        Some((token, _)) => token.at,
        None => Place { line: 0, column: 0 },
    }
}

pub(crate) fn starts_number(tokens: &[SetLexeme<'_>]) -> bool
    ensures { result ≡ begins_number (first tokens.now) }
{
    match tokens.split_first() {
        Some((token, _)) => matches!(token.sort, SetSort::Number(_)),
        None => false,
    }
}

pub(crate) fn starts_ket(tokens: &[SetLexeme<'_>]) -> bool
    ensures { result ≡ begins_ket (first tokens.now) }
{
    match tokens.split_first() {
        Some((token, _)) => matches!(token.sort, SetSort::Ket),
        None => false,
    }
}

pub(crate) fn next_opening(tokens: &[SetLexeme<'_>]) -> Opening
    ensures { result ≡ opening_of (first tokens.now) }
{
    let Some((token, _)) = tokens.split_first() else {
        return Opening::Name;
    };
    let SetSort::Fixed(mark) = token.sort else {
        return Opening::Name;
    };
    match mark {
        SetMark::BracketOpen => Opening::Bracket,
        SetMark::All => Opening::All,
        SetMark::ParenOpen => Opening::Group,
        _ => Opening::Name,
    }
}

pub(crate) fn name<'a>(
    alloc: Global,
    tokens: &'a [SetLexeme<'a>],
) -> Result<(SetWord, &'a [SetLexeme<'a>]), Halt<'a>>
    ensures { Gives (λ x. (x.0, x.1.now)) result (name_at tokens.now) }
{
    if let Some((token, rest)) = tokens.split_first() {
        if let SetSort::Name = token.sort {
            let text = Text::from_slice(alloc, token.text)?;
            return Ok((SetWord { text, at: token.at }, rest));
        }
    }
    Err(Stop::At(Fault::Unexpected, tokens))
}

pub(crate) fn ket<'a>(
    alloc: Global,
    tokens: &'a [SetLexeme<'a>],
) -> Result<(SetWord, &'a [SetLexeme<'a>]), Halt<'a>>
    ensures { Gives (λ x. (x.0, x.1.now)) result (ket_at tokens.now) }
{
    if let Some((token, rest)) = tokens.split_first() {
        if let SetSort::Ket = token.sort {
            let text = Text::from_slice(alloc, token.text)?;
            return Ok((SetWord { text, at: token.at }, rest));
        }
    }
    Err(Stop::At(Fault::Unexpected, tokens))
}

fn truth(sort: SetSort) -> Option<bool>
    ensures { result ≡ value_in sort }
{
    match sort {
        SetSort::Number(0) => Some(false),
        SetSort::Number(1) => Some(true),
        _ => None,
    }
}

pub(crate) fn value<'a>(
    tokens: &'a [SetLexeme<'a>],
) -> Result<(bool, &'a [SetLexeme<'a>]), Halt<'a>>
    ensures { Gives (λ x. (x.0, x.1.now)) result (value_at tokens.now) }
{
    if let Some((token, rest)) = tokens.split_first() {
        if let Some(value) = truth(token.sort) {
            return Ok((value, rest));
        }
    }
    Err(Stop::At(Fault::Unexpected, tokens))
}

/// Whether a sign between two terms is a minus.
fn minus(sort: SetSort) -> Option<bool>
    ensures { result ≡ minus_in sort }
{
    match sort {
        SetSort::Fixed(mark) => {
            if same(mark, SetMark::Minus) {
                Some(true)
            } else if same(mark, SetMark::Plus) {
                Some(false)
            } else {
                None
            }
        }
        _ => None,
    }
}

pub(crate) fn starts_sign(tokens: &[SetLexeme<'_>]) -> bool
    ensures { result ≡ begins_sign (first tokens.now) }
{
    match tokens.split_first() {
        Some((token, _)) => minus(token.sort).is_some(),
        None => false,
    }
}

pub(crate) fn plus_or_minus<'a>(
    tokens: &'a [SetLexeme<'a>],
) -> Result<(bool, &'a [SetLexeme<'a>]), Halt<'a>>
    ensures { Gives (λ x. (x.0, x.1.now)) result (plus_or_minus_at tokens.now) }
{
    if let Some((token, rest)) = tokens.split_first() {
        if let Some(minus) = minus(token.sort) {
            return Ok((minus, rest));
        }
    }
    Err(Stop::At(Fault::Unexpected, tokens))
}

/// An empty list, and the tokens from which a loop fills it.
pub(crate) fn begin<'a, T>(
    alloc: Global,
    tokens: &'a [SetLexeme<'a>],
) -> Result<(Items<T>, &'a [SetLexeme<'a>]), Halt<'a>>
    ensures { Gives (λ x. (x.0, x.1.now)) result (Ok ([], tokens.now)) }
{
    Ok((Items::new(alloc), tokens))
}
