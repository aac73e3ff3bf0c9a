ghost use Rattle.std.specs.Prelude.{◌≡◌, []};
ghost use Rattle.aq_grammar.specs.Words.{first};
ghost use Rattle.aq_grammar.specs.Results.{Gives};
ghost use Rattle.aq_parse.specs.Tokens.{
  begins,
  begins_name,
  begins_number,
  begins_note,
  mark_at,
  number_at,
  name_at,
  pi_at,
  value_at,
  three_at,
  library_at,
  note_at,
  end_at,
  place_of,
  is_sort,
  value_in,
  taken_if,
  version_in,
  library_in,
};
ghost use Rattle.aq_parse.specs.Reading.{start_of, opening_of};

use crate::lexeme::{Lexeme, Sort};
use crate::mark::Mark;
use crate::tree::{Note, Word};
use crate::words::{is_library, is_version_three};
use aq_grammar::Stop;
use aq_lex::{Place, Text, note_parts};
use sqlite_items::Items;
use std::alloc::Global;

/// Why reading stopped.
#[derive(Clone, Copy, Debug, PartialEq, Eq)]
pub enum Fault {
    Unexpected,
    NotTaken,
    TooDeep,
}

pub(crate) type Halt<'a> = Stop<'a, Lexeme<'a>, Fault>;

/// Which statement without a body begins with a token.
#[derive(Clone, Copy, Debug, PartialEq, Eq)]
pub enum Start {
    Include,
    Qubit,
    Qreg,
    Bit,
    Creg,
    Measure,
    Reset,
    Barrier,
    Named,
}

/// Which kind of statement begins with a token.
#[derive(Clone, Copy, Debug, PartialEq, Eq)]
pub enum Opening {
    If,
    While,
    Foreign,
    Simple,
}

fn same(left: Mark, right: Mark) -> bool
    ensures { result ≡ is_sort right (Sort.Fixed left) }
{
    left as u8 == right as u8
}

/// Whether the next token is this one.
pub(crate) fn starts(tokens: &[Lexeme<'_>], wanted: Mark) -> bool
    ensures { result ≡ begins wanted (first tokens.now) }
{
    match tokens.split_first() {
        Some((token, _)) => match token.sort {
            Sort::Fixed(found) => same(found, wanted),
            _ => false,
        },
        None => false,
    }
}

pub(crate) fn mark<'a>(tokens: &'a [Lexeme<'a>], wanted: Mark) -> Result<&'a [Lexeme<'a>], Halt<'a>>
    ensures { Gives (λ rest. (tt, rest.now)) result (mark_at wanted tokens.now) }
{
    if let Some((token, rest)) = tokens.split_first() {
        if let Sort::Fixed(found) = token.sort {
            if same(found, wanted) {
                return Ok(rest);
            }
        }
    }
    Err(Stop::At(Fault::Unexpected, tokens))
}

pub(crate) fn number<'a>(tokens: &'a [Lexeme<'a>]) -> Result<(u32, &'a [Lexeme<'a>]), Halt<'a>>
    ensures { Gives (λ x. (x.0, x.1.now)) result (number_at tokens.now) }
{
    if let Some((token, rest)) = tokens.split_first() {
        if let Sort::Number(number) = token.sort {
            return Ok((number, rest));
        }
    }
    Err(Stop::At(Fault::Unexpected, tokens))
}

/// The place of the next token.
pub(crate) fn place(tokens: &[Lexeme<'_>]) -> Place
    ensures { result ≡ place_of (first tokens.now) }
{
    match tokens.split_first() {
        Some((token, _)) => token.at,
        None => Place { line: 0, column: 0 },
    }
}

pub(crate) fn starts_name(tokens: &[Lexeme<'_>]) -> bool
    ensures { result ≡ begins_name (first tokens.now) }
{
    match tokens.split_first() {
        Some((token, _)) => matches!(token.sort, Sort::Name),
        None => false,
    }
}

pub(crate) fn starts_number(tokens: &[Lexeme<'_>]) -> bool
    ensures { result ≡ begins_number (first tokens.now) }
{
    match tokens.split_first() {
        Some((token, _)) => matches!(token.sort, Sort::Number(_)),
        None => false,
    }
}

pub(crate) fn starts_note(tokens: &[Lexeme<'_>]) -> bool
    ensures { result ≡ begins_note (first tokens.now) }
{
    match tokens.split_first() {
        Some((token, _)) => matches!(token.sort, Sort::Note),
        None => false,
    }
}

pub(crate) fn next_start(tokens: &[Lexeme<'_>]) -> Start
    ensures { result ≡ start_of (first tokens.now) }
{
    let Some((token, _)) = tokens.split_first() else {
        return Start::Named;
    };
    let Sort::Fixed(mark) = token.sort else {
        return Start::Named;
    };
    match mark {
        Mark::Include => Start::Include,
        Mark::Qubit => Start::Qubit,
        Mark::Qreg => Start::Qreg,
        Mark::Bit => Start::Bit,
        Mark::Creg => Start::Creg,
        Mark::Measure => Start::Measure,
        Mark::Reset => Start::Reset,
        Mark::Barrier => Start::Barrier,
        _ => Start::Named,
    }
}

pub(crate) fn next_opening(tokens: &[Lexeme<'_>]) -> Opening
    ensures { result ≡ opening_of (first tokens.now) }
{
    let Some((token, _)) = tokens.split_first() else {
        return Opening::Simple;
    };
    let Sort::Fixed(mark) = token.sort else {
        return Opening::Simple;
    };
    match mark {
        Mark::If => Opening::If,
        Mark::While => Opening::While,
        Mark::Foreign => Opening::Foreign,
        _ => Opening::Simple,
    }
}

pub(crate) fn name<'a>(
    alloc: Global,
    tokens: &'a [Lexeme<'a>],
) -> Result<(Word, &'a [Lexeme<'a>]), Halt<'a>>
    ensures { Gives (λ x. (x.0, x.1.now)) result (name_at tokens.now) }
{
    if let Some((token, rest)) = tokens.split_first() {
        if let Sort::Name = token.sort {
            let text = Text::from_slice(alloc, token.text)?;
            return Ok((Word { text, at: token.at }, rest));
        }
    }
    Err(Stop::At(Fault::Unexpected, tokens))
}

pub(crate) fn pi<'a>(tokens: &'a [Lexeme<'a>]) -> Result<&'a [Lexeme<'a>], Halt<'a>>
    ensures { Gives (λ rest. (tt, rest.now)) result (pi_at tokens.now) }
{
    if let Some((token, rest)) = tokens.split_first() {
        if let Sort::Fixed(found) = token.sort {
            if same(found, Mark::Pi) || same(found, Mark::PiSign) {
                return Ok(rest);
            }
        }
    }
    Err(Stop::At(Fault::Unexpected, tokens))
}

fn truth(sort: Sort) -> Option<bool>
    ensures { result ≡ value_in sort }
{
    match sort {
        Sort::Number(0) => Some(false),
        Sort::Number(1) => Some(true),
        Sort::Fixed(mark) => {
            if same(mark, Mark::True) {
                Some(true)
            } else if same(mark, Mark::False) {
                Some(false)
            } else {
                None
            }
        }
        _ => None,
    }
}

pub(crate) fn value<'a>(tokens: &'a [Lexeme<'a>]) -> Result<(bool, &'a [Lexeme<'a>]), Halt<'a>>
    ensures { Gives (λ x. (x.0, x.1.now)) result (value_at tokens.now) }
{
    if let Some((token, rest)) = tokens.split_first() {
        if let Some(value) = truth(token.sort) {
            return Ok((value, rest));
        }
    }
    Err(Stop::At(Fault::Unexpected, tokens))
}

fn checked(taken: bool) -> Result<(), Fault>
    ensures { result ≡ taken_if taken }
{
    if taken { Ok(()) } else { Err(Fault::NotTaken) }
}

fn version_number(sort: Sort, text: &[u8]) -> Result<(), Fault>
    ensures { result ≡ version_in sort text.now }
{
    match sort {
        Sort::Number(number) => checked(number == 3),
        Sort::Decimal => checked(is_version_three(text)),
        _ => Err(Fault::Unexpected),
    }
}

fn library_text(sort: Sort, text: &[u8]) -> Result<(), Fault>
    ensures { result ≡ library_in sort text.now }
{
    match sort {
        Sort::Quoted => checked(is_library(text)),
        _ => Err(Fault::Unexpected),
    }
}

pub(crate) fn three<'a>(tokens: &'a [Lexeme<'a>]) -> Result<&'a [Lexeme<'a>], Halt<'a>>
    ensures { Gives (λ rest. (tt, rest.now)) result (three_at tokens.now) }
{
    let Some((token, rest)) = tokens.split_first() else {
        return Err(Stop::At(Fault::Unexpected, tokens));
    };
    match version_number(token.sort, token.text) {
        Ok(()) => Ok(rest),
        Err(fault) => Err(Stop::At(fault, tokens)),
    }
}

pub(crate) fn library<'a>(tokens: &'a [Lexeme<'a>]) -> Result<&'a [Lexeme<'a>], Halt<'a>>
    ensures { Gives (λ rest. (tt, rest.now)) result (library_at tokens.now) }
{
    let Some((token, rest)) = tokens.split_first() else {
        return Err(Stop::At(Fault::Unexpected, tokens));
    };
    match library_text(token.sort, token.text) {
        Ok(()) => Ok(rest),
        Err(fault) => Err(Stop::At(fault, tokens)),
    }
}

pub(crate) fn note<'a>(
    alloc: Global,
    tokens: &'a [Lexeme<'a>],
) -> Result<(Note, &'a [Lexeme<'a>]), Halt<'a>>
    ensures { Gives (λ x. (x.0, x.1.now)) result (note_at tokens.now) }
{
    if let Some((token, rest)) = tokens.split_first() {
        if let Sort::Note = token.sort {
            let parts = note_parts(token.text);
            let text = Text::from_slice(alloc, parts.name)?;
            let name = Word { text, at: token.at };
            let after = Text::from_slice(alloc, parts.rest)?;
            return Ok((Note { name, rest: after }, rest));
        }
    }
    Err(Stop::At(Fault::Unexpected, tokens))
}

pub(crate) fn end<'a>(tokens: &'a [Lexeme<'a>]) -> Result<(Place, &'a [Lexeme<'a>]), Halt<'a>>
    ensures { Gives (λ x. (x.0, x.1.now)) result (end_at tokens.now) }
{
    if let Some((token, rest)) = tokens.split_first() {
        if let Sort::Fixed(found) = token.sort {
            if same(found, Mark::End) {
                return Ok((token.at, rest));
            }
        }
    }
    Err(Stop::At(Fault::Unexpected, tokens))
}

/// An empty list, and the tokens from which a loop fills it.
pub(crate) fn begin<'a, T>(
    alloc: Global,
    tokens: &'a [Lexeme<'a>],
) -> Result<(Items<T>, &'a [Lexeme<'a>]), Halt<'a>>
    ensures { Gives (λ x. (x.0, x.1.now)) result (Ok ([], tokens.now)) }
{
    Ok((Items::new(alloc), tokens))
}
