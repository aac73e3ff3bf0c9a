ghost use Rattle.std.specs.Prelude.{◌≡◌, ◌<◌, IfOk, Some, length, slice_get};
ghost use Rattle.aq_set_parse.specs.declared.token.SetToken.{SetToken};
ghost use Rattle.aq_set_parse.specs.Pieces.{sign_mark, sort_at, piece, piece_of, pieces};

use crate::lexeme::{SetLexeme, SetSort};
use crate::list::SetTokens;
use crate::mark::SetMark;
use crate::token::{SetKind, SetSymbol, SetToken};
use crate::words::reserved_word;
use std::alloc::{AllocError, Global};

fn mark_of_sign(symbol: SetSymbol) -> SetMark
    ensures { result ≡ sign_mark symbol }
{
    match symbol {
        SetSymbol::Assign => SetMark::Assign,
        SetSymbol::Equals => SetMark::Equals,
        SetSymbol::Semicolon => SetMark::Semicolon,
        SetSymbol::Comma => SetMark::Comma,
        SetSymbol::BracketOpen => SetMark::BracketOpen,
        SetSymbol::BracketClose => SetMark::BracketClose,
        SetSymbol::ParenOpen => SetMark::ParenOpen,
        SetSymbol::ParenClose => SetMark::ParenClose,
        SetSymbol::Star => SetMark::Star,
        SetSymbol::Caret => SetMark::Caret,
        SetSymbol::Plus => SetMark::Plus,
        SetSymbol::Minus => SetMark::Minus,
        SetSymbol::Slash => SetMark::Slash,
    }
}

fn sort_of_kind(kind: SetKind, text: &[u8]) -> SetSort
    ensures { result ≡ sort_at kind text.now }
{
    match kind {
        SetKind::Name => match reserved_word(text) {
            Some(mark) => SetSort::Fixed(mark),
            None => SetSort::Name,
        },
        SetKind::Number(number) => SetSort::Number(number),
        SetKind::Ket => SetSort::Ket,
        SetKind::Symbol(symbol) => SetSort::Fixed(mark_of_sign(symbol)),
        SetKind::End => SetSort::Fixed(SetMark::End),
    }
}

fn make_lexeme<'a>(token: SetToken, text: &'a [u8]) -> SetLexeme<'a>
    ensures { result ≡ piece token text.now }
{
    SetLexeme {
        sort: sort_of_kind(token.kind, text),
        text,
        at: token.at,
    }
}

fn lexeme_at<'a>(tokens: &'a SetTokens<'_>, i: usize) -> SetLexeme<'a>
    requires { i < length tokens.now.list }
    ensures { (t : SetToken) → slice_get tokens.now.list i ≡ Some t → result ≡ piece_of tokens.now.source t }
{
    make_lexeme(tokens.list()[i], tokens.text(i))
}

/// The tokens as the grammar sees them.
pub(crate) fn lexemes<'a>(
    alloc: Global,
    tokens: &'a SetTokens<'_>,
) -> Result<Vec<SetLexeme<'a>>, AllocError>
    ensures { IfOk result (λ list. list.items ≡ pieces tokens.now) }
{
    let mut list = Vec::new(alloc);
    for i in 0..tokens.list().len() {
        list.push(lexeme_at(tokens, i))?;
    }
    Ok(list)
}
