ghost use Rattle.std.specs.Prelude.{◌≡◌, ◌<◌, IfOk, Some, length, slice_get};
ghost use Rattle.aq_lex.specs.declared.token.Token.{Token};
ghost use Rattle.aq_parse.specs.Pieces.{sign_mark, sort_at, piece, piece_of, pieces};
ghost use Rattle.aq_parse.specs.Verdict.{EndsInEnd};

use crate::lexeme::{Lexeme, Sort};
use crate::mark::Mark;
use crate::words::reserved_word;
use aq_lex::{Kind, Symbol, Token, Tokens};
use std::alloc::{AllocError, Global};

fn mark_of_sign(symbol: Symbol) -> Mark
    ensures { result ≡ sign_mark symbol }
{
    match symbol {
        Symbol::Semicolon => Mark::Semicolon,
        Symbol::Comma => Mark::Comma,
        Symbol::ParenOpen => Mark::ParenOpen,
        Symbol::ParenClose => Mark::ParenClose,
        Symbol::BracketOpen => Mark::BracketOpen,
        Symbol::BracketClose => Mark::BracketClose,
        Symbol::BraceOpen => Mark::BraceOpen,
        Symbol::BraceClose => Mark::BraceClose,
        Symbol::Assign => Mark::Assign,
        Symbol::Equals => Mark::Equals,
        Symbol::Bang => Mark::Bang,
        Symbol::Minus => Mark::Minus,
        Symbol::Arrow => Mark::Arrow,
        Symbol::Star => Mark::Star,
        Symbol::Slash => Mark::Slash,
        Symbol::At => Mark::At,
    }
}

fn sort_of_kind(kind: Kind, text: &[u8]) -> Sort
    ensures { result ≡ sort_at kind text.now }
{
    match kind {
        Kind::Name => match reserved_word(text) {
            Some(mark) => Sort::Fixed(mark),
            None => Sort::Name,
        },
        Kind::Number(number) => Sort::Number(number),
        Kind::Decimal => Sort::Decimal,
        Kind::Quoted => Sort::Quoted,
        Kind::Pi => Sort::Fixed(Mark::PiSign),
        Kind::Note => Sort::Note,
        Kind::Symbol(symbol) => Sort::Fixed(mark_of_sign(symbol)),
        Kind::End => Sort::Fixed(Mark::End),
    }
}

fn make_lexeme<'a>(token: Token, text: &'a [u8]) -> Lexeme<'a>
    ensures { result ≡ piece token text.now }
{
    Lexeme {
        sort: sort_of_kind(token.kind, text),
        text,
        at: token.at,
    }
}

fn lexeme_at<'a>(tokens: &'a Tokens<'_>, i: usize) -> Lexeme<'a>
    requires { i < length tokens.now.list }
    ensures { (t : Token) → slice_get tokens.now.list i ≡ Some t → result ≡ piece_of tokens.now.source t }
{
    make_lexeme(tokens.list()[i], tokens.text(i))
}

/// The tokens as the grammar sees them, up to the end of the text.
pub(crate) fn lexemes<'a>(
    alloc: Global,
    tokens: &'a Tokens<'_>,
) -> Result<Vec<Lexeme<'a>>, AllocError>
    ensures pieces { IfOk result (λ list. list.items ≡ pieces tokens.now) }
    ensures ends { IfOk result (λ list. EndsInEnd list.items) }
{
    let mut list = Vec::new(alloc);
    for i in 0..tokens.list().len() {
        list.push(lexeme_at(tokens, i))?;
    }
    Ok(list)
}
