use crate::mark::Mark;
use aq_lex::Place;
use std::marker::Model;

/// What a token is to the grammar.
#[derive(Clone, Copy, Debug, PartialEq, Eq)]
pub enum Sort {
    Fixed(Mark),
    Name,
    Number(u32),
    Decimal,
    Quoted,
    Note,
}

/// A token with its text and its place.
#[derive(Debug, Drop)]
pub struct Lexeme<'a> {
    pub(crate) sort: Sort,
    pub(crate) text: &'a [u8],
    pub(crate) at: Place,
}

impl<'a> Model for Lexeme<'a> {
    ghost use Rattle.aq_parse.specs.Piece.{Piece};

    ghost Value = { Piece };

    ghost view = { λ t. record { sort = t.sort; text = t.text.now; at = t.at } };
}
