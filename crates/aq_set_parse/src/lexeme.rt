use crate::mark::SetMark;
use aq_lex::Place;
use std::marker::Model;

/// What a token is to the grammar.
#[derive(Clone, Copy, Debug, PartialEq, Eq)]
pub enum SetSort {
    Fixed(SetMark),
    Name,
    Number(u128),
    Ket,
}

/// A token with its text and its place.
#[derive(Debug, Drop)]
pub struct SetLexeme<'a> {
    pub(crate) sort: SetSort,
    pub(crate) text: &'a [u8],
    pub(crate) at: Place,
}

impl<'a> Model for SetLexeme<'a> {
    ghost use Rattle.aq_set_parse.specs.Piece.{SetPiece};

    ghost Value = { SetPiece };

    ghost view = { λ t. record { sort = t.sort; text = t.text.now; at = t.at } };
}
