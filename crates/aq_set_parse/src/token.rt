use aq_lex::Place;

/// A token that is written with signs.
#[derive(Clone, Copy, Debug, PartialEq, Eq)]
pub enum SetSymbol {
    /// `=`
    Assign,
    /// `==`
    Equals,
    /// `;`
    Semicolon,
    /// `,`
    Comma,
    /// `[`
    BracketOpen,
    /// `]`
    BracketClose,
    /// `(`
    ParenOpen,
    /// `)`
    ParenClose,
    /// `*`
    Star,
    /// `^`
    Caret,
    /// `+`
    Plus,
    /// `-`
    Minus,
    /// `/`
    Slash,
}

/// What a token is.
#[derive(Clone, Copy, Debug, PartialEq, Eq)]
pub enum SetKind {
    /// A letter of ASCII or `_`, then letters, digits and `_`.
    Name,
    /// Digits of a value of at most `2^127 - 1`, which it has.
    Number(u128),
    /// A ket: `|`, one or more digits 0 or 1, and `>`.
    Ket,
    /// A sign or two.
    Symbol(SetSymbol),
    /// What stands behind the last byte. It has no bytes.
    End,
}

/// A token.
#[derive(Clone, Copy, Debug, PartialEq, Eq)]
pub struct SetToken {
    /// What it is.
    pub kind: SetKind,
    /// The offset of its first byte.
    pub start: u32,
    /// The offset of the byte behind its last.
    pub end: u32,
    /// The place of its first byte.
    pub at: Place,
}

/// What a piece of a set file is. The last four are faults.
#[derive(Clone, Copy, Debug, PartialEq, Eq)]
pub enum SetClass {
    /// One of the bytes 32, 9, 13 and 10.
    Blank,
    /// `//` and the rest of its line, or `/*` and what stands up to the next `*/`, with it.
    Comment,
    /// A token of this kind.
    Token(SetKind),
    /// `/*` and all behind it, without a `*/`.
    OpenComment,
    /// Digits of a value above `2^127 - 1`.
    LongNumber,
    /// A `|` that begins no ket.
    BadKet,
    /// A byte that begins nothing else.
    BadByte(u8),
}

/// What stands at the front of a text, and how many bytes it has.
#[derive(Clone, Copy, Debug, PartialEq, Eq)]
pub(crate) struct SetFound {
    /// What it is.
    pub(crate) class: SetClass,
    /// How many bytes it has.
    pub(crate) len: usize,
}
