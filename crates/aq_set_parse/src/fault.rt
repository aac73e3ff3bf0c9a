use aq_lex::Place;

/// Why a set file has no tokens. `NotUtf8` is found before all else; of the others the first one in the
/// text is answered.
#[derive(Clone, Copy, Debug, PartialEq, Eq)]
pub enum SetLexFault {
    /// The text is no UTF-8: here is the first byte at which no whole character begins.
    NotUtf8 {
        /// The place of that byte.
        at: Place,
    },
    /// A byte outside comments that begins no token.
    BadByte {
        /// The place of that byte.
        at: Place,
        /// The byte.
        byte: u8,
    },
    /// A `/*` without a `*/` behind it.
    OpenComment {
        /// The place of the `/`.
        at: Place,
    },
    /// Digits whose value is above `2^127 - 1`.
    LongNumber {
        /// The place of the first digit.
        at: Place,
    },
    /// A `|` that begins no ket.
    BadKet {
        /// The place of the `|`.
        at: Place,
    },
    /// Out of memory.
    Memory,
}
