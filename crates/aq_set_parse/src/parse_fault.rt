use aq_lex::{Place, Text};

/// Why tokens have no tree. Each fault but `Memory` stands at the first token that is wrong.
#[derive(Debug, Drop)]
pub enum SetParseFault {
    /// No set file has this token behind the tokens before it.
    Unexpected { at: Place, token: Text },
    /// A `(` at which an expression may begin, inside 64 that are open.
    TooDeep { at: Place },
    /// Memory ran out.
    Memory,
}
