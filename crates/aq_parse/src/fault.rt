ghost use Rattle.std.specs.Prelude.{◌≡◌};
ghost use Rattle.aq_parse.specs.FaultNames.{fault_name, fault_place};

use aq_lex::{Place, Text};

/// Why tokens have no tree. Each fault but `Memory` stands at the first token that is wrong.
#[derive(Debug, Drop)]
pub enum ParseFault {
    /// No program has this token behind the tokens before it.
    Unexpected { at: Place, token: Text },
    /// OpenQASM has what begins here, and it is not taken: a statement, a version or a library.
    NotTaken { at: Place, word: Text },
    /// A body begins here that is nested more than 64 deep.
    TooDeep { at: Place },
    /// Memory ran out.
    Memory,
}

impl ParseFault {
    /// The name of the fault.
    #[tactic(auto, unfolding(crate::specs::FaultNames::fault_name))]
    pub fn name(&self) -> &'static str
        ensures { result.now ≡ fault_name self.now }
    {
        match self {
            ParseFault::Unexpected { .. } => "Unexpected",
            ParseFault::NotTaken { .. } => "NotTaken",
            ParseFault::TooDeep { .. } => "TooDeep",
            ParseFault::Memory => "Memory",
        }
    }

    /// The place of the fault. None: memory ran out.
    pub fn at(&self) -> Option<Place>
        ensures { result ≡ fault_place self.now }
    {
        match self {
            ParseFault::Unexpected { at, .. } => Some(*at),
            ParseFault::NotTaken { at, .. } => Some(*at),
            ParseFault::TooDeep { at } => Some(*at),
            ParseFault::Memory => None,
        }
    }
}
