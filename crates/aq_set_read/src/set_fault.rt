use aq_lex::{Place, Text};
use std::alloc::AllocError;

/// Why a set file isn't read: its first fault.
#[derive(Debug, Drop)]
pub enum SetFault {
    /// The text is no UTF-8. At the first byte at which no whole character begins.
    NotUtf8 { at: Place },
    /// A byte outside comments that begins no token.
    BadByte { at: Place, byte: u8 },
    /// A `/*` without a `*/` behind it.
    OpenComment { at: Place },
    /// Digits of a value above `2^127 - 1`. At the first digit.
    LongNumber { at: Place },
    /// A `|` that begins no ket.
    BadKet { at: Place },
    /// No set file has this token behind the tokens before it.
    Unexpected { at: Place, token: Text },
    /// A `(` at which an expression may begin, inside 64 that are open.
    TooDeep { at: Place },
    /// More than 1,000 sets and claims. At the name that is too much.
    TooManyNames { at: Place },
    /// A name that an earlier set or claim has. At the name.
    TwiceNamed { at: Place },
    /// A name that no earlier set has. At the name.
    UnknownSet { at: Place },
    /// No qubits or more than 16: at the ket, the word `all`, the `^` or the `*`. Sides of a union of different
    /// qubits: at the `union`. Cases of a claim of different qubits: at the first token of the later case.
    QubitCount { at: Place },
    /// A division by `sqrt2` to a power above `2^32 - 1`. At the term's first token.
    AmpTooWide { at: Place },
    /// A ket of another length than the bracket's first. At the ket.
    KetLength { at: Place },
    /// A ket that stands earlier in its bracket. At the ket.
    RepeatedKet { at: Place },
    /// More than 100,000 terms, brackets, `all`, powers, tensors and unions. At the one that is too much.
    TooManyNodes { at: Place },
    /// Memory ran out.
    Memory,
}

impl SetFault {
    ghost use Rattle.std.specs.Prelude.{◌≡◌};
    ghost use Rattle.aq_set_read.specs.FaultNames.{fault_name, fault_place};

    /// The name of the fault.
    #[tactic(auto, unfolding(crate::specs::FaultNames::fault_name))]
    pub fn name(&self) -> &'static str
        ensures { result.now ≡ fault_name self.now }
    {
        match self {
            SetFault::NotUtf8 { .. } => "NotUtf8",
            SetFault::BadByte { .. } => "BadByte",
            SetFault::OpenComment { .. } => "OpenComment",
            SetFault::LongNumber { .. } => "LongNumber",
            SetFault::BadKet { .. } => "BadKet",
            SetFault::Unexpected { .. } => "Unexpected",
            SetFault::TooDeep { .. } => "TooDeep",
            SetFault::TooManyNames { .. } => "TooManyNames",
            SetFault::TwiceNamed { .. } => "TwiceNamed",
            SetFault::UnknownSet { .. } => "UnknownSet",
            SetFault::QubitCount { .. } => "QubitCount",
            SetFault::AmpTooWide { .. } => "AmpTooWide",
            SetFault::KetLength { .. } => "KetLength",
            SetFault::RepeatedKet { .. } => "RepeatedKet",
            SetFault::TooManyNodes { .. } => "TooManyNodes",
            SetFault::Memory => "Memory",
        }
    }

    /// The place of the fault. None: memory ran out.
    pub fn at(&self) -> Option<Place>
        ensures { result ≡ fault_place self.now }
    {
        match self {
            SetFault::NotUtf8 { at } => Some(*at),
            SetFault::BadByte { at, .. } => Some(*at),
            SetFault::OpenComment { at } => Some(*at),
            SetFault::LongNumber { at } => Some(*at),
            SetFault::BadKet { at } => Some(*at),
            SetFault::Unexpected { at, .. } => Some(*at),
            SetFault::TooDeep { at } => Some(*at),
            SetFault::TooManyNames { at } => Some(*at),
            SetFault::TwiceNamed { at } => Some(*at),
            SetFault::UnknownSet { at } => Some(*at),
            SetFault::QubitCount { at } => Some(*at),
            SetFault::AmpTooWide { at } => Some(*at),
            SetFault::KetLength { at } => Some(*at),
            SetFault::RepeatedKet { at } => Some(*at),
            SetFault::TooManyNodes { at } => Some(*at),
            SetFault::Memory => None,
        }
    }
}

impl From<AllocError> for SetFault {
    ghost use Rattle.std.specs.Prelude.{◌≡◌};
    ghost use Rattle.aq_set_read.specs.declared.set_fault.SetFault.TheVariants.{Memory};

    ghost from_gives = { λ _ e. e ≡ Memory };

    fn from(_error: AllocError) -> SetFault {
        SetFault::Memory
    }
}
