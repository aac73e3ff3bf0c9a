use aq_lex::Text;
use aq_obligations::BoundCase;
use sqlite_items::Items;
use std::alloc::{AllocError, AllocFailed};

/// The claims that are asked of a program: the cases of its precondition, those of its postcondition, and those of
/// each claim that its body names, by their numbers.
#[derive(Debug, Drop)]
pub struct AskedClaims {
    pub before: Items<BoundCase>,
    pub after: Items<BoundCase>,
    pub claims: Items<Items<BoundCase>>,
}

/// Why a program has no obligations between two claims.
#[derive(Debug, Drop)]
pub enum ObligationFault {
    /// No claim has this name.
    UnknownClaim { name: Text },
    /// A case of the claim is on `has` qubits, and the program on another number.
    QubitsDiffer { name: Text, has: u32 },
    /// A condition of the claim names no bit of the program by this name.
    BitUnknown { name: Text, bit: Text },
    /// There are more than 1,000, or their fragments have together more than 2,000,000 statements, inner ones
    /// included.
    TooManyObligations,
    /// Memory ran out.
    Memory,
}

impl ObligationFault {
    ghost use Rattle.std.specs.Prelude.{◌≡◌};
    ghost use Rattle.aq_owing.specs.FaultNames.{fault_name, fault_claim};

    /// The name of the fault.
    #[tactic(auto, unfolding(crate::specs::FaultNames::fault_name))]
    pub fn name(&self) -> &'static str
        ensures { result.now ≡ fault_name self.now }
    {
        match self {
            ObligationFault::UnknownClaim { .. } => "UnknownClaim",
            ObligationFault::QubitsDiffer { .. } => "QubitsDiffer",
            ObligationFault::BitUnknown { .. } => "BitUnknown",
            ObligationFault::TooManyObligations => "TooManyObligations",
            ObligationFault::Memory => "Memory",
        }
    }

    /// The name of the claim that has it. None: it is no fault of a claim.
    pub fn into_claim(self) -> Option<Text>
        ensures { result ≡ fault_claim self }
    {
        match self {
            ObligationFault::UnknownClaim { name } => Some(name),
            ObligationFault::QubitsDiffer { name, .. } => Some(name),
            ObligationFault::BitUnknown { name, .. } => Some(name),
            ObligationFault::TooManyObligations => None,
            ObligationFault::Memory => None,
        }
    }
}

impl From<AllocError> for ObligationFault {
    ghost use Rattle.std.specs.Prelude.{◌≡◌};
    ghost use Rattle.aq_owing.specs.declared.asked.ObligationFault.TheVariants.{Memory};

    ghost from_gives = { λ _ e. e ≡ Memory };

    fn from(_error: AllocError) -> ObligationFault {
        ObligationFault::Memory
    }
}

impl<T: Drop> From<AllocFailed<T>> for ObligationFault {
    ghost use Rattle.std.specs.Prelude.{◌≡◌};
    ghost use Rattle.aq_owing.specs.declared.asked.ObligationFault.TheVariants.{Memory};

    ghost from_gives = { λ _ e. e ≡ Memory };

    fn from(_error: AllocFailed<T>) -> ObligationFault {
        ObligationFault::Memory
    }
}
