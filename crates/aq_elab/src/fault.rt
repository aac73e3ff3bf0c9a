ghost use Rattle.std.specs.Prelude.{◌≡◌};
ghost use Rattle.aq_elab.specs.FaultNames.{fault_name, fault_place};

use aq_lex::Place;
use std::alloc::AllocError;

/// Why a tree is no program: the first fault, in the order in which the rules are checked.
#[derive(Clone, Copy, Debug, PartialEq, Eq)]
pub enum ElabFault {
    /// A name that wasn't declared before, or stands for bits where qubits are wanted or the reverse. At the name.
    UnknownName { at: Place },
    /// A name that was declared before. At the name.
    TwiceDeclared { at: Place },
    /// A register of the size 0. At its name.
    EmptyRegister { at: Place },
    /// An index that the register doesn't have, or any index where there is no register. At the name.
    IndexOut { at: Place },
    /// Registers of different sizes, or a register where one bit is wanted. At the later one.
    SizeDiffers { at: Place },
    /// One qubit twice in one gate. At the later spot.
    RepeatedQubit { at: Place },
    /// A gate that isn't known. At its name.
    UnknownGate { at: Place },
    /// A gate on another number of spots than it has. At its name.
    OperandCount { at: Place },
    /// An angle where none is wanted, none where one is, both at the gate's name; or an angle that isn't taken, there.
    AngleForm { at: Place },
    /// A program without a qubit. At its end.
    NoQubits { at: Place },
    /// More than 16 qubits. At the name that is too much.
    TooManyQubits { at: Place },
    /// More than 32 bits. At the name that is too much.
    TooManyBits { at: Place },
    /// More than 100,000 statements. At the statement that is too much, behind its annotations.
    TooManyStatements { at: Place },
    /// A loop without an invariant. At the word `while`.
    MissingInvariant { at: Place },
    /// An `@invariant` or `@assert` that isn't one name, an `@invariant` at no loop, or a second one at a loop. At
    /// its `@`.
    StrayAnnotation { at: Place },
    /// A declaration or an include inside a body. At its first word.
    DeclaredInBlock { at: Place },
    /// Memory ran out.
    Memory,
}

impl ElabFault {
    /// The name of the fault.
    #[tactic(auto, unfolding(crate::specs::FaultNames::fault_name))]
    pub fn name(&self) -> &'static str
        ensures { result.now ≡ fault_name self.now }
    {
        match self {
            ElabFault::UnknownName { .. } => "UnknownName",
            ElabFault::TwiceDeclared { .. } => "TwiceDeclared",
            ElabFault::EmptyRegister { .. } => "EmptyRegister",
            ElabFault::IndexOut { .. } => "IndexOut",
            ElabFault::SizeDiffers { .. } => "SizeDiffers",
            ElabFault::RepeatedQubit { .. } => "RepeatedQubit",
            ElabFault::UnknownGate { .. } => "UnknownGate",
            ElabFault::OperandCount { .. } => "OperandCount",
            ElabFault::AngleForm { .. } => "AngleForm",
            ElabFault::NoQubits { .. } => "NoQubits",
            ElabFault::TooManyQubits { .. } => "TooManyQubits",
            ElabFault::TooManyBits { .. } => "TooManyBits",
            ElabFault::TooManyStatements { .. } => "TooManyStatements",
            ElabFault::MissingInvariant { .. } => "MissingInvariant",
            ElabFault::StrayAnnotation { .. } => "StrayAnnotation",
            ElabFault::DeclaredInBlock { .. } => "DeclaredInBlock",
            ElabFault::Memory => "Memory",
        }
    }

    /// The place of the fault. None: memory ran out.
    pub fn at(&self) -> Option<Place>
        ensures { result ≡ fault_place self.now }
    {
        match self {
            ElabFault::UnknownName { at } => Some(*at),
            ElabFault::TwiceDeclared { at } => Some(*at),
            ElabFault::EmptyRegister { at } => Some(*at),
            ElabFault::IndexOut { at } => Some(*at),
            ElabFault::SizeDiffers { at } => Some(*at),
            ElabFault::RepeatedQubit { at } => Some(*at),
            ElabFault::UnknownGate { at } => Some(*at),
            ElabFault::OperandCount { at } => Some(*at),
            ElabFault::AngleForm { at } => Some(*at),
            ElabFault::NoQubits { at } => Some(*at),
            ElabFault::TooManyQubits { at } => Some(*at),
            ElabFault::TooManyBits { at } => Some(*at),
            ElabFault::TooManyStatements { at } => Some(*at),
            ElabFault::MissingInvariant { at } => Some(*at),
            ElabFault::StrayAnnotation { at } => Some(*at),
            ElabFault::DeclaredInBlock { at } => Some(*at),
            ElabFault::Memory => None,
        }
    }
}

impl From<AllocError> for ElabFault {
    ghost use Rattle.std.specs.Prelude.{◌≡◌};
    ghost use Rattle.aq_elab.specs.declared.fault.ElabFault.TheVariants.{Memory};

    ghost from_gives = { λ _ e. e ≡ Memory };

    fn from(_error: AllocError) -> ElabFault {
        ElabFault::Memory
    }
}
