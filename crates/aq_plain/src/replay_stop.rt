use crate::vector::Vector;
use aq_ring::Amp;
use sqlite_items::Items;
use std::alloc::AllocError;

/// Where a run ended: its bits, and its vector.
#[derive(Debug, Drop)]
pub struct Played {
    pub bits: Items<bool>,
    pub vector: Vector,
}

/// Why a run isn't played to its end.
#[derive(Clone, Copy, Debug, PartialEq, Eq)]
pub enum ReplayStop {
    /// There is a loop among the statements.
    NotLoopFree,
    /// An outcome is wanted, and none is left.
    ShortOutcomes,
    /// The outcome with this number, from 1, leaves a zero vector, and so never happens.
    Impossible { outcome: u64 },
    /// An assumption doesn't hold.
    Blocked,
    /// A sum or a quotient of a gate doesn't fit: its operands.
    Wide { left: Amp, right: Amp },
    /// The run has ended, and so many outcomes are left.
    LongOutcomes { left: u64 },
    /// Memory ran out.
    Memory,
}

impl From<AllocError> for ReplayStop {
    ghost use Rattle.std.specs.Prelude.{◌≡◌};
    ghost use Rattle.aq_plain.specs.declared.replay_stop.ReplayStop.TheVariants.{Memory};

    ghost from_gives = { λ _ e. e ≡ Memory };

    fn from(_error: AllocError) -> ReplayStop {
        ReplayStop::Memory
    }
}
