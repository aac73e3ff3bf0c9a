use aq_ring::Amp;
use std::alloc::{AllocError, AllocFailed};

/// Why the vectors of an expression aren't given.
#[derive(Clone, Copy, Debug, PartialEq, Eq)]
pub enum VectorStop {
    /// There are more than were wanted.
    TooMany,
    /// A product of a tensor or a power that doesn't fit, by its operands.
    Wide { left: Amp, right: Amp },
    /// Memory ran out.
    Memory,
}

impl From<AllocError> for VectorStop {
    ghost use Rattle.std.specs.Prelude.{◌≡◌};
    ghost use Rattle.aq_plain.specs.declared.stop.VectorStop.TheVariants.{Memory};

    ghost from_gives = { λ _ e. e ≡ Memory };

    fn from(_error: AllocError) -> VectorStop {
        VectorStop::Memory
    }
}

impl<T: Drop> From<AllocFailed<T>> for VectorStop {
    ghost use Rattle.std.specs.Prelude.{◌≡◌};
    ghost use Rattle.aq_plain.specs.declared.stop.VectorStop.TheVariants.{Memory};

    ghost from_gives = { λ _ e. e ≡ Memory };

    fn from(_error: AllocFailed<T>) -> VectorStop {
        VectorStop::Memory
    }
}
