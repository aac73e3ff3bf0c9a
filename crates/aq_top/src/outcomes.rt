//! Outcomes from their digits.
ghost use Rattle.std.specs.Prelude.{◌≡◌, option_copied};
ghost use Rattle.std.specs.Option.{option_map};
ghost use Rattle.aq_base.specs.Checks.{GivesUnless};
ghost use Rattle.aq_top.specs.Replay.{outcome_of, outcomes_fault_name, outcomes_of};
ghost use Rattle.aq_top.specs.declared.outcomes.OutcomesFault.TheVariants as faults;

use sqlite_items::Items;
use std::alloc::{AllocError, Global};

/// Why a text says no outcomes.
#[derive(Clone, Copy, Debug, PartialEq, Eq)]
pub enum OutcomesFault {
    /// It has a byte other than the digits 0 and 1.
    BadOutcomes,
    /// Memory ran out.
    Memory,
}

impl From<AllocError> for OutcomesFault {
    ghost use Rattle.std.specs.Prelude.{◌≡◌};
    ghost use Rattle.aq_top.specs.declared.outcomes.OutcomesFault.TheVariants.{Memory};

    ghost from_gives = { λ _ e. e ≡ Memory };

    fn from(_error: AllocError) -> OutcomesFault {
        OutcomesFault::Memory
    }
}

impl OutcomesFault {
    /// The name of the fault. None: memory ran out.
    pub fn name(self) -> Option<&'static str>
        ensures { option_map (λ name. name.now) result ≡ outcomes_fault_name self }
    {
        match self {
            OutcomesFault::BadOutcomes => Some("BadOutcomes"),
            OutcomesFault::Memory => None,
        }
    }
}

/// The outcome that a byte says.
fn outcome_of(byte: u8) -> Result<bool, OutcomesFault>
    ensures { result ≡ outcome_of byte }
{
    if byte == b'0' {
        Ok(false)
    } else if byte == b'1' {
        Ok(true)
    } else {
        Err(OutcomesFault::BadOutcomes)
    }
}

/// The outcomes that the digits say, in order.
pub(crate) fn outcomes_of(alloc: Global, text: &[u8]) -> Result<Items<bool>, OutcomesFault>
    ensures { GivesUnless faults.Memory (λ list. list) result (outcomes_of text.now) }
{
    let mut outcomes = Items::new(alloc);
    for byte in text {
        let outcome = outcome_of(*byte)?;
        outcomes.push(outcome)?;
    }
    Ok(outcomes)
}
