//! Conditions, in bits of which some are known.
ghost use Rattle.std.specs.Prelude.{◌≡◌};
ghost use Rattle.aq_prog.specs.Runs.{has_bit};
ghost use Rattle.aq_obligations.specs.Claims.{are_met};
ghost use Rattle.aq_obligations.specs.Worlds.{filled};

use aq_prog::Guard;

/// Whether the guard holds in the bits, with 0 for those that aren't known.
fn holds(guard: &Guard, bits: &[Option<bool>]) -> bool
    ensures { result ≡ has_bit guard.now (filled bits.now) }
{
    match bits.get(guard.bit as usize) {
        Some(Some(bit)) => *bit == guard.value,
        Some(None) => !guard.value,
        None => false,
    }
}

/// Whether all of them do.
pub(crate) fn all_hold(guards: &[Guard], bits: &[Option<bool>]) -> bool
    ensures { result ≡ are_met guards.now (filled bits.now) }
{
    guards.iter().all(|guard| holds(guard, bits))
}
