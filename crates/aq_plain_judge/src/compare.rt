//! Whether a vector is a nonzero multiple of another.
ghost use Rattle.std.specs.Prelude.{◌≡◌, ◌||◌};
ghost use Rattle.aq_ring.specs.Vectors.{Proportional};
ghost use Rattle.aq_worlds.specs.Playing.{AreOn, amps_of};
ghost use Rattle.aq_plain_judge.specs.Finding.{Finds, IsOneOf, WideAmong, WideProduct};

use aq_label::{Ratio, ratio_of_amps};
use aq_plain::Vector;

/// What is found where something is looked for that equals a vector up to a nonzero factor.
#[derive(Clone, Copy, Debug, PartialEq, Eq)]
pub(crate) enum Found {
    /// There is one, or the vector is zero.
    Goal,
    /// There is none.
    Nothing,
    /// A product that would tell doesn't fit.
    Unclear,
}

/// Compares two vectors.
fn compare(left: &Vector, right: &Vector) -> Found
    requires { right.now.qubits ≡ left.now.qubits }
    ensures { Finds left.now.amps (Proportional left.now.amps right.now.amps)
        (WideProduct left.now.amps right.now.amps) result }
{
    match ratio_of_amps(left.amps(), right.amps()) {
        Ratio::AllZero => Found::Goal,
        Ratio::Same { .. } => Found::Goal,
        Ratio::Different { .. } => Found::Nothing,
        Ratio::Wide { .. } => Found::Unclear,
    }
}

/// Looks for the vector, up to a nonzero factor, among those that are allowed.
pub(crate) fn find_among(end: &Vector, allowed: &[Vector]) -> Found
    requires { AreOn end.now.qubits allowed.now }
    ensures { Finds end.now.amps (IsOneOf (amps_of allowed.now) end.now.amps)
        (WideAmong (amps_of allowed.now) end.now.amps) result }
{
    let mut wide = false;
    for goal in allowed {
        match compare(end, goal) {
            Found::Goal => return Found::Goal,
            Found::Nothing => {}
            Found::Unclear => wide = true,
        }
    }
    if wide {
        return Found::Unclear;
    }
    Found::Nothing
}
