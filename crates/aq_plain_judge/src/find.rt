//! Whether a goal allows an end, and the first vector of a world that isn't kept.
ghost use Rattle.std.specs.Prelude.{◌≡◌, All};
ghost use Rattle.aq_prog.specs.Runs.{has_bit};
ghost use Rattle.aq_obligations.specs.Claims.{are_met, CaseHolds, Holds};
ghost use Rattle.aq_obligations.specs.Worlds.{filled};
ghost use Rattle.aq_worlds.specs.Playing.{AreOn, amps_of};
ghost use Rattle.aq_plain_judge.specs.Finding.{Ends, Finds, Places, WideCase, WideGoal};
ghost use Rattle.aq_plain_judge.specs.Listing.{claim_of, claims_of, IsGoalOn};

use crate::compare::{Found, find_among};
use crate::listing::GoalCase;
use aq_plain::Vector;
use aq_prog::Guard;
use aq_worlds::PlainWorld;

/// Whether the guard's bit has its value, where a bit that isn't known counts as 0.
fn has_bit(guard: &Guard, bits: &[Option<bool>]) -> bool
    ensures { result ≡ has_bit guard.now (filled bits.now) }
{
    match bits.get(guard.bit as usize) {
        Some(Some(bit)) => *bit == guard.value,
        Some(None) => !guard.value,
        None => false,
    }
}

/// Whether all conditions hold.
fn are_met(guards: &[Guard], bits: &[Option<bool>]) -> bool
    ensures { result ≡ are_met guards.now (filled bits.now) }
{
    guards.iter().all(|guard| has_bit(guard, bits))
}

/// Looks for the vector in a case of the goal, if the case's conditions hold.
fn find_in_case(bits: &[Option<bool>], end: &Vector, case: &GoalCase) -> Found
    requires { AreOn end.now.qubits case.now.vectors }
    ensures { Finds end.now.amps (CaseHolds (filled bits.now) end.now.amps (claim_of case.now))
        (WideCase (filled bits.now) end.now.amps (claim_of case.now)) result }
{
    if !are_met(case.when.as_slice(), bits) {
        return Found::Nothing;
    }
    find_among(end, case.vectors.as_slice())
}

/// Looks for the vector in the goal.
fn find_in_goal(bits: &[Option<bool>], end: &Vector, goal: &[GoalCase]) -> Found
    requires { IsGoalOn end.now.qubits goal.now }
    ensures { Finds end.now.amps (Holds (claims_of goal.now) (filled bits.now) end.now.amps)
        (WideGoal (claims_of goal.now) (filled bits.now) end.now.amps) result }
{
    let mut wide = false;
    for case in goal {
        match find_in_case(bits, end, case) {
            Found::Goal => return Found::Goal,
            Found::Nothing => {}
            Found::Unclear => wide = true,
        }
    }
    if wide {
        return Found::Unclear;
    }
    Found::Nothing
}

/// Whether the end is zero or allowed by the goal.
fn end_of(bits: &[Option<bool>], end: &Vector, goal: &[GoalCase]) -> Found
    requires { IsGoalOn end.now.qubits goal.now }
    ensures { Ends (claims_of goal.now) (filled bits.now) end.now.amps result }
{
    if end.is_zero() {
        return Found::Goal;
    }
    find_in_goal(bits, end, goal)
}

/// What is told of the vectors of a world.
#[derive(Clone, Copy, Debug, PartialEq, Eq)]
pub(crate) enum Place {
    /// Each is zero, or the goal allows it.
    Kept,
    /// The first that isn't stands here.
    Lost(usize),
    /// A number that would tell doesn't fit.
    Unclear,
}

/// The place of the first vector of the world that is neither zero nor allowed by the goal.
pub(crate) fn first_lost(world: &PlainWorld, goal: &[GoalCase]) -> Place
    requires { All (λ v. IsGoalOn v.qubits goal.now) world.now.vectors.items }
    ensures { Places (claims_of goal.now) (filled world.now.bits) (amps_of world.now.vectors.items) result }
{
    let bits = world.bits.as_slice();
    for (place, vector) in world.vectors.as_slice().iter().enumerate() {
        match end_of(bits, vector, goal) {
            Found::Goal => {}
            Found::Nothing => return Place::Lost(place),
            Found::Unclear => return Place::Unclear,
        }
    }
    Place::Kept
}
