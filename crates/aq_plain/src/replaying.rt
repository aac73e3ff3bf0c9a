//! One run of statements, played by hand with given outcomes.
ghost use Rattle.std.specs.Prelude.{◌≡◌, ◌-◌, length};
ghost use Rattle.aq_plain.specs.Replaying.{ArePlayable, Replays, start_of, stop_of};

use crate::player::{Halt, Player, play_all};
use crate::replay_stop::{Played, ReplayStop};
use crate::vector::Vector;
use aq_prog::{Stmt, has_loop};
use sqlite_items::Items;
use std::alloc::Global;

/// What is told of a halt, where there were so many outcomes.
fn stop_of(halt: Halt, outcomes: usize) -> ReplayStop
    ensures { result ≡ stop_of outcomes halt }
{
    match halt {
        Halt::ShortOutcomes => ReplayStop::ShortOutcomes,
        Halt::Impossible { left } => ReplayStop::Impossible {
            outcome: outcomes.saturating_sub(left) as u64,
        },
        Halt::Blocked => ReplayStop::Blocked,
        Halt::Wide(wide) => ReplayStop::Wide {
            left: wide.left,
            right: wide.right,
        },
    }
}

/// Plays the statements from these bits and this vector, with these outcomes for its measurements and resets in
/// order. An assertion is passed. Gives the bits and the vector at the end. Errors:
/// - NotLoopFree, before all else: there is a loop among the statements.
/// - ShortOutcomes, Impossible, Blocked, Wide: the first of these that the run meets. A gate doesn't fit, an outcome
///   is wanted and none is left, an outcome leaves a zero vector, or an assumption doesn't hold.
/// - LongOutcomes: the run ends, and outcomes are left.
/// - Memory: memory ran out.
pub fn replay(
    alloc: Global,
    body: &[Stmt],
    bits: &[bool],
    vector: Vector,
    outcomes: &[bool],
) -> Result<Played, ReplayStop>
    requires { ArePlayable vector.qubits (length bits.now) body.now }
    ensures { Replays vector.qubits body.now (start_of bits.now vector.amps outcomes.now) result }
{
    if has_loop(body) {
        return Err(ReplayStop::NotLoopFree);
    }
    let bits = Items::from_slice(alloc, bits)?;
    let mut player = Player { bits, vector };
    match play_all(alloc, &mut player, body, outcomes) {
        Ok([]) => Ok(Played {
            bits: player.bits,
            vector: player.vector,
        }),
        Ok(left) => Err(ReplayStop::LongOutcomes {
            left: left.len() as u64,
        }),
        Err(halt) => Err(stop_of(halt, outcomes.len())),
    }
}
