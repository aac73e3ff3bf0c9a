//! Decisions on the bits that the goal asks for.
ghost use Rattle.std.specs.Prelude.{◌≡◌, ◌==◌, ℕ, IfOk, filter, [], ◌∷◌};
ghost use Rattle.std.specs.List.{list_any};
ghost use Rattle.aq_worlds.specs.Starting.{AreOfBits, Decides, Halves, HaveBit, asked_bits, is_asked};

use crate::several::split_world;
use crate::world::PlainWorld;
use aq_obligations::BoundCase;
use std::alloc::{AllocError, Global};

fn asks(case: &BoundCase, bit: u32) -> bool
    ensures { result ≡ list_any (λ g. g.bit == bit) case.now.when }
{
    case.when.as_slice().iter().any(|guard| guard.bit == bit)
}

/// Whether a condition of one of the cases is on the bit.
fn any_asks(cases: &[BoundCase], bit: u32) -> bool
    ensures { result ≡ is_asked cases.now bit }
{
    cases.iter().any(|case| asks(case, bit))
}

/// The worlds with each value of the bit that isn't ruled out, world by world.
fn split_all(
    alloc: Global,
    worlds: Vec<PlainWorld>,
    bit: u32,
) -> Result<Vec<PlainWorld>, AllocError>
    requires { HaveBit bit worlds.items }
    ensures { IfOk result (λ list. Halves bit worlds.items worlds.items list.items) }
{
    let mut list = Vec::new(alloc);
    for world in worlds {
        let mut halves = split_world(alloc, world, bit)?;
        list.append(&mut halves)?;
    }
    Ok(list)
}

/// The worlds, split at the bit if a condition is on it.
fn decide(
    alloc: Global,
    worlds: Vec<PlainWorld>,
    cases: &[BoundCase],
    bit: u32,
) -> Result<Vec<PlainWorld>, AllocError>
    requires { HaveBit bit worlds.items }
    ensures { IfOk result (λ list. Decides (filter (is_asked cases.now) (bit ∷ [])) worlds.items list.items) }
{
    if any_asks(cases, bit) {
        let list = split_all(alloc, worlds, bit)?;
        return Ok(list);
    }
    Ok(worlds)
}

/// The worlds, split at each bit that a condition of the cases is on, from bit 0 on. `bits` is the number of their
/// bits. Fails only for want of memory.
pub(crate) fn decide_all(
    alloc: Global,
    worlds: Vec<PlainWorld>,
    cases: &[BoundCase],
    bits: u32,
) -> Result<Vec<PlainWorld>, AllocError>
    requires { AreOfBits bits worlds.items }
    ensures { IfOk result (λ list. Decides (asked_bits cases.now bits) worlds.items list.items) }
{
    let mut left = worlds;
    for bit in 0..bits {
        left = decide(alloc, left, cases, bit)?;
    }
    Ok(left)
}
