//! The goals of a world.
ghost use Rattle.std.specs.Prelude.{◌≡◌, length, IfOk};
ghost use Rattle.aq_sets.specs.declared.sets.Sets.{Sets};
ghost use Rattle.aq_set_build.specs.Tensors.{Table};
ghost use Rattle.aq_decide.specs.Goals.{AreBuilt, met_cases};

use crate::known::all_hold;
use crate::start::copy_of;
use aq_obligations::BoundCase;
use aq_store::Lsta;
use std::alloc::{AllocError, Global};

/// The automata of those cases whose conditions hold in the bits, with 0 for those that aren't known. `goals` are the
/// automata of all cases. Fails only for want of memory.
pub(crate) fn goals_in(
    alloc: Global,
    cases: &[BoundCase],
    goals: &[Lsta],
    bits: &[Option<bool>],
) -> Result<Vec<Lsta>, AllocError>
    requires { length cases.now ≡ length goals.now }
    ensures { IfOk result (λ list. (s : Sets) (table : Table) → AreBuilt s cases.now table goals.now
        → AreBuilt s (met_cases cases.now bits.now) table list.items) }
{
    let mut list = Vec::new(alloc);
    for index in 0..cases.len() {
        if all_hold(cases[index].when.as_slice(), bits) {
            let copy = copy_of(alloc, &goals[index])?;
            list.push(copy)?;
        }
    }
    Ok(list)
}
