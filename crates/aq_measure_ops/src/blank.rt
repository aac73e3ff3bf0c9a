ghost use Rattle.std.specs.Prelude.{◌≡◌, ℕ, ◌+◌, ◌<◌, ◌≤◌, length, drop, slice_index, IfOk, IfErr};
ghost use Rattle.aq_store.specs.Nodes.{Extends, total_cost};
ghost use Rattle.aq_store.specs.Stops.{GivesUp};
ghost use Rattle.aq_measure_ops.specs.Budget.{total};
ghost use Rattle.aq_measure_ops.specs.Projection.{IsBlank};

use aq_label::Label;
use aq_store::{Id, Pairs, Steps, Stop, Store};
use std::alloc::Global;

/// A tree of zeros with the shape's numbers of choices, from a depth on.
pub(crate) fn blank_from<L: Label>(
    alloc: Global,
    store: &mut Store<L>,
    shape: &[u32],
    depth: usize,
    steps: &mut Steps,
) -> Result<Id, Stop<L>>
    requires depth { depth ≤ length shape.now }
    requires some { (k : ℕ) → k < length shape.now → 0 < slice_index shape.now k }
    requires paid { total_cost store.old ≤ steps.old.taken }
    ensures blank { IfOk result (λ id. IsBlank L.parts store.new (drop depth shape.now) id) }
    ensures keeps { Extends store.old store.new }
    ensures paid { total_cost store.new ≤ steps.new.taken }
    ensures limit { steps.new.limit ≡ steps.old.limit }
    ensures steps { steps.new.taken ≤ steps.old.taken + (1 + total (drop depth shape.now)) }
    ensures refused { IfErr result (GivesUp (1 + total (drop depth shape.now)) steps.old steps.new) }
{
    let mut id = store.leaf(L::zero(), steps)?;
    let mut at = shape.len();
    while at > depth {
        at -= 1;
        let mut pairs = Pairs::new(alloc);
        let Ok(()) = pairs.push((id, id), shape[at]) else {
            return Err(Stop::Memory);
        };
        id = store.node_of(pairs, steps)?;
    }
    Ok(id)
}
