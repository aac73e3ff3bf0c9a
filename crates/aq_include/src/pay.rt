ghost use Rattle.std.specs.Prelude.{◌≡◌, OnOk, IfErr};
ghost use Rattle.aq_store.specs.Count.{after};
ghost use Rattle.aq_include.specs.Costs.{Takes, IsCause};
ghost use Rattle.aq_include.specs.Ends.{IsNotWide};

use aq_label::Label;
use aq_store::{Steps, Stop};

/// Takes some steps.
pub(crate) fn pay<L: Label>(steps: &mut Steps, count: usize) -> Result<(), Stop<L>>
    ensures paid { OnOk result (steps.new ≡ after count steps.old) }
    ensures wide { IfErr result IsNotWide }
    ensures takes { Takes count steps.old steps.new }
    ensures spent { IfErr result (λ e. IsCause count steps.old e) }
{
    match steps.take_all(count as u64) {
        Ok(()) => Ok(()),
        Err(_) => Err(Stop::Spent),
    }
}
