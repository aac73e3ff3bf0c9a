//! Basis states, powers, tensor products and unions.
ghost use Rattle.std.specs.Prelude.{◌≡◌, true, false, MatchOption};
ghost use Rattle.aq_set_read.specs.Gathered.{Gives};
ghost use Rattle.aq_set_read.specs.Meaning.{step, out_of_range, all_made, powered, tensored, united};

use crate::collector::Collector;
use crate::made::Made;
use crate::set_fault::SetFault;
use aq_base::MOST_QUBITS;
use aq_lex::Place;
use aq_set_parse::SetPower;
use aq_sets::Expr;

/// The number of qubits, from 1 to 16. None exactly where it is out of this range.
pub(crate) fn qubits_within(number: u128) -> Option<u32>
    ensures { MatchOption result (out_of_range number ≡ true) (λ n. (out_of_range number ≡ false) × (n ≡ number)) }
{
    if number == 0 || number > u128::from(MOST_QUBITS) {
        return None;
    }
    Some(number as u32)
}

/// All basis states of so many qubits.
#[tactic(auto, unfolding(crate::specs::Meaning::all_made))]
pub(crate) fn all(collector: &mut Collector, at: Place, number: u128) -> Result<Made, SetFault>
    ensures meaning { Gives (λ m. step collector.new m) result (all_made at number collector.old) }
    ensures names { collector.new.names ≡ collector.old.names }
{
    let Some(qubits) = qubits_within(number) else {
        return Err(SetFault::QubitCount { at });
    };
    collector.node(at, Expr::All { qubits }, qubits)
}

/// A power, where one is written.
pub(crate) fn power(
    collector: &mut Collector,
    base: Made,
    power: Option<SetPower>,
) -> Result<Made, SetFault>
    ensures meaning { Gives (λ m. step collector.new m) result (powered power (step collector.old base)) }
    ensures names { collector.new.names ≡ collector.old.names }
{
    let Some(power) = power else {
        return Ok(base);
    };
    let at = power.at;
    // So many copies have no qubits or more than 16.
    if power.number > u128::from(MOST_QUBITS) {
        return Err(SetFault::QubitCount { at });
    }
    let times = power.number as u32;
    let Some(qubits) = qubits_within(u128::from(base.qubits) * power.number) else {
        return Err(SetFault::QubitCount { at });
    };
    let expr = Expr::Power {
        base: base.expr,
        times,
    };
    collector.node(at, expr, qubits)
}

/// A tensor product. Its operator is at this place.
pub(crate) fn tensor(
    collector: &mut Collector,
    at: Place,
    left: Made,
    right: Made,
) -> Result<Made, SetFault>
    ensures meaning { Gives (λ m. step collector.new m) result (tensored at left right collector.old) }
    ensures names { collector.new.names ≡ collector.old.names }
{
    let qubits = u64::from(left.qubits) + u64::from(right.qubits);
    if qubits > u64::from(MOST_QUBITS) {
        return Err(SetFault::QubitCount { at });
    }
    let expr = Expr::Tensor {
        left: left.expr,
        right: right.expr,
    };
    collector.node(at, expr, qubits as u32)
}

/// A union. Its operator is at this place.
pub(crate) fn union(
    collector: &mut Collector,
    at: Place,
    left: Made,
    right: Made,
) -> Result<Made, SetFault>
    ensures meaning { Gives (λ m. step collector.new m) result (united at left right collector.old) }
    ensures names { collector.new.names ≡ collector.old.names }
{
    if left.qubits != right.qubits {
        return Err(SetFault::QubitCount { at });
    }
    let expr = Expr::Union {
        left: left.expr,
        right: right.expr,
    };
    collector.node(at, expr, left.qubits)
}
