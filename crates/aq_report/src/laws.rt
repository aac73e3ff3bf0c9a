ghost use Rattle.std.specs.Prelude.{◌≡◌, ℕ, List, length, All};
ghost use Rattle.aq_obligations.specs.declared.bound.Obligation.{Obligation};
ghost use Rattle.aq_report.specs.Shown.{HasQubits, IsOn, IsSmall, IsVerdictOn};
ghost use Rattle.aq_report.specs.Texts.{report};
ghost use Rattle.aq_report.specs.declared.verdict.Verdict.{Verdict};

use crate::verdict::Verdict;
use aq_plain::Vector;
use aq_ring::Amp;

/// What holds of the bytes of a report: they say the verdicts. It does nothing.
pub fn reports()
    // Two lists of verdicts on the same obligations, one for each, whose vectors are on the same number of qubits, have
    // the same report only if they are the same list.
    ensures { (n : ℕ) (os : List Obligation) (vs ws : List Verdict) → length vs ≡ length os → length ws ≡ length os
        → All (IsVerdictOn n) vs → All (IsVerdictOn n) ws → report os vs ≡ report os ws → vs ≡ ws }
{}

/// What holds of each amplitude: its numbers fit the machine's. It gives nothing.
fn small(amp: &Amp)
    ensures { IsSmall amp.now }
{
    let _coefs = amp.coefs();
    let _power = amp.power();
}

/// What holds of each vector: it is one on its number of qubits. It gives nothing, and reads each entry once.
fn whole(vector: &Vector)
    ensures { IsOn vector.now.qubits vector.now }
{
    for amp in vector.amps() {
        small(amp);
    }
}

/// What holds of each verdict: its vectors are whole, and their numbers fit the machine's. It gives nothing, and reads
/// each entry of a refutation once.
pub fn verdicts(verdict: &Verdict)
    ensures { (n : ℕ) → HasQubits n verdict.now → IsVerdictOn n verdict.now }
{
    if let Verdict::Refuted(refutation) = verdict {
        whole(&refutation.state);
        whole(&refutation.end);
    }
}
