//! A row of a gate's matrix on two amplitudes.
ghost use Rattle.std.specs.Prelude.{◌≡◌, IfSome, MatchResult};
ghost use Rattle.std.specs.Bool.{OnTrue};
ghost use Rattle.aq_ring.specs.Fractions.{Amplitude};
ghost use Rattle.aq_ring.specs.Amplitudes.{sum};
ghost use Rattle.aq_prog.specs.Gates.{divided, term, FitsDivided, FitsTerm, IsEntry};
ghost use Rattle.aq_plain.specs.Small.{IsSmallAmplitude};
ghost use Rattle.aq_plain.specs.Wide.{IsWideDivision, IsWideTerm, AlwaysFits, FitsRow, RowGives};

use crate::small::small_sum;
use aq_prog::Entry;
use aq_ring::Amp;

/// The operands of a sum that doesn't fit. For a quotient both are its one operand.
#[derive(Clone, Copy, Debug, PartialEq, Eq)]
pub struct WideSum {
    pub left: Amp,
    pub right: Amp,
}

/// The amplitude divided so many times by `sqrt(2)`. On a refusal, the operand of the first division that doesn't fit.
fn quotient(amp: Amp, times: u8) -> Result<Amp, Amp>
    ensures { MatchResult result (λ r. FitsDivided times amp × (r ≡ divided times amp))
        (λ w. IsWideDivision times amp w) }
{
    let mut rest = amp;
    for i in 0..times {
        match rest.over_root() {
            Some(quotient) => rest = quotient,
            None => return Err(rest),
        }
    }
    Ok(rest)
}

/// What the entry makes of the amplitude. On a refusal, the operand of the first division that doesn't fit.
fn term_of(entry: Entry, amp: Amp) -> Result<Amp, Amp>
    requires { IsEntry entry }
    ensures { MatchResult result (λ r. FitsTerm entry amp × (r ≡ term entry amp)) (λ w. IsWideTerm entry amp w) }
{
    match entry {
        Entry::Zero => Ok(Amp::zero()),
        Entry::Unit { turn, roots } => quotient(amp.turn(turn), roots),
    }
}

/// The sum of the two terms. On a refusal, the operands of the first sum or quotient that doesn't fit.
pub(crate) fn row_sum(first: Entry, second: Entry, left: Amp, right: Amp) -> Result<Amp, WideSum>
    requires first { IsEntry first }
    requires second { IsEntry second }
    ensures { RowGives first second left right result }
{
    let left_term = match term_of(first, left) {
        Ok(amp) => amp,
        Err(wide) => return Err(WideSum {
            left: wide,
            right: wide,
        }),
    };
    let right_term = match term_of(second, right) {
        Ok(amp) => amp,
        Err(wide) => return Err(WideSum {
            left: wide,
            right: wide,
        }),
    };
    match left_term.sum(right_term) {
        Some(amp) => Ok(amp),
        None => Err(WideSum {
            left: left_term,
            right: right_term,
        }),
    }
}

/// Whether it is plain from the entries alone that their row fits: nothing is divided, and a term is zero.
pub(crate) fn always_fits(first: Entry, second: Entry) -> bool
    ensures { OnTrue result (AlwaysFits first second) }
{
    match (first, second) {
        (Entry::Zero, Entry::Unit { roots, .. }) => roots == 0,
        (Entry::Unit { roots, .. }, Entry::Zero) => roots == 0,
        _ => false,
    }
}

/// The entry 1.
const ONE: Entry = Entry::Unit { turn: 0, roots: 0 };

/// Whether it is plain from the entries that their row gives the left amplitude as it is.
#[inline]
#[tactic(auto, using(crate::proofs::PairLaws::left_alone))]
pub(crate) fn gives_left(first: Entry, second: Entry) -> bool
    ensures { OnTrue result ((p q : Amplitude) → sum (term first p) (term second q) ≡ p) }
{
    first == ONE && second == Entry::Zero
}

/// Whether it is plain from the entries that their row gives the right amplitude as it is.
#[inline]
#[tactic(auto, using(crate::proofs::PairLaws::right_alone))]
pub(crate) fn gives_right(first: Entry, second: Entry) -> bool
    ensures { OnTrue result ((p q : Amplitude) → sum (term first p) (term second q) ≡ q) }
{
    first == Entry::Zero && second == ONE
}

/// The sum of the two terms, where it fits. `small`: both amplitudes are.
#[inline(always)]
#[tactic(auto, using(crate::proofs::PairLaws::zero_after, crate::proofs::PairLaws::zero_before))]
pub(crate) fn fitting_sum(first: Entry, second: Entry, left: Amp, right: Amp, small: bool) -> Amp
    requires first { IsEntry first }
    requires second { IsEntry second }
    requires fits { FitsRow first second left right }
    requires small_left { OnTrue small (IsSmallAmplitude left) }
    requires small_right { OnTrue small (IsSmallAmplitude right) }
    ensures { result ≡ sum (term first left) (term second right) }
{
    if small {
        return small_sum(first, second, left, right);
    }
    if second == Entry::Zero
        && let Some(amp) = lone_term(first, left)
    {
        return amp;
    }
    if first == Entry::Zero
        && let Some(amp) = lone_term(second, right)
    {
        return amp;
    }
    any_sum(first, second, left, right)
}

/// The sum of the two terms, where it fits.
fn any_sum(first: Entry, second: Entry, left: Amp, right: Amp) -> Amp
    requires first { IsEntry first }
    requires second { IsEntry second }
    requires fits { FitsRow first second left right }
    ensures { result ≡ sum (term first left) (term second right) }
{
    match row_sum(first, second, left, right) {
        Ok(amp) => amp,
        Err(_) => unreachable!(),
    }
}

/// What the entry makes of the amplitude, where it divides nothing.
#[inline]
fn lone_term(entry: Entry, amp: Amp) -> Option<Amp>
    requires { IsEntry entry }
    ensures { IfSome result (λ r. r ≡ term entry amp) }
{
    match entry {
        Entry::Unit { turn, roots } => {
            if roots == 0 {
                Some(amp.turn(turn))
            } else {
                None
            }
        }
        Entry::Zero => None,
    }
}
