//! A row of a gate's matrix on two small amplitudes, which always fits.
ghost use Rattle.std.specs.Prelude.{◌≡◌, ◌≤◌, All, IsTrue, MatchOption};
ghost use Rattle.std.specs.Bool.{OnTrue};
ghost use Rattle.aq_ring.specs.Amplitudes.{amplitude_zero, lowest_form, sum};
ghost use Rattle.aq_ring.specs.Small.{IsSmall};
ghost use Rattle.aq_prog.specs.Gates.{term, IsEntry};
ghost use Rattle.aq_plain.specs.Small.{IsBelow, IsFraction, IsSmallAmplitude};

use crate::numerator::Numerator;
use aq_prog::Entry;
use aq_ring::Amp;

/// `2^62`: below it in absolute value a coefficient is small.
const SMALL: i128 = 0x4000_0000_0000_0000;

#[inline]
fn is_small_number(number: i128) -> bool
    ensures { OnTrue result (IsSmall number) }
{
    -SMALL < number && number < SMALL
}

/// Whether the amplitude's coefficients and its power are small.
#[inline]
fn has_small_parts(amp: Amp) -> bool
    ensures { OnTrue result (IsSmallAmplitude amp) }
{
    let [a, b, c, d] = amp.coefs();
    amp.power() <= 120
        && is_small_number(a)
        && is_small_number(b)
        && is_small_number(c)
        && is_small_number(d)
}

/// The same, where most amplitudes are zero.
#[inline]
fn is_small(amp: Amp) -> bool
    ensures { OnTrue result (IsSmallAmplitude amp) }
{
    if amp.is_zero() {
        return true;
    }
    has_small_parts(amp)
}

/// Whether all amplitudes are small.
pub(crate) fn are_small(amps: &[Amp]) -> bool
    ensures { OnTrue result (All IsSmallAmplitude amps.now) }
{
    amps.iter().all(|amp| is_small(*amp))
}

/// A number over a power of `sqrt(2)`, in any form.
#[derive(Clone, Copy)]
struct Fraction {
    num: Numerator,
    power: u32,
}

/// What the entry makes of the amplitude, where neither is zero.
#[inline]
fn fraction_of(entry: Entry, amp: Amp) -> Option<Fraction>
    requires entry { IsEntry entry }
    requires small { IsSmallAmplitude amp }
    ensures { MatchOption result (term entry amp ≡ amplitude_zero) (λ f. IsFraction (term entry amp) f) }
{
    match entry {
        Entry::Zero => None,
        Entry::Unit { turn, roots } => {
            if amp.is_zero() {
                return None;
            }
            Some(Fraction {
                num: Numerator::of(amp).turned_by(turn),
                power: amp.power() + u32::from(roots),
            })
        }
    }
}

/// The sum over the greater power.
#[inline]
fn sum_of(left: Fraction, right: Fraction) -> Amp
    requires left { IsBelow 62 left.num }
    requires right { IsBelow 62 right.num }
    requires left_power { left.power ≤ 121 }
    requires right_power { right.power ≤ 121 }
    ensures { result ≡ sum (lowest_form left.power left.num) (lowest_form right.power right.num) }
{
    let power = left.power.max(right.power);
    let first = left.num.times_roots(power - left.power);
    let second = right.num.times_roots(power - right.power);
    first.sum(second).over_roots(power)
}

/// The sum of the two terms.
pub(crate) fn small_sum(first: Entry, second: Entry, left: Amp, right: Amp) -> Amp
    requires first { IsEntry first }
    requires second { IsEntry second }
    requires left { IsSmallAmplitude left }
    requires right { IsSmallAmplitude right }
    ensures { result ≡ sum (term first left) (term second right) }
{
    match (fraction_of(first, left), fraction_of(second, right)) {
        (Some(left), Some(right)) => sum_of(left, right),
        (Some(left), None) => left.num.over_roots(left.power),
        (None, Some(right)) => right.num.over_roots(right.power),
        (None, None) => Amp::zero(),
    }
}
