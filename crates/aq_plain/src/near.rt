//! Amplitudes that aren't small, but whose powers are near each other: a gate fits on them too.
ghost use Rattle.std.specs.Prelude.{◌≡◌, ◌<◌, ◌^◌, All, unsigned_abs};
ghost use Rattle.std.specs.Bool.{OnTrue};
ghost use Rattle.aq_plain.specs.Small.{AreNear, IsNear};

use aq_ring::Amp;

/// `2^100`.
const LARGE: i128 = 0x10_0000_0000_0000_0000_0000_0000;

#[inline]
fn is_below_large(number: i128) -> bool
    ensures { OnTrue result (unsigned_abs number < 2 ^ 100) }
{
    -LARGE < number && number < LARGE
}

#[inline]
fn has_near_parts(amp: Amp, low: u32) -> bool
    ensures { OnTrue result (IsNear low amp) }
{
    let [a, b, c, d] = amp.coefs();
    low <= amp.power()
        && amp.power() - low <= 40
        && is_below_large(a)
        && is_below_large(b)
        && is_below_large(c)
        && is_below_large(d)
}

#[inline]
fn is_near(amp: Amp, low: u32) -> bool
    ensures { OnTrue result (IsNear low amp) }
{
    if amp.is_zero() {
        return true;
    }
    has_near_parts(amp, low)
}

/// The power of the first amplitude that isn't zero. It is where others are looked for, and any number would do.
fn first_power(amps: &[Amp]) -> u32 {
    for amp in amps {
        if !amp.is_zero() {
            return amp.power();
        }
    }
    0
}

/// Whether the coefficients are below `2^100`, and the powers near that of the first.
pub(crate) fn are_near(amps: &[Amp]) -> bool
    ensures { OnTrue result (AreNear amps.now) }
{
    let low = first_power(amps).saturating_sub(20);
    low < 0x8000_0000 && amps.iter().all(|amp| is_near(*amp, low))
}
