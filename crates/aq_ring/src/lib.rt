//! Exact amplitudes of quantum states: the numbers `(a + b*w + c*w^2 + d*w^3) / sqrt(2)^k`, where `w` is the eighth
//! root of unity `exp(i*pi/4)`. A contract sees the number with unbounded integers, and says when it fits the
//! machine's.
#![tactic(auto)]

ghost use Rattle.std.specs.Prelude.{◌≡◌, ◌<◌, ◌+◌, ◌^◌, ◌↔◌, IsTrue, ◌∷◌, []};
ghost use Rattle.std.specs.Option.{SomeIff};
ghost use Rattle.aq_ring.specs.Fractions.{IsInRange, quad_of, IsLowest};
ghost use Rattle.aq_ring.specs.Amplitudes.{
  lowest_form,
  amplitude_zero,
  amplitude_one,
  sum,
  product,
  turn,
  quotient,
  IsSumInRange,
  FitsSum,
  FitsAmplitudeProduct,
  FitsQuotient,
};

mod coefficient;
pub mod laws;
mod quad;
#[cfg(test)]
mod tests;

use quad::Quad;
use std::marker::Model;

/// An exact amplitude, always in lowest form, so equal numbers are equal values. A contract sees the numerator and the
/// power of `sqrt(2)`. A coefficient lies in `-(2^127 - 1) ..= 2^127 - 1` and the power in `0 ..= 2^32 - 1`.
#[derive(Clone, Copy, Debug, PartialEq, Eq, Hash)]
pub struct Amp {
    num: Quad,
    power: u32,
    ghost lowest: { IsLowest num power },
}

impl Model for Amp {
    ghost use Rattle.aq_ring.specs.Fractions.{Amplitude};

    ghost Value = { Amplitude };

    ghost view = { λ p. record { num = p.num; power = p.power; lowest = p.lowest } };

    ghost inverse = { λ p. record { num = p.num; power = p.power; lowest = p.lowest } };
}

/// The lowest form of `num / sqrt(2)^power`.
fn lowest(num: Quad, power: u32) -> Amp
    ensures { result ≡ lowest_form power num }
{
    if num.is_zero() {
        return Amp::zero();
    }
    let mut num = num;
    let mut power = power;
    while power > 0 && num.is_divisible() {
        num = num.over_root();
        power -= 1;
    }
    Amp { num, power }
}

impl Amp {
    /// The number `(a + b*w + c*w^2 + d*w^3) / sqrt(2)^power`, in lowest form. None exactly where a
    /// coefficient is `i128`'s least value.
    pub fn from_parts(coefs: [i128; 4], power: u32) -> Option<Amp>
        ensures { SomeIff result (IsInRange (quad_of coefs)) (lowest_form power (quad_of coefs)) }
    {
        let [a, b, c, d] = coefs;
        Some(lowest(Quad::new(a, b, c, d)?, power))
    }

    /// 0, which is `0 / sqrt(2)^0`.
    pub fn zero() -> Amp
        ensures { result ≡ amplitude_zero }
    {
        Amp {
            num: Quad::zero(),
            power: 0,
        }
    }

    /// 1.
    pub fn one() -> Amp
        ensures { result ≡ amplitude_one }
    {
        Amp {
            num: Quad::one(),
            power: 0,
        }
    }

    /// The numerator's coefficients of 1, `w`, `w^2` and `w^3`, in this order.
    pub fn coefs(self) -> [i128; 4]
        ensures value { result ≡ self.num.a ∷ self.num.b ∷ self.num.c ∷ self.num.d ∷ [] }
        ensures range { IsInRange self.num }
    {
        self.num.coefficients()
    }

    /// The power of `sqrt(2)` in the denominator.
    pub fn power(self) -> u32
        ensures { result ≡ self.power }
    {
        self.power
    }

    /// Whether the number is 0.
    pub fn is_zero(self) -> bool
        ensures { IsTrue result ↔ (self ≡ amplitude_zero) }
    {
        self.num.is_zero()
    }

    /// The number times `w^j`, for a `j` below 8. It always fits.
    pub fn turn(self, j: u8) -> Amp
        requires { j < 8 }
        ensures { result ≡ turn j self }
    {
        let mut num = self.num;
        for i in 0..j {
            num = num.turned();
        }
        Amp {
            num,
            power: self.power,
        }
    }

    /// The sum. None exactly where it doesn't fit: where neither operand is zero, and a coefficient of an operand over
    /// the greater of the two powers, or of the sum over that power, is out of range.
    pub fn sum(self, other: Amp) -> Option<Amp>
        ensures { SomeIff result (FitsSum self other) (sum self other) }
    {
        if self.is_zero() {
            return Some(other);
        }
        if other.is_zero() {
            return Some(self);
        }
        self.sum_of_nonzero(other)
    }

    /// None exactly where the sum over the greater power is out of range.
    fn sum_of_nonzero(self, other: Amp) -> Option<Amp>
        ensures { SomeIff result (IsSumInRange self other) (sum self other) }
    {
        let power = self.power.max(other.power);
        let left = self.num.times_roots(power - self.power)?;
        let right = other.num.times_roots(power - other.power)?;
        Some(lowest(left.sum(right)?, power))
    }

    /// The product of `self`, the left operand, with the right one. None exactly where it doesn't fit: where one of the
    /// sixteen products of coefficients is out of range, or one of their sums on the way from left to right, or where
    /// the powers add up to `2^32` or more.
    pub fn product(self, other: Amp) -> Option<Amp>
        ensures { SomeIff result (FitsAmplitudeProduct self other) (product self other) }
    {
        let power = self.power.checked_add(other.power)?;
        Some(lowest(self.num.product(other.num)?, power))
    }

    /// The quotient by `sqrt(2)`. None exactly where its power is out of range.
    pub fn over_root(self) -> Option<Amp>
        ensures { SomeIff result (FitsQuotient self) (quotient self) }
    {
        Some(lowest(self.num, self.power.checked_add(1)?))
    }
}
