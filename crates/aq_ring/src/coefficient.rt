//! Coefficients: whole numbers from `-(2^127 - 1)` to `2^127 - 1`, with arithmetic that says when it leaves them.
ghost use Rattle.std.specs.Prelude.{◌≡◌, ◌==◌, pos, ◌*ℤ◌, ◌+ℤ◌, ◌-ℤ◌, neg_ℤ, IsTrue};
ghost use Rattle.std.specs.Option.{SomeIff};
ghost use Rattle.std.specs.Int.RustNames.{int_div};
ghost use Rattle.aq_ring.specs.Quads.{parity};
ghost use Rattle.aq_ring.specs.Fractions.{InRange, FitsTerms};
ghost use Rattle.aq_ring.specs.Small.{IsSmall, IsSmallProduct};

use std::marker::Model;

/// `2^62`: below it in absolute value a number is small.
const SMALL: i128 = 0x4000_0000_0000_0000;

/// One coefficient. A contract sees the number.
#[derive(Clone, Copy, Debug, PartialEq, Eq, Hash)]
pub(crate) struct Coefficient {
    value: i128,
}

impl Model for Coefficient {
    ghost use Rattle.std.specs.Prelude.{ℤ};
    ghost use Rattle.aq_ring.specs.Fractions.{InRange};

    ghost Value = { ℤ };

    ghost view = { λ x. x.value };

    ghost invariant = { λ x. InRange x.value };

    ghost inverse = { λ z. record { value = z } };
}

impl Coefficient {
    /// None exactly where the number is the type's least.
    pub(crate) fn new(value: i128) -> Option<Coefficient>
        ensures { SomeIff result (InRange value) value }
    {
        if value == i128::MIN {
            None
        } else {
            Some(Coefficient { value })
        }
    }

    /// The number.
    pub(crate) fn get(self) -> i128
        ensures value { result ≡ self }
        ensures range { InRange self }
    {
        self.value
    }

    /// 0.
    pub(crate) fn zero() -> Coefficient
        ensures { result ≡ pos 0 }
    {
        Coefficient { value: 0 }
    }

    /// 1.
    pub(crate) fn one() -> Coefficient
        ensures { result ≡ pos 1 }
    {
        Coefficient { value: 1 }
    }

    /// The opposite, which is always in range.
    pub(crate) fn negated(self) -> Coefficient
        ensures { result ≡ neg_ℤ self }
    {
        Coefficient { value: -self.value }
    }

    /// None exactly where the sum is out of range.
    pub(crate) fn add(self, other: Coefficient) -> Option<Coefficient>
        ensures { SomeIff result (InRange (self +ℤ other)) (self +ℤ other) }
    {
        Coefficient::new(self.value.checked_add(other.value)?)
    }

    /// None exactly where the difference is out of range.
    pub(crate) fn subtract(self, other: Coefficient) -> Option<Coefficient>
        ensures { SomeIff result (InRange (self -ℤ other)) (self -ℤ other) }
    {
        Coefficient::new(self.value.checked_sub(other.value)?)
    }

    /// None exactly where the product is out of range.
    pub(crate) fn multiply(self, other: Coefficient) -> Option<Coefficient>
        ensures { SomeIff result (InRange (self *ℤ other)) (self *ℤ other) }
    {
        Coefficient::new(self.value.checked_mul(other.value)?)
    }

    /// Whether the number is so small that it may be multiplied with no test.
    pub(crate) fn is_small(self) -> bool
        ensures { IsTrue result → IsSmall self }
    {
        -SMALL < self.value && self.value < SMALL
    }

    /// The number in 64 bits, which the processor multiplies at once.
    fn narrow(self) -> i64
        requires { IsSmall self }
        ensures { result ≡ self }
    {
        self.value as i64
    }

    /// The product of two small numbers.
    pub(crate) fn multiply_small(self, other: Coefficient) -> i128
        requires left { IsSmall self }
        requires right { IsSmall other }
        ensures value { result ≡ self *ℤ other }
        ensures range { IsSmallProduct result }
    {
        self.narrow() as i128 * other.narrow() as i128
    }

    /// The sum of four products of small numbers.
    pub(crate) fn add_small(first: i128, second: i128, third: i128, fourth: i128) -> Coefficient
        requires first { IsSmallProduct first }
        requires second { IsSmallProduct second }
        requires third { IsSmallProduct third }
        requires fourth { IsSmallProduct fourth }
        ensures { result ≡ first +ℤ second +ℤ third +ℤ fourth }
    {
        Coefficient {
            value: first + second + third + fourth,
        }
    }

    /// Whether both numbers are even, or both odd.
    pub(crate) fn has_parity_of(self, other: Coefficient) -> bool
        ensures { result ≡ (parity self == parity other) }
    {
        (self.value % 2 == 0) == (other.value % 2 == 0)
    }

    /// Half the sum, which may itself be out of range.
    pub(crate) fn half_sum(self, other: Coefficient) -> Coefficient
        requires { parity self ≡ parity other }
        ensures { result ≡ int_div (self +ℤ other) (pos 2) }
    {
        let halves = self.value / 2 + other.value / 2;
        let rests = self.value % 2 + other.value % 2;
        Coefficient {
            value: halves + rests / 2,
        }
    }

    /// Half the difference, which may itself be out of range.
    pub(crate) fn half_difference(self, other: Coefficient) -> Coefficient
        requires { parity self ≡ parity other }
        ensures { result ≡ int_div (self -ℤ other) (pos 2) }
    {
        self.half_sum(other.negated())
    }

    /// The four terms added from left to right. None exactly where a sum on the way is out of range.
    #[inline(always)]
    pub(crate) fn add_terms(
        self,
        second: Coefficient,
        third: Coefficient,
        fourth: Coefficient,
    ) -> Option<Coefficient>
        ensures { SomeIff result (FitsTerms self second third fourth) (self +ℤ second +ℤ third +ℤ fourth) }
    {
        let _ = (self.get(), second.get(), third.get(), fourth.get());
        self.add(second)?.add(third)?.add(fourth)
    }
}
