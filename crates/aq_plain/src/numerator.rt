//! Numerators with room: so far from the ends of `i128` that nothing is tested.
ghost use Rattle.std.specs.Prelude.{
  ◌≡◌,
  ◌==◌,
  ◌≤◌,
  ◌<◌,
  ◌^◌,
  ◌↔◌,
  IsTrue,
  pos,
  ◌+ℤ◌,
  ◌-ℤ◌,
  neg_ℤ,
  unsigned_abs,
};
ghost use Rattle.std.specs.Int.RustNames.{int_div};
ghost use Rattle.aq_ring.specs.Fractions.{quad_of};
ghost use Rattle.aq_ring.specs.Quads.{
  quad_zero,
  quad_sum,
  quad_neg,
  turned,
  turned_by,
  times_root,
  times_roots,
  is_divisible,
  over_root,
  parity,
};
ghost use Rattle.aq_ring.specs.Amplitudes.{lowest_form};
ghost use Rattle.aq_plain.specs.Small.{IsBelow};

use aq_ring::Amp;
use std::marker::Model;

/// A coefficient with room: a whole number far from the ends of `i128`. A contract sees the number.
#[derive(Clone, Copy)]
struct Whole {
    value: i128,
}

impl Model for Whole {
    ghost use Rattle.std.specs.Prelude.{ℤ};

    ghost Value = { ℤ };

    ghost view = { λ x. x.value };

    ghost inverse = { λ z. record { value = z } };
}

impl Whole {
    #[inline]
    fn of(value: i128) -> Whole
        ensures { result ≡ value }
    {
        Whole { value }
    }

    #[inline]
    fn get(self) -> i128
        ensures { result ≡ self }
    {
        self.value
    }

    #[inline]
    fn is_zero(self) -> bool
        ensures { IsTrue result ↔ (self ≡ pos 0) }
    {
        self.value == 0
    }

    #[inline]
    fn negated(self) -> Whole
        requires { unsigned_abs self < 2 ^ 126 }
        ensures { result ≡ neg_ℤ self }
    {
        Whole { value: -self.value }
    }

    #[inline]
    fn plus(self, other: Whole) -> Whole
        requires left { unsigned_abs self < 2 ^ 126 }
        requires right { unsigned_abs other < 2 ^ 126 }
        ensures { result ≡ self +ℤ other }
    {
        Whole {
            value: self.value + other.value,
        }
    }

    #[inline]
    fn minus(self, other: Whole) -> Whole
        requires left { unsigned_abs self < 2 ^ 126 }
        requires right { unsigned_abs other < 2 ^ 126 }
        ensures { result ≡ self -ℤ other }
    {
        Whole {
            value: self.value - other.value,
        }
    }

    /// Half the number, rounded towards zero.
    #[inline]
    fn half(self) -> Whole
        ensures { result ≡ int_div self (pos 2) }
    {
        Whole {
            value: self.value / 2,
        }
    }

    /// Whether both numbers are even, or both odd.
    #[inline]
    fn has_parity_of(self, other: Whole) -> bool
        ensures { result ≡ (parity self == parity other) }
    {
        (self.value % 2 == 0) == (other.value % 2 == 0)
    }
}

/// A numerator `a + b*w + c*w^2 + d*w^3`. A contract sees the four coefficients.
#[derive(Clone, Copy)]
pub(crate) struct Numerator {
    a: Whole,
    b: Whole,
    c: Whole,
    d: Whole,
}

impl Model for Numerator {
    ghost use Rattle.aq_ring.specs.Quads.{Quad};

    ghost Value = { Quad };

    ghost view = { λ q. record { a = q.a; b = q.b; c = q.c; d = q.d } };

    ghost inverse = { λ v. record { a = v.a; b = v.b; c = v.c; d = v.d } };
}

impl Numerator {
    /// The amplitude's.
    #[inline]
    pub(crate) fn of(amp: Amp) -> Numerator
        ensures { result ≡ amp.num }
    {
        let [a, b, c, d] = amp.coefs();
        Numerator {
            a: Whole::of(a),
            b: Whole::of(b),
            c: Whole::of(c),
            d: Whole::of(d),
        }
    }

    /// The coefficients `a`, `b`, `c`, `d`.
    #[inline]
    fn coefficients(self) -> [i128; 4]
        ensures { quad_of result ≡ self }
    {
        [self.a.get(), self.b.get(), self.c.get(), self.d.get()]
    }

    #[inline]
    fn is_zero(self) -> bool
        ensures { IsTrue result ↔ (self ≡ quad_zero) }
    {
        self.a.is_zero() && self.b.is_zero() && self.c.is_zero() && self.d.is_zero()
    }

    /// The number times `w`.
    #[inline]
    #[tactic(auto, unfolding(aq_ring::specs::Quads::turned))]
    fn turned(self) -> Numerator
        requires { IsBelow 126 self }
        ensures { result ≡ turned self }
    {
        Numerator {
            a: self.d.negated(),
            b: self.a,
            c: self.b,
            d: self.c,
        }
    }

    /// The opposite number.
    #[inline]
    #[tactic(auto, unfolding(aq_ring::specs::Quads::quad_neg))]
    fn negated(self) -> Numerator
        requires { IsBelow 126 self }
        ensures { result ≡ quad_neg self }
    {
        Numerator {
            a: self.a.negated(),
            b: self.b.negated(),
            c: self.c.negated(),
            d: self.d.negated(),
        }
    }

    /// The number times `w^turn`, turned one by one.
    #[inline]
    fn turned_slowly(self, turn: u8) -> Numerator
        requires { IsBelow 126 self }
        ensures { result ≡ turned_by turn self }
    {
        let mut number = self;
        for i in 0..turn {
            number = number.turned();
        }
        number
    }

    /// The number times `w^turn`.
    #[inline]
    pub(crate) fn turned_by(self, turn: u8) -> Numerator
        requires { IsBelow 126 self }
        ensures { result ≡ turned_by turn self }
    {
        if turn >= 4 {
            self.turned_slowly(turn - 4).negated()
        } else {
            self.turned_slowly(turn)
        }
    }

    /// The number times `sqrt(2)`.
    #[inline]
    #[tactic(auto, unfolding(aq_ring::specs::Quads::times_root))]
    fn times_root(self) -> Numerator
        requires { IsBelow 126 self }
        ensures { result ≡ times_root self }
    {
        Numerator {
            a: self.b.minus(self.d),
            b: self.a.plus(self.c),
            c: self.b.plus(self.d),
            d: self.c.minus(self.a),
        }
    }

    /// The number times `sqrt(2)^n`.
    #[inline]
    pub(crate) fn times_roots(self, n: u32) -> Numerator
        requires small { IsBelow 62 self }
        requires few { n ≤ 121 }
        ensures { result ≡ times_roots n self }
    {
        let mut number = self;
        for i in 0..n {
            number = number.times_root();
        }
        number
    }

    #[inline]
    #[tactic(auto, unfolding(aq_ring::specs::Quads::quad_sum))]
    pub(crate) fn sum(self, other: Numerator) -> Numerator
        requires left { IsBelow 126 self }
        requires right { IsBelow 126 other }
        ensures { result ≡ quad_sum self other }
    {
        Numerator {
            a: self.a.plus(other.a),
            b: self.b.plus(other.b),
            c: self.c.plus(other.c),
            d: self.d.plus(other.d),
        }
    }

    /// Whether `sqrt(2)` divides the number.
    #[inline]
    #[tactic(auto, unfolding(aq_ring::specs::Quads::is_divisible))]
    fn is_divisible(self) -> bool
        ensures { result ≡ is_divisible self }
    {
        self.a.has_parity_of(self.c) && self.b.has_parity_of(self.d)
    }

    /// The quotient by `sqrt(2)`, which divides the number.
    #[inline]
    #[tactic(auto, unfolding(aq_ring::specs::Quads::over_root))]
    fn over_root(self) -> Numerator
        requires { IsBelow 126 self }
        ensures { result ≡ over_root self }
    {
        Numerator {
            a: self.b.minus(self.d).half(),
            b: self.a.plus(self.c).half(),
            c: self.b.plus(self.d).half(),
            d: self.c.minus(self.a).half(),
        }
    }

    /// The amplitude of this numerator over `sqrt(2)^power`.
    pub(crate) fn over_roots(self, power: u32) -> Amp
        requires { IsBelow 126 self }
        ensures { result ≡ lowest_form power self }
    {
        if self.is_zero() {
            return Amp::zero();
        }
        let mut number = self;
        let mut power = power;
        while power > 0 && number.is_divisible() {
            number = number.over_root();
            power -= 1;
        }
        match Amp::from_parts(number.coefficients(), power) {
            Some(amp) => amp,
            None => unreachable!(),
        }
    }
}
