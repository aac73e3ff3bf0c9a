//! Numerators: the numbers `a + b*w + c*w^2 + d*w^3`, where `w` is the eighth root of unity.
ghost use Rattle.std.specs.Prelude.{◌≡◌, ◌↔◌, ◌+ℤ◌, ◌*ℤ◌, IsTrue, true, ◌∷◌, []};
ghost use Rattle.std.specs.Option.{SomeIff};
ghost use Rattle.aq_ring.specs.Quads.{
  quad,
  quad_zero,
  quad_one,
  quad_sum,
  quad_product,
  turned,
  turned_by,
  times_root,
  times_roots,
  is_divisible,
  over_root,
};
ghost use Rattle.aq_ring.specs.Gathered.{gathered};
ghost use Rattle.aq_ring.specs.Fractions.{IsInRange, FitsProduct, FitsTerms};
ghost use Rattle.aq_ring.specs.Small.{IsSmall, IsSmallQuad};

use crate::coefficient::Coefficient;
use std::marker::Model;

/// A numerator. A contract sees the four coefficients.
#[derive(Clone, Copy, Debug, PartialEq, Eq, Hash)]
pub(crate) struct Quad {
    a: Coefficient,
    b: Coefficient,
    c: Coefficient,
    d: Coefficient,
}

impl Model for Quad {
    ghost use Rattle.aq_ring.specs.Quads.{Quad};

    ghost Value = { Quad };

    ghost view = { λ q. record { a = q.a; b = q.b; c = q.c; d = q.d } };

    ghost inverse = { λ v. record { a = v.a; b = v.b; c = v.c; d = v.d } };
}

/// The number of these coefficients, if each is there.
fn gather(
    a: Option<Coefficient>,
    b: Option<Coefficient>,
    c: Option<Coefficient>,
    d: Option<Coefficient>,
) -> Option<Quad>
    ensures { result ≡ gathered a b c d }
{
    Some(Quad {
        a: a?,
        b: b?,
        c: c?,
        d: d?,
    })
}

impl Quad {
    /// None exactly where a coefficient is `i128`'s least value.
    pub(crate) fn new(a: i128, b: i128, c: i128, d: i128) -> Option<Quad>
        ensures { SomeIff result (IsInRange (quad a b c d)) (quad a b c d) }
    {
        gather(
            Coefficient::new(a),
            Coefficient::new(b),
            Coefficient::new(c),
            Coefficient::new(d),
        )
    }

    /// The coefficients `a`, `b`, `c`, `d`.
    pub(crate) fn coefficients(self) -> [i128; 4]
        ensures value { result ≡ self.a ∷ self.b ∷ self.c ∷ self.d ∷ [] }
        ensures range { IsInRange self }
    {
        [self.a.get(), self.b.get(), self.c.get(), self.d.get()]
    }

    /// 0.
    pub(crate) fn zero() -> Quad
        ensures { result ≡ quad_zero }
    {
        let zero = Coefficient::zero();
        Quad {
            a: zero,
            b: zero,
            c: zero,
            d: zero,
        }
    }

    /// 1.
    pub(crate) fn one() -> Quad
        ensures { result ≡ quad_one }
    {
        let zero = Coefficient::zero();
        Quad {
            a: Coefficient::one(),
            b: zero,
            c: zero,
            d: zero,
        }
    }

    /// Whether each coefficient is 0.
    pub(crate) fn is_zero(self) -> bool
        ensures { IsTrue result ↔ (self ≡ quad_zero) }
    {
        self == Quad::zero()
    }

    /// The number times `w`.
    #[tactic(auto, unfolding(crate::specs::Quads::turned))]
    pub(crate) fn turned(self) -> Quad
        ensures { result ≡ turned self }
    {
        Quad {
            a: self.d.negated(),
            b: self.a,
            c: self.b,
            d: self.c,
        }
    }

    /// Whether `sqrt(2)` divides the number.
    #[tactic(auto, unfolding(crate::specs::Quads::is_divisible))]
    pub(crate) fn is_divisible(self) -> bool
        ensures { result ≡ is_divisible self }
    {
        self.a.has_parity_of(self.c) && self.b.has_parity_of(self.d)
    }

    /// The number times `sqrt(2)`. None exactly where a coefficient is out of range.
    pub(crate) fn times_root(self) -> Option<Quad>
        ensures { SomeIff result (IsInRange (times_root self)) (times_root self) }
    {
        gather(
            self.b.subtract(self.d),
            self.a.add(self.c),
            self.b.add(self.d),
            self.c.subtract(self.a),
        )
    }

    /// The quotient by `sqrt(2)`, which divides the number.
    #[tactic(auto, using(crate::proofs::RootLaws::divisible_parts), unfolding(crate::specs::Quads::over_root))]
    pub(crate) fn over_root(self) -> Quad
        requires { is_divisible self ≡ true }
        ensures { result ≡ over_root self }
    {
        Quad {
            a: self.b.half_difference(self.d),
            b: self.a.half_sum(self.c),
            c: self.b.half_sum(self.d),
            d: self.c.half_difference(self.a),
        }
    }

    /// None exactly where a coefficient of the sum is out of range.
    pub(crate) fn sum(self, other: Quad) -> Option<Quad>
        ensures { SomeIff result (IsInRange (quad_sum self other)) (quad_sum self other) }
    {
        gather(
            self.a.add(other.a),
            self.b.add(other.b),
            self.c.add(other.c),
            self.d.add(other.d),
        )
    }

    /// None exactly where one of the sixteen products, or a sum on the way, is out of range.
    pub(crate) fn product(self, other: Quad) -> Option<Quad>
        ensures { SomeIff result (FitsProduct self other) (quad_product self other) }
    {
        if self.is_small() && other.is_small() {
            Some(self.product_of_small(other))
        } else {
            self.product_of_any(other)
        }
    }

    /// Whether each coefficient is small.
    fn is_small(self) -> bool
        ensures { IsTrue result → IsSmallQuad self }
    {
        self.a.is_small() && self.b.is_small() && self.c.is_small() && self.d.is_small()
    }

    /// The product of two numbers with small coefficients, which fits.
    fn product_of_small(self, other: Quad) -> Quad
        requires left { IsSmallQuad self }
        requires right { IsSmallQuad other }
        ensures fits { FitsProduct self other }
        ensures value { result ≡ quad_product self other }
    {
        let (minus_b, minus_c, minus_d) = (self.b.negated(), self.c.negated(), self.d.negated());
        Quad {
            a: small_row(
                self.a, other.a, minus_b, other.d, minus_c, other.c, minus_d, other.b,
            ),
            b: small_row(
                self.a, other.b, self.b, other.a, minus_c, other.d, minus_d, other.c,
            ),
            c: small_row(
                self.a, other.c, self.b, other.b, self.c, other.a, minus_d, other.d,
            ),
            d: small_row(
                self.a, other.d, self.b, other.c, self.c, other.b, self.d, other.a,
            ),
        }
    }

    /// The product, with a test at each step.
    fn product_of_any(self, other: Quad) -> Option<Quad>
        ensures { SomeIff result (FitsProduct self other) (quad_product self other) }
    {
        let (minus_b, minus_c, minus_d) = (self.b.negated(), self.c.negated(), self.d.negated());
        gather(
            row(
                self.a, other.a, minus_b, other.d, minus_c, other.c, minus_d, other.b,
            ),
            row(
                self.a, other.b, self.b, other.a, minus_c, other.d, minus_d, other.c,
            ),
            row(
                self.a, other.c, self.b, other.b, self.c, other.a, minus_d, other.d,
            ),
            row(
                self.a, other.d, self.b, other.c, self.c, other.b, self.d, other.a,
            ),
        )
    }

    /// The number times `sqrt(2)^n`. None exactly where a coefficient is out of range: no product with `sqrt(2)`
    /// makes the largest coefficient smaller, so the walk stops at the first that is.
    pub(crate) fn times_roots(self, n: u32) -> Option<Quad>
        ensures { SomeIff result (IsInRange (times_roots n self)) (times_roots n self) }
    {
        let _ = self.coefficients();
        if self.is_zero() {
            return Some(self);
        }
        let mut number = self;
        for _i in 0..n {
            number = number.times_root()?;
        }
        Some(number)
    }
}

/// The four products, added from left to right. None exactly where a product or a sum on the way is out of range.
fn row(
    p: Coefficient,
    s: Coefficient,
    q: Coefficient,
    t: Coefficient,
    r: Coefficient,
    u: Coefficient,
    v: Coefficient,
    w: Coefficient,
) -> Option<Coefficient>
    ensures { SomeIff result (FitsTerms (p *ℤ s) (q *ℤ t) (r *ℤ u) (v *ℤ w))
        (p *ℤ s +ℤ q *ℤ t +ℤ r *ℤ u +ℤ v *ℤ w) }
{
    let first = p.multiply(s)?;
    let second = q.multiply(t)?;
    let third = r.multiply(u)?;
    let fourth = v.multiply(w)?;
    first.add_terms(second, third, fourth)
}

/// The four products of small numbers, added.
fn small_row(
    p: Coefficient,
    s: Coefficient,
    q: Coefficient,
    t: Coefficient,
    r: Coefficient,
    u: Coefficient,
    v: Coefficient,
    w: Coefficient,
) -> Coefficient
    requires p { IsSmall p }
    requires s { IsSmall s }
    requires q { IsSmall q }
    requires t { IsSmall t }
    requires r { IsSmall r }
    requires u { IsSmall u }
    requires v { IsSmall v }
    requires w { IsSmall w }
    ensures { result ≡ p *ℤ s +ℤ q *ℤ t +ℤ r *ℤ u +ℤ v *ℤ w }
{
    Coefficient::add_small(
        p.multiply_small(s),
        q.multiply_small(t),
        r.multiply_small(u),
        v.multiply_small(w),
    )
}
